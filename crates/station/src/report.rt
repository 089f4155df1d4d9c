//! What `station form` and `station check` tell of a table.
ghost use Rattle.std.specs.Prelude.{◌≡◌, Some, MatchResult};
ghost use Rattle.procedure.specs.Formed.{Formed as HasForm, Deserved};
ghost use Rattle.station.specs.Report.{form_report, refused_for, formed_text, rule_line, check_report, passed_text, kind_line, refused_text};

use checker::{Declaration, Sheet, check};
use procedure::limits::MAX_OPEN;
use procedure::table::node_at;
use procedure::{FormFault, Kind, Node, Refusal, Rule, find_form_fault};
use std::fmt;

/// A table was refused: the refusal, and what a line beneath it tells.
#[derive(Clone, Copy, PartialEq, Eq, Debug)]
pub struct Refused<D> {
    pub refusal: Refusal,
    pub detail: Option<D>,
}

/// As `refused: ` and the refusal, and then the line beneath it.
impl<D: fmt::Display> fmt::Display for Refused<D> {
    ghost output = { refused_text D.output };

    fn fmt<W: fmt::Write>(&self, f: &mut fmt::Formatter<W>) -> fmt::Result {
        let refusal = self.refusal;
        match &self.detail {
            None => write!(f, "refused: {refusal}"),
            Some(detail) => write!(f, "refused: {refusal}\n{detail}"),
        }
    }
}

/// A table that has the form of a procedure: how many nodes it has.
#[derive(Clone, Copy, PartialEq, Eq, Debug)]
pub struct Formed {
    pub nodes: usize,
}

/// As `formed: 26 nodes`.
impl fmt::Display for Formed {
    ghost output = { λ x. Some (formed_text x) };

    fn fmt<W: fmt::Write>(&self, f: &mut fmt::Formatter<W>) -> fmt::Result {
        let nodes = self.nodes;
        write!(f, "formed: {nodes} nodes")
    }
}

/// The rule that a table breaks.
#[derive(Clone, Copy, PartialEq, Eq, Debug)]
pub struct BrokenRule {
    pub rule: Rule,
}

/// As `rule ordered: ` and then the sentence.
impl fmt::Display for BrokenRule {
    ghost output = { λ x. Some (rule_line x) };

    fn fmt<W: fmt::Write>(&self, f: &mut fmt::Formatter<W>) -> fmt::Result {
        let rule = self.rule;
        write!(f, "rule {rule}")
    }
}

/// What is told of a fault of the form: a table with too many nodes, or none, breaks no rule.
impl From<FormFault> for Refused<BrokenRule> {
    ghost from_gives = { λ fault r. r ≡ refused_for fault };

    fn from(fault: FormFault) -> Refused<BrokenRule> {
        let detail = match fault {
            FormFault::Bulky => None,
            FormFault::Broken(rule, _) => Some(BrokenRule { rule }),
        };
        Refused {
            refusal: fault.into(),
            detail,
        }
    }
}

/// The form test, and the rule that is broken.
pub fn report_form(nodes: &[Node]) -> Result<Formed, Refused<BrokenRule>>
    ensures reported { result ≡ form_report nodes.now }
    ensures meaning { MatchResult result (λ _. HasForm nodes.now) (λ refused. Deserved nodes.now refused.refusal) }
{
    // What was searched for is the error here.
    match find_form_fault(nodes) {
        None => Ok(Formed { nodes: nodes.len() }),
        Some(fault) => Err(fault.into()),
    }
}

/// A procedure that passes the check: what it needs.
#[derive(Clone, Copy, PartialEq, Eq, Debug)]
pub struct Passed {
    pub sheet: Sheet,
}

/// As `passed: ceiling 35, rows 9, frames 3`.
impl fmt::Display for Passed {
    ghost output = { λ x. Some (passed_text x) };

    fn fmt<W: fmt::Write>(&self, f: &mut fmt::Formatter<W>) -> fmt::Result {
        let sheet = self.sheet;
        write!(f, "passed: {sheet}")
    }
}

/// The kind of a node.
#[derive(Clone, Copy, PartialEq, Eq, Debug)]
pub struct NodeKind {
    pub node: u16,
    pub kind: Kind,
}

/// As `node 7: PUT`.
impl fmt::Display for NodeKind {
    ghost output = { λ x. Some (kind_line x) };

    fn fmt<W: fmt::Write>(&self, f: &mut fmt::Formatter<W>) -> fmt::Result {
        let node = self.node;
        let kind = self.kind;
        write!(f, "node {node}: {kind}")
    }
}

/// The check, and the kind of the node that is refused; of a node of no listed kind, no kind is told.
pub fn report_check(nodes: &[Node]) -> Result<Passed, Refused<NodeKind>>
    ensures reported { result ≡ check_report nodes.now }
{
    let mut places = [Declaration::BLANK; MAX_OPEN];
    match check(nodes, &mut places) {
        Ok(sheet) => Ok(Passed { sheet }),
        Err(refusal) => {
            let node = refusal.node;
            let kind = node_at(nodes, node).listed_kind();
            let detail = kind.map(|kind| NodeKind { node, kind });
            Err(Refused { refusal, detail })
        }
    }
}
