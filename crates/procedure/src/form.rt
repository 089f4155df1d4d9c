//! The form test.
ghost use Rattle.std.specs.Prelude.{◌≡◌, ℕ, ◌<◌, length, MatchOption, MatchResult, slice_index};
ghost use Rattle.std.specs.Option.{option_or};
ghost use Rattle.procedure.specs.Form.{fault_at, lowest, deep_rule, too_deep, is_bulky, form_fault, tested, refusal_of};
ghost use Rattle.procedure.specs.Formed.{Formed, Deserved};
ghost use Rattle.procedure.specs.Level.{level};
ghost use Rattle.procedure.specs.Rules.{broken_rule};

use crate::limits::{MAX_LEVELS, MAX_NODES};
use crate::named_table::NamedTable;
use crate::node::Node;
use crate::refusal::{Reason, Refusal};
use crate::rules::{Rule, broken_rule};

/// What a table lacks of the form of a procedure.
#[derive(Clone, Copy, PartialEq, Eq, Debug)]
pub enum FormFault {
    /// It has no node, or more than 1,024.
    Bulky,
    /// The rule is broken at the node, and none is broken at a lower one.
    Broken(Rule, u16),
}

impl From<FormFault> for Refusal {
    ghost from_gives = { λ fault r. r ≡ refusal_of fault };

    fn from(fault: FormFault) -> Refusal {
        match fault {
            FormFault::Bulky => Reason::Bulky.at(0),
            FormFault::Broken(_, node) => Reason::Misshapen.at(node),
        }
    }
}

/// The fault found so far, or else that of node `n`, which comes after.
fn gather(found: Option<FormFault>, n: usize, rule: Option<Rule>) -> Option<FormFault>
    requires few { n < 1024 }
    ensures lower { result ≡ option_or found (fault_at n rule) }
{
    found.or(rule.map(|rule| FormFault::Broken(rule, n as u16)))
}

/// The rule that a node on this level breaks if it lies too deep.
fn deep_rule(level: u16) -> Option<Rule>
    ensures told { result ≡ deep_rule level }
{
    (level > MAX_LEVELS).then_some(Rule::Shallow)
}

impl NamedTable<'_> {
    /// The lowest node that breaks a rule on itself and what it names.
    fn lowest_broken(&self) -> Option<FormFault>
        ensures found { result ≡ lowest (broken_rule self.now.nodes.now) (length self.now.nodes.now) }
    {
        let mut found = None;
        for (n, (node, naming)) in self.nodes.iter().zip(&self.namings).enumerate() {
            found = gather(found, n, broken_rule(self.nodes, n, node, *naming));
        }
        found
    }

    /// The lowest node that lies too deep. The loop above goes over nodes, and this one over their levels.
    fn lowest_too_deep(&self, levels: &[u16; MAX_NODES]) -> Option<FormFault>
        requires measured { (n : ℕ) → n < length self.now.nodes.now → slice_index levels.now n ≡ level self.now.nodes.now n }
        ensures found { result ≡ lowest (too_deep self.now.nodes.now) (length self.now.nodes.now) }
    {
        let mut found = None;
        for (n, level) in levels[..self.nodes.len()].iter().enumerate() {
            found = gather(found, n, deep_rule(*level));
        }
        found
    }
}

/// Whether a table has no node, or more than 1,024.
pub fn is_bulky(nodes: &[Node]) -> bool
    ensures told { result ≡ is_bulky nodes.now }
{
    nodes.is_empty() || nodes.len() > MAX_NODES
}

/// What a table lacks of the form of a procedure: the rule that its lowest broken node breaks.
pub fn find_form_fault(nodes: &[Node]) -> Option<FormFault>
    ensures fault { result ≡ form_fault nodes.now }
    ensures meaning { MatchOption result (Formed nodes.now) (λ fault. Deserved nodes.now (refusal_of fault)) }
{
    if is_bulky(nodes) {
        return Some(FormFault::Bulky);
    }
    let table = NamedTable::of(nodes);
    if let Some(fault) = table.lowest_broken() {
        return Some(fault);
    }
    table.lowest_too_deep(&table.levels())
}

/// The form test: passed, or refused as bulky, or as misshapen at the lowest broken node.
pub fn test_form(nodes: &[Node]) -> Result<(), Refusal>
    ensures verdict { result ≡ tested nodes.now }
    ensures meaning { MatchResult result (λ _. Formed nodes.now) (Deserved nodes.now) }
{
    // The fault that is found is the error, so neither `?` nor `ok_or` fits.
    match find_form_fault(nodes) {
        None => Ok(()),
        Some(fault) => Err(fault.into()),
    }
}
