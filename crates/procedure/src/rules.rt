//! The rules of the form that look at a node and what it names.
ghost use Rattle.std.specs.Prelude.{◌≡◌, Some};
ghost use Rattle.procedure.specs.RuleText.{rule_word, rule_sentence, rule_text};
ghost use Rattle.procedure.specs.Rules.{rooted, name_holds, number_holds, values_hold, fits, part_holds, parts_fit, sorted, in_order, part_in_order, ordered, named_once, broken_by};

use crate::kind::{DeclarationKind, Kind};
use crate::layout::{Layout, Number, Role};
use crate::limits::LAST_NAME;
use crate::naming::Naming;
use crate::node::Node;
use crate::operator::{BinaryOperator, UnaryOperator};
use crate::table::part_of;
use std::fmt;

/// A rule of the form.
#[derive(Clone, Copy, PartialEq, Eq, Debug)]
pub enum Rule {
    /// Node 0 is a procedure, and no other node is.
    Rooted,
    /// The kind is listed.
    Listed,
    /// Each field has a value of its sort.
    Sorted,
    /// Operands have smaller numbers than their operator; all other parts, and next, have greater numbers than the node
    /// naming them.
    Ordered,
    /// Every node but 0 is named exactly once.
    NamedOnce,
    /// No expression is more than 32 levels deep, and statements nest to 32 levels.
    Shallow,
}

impl Rule {
    /// The rule's name.
    pub fn word(self) -> &'static str
        ensures worded { result.now ≡ rule_word self }
    {
        match self {
            Rule::Rooted => "rooted",
            Rule::Listed => "listed",
            Rule::Sorted => "sorted",
            Rule::Ordered => "ordered",
            Rule::NamedOnce => "named once",
            Rule::Shallow => "shallow",
        }
    }

    /// What the rule asks, in a sentence.
    fn sentence(self) -> &'static str
        ensures explained { result.now ≡ rule_sentence self }
    {
        match self {
            Rule::Rooted => "node 0 is a procedure, and no other node is",
            Rule::Listed => "the kind of a node is one of the listed kinds",
            Rule::Sorted =>
                "each field has a value of its sort, and is 0 where its kind does not use it",
            Rule::Ordered =>
                "an operand has a smaller number than its operator, and all else that a node names a greater one",
            Rule::NamedOnce => "every node but 0 is named exactly once",
            Rule::Shallow =>
                "an expression is at most 32 levels deep, and statements nest to 32 levels",
        }
    }
}

/// As `ordered: ` and then the sentence.
impl fmt::Display for Rule {
    ghost output = { λ x. Some (rule_text x) };

    fn fmt<W: fmt::Write>(&self, f: &mut fmt::Formatter<W>) -> fmt::Result {
        write!(f, "{}: {}", self.word(), self.sentence())
    }
}

/// Whether a field lo or hi has a value of its sort where it is used, and 0 elsewhere.
fn holds_number(number: Option<Number>, value: i32) -> bool
    ensures sorted { result ≡ number_holds number value }
{
    match number {
        None => value == 0,
        Some(Number::Mark) => (1..=i32::from(LAST_NAME)).contains(&value),
        Some(Number::Numeral) => 0 <= value,
        Some(Number::Bound) => true,
        Some(Number::UnaryOperator) => UnaryOperator::try_from(value).is_ok(),
        Some(Number::BinaryOperator) => BinaryOperator::try_from(value).is_ok(),
    }
}

/// Whether a field name holds a name where it is used, and 0 elsewhere.
fn holds_name(used: bool, name: u16) -> bool
    ensures sorted { result ≡ name_holds used name }
{
    if used {
        (1..=LAST_NAME).contains(&name)
    } else {
        name == 0
    }
}

impl Role {
    /// Whether a reference names a node of its sort, or nothing where it may.
    fn fits(self, nodes: &[Node], target: u16) -> bool
        ensures sorted { result ≡ fits nodes.now self target }
    {
        let kind = part_of(nodes, target);
        match self {
            Role::Operand | Role::Root => matches!(kind, Some(Kind::Expression(_))),
            Role::Declarations => target == 0 || matches!(kind, Some(Kind::Declaration(_))),
            Role::Locals => {
                target == 0
                    || matches!(
                        kind,
                        Some(Kind::Declaration(
                            DeclarationKind::Variable | DeclarationKind::Constant
                        ))
                    )
            }
            Role::Statements => matches!(kind, Some(Kind::Statement(_))),
            Role::Alternative | Role::Following => {
                target == 0 || matches!(kind, Some(Kind::Statement(_)))
            }
        }
    }

    /// Whether the number of what node `n` names lies on the right side of it.
    fn is_in_order(self, n: usize, target: u16) -> bool
        ensures ordered { result ≡ in_order n self target }
    {
        let target = target as usize;
        match self {
            Role::Operand => target < n,
            Role::Root | Role::Statements => n < target,
            Role::Declarations | Role::Locals | Role::Alternative | Role::Following => {
                target == 0 || n < target
            }
        }
    }
}

/// Whether a reference names a node of its sort where it is used, and is 0 elsewhere.
fn holds_part(nodes: &[Node], role: Option<Role>, target: u16) -> bool
    ensures sorted { result ≡ part_holds nodes.now role target }
{
    role.map_or(target == 0, |role| role.fits(nodes, target))
}

/// Whether a reference, where it is used, names a node on the right side of node `n`.
fn is_part_in_order(n: usize, role: Option<Role>, target: u16) -> bool
    ensures ordered { result ≡ part_in_order n role target }
{
    role.is_none_or(|role| role.is_in_order(n, target))
}

/// Whether node 0 is a procedure, and another is none.
fn is_rooted(n: usize, node: &Node) -> bool
    ensures holds { result ≡ rooted n node.now }
{
    let is_procedure = node.listed_kind() == Some(Kind::Procedure);
    if n == 0 { is_procedure } else { !is_procedure }
}

/// Whether the fields that are no references have values of their sorts.
fn are_values_sorted(layout: Layout, node: &Node) -> bool
    ensures holds { result ≡ values_hold layout node.now }
{
    holds_name(layout.name, node.name)
        && holds_number(layout.lo, node.lo)
        && holds_number(layout.hi, node.hi)
}

/// Whether the references have values of their sorts.
fn are_parts_sorted(nodes: &[Node], layout: Layout, node: &Node) -> bool
    ensures holds { result ≡ parts_fit nodes.now layout node.now }
{
    holds_part(nodes, layout.a, node.a)
        && holds_part(nodes, layout.b, node.b)
        && holds_part(nodes, layout.c, node.c)
        && holds_part(nodes, layout.next, node.next)
}

/// Whether each field has a value of its sort.
fn is_sorted(nodes: &[Node], node: &Node) -> bool
    ensures holds { result ≡ sorted nodes.now node.now }
{
    let layout = Layout::of(node.listed_kind());
    are_values_sorted(layout, node) && are_parts_sorted(nodes, layout, node)
}

/// Whether what the node names lies on the right side of it.
fn is_ordered(n: usize, node: &Node) -> bool
    ensures holds { result ≡ ordered n node.now }
{
    let layout = Layout::of(node.listed_kind());
    is_part_in_order(n, layout.a, node.a)
        && is_part_in_order(n, layout.b, node.b)
        && is_part_in_order(n, layout.c, node.c)
        && is_part_in_order(n, layout.next, node.next)
}

/// Whether the node is named exactly once, or is node 0.
fn is_named_once(n: usize, naming: Naming) -> bool
    ensures holds { result ≡ named_once n naming }
{
    n == 0 || matches!(naming, Naming::Once(..))
}

/// The first rule that node `n`, so named, breaks.
pub fn broken_rule(nodes: &[Node], n: usize, node: &Node, naming: Naming) -> Option<Rule>
    ensures first { result ≡ broken_by nodes.now n node.now naming }
{
    if !is_rooted(n, node) {
        Some(Rule::Rooted)
    } else if node.listed_kind().is_none() {
        Some(Rule::Listed)
    } else if !is_sorted(nodes, node) {
        Some(Rule::Sorted)
    } else if !is_ordered(n, node) {
        Some(Rule::Ordered)
    } else if !is_named_once(n, naming) {
        Some(Rule::NamedOnce)
    } else {
        None
    }
}
