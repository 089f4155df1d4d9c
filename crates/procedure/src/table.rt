//! What stands at a number of a node table.
ghost use Rattle.std.specs.Prelude.{◌≡◌};
ghost use Rattle.procedure.specs.Table.{node, part, standing};

use crate::kind::{DeclarationKind, ExpressionKind, Kind, StatementKind};
use crate::node::Node;

/// What stands at a number: 0 is the end of a list. Its cases are those of `Kind` and two more, so that a walk is one `match`.
#[derive(Clone, Copy, PartialEq, Eq, Debug)]
pub enum Standing {
    End,
    Unlisted,
    Procedure,
    Declaration(DeclarationKind),
    Statement(StatementKind),
    Expression(ExpressionKind),
}

/// The node of a number, or one of no listed kind beyond the table.
pub fn node_at(nodes: &[Node], n: u16) -> Node
    ensures read { result ≡ node nodes.now n }
{
    nodes.get(n as usize).copied().unwrap_or_default()
}

/// The kind of the node that a reference names: 0 names nothing.
pub fn part_of(nodes: &[Node], n: u16) -> Option<Kind>
    ensures read { result ≡ part nodes.now n }
{
    if n == 0 {
        return None;
    }
    node_at(nodes, n).listed_kind()
}

/// What stands at a number.
pub fn standing_at(nodes: &[Node], n: u16) -> Standing
    ensures read { result ≡ standing nodes.now n }
{
    if n == 0 {
        return Standing::End;
    }
    match node_at(nodes, n).listed_kind() {
        None => Standing::Unlisted,
        Some(Kind::Procedure) => Standing::Procedure,
        Some(Kind::Declaration(kind)) => Standing::Declaration(kind),
        Some(Kind::Statement(kind)) => Standing::Statement(kind),
        Some(Kind::Expression(kind)) => Standing::Expression(kind),
    }
}
