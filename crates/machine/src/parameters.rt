//! The parameters of a procedure.
ghost use Rattle.std.specs.Prelude.{◌≡◌};
ghost use Rattle.std.specs.Iterator.{YieldsFirst, item_count};
ghost use Rattle.procedure.specs.Table.{standing};
ghost use Rattle.machine.specs.Begin.{is_parameter, parameters, parameters_left};

use procedure::Node;
use procedure::kind::DeclarationKind;
use procedure::table::{Standing, node_at, standing_at};

/// The parameters from a node on, at most so many.
#[derive(Drop)]
pub struct Parameters<'a> {
    nodes: &'a [Node],
    next: u16,
    left: usize,
}

/// Whether a parameter stands at node `n`.
fn is_parameter(nodes: &[Node], n: u16) -> bool
    ensures told { result ≡ is_parameter (standing nodes.now n) }
{
    standing_at(nodes, n) == Standing::Declaration(DeclarationKind::Parameter)
}

impl<'a> Parameters<'a> {
    /// All the parameters of a procedure.
    pub fn of(nodes: &'a [Node]) -> Parameters<'a>
        ensures all { parameters_left result ≡ parameters nodes.now }
    {
        Parameters {
            nodes,
            next: node_at(nodes, 0).a,
            left: nodes.len(),
        }
    }
}

/// Each parameter is told by its node.
impl<'a> Iterator for Parameters<'a> {
    type Item = u16;

    ghost next_gives = { YieldsFirst parameters_left };

    ghost remaining = { item_count parameters_left };

    fn next(&mut self) -> Option<u16> {
        if self.left == 0 || !is_parameter(self.nodes, self.next) {
            return None;
        }
        let n = self.next;
        self.next = node_at(self.nodes, n).next;
        self.left -= 1;
        Some(n)
    }
}
