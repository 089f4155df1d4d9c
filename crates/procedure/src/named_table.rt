//! A table of nodes, with how it names each of them.
ghost use Rattle.std.specs.Prelude.{◌≡◌, ℕ, ◌<◌, ◌≤◌, length, slice_index_or};
ghost use Rattle.procedure.specs.Naming.{naming};
ghost use Rattle.procedure.specs.declared.naming.Naming.TheVariants.{Never};

use crate::limits::MAX_NODES;
use crate::naming::{Naming, count_namings};
use crate::node::Node;

/// At most 1,024 nodes, and how they name each of them.
#[derive(Drop)]
pub struct NamedTable<'a> {
    pub nodes: &'a [Node],
    pub namings: [Naming; MAX_NODES],
    ghost few: { length nodes.now ≤ 1024 },
    ghost named: { (n : ℕ) → n < 1024 → slice_index_or namings n Never ≡ naming nodes.now n },
}

impl<'a> NamedTable<'a> {
    /// The table of these nodes.
    pub fn of(nodes: &'a [Node]) -> NamedTable<'a>
        requires few { length nodes.now ≤ 1024 }
        ensures held { result.nodes.now ≡ nodes.now }
    {
        NamedTable {
            nodes,
            namings: count_namings(nodes),
        }
    }
}
