//! How the nodes of a table are named by one another.
ghost use Rattle.std.specs.Prelude.{◌≡◌, ℕ, ◌<◌, ◌≤◌, length, slice_index_or};
ghost use Rattle.procedure.specs.Naming.{naming, once_more, after_reference, after_node};
ghost use Rattle.procedure.specs.Table.{layout_of};
ghost use Rattle.procedure.specs.declared.naming.Naming.TheVariants.{Never};

use crate::layout::{Layout, Role};
use crate::limits::MAX_NODES;
use crate::node::Node;

/// How often the references of a table name a node; if once, which node does, and as what.
#[derive(Clone, Copy, PartialEq, Eq, Debug)]
pub enum Naming {
    Never,
    Once(u16, Role),
    Often,
}

impl Naming {
    /// After one more reference, by node `by`.
    fn once_more(self, by: u16, role: Role) -> Naming
        ensures counted { result ≡ once_more by role self }
    {
        match self {
            Naming::Never => Naming::Once(by, role),
            Naming::Once(..) | Naming::Often => Naming::Often,
        }
    }
}

/// Notes a reference of node `by` to `target`. By index: of a place got by `get_mut` it is not known which one was written.
fn note_reference(namings: &mut [Naming], by: u16, role: Option<Role>, target: u16)
    ensures noted { (n : ℕ) → n < length namings.old → slice_index_or namings.new n Never ≡ after_reference n by role target (slice_index_or namings.old n Never) }
{
    let place = target as usize;
    if let Some(role) = role
        && target != 0
        && place < namings.len()
    {
        namings[place] = namings[place].once_more(by, role);
    }
}

/// Notes the references of node `by`.
fn note_node(namings: &mut [Naming], by: u16, node: &Node)
    ensures noted { (n : ℕ) → n < length namings.old → slice_index_or namings.new n Never ≡ after_node n by (layout_of node.now) node.now (slice_index_or namings.old n Never) }
{
    let layout = Layout::of(node.listed_kind());
    note_reference(namings, by, layout.a, node.a);
    note_reference(namings, by, layout.b, node.b);
    note_reference(namings, by, layout.c, node.c);
    note_reference(namings, by, layout.next, node.next);
}

/// How the table names each of its nodes.
pub fn count_namings(nodes: &[Node]) -> [Naming; MAX_NODES]
    requires few { length nodes.now ≤ 1024 }
    ensures counted { (n : ℕ) → n < 1024 → slice_index_or result n Never ≡ naming nodes.now n }
{
    let mut namings = [Naming::Never; MAX_NODES];
    for (n, node) in nodes.iter().enumerate() {
        note_node(&mut namings, n as u16, node);
    }
    namings
}
