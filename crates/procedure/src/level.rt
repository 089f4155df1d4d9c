//! The levels of a table's nodes.
ghost use Rattle.std.specs.Prelude.{◌≡◌, ℕ, ◌^◌, ◌<◌, false, length, slice_index};
ghost use Rattle.procedure.specs.Level.{level, level_by};
ghost use Rattle.procedure.specs.Rules.{Obeys};
ghost use Rattle.procedure.specs.Table.{expression_at};

use crate::layout::Role;
use crate::limits::MAX_NODES;
use crate::named_table::NamedTable;
use crate::naming::Naming;

/// The level at a number, 0 where there is none.
fn level_at(levels: &[u16], n: u16) -> u16
    ensures read { result ≡ slice_index levels.now n }
{
    levels.get(n as usize).copied().unwrap_or(0)
}

/// The level of a node by how it is named, from the level of the node naming it.
fn level_by(naming: Naming, levels: &[u16]) -> u16
    ensures exact { level_by (λ m. slice_index levels.now m) naming < 2 ^ 16 → result ≡ level_by (λ m. slice_index levels.now m) naming }
{
    let Naming::Once(by, role) = naming else {
        return 0;
    };
    let above = level_at(levels, by);
    match role {
        Role::Declarations | Role::Locals => 0,
        Role::Root => 1,
        Role::Following => above,
        Role::Operand | Role::Statements | Role::Alternative => above.saturating_add(1),
    }
}

// That the table obeys is asked here and is no fact of it: it is made to find that out.
impl NamedTable<'_> {
    /// Notes the levels of all nodes but operands, whose namers have smaller numbers. It goes by number, since the array that it
    /// writes is read at other numbers.
    fn note_upward(&self, levels: &mut [u16; MAX_NODES])
        requires obeyed { Obeys self.now.nodes.now }
        ensures plain { (n : ℕ) → n < length self.now.nodes.now → expression_at self.now.nodes.now n ≡ false → slice_index levels.new n ≡ level self.now.nodes.now n }
    {
        for n in 0..self.nodes.len() {
            levels[n] = level_by(self.namings[n], levels);
        }
    }

    /// Notes the levels of operands too, whose namers have greater numbers.
    fn note_downward(&self, levels: &mut [u16; MAX_NODES])
        requires obeyed { Obeys self.now.nodes.now }
        requires plain { (n : ℕ) → n < length self.now.nodes.now → expression_at self.now.nodes.now n ≡ false → slice_index levels.old n ≡ level self.now.nodes.now n }
        ensures all { (n : ℕ) → n < length self.now.nodes.now → slice_index levels.new n ≡ level self.now.nodes.now n }
    {
        for n in (0..self.nodes.len()).rev() {
            levels[n] = level_by(self.namings[n], levels);
        }
    }

    /// The level of each node of a table that breaks no rule.
    pub fn levels(&self) -> [u16; MAX_NODES]
        requires obeyed { Obeys self.now.nodes.now }
        ensures measured { (n : ℕ) → n < length self.now.nodes.now → slice_index result n ≡ level self.now.nodes.now n }
    {
        let mut levels = [0; MAX_NODES];
        self.note_upward(&mut levels);
        self.note_downward(&mut levels);
        levels
    }
}
