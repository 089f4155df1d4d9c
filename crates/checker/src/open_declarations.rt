//! The declarations that are open.
ghost use Rattle.std.specs.Prelude.{◌≡◌, length};

use crate::names::Declaration;
use procedure::limits::MAX_OPEN;
use procedure::{Reason, Refusal};
use stack::Stack;

/// The declarations that are open, the newest on top, in a table of 256 places.
#[derive(Drop)]
pub struct OpenDeclarations<'a> {
    stack: Stack<'a, Declaration>,
    ghost sized: { length stack.places.now ≡ 256 },
}

#[tactic(auto, using(stack::proofs::Newest::newest_laws, stack::proofs::Newest::kept_set))]
impl<'a> OpenDeclarations<'a> {
    ghost use Rattle.std.specs.Prelude.{◌≡◌, ◌<◌, ◌≤◌, [], length, MatchOption};
    ghost use Rattle.stack.specs.Acts.{cut};
    ghost use Rattle.stack.specs.Stacks.{table};
    ghost use Rattle.stack.specs.Tables.{newest};
    ghost use Rattle.checker.specs.Region.{opened, with_opened, put, Grown};

    /// Nothing is open yet. None where there are fewer than 256 places.
    pub fn over(places: &'a mut [Declaration]) -> Option<OpenDeclarations<'a>>
        ensures none { MatchOption result (length places.old < 256) (λ o. (256 ≤ length places.old) × (opened o ≡ [])) }
    {
        let places = places.get_mut(..MAX_OPEN)?;
        Some(OpenDeclarations {
            stack: Stack::of(places, 0),
        })
    }

    /// The open declarations, the oldest first.
    pub fn items(&self) -> &[Declaration]
        ensures declared { newest (length result.now) result.now ≡ opened self.now }
        ensures counted { length result.now ≡ length (opened self.now) }
    {
        self.stack.held_items()
    }

    /// How many are open.
    pub fn len(&self) -> usize
        ensures counted { result ≡ length (opened self.now) }
        ensures held { result ≡ self.now.stack.held }
        ensures few { result ≤ 256 }
    {
        self.stack.len()
    }

    /// Opens a declaration, whose node is `at`.
    pub fn put(&mut self, declaration: Declaration, at: u16) -> Result<(), Refusal>
        ensures meant { with_opened result (opened self.new) ≡ put declaration (opened self.old) at }
        ensures grown { Grown self.old self.new }
    {
        self.stack
            .put(declaration)
            .map_err(|_| Reason::Cramped.at(at))
    }

    /// Leaves open the oldest `n` alone.
    pub fn cut(&mut self, n: usize)
        ensures table { table self.new.stack ≡ cut n (table self.old.stack) }
    {
        self.stack.cut(n);
    }
}
