//! Regions, each of which ends with what it declared no longer open.
ghost use Rattle.std.specs.Prelude.{◌≡◌, ◌-◌, ◌≤◌, length};
ghost use Rattle.stack.specs.Acts.{cut};
ghost use Rattle.stack.specs.Stacks.{table};
ghost use Rattle.stack.specs.Tables.{newest};
ghost use Rattle.checker.specs.Region.{is_taken};

use crate::names::Declaration;
use crate::open_declarations::OpenDeclarations;
use stack::newest_named;

/// The open declarations while a region is open, and how many there were when it was entered: at its end, on every way out, those
/// are left. It is made where it is used: the walks found no proof over a guard that a function hands out.
pub struct RegionGuard<'r, 'a> {
    pub declared: &'r mut OpenDeclarations<'a>,
    pub entered: usize,
}

impl Drop for RegionGuard<'_, '_> {
    fn drop(self)
        ensures cut { table self.exit.0.now.stack ≡ cut self.entry.entered (table self.entry.declared.now.stack) }
    {
        let RegionGuard { declared, entered } = self;
        declared.cut(entered);
    }
}

/// Whether a name is declared in the region that began with `base` declarations open.
pub fn is_taken(declared: &[Declaration], base: usize, name: u16) -> bool
    requires within { base ≤ length declared.now }
    ensures taken { result ≡ is_taken name (length declared.now - base) (newest (length declared.now) declared.now) }
{
    newest_named(&declared[base..], name).is_some()
}
