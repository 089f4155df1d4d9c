//! A run that has begun.
ghost use Rattle.machine.specs.Counts.{Counted};

use crate::progress::Progress;

pub mod methods;

/// What a run shows of itself: how far it has come, and how many rows and frames it holds.
#[derive(Clone, Copy, PartialEq, Eq, Debug)]
pub struct Shown {
    pub progress: Progress,
    pub rows: usize,
    pub frames: usize,
}

/// A run. Only `begin` makes one.
pub struct Run {
    pub(crate) shown: Shown,
    ghost counted: { Counted shown.progress },
}
