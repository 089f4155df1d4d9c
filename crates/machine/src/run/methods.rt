//! What a run shows.
ghost use Rattle.std.specs.Prelude.{◌≡◌};

use super::{Run, Shown};

impl Run {
    /// How far the run has come, and how many rows and frames it holds.
    pub fn shown(&self) -> Shown
        ensures shown { result ≡ self.now.shown }
    {
        self.shown
    }
}
