//! How far a run has come.
ghost use Rattle.std.specs.Prelude.{◌≡◌};
ghost use Rattle.machine.specs.Outcomes.{cause_number};

use crate::fault::StepFault;
use crate::outcome::Outcome;

/// The outcome; where the run has failed, its cause and node; the node due next (0 at a list's end); and what was counted since the
/// run began.
#[derive(Clone, Copy, PartialEq, Eq, Debug)]
pub struct Progress {
    pub outcome: Outcome,
    pub cause: Option<StepFault>,
    pub node: u16,
    pub at: u16,
    pub steps: u64,
    pub reads: u64,
    pub writes: u64,
}

impl Progress {
    /// The number that tells the cause, 0 where the run has not failed.
    pub fn cause_number(self) -> u8
        ensures numbered { result ≡ cause_number self.cause }
    {
        match self.cause {
            Some(fault) => fault.number(),
            None => 0,
        }
    }
}
