//! How a run stands.
ghost use Rattle.std.specs.Prelude.{◌≡◌, Some};
ghost use Rattle.machine.specs.Outcomes.{outcome_word, is_paused};

use std::fmt;

/// How a run stands: it can go on, or it has ended in one of these ways.
#[derive(Clone, Copy, PartialEq, Eq, Debug)]
pub enum Outcome {
    Paused,
    Done,
    NumericError,
    ConstraintError,
    EndError,
    UseError,
    Stuck,
    StorageError,
}

impl Outcome {
    /// Whether the run can go on.
    pub fn is_paused(self) -> bool
        ensures told { result ≡ is_paused self }
    {
        self == Outcome::Paused
    }

    /// The word that stands for the outcome.
    pub fn word(self) -> &'static str
        ensures worded { result.now ≡ outcome_word self }
    {
        match self {
            Outcome::Paused => "PAUSED",
            Outcome::Done => "DONE",
            Outcome::NumericError => "NUMERIC_ERROR",
            Outcome::ConstraintError => "CONSTRAINT_ERROR",
            Outcome::EndError => "END_ERROR",
            Outcome::UseError => "USE_ERROR",
            Outcome::Stuck => "STUCK",
            Outcome::StorageError => "STORAGE_ERROR",
        }
    }
}

/// As its word.
impl fmt::Display for Outcome {
    ghost output = { λ o. Some (outcome_word o) };

    fn fmt<W: fmt::Write>(&self, f: &mut fmt::Formatter<W>) -> fmt::Result {
        f.write_str(self.word())
    }
}
