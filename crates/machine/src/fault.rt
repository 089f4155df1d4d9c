//! Why a step fails, and how that ends the run.
ghost use Rattle.std.specs.Prelude.{◌≡◌};
ghost use Rattle.machine.specs.Outcomes.{number_of, expression_ending, ending_of};
ghost use Rattle.machine.specs.declared.fault.StepFault.TheVariants.{Expression};

use crate::outcome::Outcome;
use evaluator::ExpressionFault;

/// A fault of a step. All but a fault of an expression are told at the node that was due.
#[derive(Clone, Copy, PartialEq, Eq, Debug)]
pub enum StepFault {
    /// An expression has no value.
    Expression(ExpressionFault),
    /// A number got for a BOOLEAN is neither 0 nor 1.
    NotBoolean,
    /// No number waits at the port.
    NothingWaits,
    /// The port has no place left.
    NoPlace,
    /// The node due, or the node under the top frame, is none that the step takes, or too few rows are held.
    NoStep,
    /// No row has the name of the target.
    NoTarget,
    /// A value is of the wrong type, a mark names no type, or a constant would be changed.
    WrongType,
    /// The rows are full.
    RowsFull,
    /// The frames are full.
    FramesFull,
}

impl From<ExpressionFault> for StepFault {
    ghost from_gives = { λ e r. r ≡ Expression e };

    fn from(fault: ExpressionFault) -> StepFault {
        StepFault::Expression(fault)
    }
}

/// How a run ends: its outcome, the cause and the node.
#[derive(Clone, Copy, PartialEq, Eq, Debug)]
pub struct Ending {
    pub outcome: Outcome,
    pub cause: StepFault,
    pub node: u16,
}

fn ended_by(outcome: Outcome, cause: StepFault, node: u16) -> Ending
    ensures told { result ≡ record { outcome = outcome; cause = cause; node = node } }
{
    Ending {
        outcome,
        cause,
        node,
    }
}

fn expression_ending(fault: ExpressionFault) -> Ending
    ensures told { result ≡ expression_ending fault }
{
    let cause = StepFault::Expression(fault);
    match fault {
        ExpressionFault::Arithmetic(_, n) => ended_by(Outcome::NumericError, cause, n),
        ExpressionFault::NoPart(n)
        | ExpressionFault::NoRow(n)
        | ExpressionFault::Unsuited(n)
        | ExpressionFault::TooDeep(n) => ended_by(Outcome::Stuck, cause, n),
    }
}

impl StepFault {
    /// The number by which a run tells the fault, from 1 on.
    pub fn number(self) -> u8
        ensures numbered { result ≡ number_of self }
    {
        match self {
            StepFault::Expression(fault) => fault.number(),
            StepFault::NotBoolean => 7,
            StepFault::NothingWaits => 8,
            StepFault::NoPlace => 9,
            StepFault::NoStep => 10,
            StepFault::NoTarget => 11,
            StepFault::WrongType => 12,
            StepFault::RowsFull => 13,
            StepFault::FramesFull => 14,
        }
    }

    /// How the fault of a step at node `at` ends the run.
    pub fn ending(self, at: u16) -> Ending
        ensures told { result ≡ ending_of self at }
    {
        match self {
            StepFault::Expression(fault) => expression_ending(fault),
            StepFault::NotBoolean => ended_by(Outcome::ConstraintError, self, at),
            StepFault::NothingWaits => ended_by(Outcome::EndError, self, at),
            StepFault::NoPlace => ended_by(Outcome::UseError, self, at),
            StepFault::NoStep | StepFault::NoTarget | StepFault::WrongType => {
                ended_by(Outcome::Stuck, self, at)
            }
            StepFault::RowsFull | StepFault::FramesFull => {
                ended_by(Outcome::StorageError, self, at)
            }
        }
    }
}
