//! What holds of every run of a procedure that passed the check.
#![tactic(auto)]

ghost use Rattle.soundness.specs.Evaluation.{EvaluationIsTyped};
ghost use Rattle.soundness.specs.Sound.{StaysSound};

pub mod call;

/// An expression that has a type comes to a value of that type, or arithmetic faults.
pub fn evaluation_is_typed()
    ensures typed { EvaluationIsTyped }
{}

/// A procedure that passed the check and was begun, with the rows and frames of its sheet, is sound after any calls.
pub fn runs_stay_sound()
    ensures sound { StaysSound }
{}
