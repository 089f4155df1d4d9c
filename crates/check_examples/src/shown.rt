//! Worked examples that are shown of the definitions.
ghost use Rattle.check_examples.specs.Shown.{CheckExamples};

/// What the check's definition says of five small procedures.
pub fn check_examples_stand()
    ensures shown { CheckExamples }
{}
