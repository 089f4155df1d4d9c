//! What a call answers.
use evaluator::Row;
use machine::run::Shown;
use procedure::Refusal;

/// What a call did: it went, and the run stands so after it, or it saw a row.
#[derive(Clone, Copy, PartialEq, Eq, Debug)]
pub enum Done {
    Went(Shown),
    Saw(Row),
}

/// What a call of a run answers: what it did, or why it was not taken.
pub type Reply = Result<Done, Refusal>;
