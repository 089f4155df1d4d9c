//! A run with its tables and its port.
use crate::frame::Frame;
use crate::progress::Progress;
use evaluator::Row;
use stack::Stack;

/// How far a run has come, with its rows and frames over the slices that were supplied, and its port. The stacks are borrowed:
/// where a struct held them, the owner of the slices would not learn what they hold in the end. That the counts are in bounds is asked
/// of each method and is no fact of the struct: between a get and the end of its step it does not hold.
#[derive(Drop)]
pub struct Machine<'r, 'f, 'm, 'n, 'p, P> {
    pub progress: Progress,
    pub rows: &'m mut Stack<'r, Row>,
    pub frames: &'n mut Stack<'f, Frame>,
    pub port: &'p mut P,
}
