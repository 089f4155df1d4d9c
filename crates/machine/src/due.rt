//! What a step is decided on.
use crate::frame::Frame;
use evaluator::Row;
use procedure::Node;
use stack::Stack;

/// The node due at a step, with the procedure's nodes and the rows and frames held.
#[derive(Clone, Copy)]
pub struct Due<'a> {
    pub nodes: &'a [Node],
    pub rows: &'a Stack<'a, Row>,
    pub frames: &'a Stack<'a, Frame>,
    pub at: u16,
}
