//! The frames of a run: the IF, FOR and blocks that are under way.

/// A statement that is under way, and the rows held when it was entered.
#[derive(Clone, Copy, PartialEq, Eq, Debug)]
pub struct Frame {
    pub node: u16,
    pub rows: usize,
}
