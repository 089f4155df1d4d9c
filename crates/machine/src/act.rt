//! What a step does.
use crate::frame::Frame;
use evaluator::{Placed, Row};

/// What a step does when it does not fail. The last number is the node that it goes to. An act is data, since the definitions decide
/// on it first and carry it out then.
#[derive(Clone, Copy, PartialEq, Eq, Debug)]
pub enum Act {
    /// The run is done.
    Done,
    /// Nothing but going on.
    Pass(u16),
    /// Puts a row.
    Declare(Row, u16),
    /// Writes a row over the one at its place.
    Assign(Placed, u16),
    /// Gets a number for the row at its place.
    Get(Placed, u16),
    /// Puts a number to the port.
    Put(i32, u16),
    /// Puts a frame.
    Enter(Frame, u16),
    /// Puts a frame and the row of its loop parameter.
    Loop(Frame, Row, u16),
    /// Writes the loop parameter's row, and leaves none above it.
    Turn(Placed, u16),
    /// Takes the frame off, and leaves so many rows.
    Leave(usize, u16),
}
