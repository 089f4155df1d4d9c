//! Reads the text files that a station engineer hands over.
//!
//! The file of a procedure has one node a line, as eight decimal numbers in the order kind, name, a, b, c, next,
//! lo, hi, with blanks between them. Empty lines and what follows `#` on a line are passed over. A carriage return is a
//! blank, so that a file reads the same with either kind of line end.
//!
//! For every text, `read_procedure` promises the nodes of the lines, in order, or the first line that is no node, with
//! its number and what is wrong with it. Numbers are exact, however many digits they have, and one that is out of its
//! field's range is told and never cut.
//!
//! Opening a file, and whether nodes make a procedure, is left to others. Other files of lines, words and numbers are
//! read with `Lines`, `Words` and `read_number`.
#![tactic(auto)]

mod cut;
pub mod file;
pub mod line;
pub mod message;
pub mod number;
pub mod scan;
pub mod written;

pub use file::{FaultyLine, FileFault, read_procedure};
pub use line::{Field, LineFault, read_line};
pub use number::{NumberFault, read_number};
pub use scan::{Lines, Words};
