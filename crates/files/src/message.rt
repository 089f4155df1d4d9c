//! How faults are told, in sentences that say what to write instead.
ghost use Rattle.std.specs.Prelude.{Some};
ghost use Rattle.files.specs.Message.{number_fault_text, field_text, line_fault_text, faulty_line_text, file_fault_text};

use crate::file::{FaultyLine, FileFault};
use crate::line::{Description, Field, LineFault};
use crate::number::NumberFault;
use std::error::Error;
use std::fmt;

impl fmt::Display for NumberFault {
    ghost output = { λ x. Some (number_fault_text x) };

    fn fmt<W: fmt::Write>(&self, f: &mut fmt::Formatter<W>) -> fmt::Result {
        match self {
            NumberFault::NoNumber => write!(f, "is no decimal number"),
            NumberFault::OutOfRange => write!(f, "is out of range"),
        }
    }
}

/// As `number 3 (a)`.
impl fmt::Display for Field {
    ghost output = { λ x. Some (field_text x) };

    fn fmt<W: fmt::Write>(&self, f: &mut fmt::Formatter<W>) -> fmt::Result {
        let Description { place, word, .. } = self.described();
        write!(f, "number {place} ({word})")
    }
}

impl fmt::Display for LineFault {
    ghost output = { λ x. Some (line_fault_text x) };

    fn fmt<W: fmt::Write>(&self, f: &mut fmt::Formatter<W>) -> fmt::Result {
        match *self {
            LineFault::Missing(field) => {
                write!(
                    f,
                    "{field} is missing: write eight numbers, kind name a b c next lo hi"
                )
            }
            LineFault::NoNumber(field) => write!(
                f,
                "{field} is not a decimal number: write digits 0 to 9, with - in front if it is below 0"
            ),
            LineFault::OutOfRange(field) => {
                let Description { low, high, .. } = field.described();
                write!(
                    f,
                    "{field} is out of range: write a number from {low} to {high}"
                )
            }
            LineFault::Extra => write!(
                f,
                "something follows the eighth number: write one node a line, and a comment behind #"
            ),
        }
    }
}

/// As `line 7: ` and then the fault.
impl fmt::Display for FaultyLine {
    ghost output = { λ x. Some (faulty_line_text x) };

    fn fmt<W: fmt::Write>(&self, f: &mut fmt::Formatter<W>) -> fmt::Result {
        let number = self.number;
        let fault = self.fault;
        write!(f, "line {number}: {fault}")
    }
}

impl fmt::Display for FileFault {
    ghost output = { λ x. Some (file_fault_text x) };

    fn fmt<W: fmt::Write>(&self, f: &mut fmt::Formatter<W>) -> fmt::Result {
        match *self {
            FileFault::Line(line) => write!(f, "{line}"),
            FileFault::OutOfMemory => write!(f, "there is too little memory to read the procedure"),
        }
    }
}

impl Error for NumberFault {}

impl Error for LineFault {}

impl Error for FaultyLine {}

impl Error for FileFault {}
