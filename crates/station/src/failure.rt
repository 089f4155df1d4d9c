//! Why the program does not succeed, and how that is told.
ghost use Rattle.std.specs.Prelude.{◌≡◌};
ghost use Rattle.station.specs.Failure.{failure_text};
ghost use Rattle.station.specs.declared.failure.Failure.TheVariants.{NotFormed, NotPassed, Unset, Io};

use crate::report::{BrokenRule, NodeKind, Refused};
use crate::verb::UsageFault;
use files::{FileFault, NumberFault};
use procedure::Refusal;
use std::{fmt, io};

/// Why the program does not succeed.
#[derive(Clone, Copy)]
pub enum Failure<'a> {
    /// The first word of a command line that asks for nothing that the program does.
    Usage(&'a str, UsageFault),
    /// The path of a file that cannot be read.
    Unread(&'a str, io::Error),
    /// The path of a file that writes no procedure.
    Faulty(&'a str, FileFault),
    /// A number that `calibrate` takes, and the word in its place.
    Operand {
        name: &'static str,
        word: &'a str,
        fault: NumberFault,
    },
    /// A table that has not the form of a procedure.
    NotFormed(Refused<BrokenRule>),
    /// A procedure that does not pass the check.
    NotPassed(Refused<NodeKind>),
    /// A limit of the calibrator is out of its range.
    Unset(Refusal),
    /// The command line cannot be read, or nothing can be printed.
    Io(io::Error),
}

impl From<Refused<BrokenRule>> for Failure<'_> {
    ghost from_gives = { λ refused failure. failure ≡ NotFormed refused };

    fn from(refused: Refused<BrokenRule>) -> Self {
        Failure::NotFormed(refused)
    }
}

impl From<Refused<NodeKind>> for Failure<'_> {
    ghost from_gives = { λ refused failure. failure ≡ NotPassed refused };

    fn from(refused: Refused<NodeKind>) -> Self {
        Failure::NotPassed(refused)
    }
}

impl From<Refusal> for Failure<'_> {
    ghost from_gives = { λ refusal failure. failure ≡ Unset refusal };

    fn from(refusal: Refusal) -> Self {
        Failure::Unset(refusal)
    }
}

impl From<io::Error> for Failure<'_> {
    ghost from_gives = { λ error failure. failure ≡ Io error };

    fn from(error: io::Error) -> Self {
        Failure::Io(error)
    }
}

impl fmt::Display for Failure<'_> {
    ghost output = { failure_text };

    fn fmt<W: fmt::Write>(&self, f: &mut fmt::Formatter<W>) -> fmt::Result {
        match *self {
            Failure::Usage(word, fault) => write!(
                f,
                "station: {word}: {fault}; 'station help' lists the commands"
            ),
            Failure::Unread(path, error) => write!(f, "station: {path}: cannot be read: {error}"),
            Failure::Faulty(path, fault) => write!(f, "station: {path}: {fault}"),
            Failure::Operand { name, word, fault } => {
                write!(f, "station: calibrate: {name}: {word} {fault}")
            }
            Failure::NotFormed(refused) => write!(f, "{refused}"),
            Failure::NotPassed(refused) => write!(f, "{refused}"),
            Failure::Unset(refusal) => write!(f, "refused: {refusal}"),
            Failure::Io(error) => write!(f, "{error}"),
        }
    }
}
