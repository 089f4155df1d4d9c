//! The commands of the program: their words, and how many words follow each.
ghost use Rattle.std.specs.Prelude.{◌≡◌, Some};
ghost use Rattle.station.specs.Verb.{Spells, operands_of, taken, usage_text};

use std::error::Error;
use std::fmt;
use std::str::FromStr;

/// A command.
#[derive(Clone, Copy, PartialEq, Eq, Debug)]
pub enum Verb {
    Help,
    Form,
    Check,
    Calibrate,
}

/// How many words may follow a command. Which of the two bounds is passed says what is wrong.
#[derive(Clone, Copy, PartialEq, Eq, Debug)]
pub struct Operands {
    pub fewest: usize,
    pub most: usize,
}

/// Why a command line asks for nothing that the program does.
#[derive(Clone, Copy, PartialEq, Eq, Debug)]
pub enum UsageFault {
    /// The word stands for no command.
    Unknown,
    /// Fewer words follow than the command takes.
    Missing,
    /// More words follow than the command takes.
    Extra,
}

impl fmt::Display for UsageFault {
    ghost output = { λ x. Some (usage_text x) };

    fn fmt<W: fmt::Write>(&self, f: &mut fmt::Formatter<W>) -> fmt::Result {
        match self {
            UsageFault::Unknown => write!(f, "there is no such command"),
            UsageFault::Missing => write!(f, "a word is missing behind the command"),
            UsageFault::Extra => write!(f, "too many words follow the command"),
        }
    }
}

impl Error for UsageFault {}

/// The command that a word stands for.
impl FromStr for Verb {
    type Err = UsageFault;

    ghost from_str_gives = { Spells };

    fn from_str(word: &str) -> Result<Verb, UsageFault> {
        match word {
            "help" => Ok(Verb::Help),
            "form" => Ok(Verb::Form),
            "check" => Ok(Verb::Check),
            "calibrate" => Ok(Verb::Calibrate),
            _ => Err(UsageFault::Unknown),
        }
    }
}

impl Verb {
    /// How many words may follow the command.
    pub fn operands(self) -> Operands
        ensures counted { result ≡ operands_of self }
    {
        match self {
            Verb::Help => Operands { fewest: 0, most: 0 },
            Verb::Form => Operands { fewest: 1, most: 1 },
            Verb::Check => Operands { fewest: 1, most: 1 },
            Verb::Calibrate => Operands { fewest: 3, most: 4 },
        }
    }

    /// The command, where as many words follow it as may.
    pub fn take(self, given: usize) -> Result<Verb, UsageFault>
        ensures counted { result ≡ taken self given }
    {
        let operands = self.operands();
        if given < operands.fewest {
            Err(UsageFault::Missing)
        } else if operands.most < given {
            Err(UsageFault::Extra)
        } else {
            Ok(self)
        }
    }
}
