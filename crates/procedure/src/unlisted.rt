//! The failure to read a number as what it should stand for.
ghost use Rattle.std.specs.Prelude.{codes, Some};

use std::error::Error;
use std::fmt;

/// The number stands for nothing that is listed.
#[derive(Clone, Copy, PartialEq, Eq, Debug)]
pub struct Unlisted;

impl fmt::Display for Unlisted {
    ghost output = { λ _. Some (codes "the number is not listed") };

    fn fmt<W: fmt::Write>(&self, f: &mut fmt::Formatter<W>) -> fmt::Result {
        f.write_str("the number is not listed")
    }
}

impl Error for Unlisted {}
