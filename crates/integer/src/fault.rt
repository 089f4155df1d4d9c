//! Why an operation has no result.
ghost use Rattle.std.specs.Prelude.{◌≡◌, Some};
ghost use Rattle.integer.specs.Fault.{cause_of, sentence_of};

use std::fmt;

#[derive(Clone, Copy, PartialEq, Eq, Debug)]
pub enum ArithmeticFault {
    OutsideInteger,
    ZeroDivisor,
}

impl ArithmeticFault {
    /// The number by which a run tells the fault.
    pub fn cause(self) -> u8
        ensures numbered { result ≡ cause_of self }
    {
        match self {
            ArithmeticFault::OutsideInteger => 1,
            ArithmeticFault::ZeroDivisor => 2,
        }
    }

    fn sentence(self) -> &'static str
        ensures told { result.now ≡ sentence_of self }
    {
        match self {
            ArithmeticFault::OutsideInteger => "the result is outside INTEGER",
            ArithmeticFault::ZeroDivisor => "the divisor is zero",
        }
    }
}

impl fmt::Display for ArithmeticFault {
    ghost output = { λ f. Some (sentence_of f) };

    fn fmt<W: fmt::Write>(&self, f: &mut fmt::Formatter<W>) -> fmt::Result {
        f.write_str(self.sentence())
    }
}
