//! Why an expression has no value.
ghost use Rattle.std.specs.Prelude.{◌≡◌};
ghost use Rattle.evaluator.specs.Faults.{number_of_fault};
ghost use Rattle.evaluator.specs.declared.fault.ExpressionFault.TheVariants.{Arithmetic};

use integer::ArithmeticFault;

/// A fault of evaluation, and the node that it is told at. Each case has the node, so that one pattern tells both.
#[derive(Clone, Copy, PartialEq, Eq, Debug)]
pub enum ExpressionFault {
    /// Arithmetic has no result, at the operator.
    Arithmetic(ArithmeticFault, u16),
    /// A part is no expression, or as an operand not before its operator; at the node naming it.
    NoPart(u16),
    /// A name has no row and is neither TRUE nor FALSE.
    NoRow(u16),
    /// An operator is not listed or does not take its operands, or a BOOLEAN row holds neither 0 nor 1.
    Unsuited(u16),
    /// The expression goes to a level below the last.
    TooDeep(u16),
}

impl ExpressionFault {
    /// The number by which a run tells the fault.
    pub fn number(self) -> u8
        ensures numbered { result ≡ number_of_fault self }
    {
        match self {
            ExpressionFault::Arithmetic(fault, _) => fault.cause(),
            ExpressionFault::NoPart(_) => 3,
            ExpressionFault::NoRow(_) => 4,
            ExpressionFault::Unsuited(_) => 5,
            ExpressionFault::TooDeep(_) => 6,
        }
    }
}

/// An arithmetic fault at its operator.
#[derive(Clone, Copy, PartialEq, Eq, Debug)]
pub struct Located {
    pub fault: ArithmeticFault,
    pub node: u16,
}

impl From<Located> for ExpressionFault {
    ghost from_gives = { λ e r. r ≡ Arithmetic e.fault e.node };

    fn from(located: Located) -> ExpressionFault {
        ExpressionFault::Arithmetic(located.fault, located.node)
    }
}
