//! What holds of the definitions themselves, and the operations at worked examples.
ghost use Rattle.std.specs.Prelude.{◌≡◌};
ghost use Rattle.integer.specs.Division.{DivisionLaws};
ghost use Rattle.integer.specs.Examples.{WorkedExamples, answers};

use crate::arithmetic::{absolute, add, divide, modulo, multiply, negate, remainder, subtract};
use crate::fault::ArithmeticFault;

/// By each divisor other than 0, the quotient, the remainder and the modulus meet the equations that define division,
/// and no other numbers do.
pub fn division_laws_stand()
    ensures lawful { DivisionLaws }
{}

/// The operations where they part from one another, and at both ends of INTEGER.
pub fn worked_examples() -> [Result<i32, ArithmeticFault>; 15]
    ensures defined { WorkedExamples }
    ensures answered { result ≡ answers }
{
    [
        divide(-7, 2),
        remainder(-7, 2),
        modulo(-7, 2),
        modulo(7, -2),
        divide(i32::MIN, -1),
        remainder(i32::MIN, -1),
        modulo(i32::MIN, -1),
        negate(i32::MIN),
        absolute(i32::MIN),
        add(i32::MAX, 1),
        subtract(0, i32::MIN),
        multiply(i32::MIN, -1),
        divide(i32::MIN, 0),
        remainder(i32::MIN, 0),
        modulo(i32::MIN, 0),
    ]
}
