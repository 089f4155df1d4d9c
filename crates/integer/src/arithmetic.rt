//! The operations of INTEGER.
ghost use Rattle.std.specs.Prelude.{◌≡◌, Ok};
ghost use Rattle.integer.specs.Arithmetic.{sum_of, difference_of, product_of, quotient_of, modulus_of, remainder_of, negation_of, absolute_of, unless_zero};

use crate::fault::ArithmeticFault;

pub fn add(x: i32, y: i32) -> Result<i32, ArithmeticFault>
    ensures exact { result ≡ sum_of x y }
{
    x.checked_add(y).ok_or(ArithmeticFault::OutsideInteger)
}

pub fn subtract(x: i32, y: i32) -> Result<i32, ArithmeticFault>
    ensures exact { result ≡ difference_of x y }
{
    x.checked_sub(y).ok_or(ArithmeticFault::OutsideInteger)
}

pub fn multiply(x: i32, y: i32) -> Result<i32, ArithmeticFault>
    ensures exact { result ≡ product_of x y }
{
    x.checked_mul(y).ok_or(ArithmeticFault::OutsideInteger)
}

/// Toward zero.
pub fn divide(x: i32, y: i32) -> Result<i32, ArithmeticFault>
    ensures exact { result ≡ quotient_of x y }
{
    x.checked_div(nonzero(y)?)
        .ok_or(ArithmeticFault::OutsideInteger)
}

/// With the sign of the divisor.
pub fn modulo(x: i32, y: i32) -> Result<i32, ArithmeticFault>
    ensures exact { result ≡ modulus_of x y }
{
    let r = remainder(x, y)?;
    if r != 0 && (r < 0) != (y < 0) {
        Ok(r + y)
    } else {
        Ok(r)
    }
}

/// With the sign of the dividend. `checked_rem` would refuse -2147483648 rem -1, which is 0.
pub fn remainder(x: i32, y: i32) -> Result<i32, ArithmeticFault>
    ensures exact { result ≡ remainder_of x y }
{
    Ok(x.wrapping_rem(nonzero(y)?))
}

pub fn negate(x: i32) -> Result<i32, ArithmeticFault>
    ensures exact { result ≡ negation_of x }
{
    x.checked_neg().ok_or(ArithmeticFault::OutsideInteger)
}

pub fn absolute(x: i32) -> Result<i32, ArithmeticFault>
    ensures exact { result ≡ absolute_of x }
{
    x.checked_abs().ok_or(ArithmeticFault::OutsideInteger)
}

fn nonzero(y: i32) -> Result<i32, ArithmeticFault>
    ensures tested { result ≡ unless_zero y (Ok y) }
{
    if y == 0 {
        Err(ArithmeticFault::ZeroDivisor)
    } else {
        Ok(y)
    }
}
