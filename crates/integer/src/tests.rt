//! The operations run at both ends of INTEGER and around zero.
use crate::arithmetic::{absolute, add, divide, modulo, multiply, negate, remainder, subtract};
use crate::fault::ArithmeticFault;
use crate::fault::ArithmeticFault::{OutsideInteger, ZeroDivisor};

type Answer = Result<i32, ArithmeticFault>;

const MIN: i32 = i32::MIN;

const MAX: i32 = i32::MAX;

const OUT: Answer = Err(OutsideInteger);

const ZERO: Answer = Err(ZeroDivisor);

/// x, y; x + y, x - y, x * y, x / y, x mod y, x rem y
const BINARY: [(i32, i32, [Answer; 6]); 9] = [
    (MIN, -1, [OUT, Ok(-MAX), OUT, OUT, Ok(0), Ok(0)]),
    (MIN, MIN, [OUT, Ok(0), OUT, Ok(1), Ok(0), Ok(0)]),
    (MIN, MAX, [Ok(-1), OUT, OUT, Ok(-1), Ok(MAX - 1), Ok(-1)]),
    (MIN, 0, [Ok(MIN), Ok(MIN), Ok(0), ZERO, ZERO, ZERO]),
    (MAX, MIN, [Ok(-1), OUT, OUT, Ok(0), Ok(-1), Ok(MAX)]),
    (MAX, 1, [OUT, Ok(MAX - 1), Ok(MAX), Ok(MAX), Ok(0), Ok(0)]),
    (0, 0, [Ok(0), Ok(0), Ok(0), ZERO, ZERO, ZERO]),
    (-7, 2, [Ok(-5), Ok(-9), Ok(-14), Ok(-3), Ok(1), Ok(-1)]),
    (7, -2, [Ok(5), Ok(9), Ok(-14), Ok(-3), Ok(-1), Ok(1)]),
];

/// x; -x, abs x
const UNARY: [(i32, [Answer; 2]); 3] = [
    (MIN, [OUT, OUT]),
    (MAX, [Ok(-MAX), Ok(MAX)]),
    (0, [Ok(0), Ok(0)]),
];

#[test]
fn both_ends(rt: HostRuntime) {
    for (x, y, [sum, difference, product, quotient, modulus, rest]) in BINARY {
        assert_eq!(rt; add(x, y), sum);
        assert_eq!(rt; subtract(x, y), difference);
        assert_eq!(rt; multiply(x, y), product);
        assert_eq!(rt; divide(x, y), quotient);
        assert_eq!(rt; modulo(x, y), modulus);
        assert_eq!(rt; remainder(x, y), rest);
    }
    for (x, [opposite, magnitude]) in UNARY {
        assert_eq!(rt; negate(x), opposite);
        assert_eq!(rt; absolute(x), magnitude);
    }
}
