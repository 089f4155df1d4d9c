//! Exact arithmetic of INTEGER, the numbers from -2147483648 to 2147483647, as nanoAVA and Ada define it.
//!
//! Each operation promises, for all operands, equality with its definition on the unbounded integers
//! (specs/Arithmetic.antt): the exact result, or the fault. Nothing wraps and nothing saturates.
//! `/` truncates toward zero, `rem` takes the sign of the dividend and `mod` the sign of the divisor; the laws of division
//! (specs/Division.antt) say that no other numbers meet the equations that define these three.
//! A fault has a cause: 1 for a result outside INTEGER, 2 for a divisor that is zero.
//!
//! At which place of a procedure an operation faulted is left to the caller.
#![tactic(auto)]

mod arithmetic;
mod fault;
mod laws;

pub use arithmetic::{absolute, add, divide, modulo, multiply, negate, remainder, subtract};
pub use fault::ArithmeticFault;
pub use laws::{division_laws_stand, worked_examples};

#[cfg(test)]
mod tests;
