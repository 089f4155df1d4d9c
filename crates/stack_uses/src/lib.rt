//! Callers of the stack, at plain numbers and at rows.
//!
//! Each promises what every place of its slice holds after it, and leans on no more than the
//! promises of the stack and the laws of its views.
#![tactic(auto)]

mod numbers;
mod rows;
#[cfg(test)]
mod tests;
