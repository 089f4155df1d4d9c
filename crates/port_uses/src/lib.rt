//! Ports in use: what the owner of a port knows after calls of its own, and after a client that is
//! written for every port, at a record port and at a calibrator.
//!
//! After calls of its own the owner of a record port knows every place of the slice that it lent. After
//! a client it knows what the port means, and so the numbers taken.
#![tactic(auto)]

pub mod owner;
#[cfg(test)]
mod tests;
