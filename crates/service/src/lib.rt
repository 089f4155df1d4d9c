//! The service of a station: a procedure is checked, begun, and any list of calls is made on it.
#![tactic(auto)]

pub mod look;
pub mod reply;
pub mod serve;
