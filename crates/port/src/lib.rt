//! Ports: where a procedure gets its samples, and where it puts its results.
//!
//! A port means three things: the numbers that wait and the numbers taken, signed ones of 32 bits, each
//! in order, and how many places are left. `get` answers the first waiting number and takes it off, or,
//! exactly if none waits, answers nothing and alters nothing. `put` adds a number to the end of those
//! taken and uses one place, or, exactly if no place is left, refuses and alters nothing. Neither
//! touches the other side. Code that is written for every `Port` knows this and nothing else.
//!
//! Two ports stand here, and each promises what it means when it is made. `RecordPort` lies over memory
//! that its owner lends: a list that waits, and places for what it takes. `Calibrator` computes a square
//! wave, and has 256 places of its own. Each call promises its answer and what the port means
//! afterwards, for every input. A record port promises as well what every place of its slice holds, and
//! that it is still the same slice, so that its owner knows the slice after calls of its own. After a
//! client that is written for every port the owner knows what the port means, and so the numbers taken.
//!
//! `client` reads and counts at any port. What the numbers mean to a procedure is left to the crates
//! that run one, and so is printing.
#![tactic(auto)]

pub mod calibrator;
pub mod client;
pub mod port;
pub mod record;
mod samples;
pub mod wave;

pub use calibrator::Calibrator;
pub use port::Port;
pub use record::RecordPort;
pub use stack::Full;
pub use wave::SquareWave;
