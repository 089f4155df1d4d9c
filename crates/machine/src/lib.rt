//! The run of a procedure: beginning it, and letting it go for a budget of steps.
//!
//! `begin` and `go` promise, for every table, also one that no test has seen, every run, every content of rows and frames and
//! every port, the answer that specs/Begin.antt and specs/Go.antt define, and what the run, every place of both tables and the
//! port's meaning are afterwards. A refused call leaves all as it was. Rows and frames lie in slices that are supplied, by the
//! generic stack.
//!
//! One step is one definition (`stepped`, specs/State.antt): what stands at the node due decides on an act or a fault (`decided`,
//! specs/Decide.antt), and the act, or the end that the fault makes of the run (specs/Outcomes.antt), is carried out. In the code an
//! act answers the node that the run goes to, or a fault, and the step alone counts steps and concludes (`concluded`). Going is so many
//! steps while the run is PAUSED. The code is written for every `Port` and knows only what the port means.
//!
//! Which procedures are allowed is left to the check, and what holds of their runs to the crates above.
#![tactic(auto)]

mod act;
pub mod begin;
mod decide;
mod due;
pub mod fault;
pub mod frame;
pub mod go;
mod list_end;
mod machine;
mod mark;
pub mod outcome;
mod parameters;
pub mod progress;
pub mod run;
mod step;
