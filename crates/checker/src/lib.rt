//! The check: which procedures are allowed, the first fault of the others, and the sheet.
//!
//! `check` promises, for every slice of nodes and every working table, the answer that specs/Walk.antt defines: the sheet of a
//! procedure that passes, exact, or the first fault on the walk with its node. The walk goes over declarations, then statements, in
//! list order. What a name means is in specs/Names.antt, the types of expressions are in specs/Typing.antt, regions in
//! specs/Region.antt and costs in specs/Cost.antt.
//!
//! It also promises what that answer means. It passes exactly what the rules of specs/Allowed.antt allow, within the limits of
//! specs/Measure.antt, and refuses exactly with the first fault of specs/Faults.antt, or for size, form or ceiling.
//!
//! The open declarations lie in the working table that is supplied, by the generic stack; its contents are free afterwards. Costs
//! are held just above the limit of steps, so that nothing wraps whatever the nesting, and that changes no answer.
//!
//! Running a procedure is left to others.
#![tactic(auto)]

mod answer;
mod cost;
mod declarations;
mod names;
mod open_declarations;
mod region;
mod statements;
mod typing;
mod verdict;

pub use answer::Sheet;
pub use names::Declaration;
pub use verdict::check;
