//! The value of an expression, by the rows that a run holds.
//!
//! `evaluate_root` promises, for every table, every slice of rows and every node, the value or the fault that
//! specs/Evaluate.antt defines: also for a table that no test has seen. A name is its topmost row; operands come left, then right,
//! then the operator, and both are always evaluated. What operators give is in specs/Operators.antt.
//!
//! An arithmetic fault lies inside an expression fault, with the node of its operator. What a statement does with a value, and
//! how a fault ends a run, is left to the run.
#![tactic(auto)]

mod evaluate;
mod fault;
mod operators;
mod rows;
mod value;

pub use evaluate::evaluate_root;
pub use fault::ExpressionFault;
pub use rows::{Placed, Row, find_topmost};
pub use value::Value;
