//! What a procedure is: its table of nodes, how a call on it is refused, and the form test.
//!
//! A procedure is a table of numbered nodes in the Ada subset nanoAVA. `Node` is a row of that table as it is sent; `kind`,
//! `operator` and `types` read its numbers, each promising the case that its one definition in specs/ gives. `Refusal` is
//! the one answer of every call that is not taken: a reason with its number and word, and the node that it is about.
//!
//! `test_form` promises, for every slice of nodes, the verdict that specs/Form.antt defines, and what it means
//! (specs/Formed.antt): a table that passes breaks no rule and is a tree rooted at node 0; a table that is refused as misshapen
//! has its lowest broken node told. The work is linear in the number of nodes, and uses no heap.
//!
//! What a procedure means, which names and types are allowed in it, and what it needs to run is left to other crates.
#![tactic(auto)]

pub mod form;
pub mod kind;
mod layout;
mod level;
pub mod limits;
mod named_table;
pub mod names;
mod naming;
pub mod node;
pub mod operator;
pub mod refusal;
mod rules;
pub mod table;
pub mod types;
pub mod unlisted;

pub use form::{FormFault, find_form_fault, is_bulky, test_form};
pub use kind::Kind;
pub use node::Node;
pub use refusal::{Reason, Refusal, demand};
pub use rules::Rule;
pub use unlisted::Unlisted;
