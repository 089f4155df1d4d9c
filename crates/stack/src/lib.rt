//! A stack over a slice that the caller supplies: last put, first off.
//!
//! Each call promises its answer, what every place of the slice holds after it, how many items
//! are held, and that it is still the same slice. Places above the stack are left as they are, and
//! a refusal alters nothing. No call asks anything of its caller. The laws of the items, read
//! oldest first and newest first, are proved once in `laws`. Items that have names are looked up by
//! name, the newest first, by `newest_named`. What the items mean is left to the crates that use
//! the stack.
#![tactic(auto)]

ghost use Rattle.std.specs.Prelude.{◌≤◌, length};

mod laws;
mod methods;
mod named;
mod slices;

pub use laws::views_hold;
pub use named::{Named, newest_named};

/// The refusal of an item for which no place is left.
#[derive(Clone, Copy, PartialEq, Eq, Debug)]
pub struct Full;

/// The refusal to replace an item that is not held.
#[derive(Clone, Copy, PartialEq, Eq, Debug)]
pub struct Absent;

/// The first `held` of `places`, the last of which is the top.
#[derive(Drop)]
pub struct Stack<'a, T> {
    places: &'a mut [T],
    held: usize,
    ghost within: { held ≤ length places.now },
}
