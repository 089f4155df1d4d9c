//! The calls that are made of a run.

/// A call of a run: it goes for a budget of steps, or shows a row.
#[derive(Clone, Copy, PartialEq, Eq, Debug)]
pub enum Call {
    Go(u64),
    Look(usize),
}
