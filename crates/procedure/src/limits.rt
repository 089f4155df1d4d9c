//! The limits of a procedure and of its run.

/// The most nodes of a procedure.
pub const MAX_NODES: usize = 1024;

/// The last of the names: names run from 1.
pub const LAST_NAME: u16 = 272;

/// The last of the predefined names; a procedure's own names follow it.
pub const LAST_PREDEFINED_NAME: u16 = 16;

/// The most levels of an expression, and the most levels to which statements nest.
pub const MAX_LEVELS: u16 = 32;

/// The most declarations that are open together.
pub const MAX_OPEN: usize = 256;

/// The most steps of a run.
pub const MAX_STEPS: u64 = 1_000_000_000;
