//! The calibrator, a square wave to test a station with: its fields and what always holds of them.
ghost use Rattle.std.specs.Prelude.{◌≤◌, length};

use crate::samples::Samples;
use arrayvec::ArrayVec;

pub mod methods;

pub use crate::wave::{MAX_AMPLITUDE, MAX_COUNT, MAX_HALF_PERIOD};
pub use methods::example_wave;

/// The places of a calibrator.
pub const PLACES: usize = 256;

/// A port that computes what waits, and has places of its own for the numbers taken.
#[derive(Drop)]
pub struct Calibrator {
    samples: Samples,
    taken: ArrayVec<i32, PLACES>,
    ghost within: { length taken.items ≤ 256 },
}
