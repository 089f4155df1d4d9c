//! The calibrator: its making and its calls.
ghost use Rattle.std.specs.Prelude.{◌≡◌, length, pos};
ghost use Rattle.port.specs.Calibrator.{calibrator_meaning, meaning_of, calibration, Wave525Waits, wave525};
ghost use Rattle.port.specs.Wave.{square_wave};

use super::Calibrator;
use crate::port::Port;
use crate::samples::Samples;
use crate::wave::SquareWave;
use arrayvec::ArrayVec;
use procedure::{Reason, Refusal};
use stack::Full;

impl Calibrator {
    /// The wave waits, nothing is taken, and all places are left; or a limit is out of its range.
    pub fn new(wave: SquareWave) -> Result<Calibrator, Refusal>
        ensures starts { meaning_of result ≡ calibration wave }
    {
        if !wave.is_within_limits() {
            return Err(Reason::Unset.at(0));
        }
        Ok(Calibrator {
            samples: Samples::of(wave),
            taken: ArrayVec::new(),
        })
    }

    /// How many numbers wait.
    pub fn waiting(&self) -> u32
        ensures waiting { result ≡ length (calibrator_meaning self.now).waiting }
    {
        self.samples.left()
    }

    /// The numbers taken, the first one first.
    pub fn taken(&self) -> &[i32]
        ensures taken { result.now ≡ (calibrator_meaning self.now).taken }
    {
        self.taken.as_slice()
    }
}

impl Port for Calibrator {
    ghost meaning = { calibrator_meaning };

    fn get(&mut self) -> Option<i32> {
        self.samples.next()
    }

    fn put(&mut self, number: i32) -> Result<(), Full> {
        self.taken.try_push(number).map_err(|_| Full)
    }
}

/// The numbers that wait at a calibrator of amplitude 5, half period 2 and count 5.
pub fn example_wave() -> [i32; 5]
    ensures shown { Wave525Waits }
    ensures numbers { result ≡ square_wave wave525 }
{
    [5, 5, -5, -5, 5]
}
