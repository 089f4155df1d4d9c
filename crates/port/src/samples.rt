//! The numbers of a square wave, one after another.
ghost use Rattle.std.specs.Prelude.{◌≡◌, ◌<◌, ◌≤◌, length, pos, ◌≤ℤ◌};

use crate::wave::SquareWave;

/// The numbers of a wave, from number `next` on.
#[derive(Drop)]
pub struct Samples {
    wave: SquareWave,
    next: u32,
    ghost within: { (pos 0 ≤ℤ wave.amplitude) × (0 < wave.half_period) × (next ≤ wave.count) },
}

impl Samples {
    ghost use Rattle.port.specs.Wave.{square_wave, samples_left};

    /// All numbers of the wave.
    pub(crate) fn of(wave: SquareWave) -> Samples
        requires amplitude { pos 0 ≤ℤ wave.amplitude }
        requires half_period { 0 < wave.half_period }
        ensures whole { samples_left result ≡ square_wave wave }
    {
        Samples { wave, next: 0 }
    }

    /// How many numbers are left.
    pub(crate) fn left(&self) -> u32
        ensures left { result ≡ length (samples_left self.now) }
    {
        self.wave.count - self.next
    }
}

impl Iterator for Samples {
    ghost use Rattle.std.specs.Iterator.{item_count, YieldsFirst};
    ghost use Rattle.port.specs.Wave.{samples_left};

    type Item = i32;

    ghost next_gives = { YieldsFirst samples_left };

    ghost remaining = { item_count samples_left };

    fn next(&mut self) -> Option<i32> {
        if self.next >= self.wave.count {
            return None;
        }
        let number = self.wave.sample(self.next);
        self.next += 1;
        Some(number)
    }
}
