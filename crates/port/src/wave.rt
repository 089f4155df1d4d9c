//! A square wave, and its limits.
ghost use Rattle.std.specs.Prelude.{◌≡◌, ◌<◌, pos, ◌≤ℤ◌};
ghost use Rattle.port.specs.Wave.{sample, within_limits};

/// The largest amplitude, that of a 24-bit digitiser.
pub const MAX_AMPLITUDE: i32 = 8_388_607;

/// The longest half period.
pub const MAX_HALF_PERIOD: u32 = 10_000;

/// The most numbers of a wave.
pub const MAX_COUNT: u32 = 1_000_000;

/// A wave of `count` numbers, which is at `amplitude` for `half_period` numbers and then below zero for as
/// many, over and over.
#[derive(Clone, Copy, PartialEq, Eq, Debug)]
pub struct SquareWave {
    pub amplitude: i32,
    pub half_period: u32,
    pub count: u32,
}

impl SquareWave {
    /// Whether a calibrator gives this wave.
    pub fn is_within_limits(&self) -> bool
        ensures within { result ≡ within_limits self.now }
    {
        (0..=MAX_AMPLITUDE).contains(&self.amplitude)
            && (1..=MAX_HALF_PERIOD).contains(&self.half_period)
            && self.count <= MAX_COUNT
    }

    /// Number `i` of the wave.
    pub(crate) fn sample(&self, i: u32) -> i32
        requires amplitude { pos 0 ≤ℤ self.now.amplitude }
        requires half_period { 0 < self.now.half_period }
        ensures sample { result ≡ sample self.now i }
    {
        if (i / self.half_period) % 2 == 0 {
            self.amplitude
        } else {
            -self.amplitude
        }
    }
}
