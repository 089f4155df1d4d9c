//! `station calibrate A H K [N]`: the numbers that wait at a calibrator.
ghost use Rattle.std.specs.Prelude.{◌≡◌};
ghost use Rattle.std.specs.Result.{result_map_both};
ghost use Rattle.station.specs.Calibrate.{number_from, unsigned_of};
ghost use Rattle.station.specs.declared.failure.Failure.TheVariants.{Operand};

use crate::failure::Failure;
use files::read_number;
use port::{Calibrator, Port, SquareWave};
use std::io;

/// How many numbers are printed where the command does not say.
const SHOWN: i32 = 20;

/// Prints how many numbers wait, and the first of them: as many as the word behind the three limits says.
pub(crate) fn run_calibrate<'a>(
    rt: &HostRuntime,
    [amplitude, half_period, count]: [&'a String; 3],
    more: &'a [String],
) -> Result<(), Failure<'a>> {
    let amplitude = read_operand("A", i32::MIN, amplitude.as_str())?;
    let half_period = read_operand("H", i32::MIN, half_period.as_str())?;
    let count = read_operand("K", i32::MIN, count.as_str())?;
    let shown = match more {
        [word, ..] => read_operand("N", 0, word.as_str())?,
        [] => SHOWN,
    };
    let calibrator = Calibrator::new(SquareWave {
        amplitude,
        half_period: unsigned(half_period),
        count: unsigned(count),
    })?;
    print_waiting(rt, calibrator, shown)?;
    Ok(())
}

/// The number that a word writes, from `low` up.
fn read_operand<'a>(name: &'static str, low: i32, word: &'a str) -> Result<i32, Failure<'a>>
    ensures as_written { result ≡ result_map_both (λ z. z) (Operand name.entry word.entry) (number_from low word.now) }
{
    read_number(word.as_bytes(), low, i32::MAX).map_err(|fault| Failure::Operand {
        name,
        word,
        fault,
    })
}

/// The number, or one that is above every limit where it is below 0.
fn unsigned(number: i32) -> u32
    ensures held { result ≡ unsigned_of number }
{
    u32::try_from(number).unwrap_or(u32::MAX)
}

/// Prints how many numbers wait, and the first of them, got one by one from the port.
fn print_waiting(rt: &HostRuntime, mut calibrator: Calibrator, shown: i32) -> io::Result<()> {
    let waiting = calibrator.waiting();
    println!(rt; "waiting: {waiting}")?;
    for number in (0..shown).map_while(|_| calibrator.get()) {
        println!(rt; "{number}")?;
    }
    Ok(())
}
