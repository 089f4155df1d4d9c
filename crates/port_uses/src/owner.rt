//! Owners of ports.
ghost use Rattle.std.specs.Prelude.{◌≡◌};
ghost use Rattle.port.specs.Calibrator.{calibration};
ghost use Rattle.port.specs.Client.{counted};
ghost use Rattle.port.specs.Meaning.{at_start, first};
ghost use Rattle.port_uses.specs.Owner.{passed, first_counted, waited, read_front};

use port::client::{count_into, read_into};
use port::{Calibrator, Port, RecordPort, SquareWave};
use procedure::Refusal;

/// Passes the first of `numbers` on to the first of `places`.
pub fn pass_first(numbers: &[i32], places: &mut [i32])
    ensures places { places.new ≡ passed numbers.now places.old }
{
    let mut port = RecordPort::new(numbers, places);
    if let Some(number) = port.get() {
        let _ = port.put(number);
    }
}

/// The same, and hands the places on.
pub fn pass_first_on<'p>(numbers: &[i32], places: &'p mut [i32]) -> &'p mut [i32]
    ensures places { result.now ≡ passed numbers.now places.old }
{
    let mut record = RecordPort::new(numbers, places);
    if let Some(number) = record.get() {
        let _ = record.put(number);
    }
    record.into_places()
}

/// How many `numbers` there are, up to `limit`, as the client puts it.
pub fn count_record(numbers: &[i32], limit: u16) -> Option<i32>
    ensures first { result ≡ first (counted limit (at_start numbers.now 1)).taken }
{
    let mut places = [0; 1];
    let mut port = RecordPort::new(numbers, &mut places);
    let _ = count_into(&mut port, limit);
    port.taken().first().copied()
}

/// How many numbers of a wave there are, up to `limit`, as the same client puts it.
pub fn count_wave(wave: SquareWave, limit: u16) -> Result<Option<i32>, Refusal>
    ensures first { result ≡ first_counted limit (calibration wave) }
{
    let mut port = Calibrator::new(wave)?;
    let _ = count_into(&mut port, limit);
    Ok(port.taken().first().copied())
}

/// Reads the front of a wave into `numbers`, and tells how many numbers waited.
pub fn read_wave(wave: SquareWave, numbers: &mut [i32]) -> Result<u32, Refusal>
    ensures waited { result ≡ waited (calibration wave) }
    ensures front { numbers.new ≡ read_front (calibration wave) numbers.old }
{
    let mut port = Calibrator::new(wave)?;
    let waiting = port.waiting();
    read_into(&mut port, numbers);
    Ok(waiting)
}
