//! The number that a word writes in decimal.
ghost use Rattle.std.specs.Prelude.{◌≡◌, ◌≤ℤ◌, IfOk};
ghost use Rattle.std.specs.Option.{option_map};
ghost use Rattle.files.specs.Held.{held, held_number};
ghost use Rattle.files.specs.Number.{natural_written, number_written, number_within};

/// Why a word is not read as a number.
#[derive(Clone, Copy, PartialEq, Eq, Debug)]
pub enum NumberFault {
    /// The word is not `-`, if at all, and then one or more digits.
    NoNumber,
    /// It writes a number out of the range that was asked for.
    OutOfRange,
}

/// More than the magnitude of any `i32`: a larger value need not be told from it.
const TOO_LARGE: u64 = 2147483649;

/// The natural number that the digits write, or `TOO_LARGE` where it is larger.
fn magnitude(digits: &[u8]) -> Option<u32>
    ensures { result ≡ option_map held (natural_written digits.now) }
{
    if digits.is_empty() {
        return None;
    }
    let mut value = 0;
    for byte in digits {
        let digit = char::from(*byte).to_digit(10)?;
        value = (10 * value + u64::from(digit)).min(TOO_LARGE);
    }
    Some(value as u32)
}

/// The number that the word writes, held just outside the range of `i32` where it lies farther out.
fn held_value(word: &[u8]) -> Option<i64>
    ensures { result ≡ option_map held_number (number_written word.now) }
{
    match word {
        [b'-', digits @ ..] => magnitude(digits).map(|size| -i64::from(size)),
        _ => magnitude(word).map(i64::from),
    }
}

/// The number that the word writes, where it lies from `low` to `high`. The word may have any number of digits.
pub fn read_number(word: &[u8], low: i32, high: i32) -> Result<i32, NumberFault>
    ensures as_written { result ≡ number_within low high (number_written word.now) }
    ensures in_range { IfOk result (λ z. (low ≤ℤ z) × (z ≤ℤ high)) }
{
    // `str::parse` takes a `+`, and stops at the digit that is too much, before a later byte that is no digit.
    let value = held_value(word).ok_or(NumberFault::NoNumber)?;
    if (i64::from(low)..=i64::from(high)).contains(&value) {
        Ok(value as i32)
    } else {
        Err(NumberFault::OutOfRange)
    }
}
