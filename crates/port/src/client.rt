//! Clients that know of a port only what it means, so that they are right over every port.
ghost use Rattle.std.specs.Prelude.{◌≡◌, min, ◌++◌, length, take, drop};
ghost use Rattle.port.specs.Client.{after_gets, counted};
ghost use Rattle.port.specs.Meaning.{Meaning, put_answer};

use crate::port::Port;
use stack::Full;

/// Gets numbers into `numbers`, from its first place on, until it is full or none waits, and tells how
/// many it got.
pub fn read_into<P: Port>(port: &mut P, numbers: &mut [i32]) -> usize
    ensures answers { result ≡ min (length numbers.old) (length (P.meaning port.old).waiting) }
    ensures leaves { P.meaning port.new ≡ after_gets (length numbers.old) (P.meaning port.old) }
    ensures holds { numbers.new ≡ take result (P.meaning port.old).waiting ++ drop result numbers.old }
{
    for (i, place) in numbers.iter_mut().enumerate() {
        let Some(number) = port.get() else {
            return i;
        };
        *place = number;
    }
    numbers.len()
}

/// Gets up to `limit` numbers, and tells how many it got.
pub fn count_off<P: Port>(port: &mut P, limit: u32) -> u32
    ensures answers { result ≡ min limit (length (P.meaning port.old).waiting) }
    ensures leaves { P.meaning port.new ≡ after_gets limit (P.meaning port.old) }
{
    for count in 0..limit {
        let Some(_) = port.get() else {
            return count;
        };
    }
    limit
}

/// Gets up to `limit` numbers, and puts how many it got.
pub fn count_into<P: Port>(port: &mut P, limit: u16) -> Result<(), Full>
    ensures answers { result ≡ put_answer (P.meaning port.old) }
    ensures leaves { P.meaning port.new ≡ counted limit (P.meaning port.old) }
{
    let count = count_off(port, u32::from(limit));
    port.put(count as i32)
}
