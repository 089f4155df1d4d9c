ghost use Rattle.std.specs.Prelude.{◌≡◌, length, take};
ghost use Rattle.port.specs.Client.{counted};
ghost use Rattle.port.specs.Meaning.{at_start};

use crate::owner::*;
use port::client::count_into;
use port::{RecordPort, SquareWave};
use procedure::{Reason, Refusal};

/// What a client leaves in `places`: the first hold what it put.
fn count_into_places<'p>(numbers: &[i32], places: &'p mut [i32], limit: u16) -> &'p mut [i32]
    ensures taken_first { take (length (counted limit (at_start numbers.now (length places.old))).taken) result.now ≡ (counted limit (at_start numbers.now (length places.old))).taken }
{
    let mut port = RecordPort::new(numbers, places);
    let _ = count_into(&mut port, limit);
    port.into_places()
}

/// A limit, and what the client counts up to it where five numbers wait.
const COUNTS: [(u16, i32); 5] = [(0, 0), (1, 1), (4, 4), (5, 5), (65535, 5)];

fn wave(amplitude: i32, half_period: u32, count: u32) -> SquareWave {
    SquareWave {
        amplitude,
        half_period,
        count,
    }
}

#[test]
fn client_at_both_ports(rt: HostRuntime) {
    for (limit, count) in COUNTS {
        let numbers = [5, 5, -5, -5, 5];
        let mut places = [7; 2];
        assert_eq!(rt; count_record(&numbers, limit), Some(count));
        assert_eq!(rt; count_wave(wave(5, 2, 5), limit), Ok(Some(count)));
        count_into_places(&numbers, &mut places, limit);
        assert_eq!(rt; places, [count, 7]);
    }
}

#[test]
fn front_of_a_wave(rt: HostRuntime) {
    let mut numbers = [0; 7];
    assert_eq!(rt; read_wave(wave(5, 2, 5), &mut numbers), Ok(5));
    assert_eq!(rt; numbers, [5, 5, -5, -5, 5, 0, 0]);
    assert_eq!(rt;
        read_wave(wave(8_388_607, 10_000, 1_000_000), &mut numbers),
        Ok(1_000_000)
    );
    assert_eq!(rt; numbers, [8_388_607; 7]);
}

/// Limits of which one is out of its range.
const OUT_OF_RANGE: [(i32, u32, u32); 5] = [
    (-1, 1, 0),
    (8_388_608, 1, 0),
    (0, 0, 0),
    (0, 10_001, 0),
    (0, 1, 1_000_001),
];

#[test]
fn limits_out_of_range(rt: HostRuntime) {
    let unset = Refusal {
        reason: Reason::Unset,
        node: 0,
    };
    for (amplitude, half_period, count) in OUT_OF_RANGE {
        assert_eq!(rt;
            count_wave(wave(amplitude, half_period, count), 1),
            Err(unset)
        );
    }
    assert_eq!(rt; unset.reason.number(), 16);
}

#[test]
fn places_of_a_record(rt: HostRuntime) {
    let mut places = [7; 3];
    pass_first(&[-2147483648, 1], &mut places);
    assert_eq!(rt; places, [-2147483648, 7, 7]);
    assert_eq!(rt;
        pass_first_on(&[], &mut places).first().copied(),
        Some(-2147483648)
    );
    assert_eq!(rt; pass_first_on(&[1], &mut []).first().copied(), None);
}
