use crate::rows::Row;
use crate::{numbers, rows};
use stack::{Absent, Stack};

#[derive(Clone, Copy)]
enum Act {
    Put(u16),
    TakeOff,
    Replace(usize, u16),
    Cut(usize),
}

/// Does an act, and says whether it was refused.
fn refuses(stack: &mut Stack<u16>, act: Act) -> bool {
    match act {
        Act::Put(x) => stack.put(x).is_err(),
        Act::TakeOff => stack.take_off().is_none(),
        Act::Replace(i, x) => stack.replace(i, x).is_err(),
        Act::Cut(n) => {
            stack.cut(n);
            false
        }
    }
}

#[test]
fn numbers_are_stacked(rt: HostRuntime) {
    let mut places = [0; 2];
    let mut stack = Stack::of(&mut places, 0);
    for (act, refused, held, top) in [
        (Act::TakeOff, true, 0, None),
        (Act::Put(5), false, 1, Some(5)),
        (Act::Put(6), false, 2, Some(6)),
        (Act::Put(7), true, 2, Some(6)),
        (Act::Replace(0, 8), false, 2, Some(6)),
        (Act::Replace(2, 9), true, 2, Some(6)),
        (Act::Cut(3), false, 2, Some(6)),
        (Act::Cut(1), false, 1, Some(8)),
        (Act::Replace(1, 9), true, 1, Some(8)),
    ] {
        assert_eq!(rt; refuses(&mut stack, act), refused);
        assert_eq!(rt;
            (stack.len(), stack.room(), stack.top()),
            (held, 2 - held, top)
        );
    }
    assert_eq!(rt; stack.get(0), Some(8));
    numbers::empty(&mut stack);
    assert_eq!(rt; stack.top(), None);
    assert_eq!(rt; numbers::work(), ([5, 8, 7, 0], Some(6)));
}

#[test]
fn rows_are_stacked(rt: HostRuntime) {
    let mut places = rows::work();
    let [lower, upper, blank] = places;
    assert_eq!(rt; blank, Row::new(20, false, 0));
    let mut stack = Stack::of(&mut places, 2);
    assert_eq!(rt; rows::assign(&mut stack, 21, 8), Ok(()));
    assert_eq!(rt; rows::assign(&mut stack, 22, 8), Err(Absent));
    assert_eq!(rt; places, [Row { value: 8, ..lower }, upper, blank]);
}
