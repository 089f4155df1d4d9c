//! A stack of numbers.
ghost use Rattle.std.specs.Prelude.{◌≡◌, ◌+◌, ◌≤◌, [], ◌∷◌, length, Some, MatchResult, slice_set};
ghost use Rattle.stack.specs.Acts.{cut};
ghost use Rattle.stack.specs.Stacks.{table, SameSlice};

use stack::{Full, Stack};

/// Over an array of its own: puts three, cuts to two, takes one off, and puts another there.
pub fn work() -> ([u16; 4], Option<u16>)
    ensures { result ≡ (5 ∷ 8 ∷ 7 ∷ 0 ∷ [], Some 6) }
{
    let mut places = [0; 4];
    let mut stack = Stack::of(&mut places, 0);
    let _ = stack.put(5);
    let _ = stack.put(6);
    let _ = stack.put(7);
    stack.cut(2);
    let off = stack.take_off();
    let _ = stack.put(8);
    (places, off)
}

/// Puts two above the first `held` of a lent slice, and hands the slice on.
pub fn put_two(places: &mut [u16], held: usize, x: u16, y: u16) -> Result<&mut [u16], Full>
    ensures { MatchResult result
        (λ s. (held + 2 ≤ length places.old) × (s.now ≡ slice_set (slice_set places.old held x) (held + 1) y))
        (λ _. length places.old ≤ held + 1) }
{
    let mut stack = Stack::of(places, held);
    stack.put(x)?;
    stack.put(y)?;
    Ok(stack.into_places())
}

/// Takes all off, one by one.
pub fn empty(stack: &mut Stack<u16>)
    ensures table { table stack.new ≡ cut 0 (table stack.old) }
    ensures same { SameSlice stack.old.places stack.new.places }
{
    while stack.take_off().is_some() {}
}
