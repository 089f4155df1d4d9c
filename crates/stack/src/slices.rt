//! What is read of a slice.
ghost use Rattle.std.specs.Prelude.{◌≡◌, ◌<◌, ◌≤◌, length, take, MatchOption};
ghost use Rattle.std.specs.List.{slice_get};
ghost use Rattle.stack.specs.Tables.{newest};

/// The lowest `n`.
pub fn lowest<T>(places: &[T], n: usize) -> &[T]
    requires { n ≤ length places.now }
    ensures items { result.now ≡ take n places.now }
    ensures held { length result.now ≡ n }
    ensures newest { newest (length result.now) result.now ≡ newest n places.now }
{
    &places[0..n]
}

/// The item at `i`.
pub fn item_at<T: Copy>(items: &[T], i: usize) -> Option<T>
    ensures item { result ≡ slice_get items.now i }
    ensures within { MatchOption result (length items.now ≤ i) (λ _. i < length items.now) }
{
    items.get(i).copied()
}
