//! Looking up by name.
ghost use Rattle.std.specs.Prelude.{◌≡◌, ℕ, ◌<◌, length, IfSome};
ghost use Rattle.stack.specs.Lookup.{place_of};
ghost use Rattle.stack.specs.Tables.{newest};

/// What is looked up by its name.
pub trait Named {
    // The name that an item has.
    ghost named: { Self → ℕ };

    /// Its name.
    fn name(&self) -> u16
        ensures name { result ≡ named self.now };
}

/// The place of the newest item of a name, counted from the bottom.
pub fn newest_named<T: Named>(items: &[T], name: u16) -> Option<usize>
    ensures place { result ≡ place_of T.named name (newest (length items.now) items.now) }
    ensures within { IfSome result (λ i. i < length items.now) }
{
    items.iter().rposition(|item| item.name() == name)
}
