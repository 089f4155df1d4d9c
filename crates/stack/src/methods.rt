//! What is done with a stack, and what it tells.
ghost use Rattle.std.specs.Prelude.{◌≡◌, ◌+◌, ◌<◌, ◌≤◌, length, MatchOption};
ghost use Rattle.stack.specs.Tables.{room, oldest_first, newest, newest_first};
ghost use Rattle.stack.specs.Acts.{holding, item, top, put, taken_off, replace, cut, with_table, Put, Replaced};
ghost use Rattle.stack.specs.Stacks.{table, SameSlice};

use super::{Absent, Full, Stack};
use crate::slices::{item_at, lowest};

impl<'a, T: Copy> Stack<'a, T> {
    /// The stack whose items are the first `held` of `places`, or all where there are fewer.
    pub fn of(places: &'a mut [T], held: usize) -> Stack<'a, T>
        ensures table { table result ≡ holding held places.old }
        ensures same { SameSlice places.entry result.places }
    {
        let held = held.min(places.len());
        Stack { places, held }
    }

    /// How many items are held.
    pub fn len(&self) -> usize
        ensures held { result ≡ self.now.held }
    {
        self.held_items().len()
    }

    /// How many more items find a place.
    pub fn room(&self) -> usize
        ensures room { result ≡ room (table self.now) }
    {
        self.places.len() - self.held
    }

    /// Puts `x` on top, or refuses it where no place is left.
    pub fn put(&mut self, x: T) -> Result<(), Full>
        ensures answer { with_table result (table self.new) ≡ put x (table self.old) }
        ensures cases { Put x (table self.old) (table self.new) result }
        ensures same { SameSlice self.old.places self.new.places }
    {
        if self.held < self.places.len() {
            self.places[self.held] = x;
            self.held += 1;
            Ok(())
        } else {
            Err(Full)
        }
    }

    /// Takes the top off.
    pub fn take_off(&mut self) -> Option<T>
        ensures answer { result ≡ top (table self.old) }
        ensures table { table self.new ≡ taken_off (table self.old) }
        ensures held { MatchOption result (self.old.held ≡ 0) (λ _. self.old.held ≡ self.new.held + 1) }
        ensures same { SameSlice self.old.places self.new.places }
    {
        let top = self.top()?;
        self.held -= 1;
        Some(top)
    }

    /// The item on top.
    pub fn top(&self) -> Option<T>
        ensures answer { result ≡ top (table self.now) }
        ensures held { MatchOption result (self.now.held ≡ 0) (λ _. 0 < self.now.held) }
    {
        let last = self.held.checked_sub(1)?;
        self.get(last)
    }

    /// The item at `i`, counted from the bottom.
    pub fn get(&self, i: usize) -> Option<T>
        ensures answer { result ≡ item i (table self.now) }
        ensures held { MatchOption result (self.now.held ≤ i) (λ _. i < self.now.held) }
    {
        item_at(self.held_items(), i)
    }

    /// Writes `x` over the item at `i`, or refuses where no item is held there.
    pub fn replace(&mut self, i: usize, x: T) -> Result<(), Absent>
        ensures answer { with_table result (table self.new) ≡ replace i x (table self.old) }
        ensures cases { Replaced i x (table self.old) (table self.new) result }
        ensures same { SameSlice self.old.places self.new.places }
    {
        if i < self.held {
            self.places[i] = x;
            Ok(())
        } else {
            Err(Absent)
        }
    }

    /// Leaves the lowest `n` items, or all where there are fewer.
    pub fn cut(&mut self, n: usize)
        ensures table { table self.new ≡ cut n (table self.old) }
        ensures same { SameSlice self.old.places self.new.places }
    {
        self.held = self.held.min(n);
    }

    /// The items, the top last.
    pub fn held_items(&self) -> &[T]
        ensures items { result.now ≡ oldest_first (table self.now) }
        ensures held { length result.now ≡ self.now.held }
        ensures newest { newest (length result.now) result.now ≡ newest_first (table self.now) }
    {
        lowest(self.places, self.held)
    }

    /// Hands the slice on.
    pub fn into_places(self) -> &'a mut [T]
        ensures places { result.now ≡ self.entry.places.now }
        ensures same { SameSlice self.entry.places result }
    {
        let Stack { places, held: _ } = self;
        places
    }
}
