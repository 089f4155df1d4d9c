//! The record port, over memory that its owner lends.
ghost use Rattle.std.specs.Prelude.{◌≡◌, ◌≤◌, length, take, slice_set};

use crate::port::Port;
use stack::{Full, Stack};

/// A port over memory that its owner lends: the numbers of `waiting` wait, and the first `used` of
/// `places` hold those taken.
// Not a `Stack` in a field: an owner who lets the port go would not know what its slice holds.
#[derive(Drop)]
pub struct RecordPort<'w, 'p> {
    waiting: &'w [i32],
    places: &'p mut [i32],
    used: usize,
    ghost within: { used ≤ length places.now },
}

impl<'w, 'p> RecordPort<'w, 'p> {
    ghost use Rattle.port.specs.Meaning.{Meaning, at_start};
    ghost use Rattle.port.specs.Record.{record_meaning};
    ghost use Rattle.stack.specs.Stacks.{SameSlice};

    /// All of `waiting` waits, nothing is taken, and all of `places` are left.
    pub fn new(waiting: &'w [i32], places: &'p mut [i32]) -> RecordPort<'w, 'p>
        ensures starts { record_meaning result ≡ at_start waiting.now (length places.old) }
        ensures places { result.places.now ≡ places.old }
        ensures same_slice { SameSlice places.entry result.places }
    {
        RecordPort {
            waiting,
            places,
            used: 0,
        }
    }

    /// The numbers taken, the first one first.
    pub fn taken(&self) -> &[i32]
        ensures taken { result.now ≡ (record_meaning self.now).taken }
    {
        &self.places[0..self.used]
    }

    /// Hands the places on: the first hold the numbers taken, and those above what was supplied.
    pub fn into_places(self) -> &'p mut [i32]
        ensures taken_first { take (length (record_meaning self.entry).taken) result.now ≡ (record_meaning self.entry).taken }
        ensures places { result.now ≡ self.entry.places.now }
        ensures same_slice { SameSlice self.entry.places result }
    {
        let RecordPort {
            waiting: _,
            places,
            used: _,
        } = self;
        places
    }
}

/// A get alters no place. A put writes one place, the one after the numbers taken, or none where it
/// refuses.
impl Port for RecordPort<'_, '_> {
    ghost use Rattle.port.specs.Meaning.{get_answer, after_get, put_answer, after_put};
    ghost use Rattle.port.specs.Record.{record_meaning};
    ghost use Rattle.stack.specs.Stacks.{SameSlice};

    ghost meaning = { record_meaning };

    fn get(&mut self) -> Option<i32>
        ensures answers { result ≡ get_answer (record_meaning self.old) }
        ensures leaves { record_meaning self.new ≡ after_get (record_meaning self.old) }
        ensures places { self.new.places.now ≡ self.old.places.now }
        ensures same_slice { SameSlice self.old.places self.new.places }
    {
        let (number, rest) = self.waiting.split_first()?;
        self.waiting = rest;
        Some(*number)
    }

    fn put(&mut self, number: i32) -> Result<(), Full>
        ensures answers { result ≡ put_answer (record_meaning self.old) }
        ensures leaves { record_meaning self.new ≡ after_put number (record_meaning self.old) }
        ensures places { self.new.places.now ≡ slice_set self.old.places.now (length (record_meaning self.old).taken) number }
        ensures same_slice { SameSlice self.old.places self.new.places }
    {
        // A name of its own, so that it is known what the stack wrote.
        let places = &mut *self.places;
        let mut taken = Stack::of(places, self.used);
        taken.put(number)?;
        self.used = taken.len();
        Ok(())
    }
}
