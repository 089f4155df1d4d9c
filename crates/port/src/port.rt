//! What every port promises.
ghost use Rattle.std.specs.Prelude.{◌≡◌};
ghost use Rattle.port.specs.Meaning.{Meaning, get_answer, after_get, put_answer, after_put};

pub use stack::Full;

/// A side that gives numbers, and a side that takes them.
pub trait Port {
    // The numbers that wait, the numbers taken, and the places left.
    ghost meaning: { Self → Meaning };

    /// Takes the first waiting number off and answers it, or answers nothing where none waits.
    fn get(&mut self) -> Option<i32>
        ensures answers { result ≡ get_answer (meaning self.old) }
        ensures leaves { meaning self.new ≡ after_get (meaning self.old) };

    /// Adds `number` to the end of those taken, or refuses it where no place is left.
    fn put(&mut self, number: i32) -> Result<(), Full>
        ensures answers { result ≡ put_answer (meaning self.old) }
        ensures leaves { meaning self.new ≡ after_put number (meaning self.old) };
}
