//! The rows of a run: the objects that are open, each with its value.
ghost use Rattle.std.specs.Prelude.{◌≡◌, length};
ghost use Rattle.stack.specs.Tables.{newest};
ghost use Rattle.evaluator.specs.Rows.{topmost};

use procedure::types::Type;
use stack::{Named, newest_named};

/// An open object: its name, its type, whether it is constant, and its value. FALSE is 0 and TRUE is 1.
#[derive(Clone, Copy, PartialEq, Eq, Debug)]
pub struct Row {
    pub name: u16,
    pub of_type: Type,
    pub constant: bool,
    pub value: i32,
}

impl Named for Row {
    ghost named = { λ row. row.name };

    fn name(&self) -> u16 {
        self.name
    }
}

/// A row, and its place counted from the bottom.
#[derive(Clone, Copy, PartialEq, Eq, Debug)]
pub struct Placed {
    pub place: usize,
    pub row: Row,
}

/// The topmost row of a name.
pub fn find_topmost(rows: &[Row], name: u16) -> Option<Placed>
    ensures topmost { result ≡ topmost name (newest (length rows.now) rows.now) }
{
    let place = newest_named(rows, name)?;
    Some(Placed {
        place,
        row: rows[place],
    })
}
