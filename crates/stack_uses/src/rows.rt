//! Rows of names, looked up from the top.
ghost use Rattle.std.specs.Prelude.{◌≡◌, ◌<◌, ◌≤◌, true, false, [], ◌∷◌, length, pos, IfSome, MatchResult, OnErr};
ghost use Rattle.stack.specs.Acts.{taken_off, with_table};
ghost use Rattle.stack.specs.Stacks.{table, SameSlice};
ghost use Rattle.stack.specs.Tables.{newest, Kept};
ghost use Rattle.stack_uses.specs.Rows.{topmost, assigned, left};

use stack::{Absent, Full, Named, Stack, newest_named};

#[derive(Clone, Copy, PartialEq, Eq, Debug)]
pub struct Row {
    pub name: u16,
    pub constant: bool,
    pub value: i32,
}

impl Row {
    pub fn new(name: u16, constant: bool, value: i32) -> Row
        ensures { result ≡ record { name = name; constant = constant; value = value } }
    {
        Row {
            name,
            constant,
            value,
        }
    }
}

impl Named for Row {
    ghost named = { λ row. row.name };

    fn name(&self) -> u16 {
        self.name
    }
}

/// Over an array of its own: puts two, replaces the lower, takes the upper off, and puts another there.
pub fn work() -> [Row; 3]
    ensures { result ≡ record { name = 21; constant = true; value = pos 5 }
        ∷ record { name = 23; constant = false; value = pos 7 }
        ∷ record { name = 20; constant = false; value = pos 0 } ∷ [] }
{
    let mut places = [Row::new(20, false, 0); 3];
    let mut rows = Stack::of(&mut places, 0);
    let _ = rows.put(Row::new(21, true, 4));
    let _ = rows.put(Row::new(22, false, 6));
    let _ = rows.replace(0, Row::new(21, true, 5));
    let _ = rows.take_off();
    let _ = rows.put(Row::new(23, false, 7));
    places
}

/// Gives the topmost row of a name another value.
pub fn assign(rows: &mut Stack<Row>, name: u16, value: i32) -> Result<(), Absent>
    ensures answer { with_table result (table rows.new) ≡ assigned name value (table rows.old) }
    ensures refused { OnErr result (table rows.new ≡ table rows.old) }
    ensures same { SameSlice rows.old.places rows.new.places }
{
    let i = newest_named(rows.held_items(), name).ok_or(Absent)?;
    let row = rows.get(i).ok_or(Absent)?;
    rows.replace(i, Row { value, ..row })
}

/// Opens a row above the first `open` of a lent slice, and says how many are open then.
pub fn open_row(places: &mut [Row], open: usize, row: Row) -> Result<usize, Full>
    ensures opened { MatchResult result
        (λ n. newest n places.new ≡ row ∷ newest «open» places.old)
        (λ _. length places.old ≤ «open») }
    ensures below { Kept «open» places.old places.new }
{
    let mut stack = Stack::of(places, open);
    stack.put(row)?;
    Ok(stack.len())
}

/// Leaves a region: takes off how many rows it began with, and cuts the rows to as many.
pub fn leave(regions: &mut Stack<usize>, rows: &mut Stack<Row>)
    ensures regions { table regions.new ≡ taken_off (table regions.old) }
    ensures rows { table rows.new ≡ left (table regions.old) (table rows.old) }
    ensures same_regions { SameSlice regions.old.places regions.new.places }
    ensures same_rows { SameSlice rows.old.places rows.new.places }
{
    if let Some(held) = regions.take_off() {
        rows.cut(held);
    }
}

/// What the owner of both slices knows after a region was left.
pub fn own() -> ([usize; 2], usize)
    ensures { result ≡ (1 ∷ 0 ∷ [], 1) }
{
    let mut marks = [0; 2];
    let mut places = [Row::new(20, false, 0); 3];
    let mut regions = Stack::of(&mut marks, 0);
    let mut rows = Stack::of(&mut places, 2);
    let _ = regions.put(1);
    leave(&mut regions, &mut rows);
    let held = rows.len();
    (marks, held)
}
