//! Looking at a row of a run.
ghost use Rattle.std.specs.Prelude.{◌≡◌};
ghost use Rattle.service.specs.Served.{looked};

use evaluator::Row;
use machine::run::Run;
use procedure::{Reason, Refusal};

/// The row of a number, counted from the bottom, where one is held and given.
pub fn look(run: &Run, rows: &[Row], r: usize) -> Result<Row, Refusal>
    ensures looked { result ≡ looked r (record { places = rows.now; held = run.now.shown.rows }) }
{
    let held = run.shown().rows;
    let row = rows.get(r).copied().filter(|_| r < held);
    row.ok_or(Reason::Absent.at(0))
}
