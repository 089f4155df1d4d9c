//! The whole service.
ghost use Rattle.std.specs.Prelude.{◌≡◌, ◌≤◌, ◌++◌, length, drop, IfOk, IfErr, OnOk};
ghost use Rattle.port.specs.Meaning.{Meaning};
ghost use Rattle.machine.specs.Go.{state_of};
ghost use Rattle.soundness.specs.Sound.{after_call, after_calls};
ghost use Rattle.service.specs.Served.{reply_to, replies_to, room_for, served, with_tables, SoundThroughout};

use crate::look::look;
use crate::reply::{Done, Reply};
use checker::{Declaration, Sheet, check};
use evaluator::Row;
use machine::begin::begin;
use machine::frame::Frame;
use machine::go::go;
use machine::run::Run;
use port::Port;
use procedure::{Node, Reason, Refusal, demand};
use soundness::call::Call;

/// What was served: the sheet of the procedure, and its run after the last call.
pub struct Served {
    pub sheet: Sheet,
    pub run: Run,
}

/// Makes one call.
// What is lent stays apart, in parameters: fields of a struct that are lent together to `go` get no proof.
fn make_call<P: Port>(
    run: &mut Run,
    nodes: &[Node],
    rows: &mut [Row],
    frames: &mut [Frame],
    port: &mut P,
    call: Call,
) -> Reply
    ensures replied { result ≡ reply_to nodes.now call (state_of run.old rows.old frames.old (P.meaning port.old)) }
    ensures called { state_of run.new rows.new frames.new (P.meaning port.new)
        ≡ after_call nodes.now call (state_of run.old rows.old frames.old (P.meaning port.old)) }
{
    match call {
        Call::Go(budget) => {
            go(run, nodes, rows, frames, port, budget)?;
            Ok(Done::Went(run.shown()))
        }
        Call::Look(r) => look(run, rows, r).map(Done::Saw),
    }
}

/// Makes a list of calls, and leaves what each answers in the first places of `replies`.
fn make_calls<P: Port>(
    run: &mut Run,
    nodes: &[Node],
    rows: &mut [Row],
    frames: &mut [Frame],
    port: &mut P,
    calls: &[Call],
    replies: &mut [Reply],
)
    requires room { length calls.now ≤ length replies.old }
    ensures called { state_of run.new rows.new frames.new (P.meaning port.new)
        ≡ after_calls nodes.now calls.now (state_of run.old rows.old frames.old (P.meaning port.old)) }
    ensures replied { replies.new
        ≡ replies_to nodes.now calls.now (state_of run.old rows.old frames.old (P.meaning port.old))
        ++ drop (length calls.now) replies.old }
{
    // By index: what is written through a zipped `iter_mut` is not known behind the loop.
    for (i, call) in calls.iter().enumerate() {
        replies[i] = make_call(run, nodes, rows, frames, port, *call);
    }
}

/// Whether the tables have the places that the sheet and the calls ask for.
fn test_places(
    sheet: Sheet,
    rows: &[Row],
    frames: &[Frame],
    calls: &[Call],
    replies: &[Reply],
) -> Result<(), Refusal>
    ensures wanted { result ≡ room_for sheet (length rows.now) (length frames.now) (length calls.now) (length replies.now) }
    ensures room { OnOk result
        ((sheet.rows ≤ length rows.now) × (sheet.frames ≤ length frames.now) × (length calls.now ≤ length replies.now)) }
{
    demand(
        usize::from(sheet.rows) <= rows.len()
            && usize::from(sheet.frames) <= frames.len()
            && calls.len() <= replies.len(),
        Reason::Short,
        0,
    )
}

/// Checks a procedure, begins it with values, makes the calls in order, and leaves what each answers in the first places of
/// `replies`; `declarations` is working memory. A refused service leaves all else as it was. Each table is lent by its owner for the
/// call, and so is a parameter of its own.
pub fn serve<P: Port>(
    nodes: &[Node],
    values: &[i32],
    declarations: &mut [Declaration],
    rows: &mut [Row],
    frames: &mut [Frame],
    port: &mut P,
    calls: &[Call],
    replies: &mut [Reply],
) -> Result<Served, Refusal>
    ensures served { with_tables result rows.new frames.new (P.meaning port.new) replies.new
        ≡ served nodes.now (length declarations.old) values.now rows.old frames.old (P.meaning port.old) calls.now replies.old }
    ensures refused_leaves_all { IfErr result (λ _.
        (rows.new ≡ rows.old) × (frames.new ≡ frames.old) × (port.new ≡ port.old) × (replies.new ≡ replies.old)) }
    ensures sound_throughout { IfOk result (λ done.
        SoundThroughout nodes.now values.now rows.old frames.old (P.meaning port.old) calls.now done.sheet) }
{
    let sheet = check(nodes, declarations)?;
    test_places(sheet, rows, frames, calls, replies)?;
    let mut run = begin(nodes, values, rows)?;
    make_calls(&mut run, nodes, rows, frames, port, calls, replies);
    Ok(Served { sheet, run })
}
