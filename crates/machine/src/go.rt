//! Going for a budget of steps.
ghost use Rattle.std.specs.Prelude.{◌≡◌, ◌+◌, ◌≤◌, length, IfErr, OnOk};
ghost use Rattle.port.specs.Meaning.{Meaning};
ghost use Rattle.machine.specs.Counts.{Counted};
ghost use Rattle.machine.specs.Go.{state_of, going, go_answer, gone};
ghost use Rattle.machine.specs.Machines.{state, SameLoans};

use crate::frame::Frame;
use crate::machine::Machine;
use crate::run::{Run, Shown};
use evaluator::Row;
use port::Port;
use procedure::limits::MAX_STEPS;
use procedure::{Node, Reason, Refusal, demand, is_bulky};
use stack::Stack;

impl<P: Port> Machine<'_, '_, '_, '_, '_, P> {
    /// Makes steps until the budget is used or the run is no longer PAUSED.
    fn advance(&mut self, nodes: &[Node], budget: u64)
        requires few { budget + self.old.progress.steps ≤ 1000000000 }
        requires counted { Counted self.old.progress }
        ensures gone { state P.meaning self.new ≡ going budget nodes.now (state P.meaning self.old) }
        ensures counted { Counted self.new.progress }
        ensures same { SameLoans self.old self.new }
    {
        for _ in 0..budget {
            if !self.progress.outcome.is_paused() {
                return;
            }
            self.step(nodes);
        }
    }
}

/// Whether a go for a budget is taken, with so many places for rows and frames.
fn admit(
    run: &Run,
    nodes: &[Node],
    rows: &[Row],
    frames: &[Frame],
    budget: u64,
) -> Result<(), Refusal>
    ensures answered { (port : Meaning) → result ≡ go_answer budget nodes.now (state_of run.now rows.now frames.now port) }
    ensures admitted { OnOk result ((budget + run.now.shown.progress.steps ≤ 1000000000)
        × (run.now.shown.rows ≤ length rows.now) × (run.now.shown.frames ≤ length frames.now)) }
{
    demand(!is_bulky(nodes), Reason::Bulky, 0)?;
    demand(run.shown.progress.outcome.is_paused(), Reason::Over, 0)?;
    demand(
        budget.saturating_add(run.shown.progress.steps) <= MAX_STEPS,
        Reason::Overdrawn,
        0,
    )?;
    demand(
        run.shown.rows <= rows.len() && run.shown.frames <= frames.len(),
        Reason::Short,
        0,
    )
}

/// Lets a run go until the budget is used or the outcome is not PAUSED. A refused go leaves all as it was.
pub fn go<P: Port>(
    run: &mut Run,
    nodes: &[Node],
    rows: &mut [Row],
    frames: &mut [Frame],
    port: &mut P,
    budget: u64,
) -> Result<(), Refusal>
    ensures answered { result ≡ go_answer budget nodes.now (state_of run.old rows.old frames.old (P.meaning port.old)) }
    ensures gone { state_of run.new rows.new frames.new (P.meaning port.new)
        ≡ gone budget nodes.now (state_of run.old rows.old frames.old (P.meaning port.old)) }
    ensures refused_leaves_all { IfErr result (λ _.
        (run.new ≡ run.old) × (rows.new ≡ rows.old) × (frames.new ≡ frames.old) × (port.new ≡ port.old)) }
{
    admit(run, nodes, rows, frames, budget)?;
    let mut row_stack = Stack::of(rows, run.shown.rows);
    let mut frame_stack = Stack::of(frames, run.shown.frames);
    let mut machine = Machine {
        progress: run.shown.progress,
        rows: &mut row_stack,
        frames: &mut frame_stack,
        port,
    };
    machine.advance(nodes, budget);
    run.shown = Shown {
        progress: machine.progress,
        rows: row_stack.len(),
        frames: frame_stack.len(),
    };
    Ok(())
}
