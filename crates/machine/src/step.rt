//! One step of a run.
ghost use Rattle.std.specs.Prelude.{◌≡◌, ◌+◌, ◌<◌};
ghost use Rattle.stack.specs.Acts.{cut};
ghost use Rattle.stack.specs.Stacks.{table, SameSlice};
ghost use Rattle.port.specs.Meaning.{get_answer, put_answer};
ghost use Rattle.machine.specs.Counts.{Counted};
ghost use Rattle.machine.specs.Machines.{state, SameLoans};
ghost use Rattle.machine.specs.State.{pushed, rewritten, received, sent, acted, concluded, stepped};

use crate::act::Act;
use crate::due::Due;
use crate::fault::StepFault;
use crate::machine::Machine;
use crate::outcome::Outcome;
use evaluator::{Placed, Row, Value};
use port::Port;
use procedure::Node;
use stack::Stack;

/// Puts an item on top, where a place is left.
fn push<T: Copy>(stack: &mut Stack<T>, x: T)
    ensures pushed { table stack.new ≡ pushed x (table stack.old) }
    ensures same { SameSlice stack.old.places stack.new.places }
{
    let _ = stack.put(x);
}

/// Writes a row over the one at its place, where one is held.
fn rewrite(rows: &mut Stack<Row>, placed: Placed)
    ensures rewritten { table rows.new ≡ rewritten placed.place placed.row (table rows.old) }
    ensures same { SameSlice rows.old.places rows.new.places }
{
    let _ = rows.replace(placed.place, placed.row);
}

/// Writes a row over the one at its place, and leaves none above it.
fn rewrite_top(rows: &mut Stack<Row>, placed: Placed)
    ensures rewritten { table rows.new ≡ cut (placed.place + 1) (rewritten placed.place placed.row (table rows.old)) }
    ensures same { SameSlice rows.old.places rows.new.places }
{
    if rows.replace(placed.place, placed.row).is_ok() {
        rows.cut(placed.place + 1);
    }
}

impl<P: Port> Machine<'_, '_, '_, '_, '_, P> {
    /// Gets a number for the row at its place. It has left the port and is counted also where the row cannot hold it.
    fn receive(&mut self, placed: Placed, to: u16) -> Result<Option<u16>, StepFault>
        requires counted { Counted self.old.progress }
        ensures received { concluded result (state P.meaning self.new)
            ≡ received (get_answer (P.meaning self.old.port.now)) placed to (state P.meaning self.old) }
        ensures same { SameLoans self.old self.new }
    {
        let Some(number) = self.port.get() else {
            return Err(StepFault::NothingWaits);
        };
        self.progress.reads += 1;
        let Placed { place, row } = placed;
        if Value::of_number(number, row.of_type).is_none() {
            return Err(StepFault::NotBoolean);
        }
        let row = Row {
            value: number,
            ..row
        };
        rewrite(self.rows, Placed { place, row });
        Ok(Some(to))
    }

    /// Puts a number to the port.
    fn send(&mut self, number: i32, to: u16) -> Result<Option<u16>, StepFault>
        requires counted { Counted self.old.progress }
        ensures sent { concluded result (state P.meaning self.new)
            ≡ sent (put_answer (P.meaning self.old.port.now)) number to (state P.meaning self.old) }
        ensures same { SameLoans self.old self.new }
    {
        self.port.put(number).map_err(|_| StepFault::NoPlace)?;
        self.progress.writes += 1;
        Ok(Some(to))
    }

    /// Carries out an act. Answers the node that the run goes to, or none where it is done.
    fn carry_out(&mut self, act: Act) -> Result<Option<u16>, StepFault>
        requires counted { Counted self.old.progress }
        ensures acted { concluded result (state P.meaning self.new) ≡ acted act (state P.meaning self.old) }
        ensures same { SameLoans self.old self.new }
    {
        let to = match act {
            Act::Done => return Ok(None),
            Act::Get(placed, to) => return self.receive(placed, to),
            Act::Put(number, to) => return self.send(number, to),
            Act::Pass(to) => to,
            Act::Declare(row, to) => {
                push(self.rows, row);
                to
            }
            Act::Assign(placed, to) => {
                rewrite(self.rows, placed);
                to
            }
            Act::Enter(frame, to) => {
                push(self.frames, frame);
                to
            }
            Act::Loop(frame, row, to) => {
                push(self.rows, row);
                push(self.frames, frame);
                to
            }
            Act::Turn(placed, to) => {
                rewrite_top(self.rows, placed);
                to
            }
            Act::Leave(count, to) => {
                self.rows.cut(count);
                let _ = self.frames.take_off();
                to
            }
        };
        Ok(Some(to))
    }

    /// Decides on the act that is due, and carries it out.
    fn perform(&mut self, nodes: &[Node]) -> Result<Option<u16>, StepFault>
        requires counted { Counted self.old.progress }
        ensures performed { concluded result (state P.meaning self.new) ≡ stepped nodes.now (state P.meaning self.old) }
        ensures same { SameLoans self.old self.new }
    {
        let due = Due {
            nodes,
            rows: &*self.rows,
            frames: &*self.frames,
            at: self.progress.at,
        };
        let act = due.decide()?;
        self.carry_out(act)
    }

    /// One step: it counts, and then the run goes on, is done or has failed.
    pub fn step(&mut self, nodes: &[Node])
        requires few { self.old.progress.steps < 1000000000 }
        requires counted { Counted self.old.progress }
        ensures stepped { state P.meaning self.new ≡ stepped nodes.now (state P.meaning self.old) }
        ensures same { SameLoans self.old self.new }
    {
        let conclusion = self.perform(nodes);
        self.progress.steps += 1;
        match conclusion {
            Ok(Some(to)) => self.progress.at = to,
            Ok(None) => self.progress.outcome = Outcome::Done,
            Err(fault) => {
                let ending = fault.ending(self.progress.at);
                self.progress.outcome = ending.outcome;
                self.progress.cause = Some(ending.cause);
                self.progress.node = ending.node;
            }
        }
    }
}
