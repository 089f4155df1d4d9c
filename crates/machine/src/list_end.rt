//! The step at a list's end.
ghost use Rattle.std.specs.Prelude.{◌≡◌, Some};
ghost use Rattle.stack.specs.Acts.{top};
ghost use Rattle.stack.specs.Stacks.{table};
ghost use Rattle.machine.specs.Decide.{turns, list_end};

use crate::act::Act;
use crate::due::Due;
use crate::fault::StepFault;
use crate::frame::Frame;
use evaluator::{Placed, Row};
use procedure::kind::StatementKind;
use procedure::table::node_at;
use procedure::{Kind, Node};

/// The end of a FOR's body, with the row of its parameter. The bound is asked before anything is added.
fn turn(parameter: Option<Row>, node: Node, frame: Frame) -> Result<Act, StepFault>
    ensures decided { result ≡ turns parameter node frame }
{
    let row = parameter.ok_or(StepFault::NoStep)?;
    if row.value >= node.hi {
        return Ok(Act::Leave(frame.rows, node.next));
    }
    let row = Row {
        value: row.value + 1,
        ..row
    };
    let placed = Placed {
        place: frame.rows,
        row,
    };
    Ok(Act::Turn(placed, node.a))
}

impl Due<'_> {
    /// The end of a list under a frame.
    fn leave(&self, frame: Frame) -> Result<Act, StepFault>
        ensures decided { result ≡ list_end self.now.nodes.now (table self.now.rows.now) (Some frame) }
    {
        let node = node_at(self.nodes, frame.node);
        match node.listed_kind() {
            Some(Kind::Statement(StatementKind::If)) => Ok(Act::Leave(self.rows.len(), node.next)),
            Some(Kind::Statement(StatementKind::For)) => turn(
                self.rows.get(frame.rows),
                node,
                frame,
            ),
            Some(Kind::Statement(StatementKind::Block)) if frame.rows <= self.rows.len() => {
                Ok(Act::Leave(frame.rows, node.next))
            }
            _ => Err(StepFault::NoStep),
        }
    }

    /// The end of a list, under the top frame if there is one.
    pub fn end_list(&self) -> Result<Act, StepFault>
        ensures decided { result ≡ list_end self.now.nodes.now (table self.now.rows.now) (top (table self.now.frames.now)) }
    {
        match self.frames.top() {
            None => Ok(Act::Done),
            Some(frame) => self.leave(frame),
        }
    }
}
