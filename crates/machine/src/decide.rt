//! Which act is due, or which fault.
ghost use Rattle.std.specs.Prelude.{◌≡◌};
ghost use Rattle.stack.specs.Acts.{top};
ghost use Rattle.stack.specs.Stacks.{table};
ghost use Rattle.machine.specs.Decide.{frame_at, enters, behind_last, behind, declares, target, assignment, gets, puts, condition, branches, loops, blocks, statement as stated, decided, value_at};

use crate::act::Act;
use crate::due::Due;
use crate::fault::StepFault;
use crate::frame::Frame;
use crate::mark::mark_of;
use evaluator::{Placed, Row, Value, evaluate_root, find_topmost};
use procedure::kind::{DeclarationKind, StatementKind};
use procedure::table::{Standing, node_at, standing_at};
use procedure::types::Type;
use procedure::{Kind, Node};

/// Where a run goes behind the last declaration of a list.
fn behind_last(nodes: &[Node], outer: Option<Frame>) -> Result<u16, StepFault>
    ensures told { result ≡ behind_last nodes.now outer }
{
    let node = node_at(nodes, outer.map_or(0, |frame| frame.node));
    match (outer, node.listed_kind()) {
        (None, Some(Kind::Procedure)) | (Some(_), Some(Kind::Statement(StatementKind::Block))) => {
            Ok(node.b)
        }
        _ => Err(StepFault::NoStep),
    }
}

/// The truth of a condition.
fn condition(value: Value) -> Result<bool, StepFault>
    ensures told { result ≡ condition value }
{
    match value {
        Value::Boolean(truth) => Ok(truth),
        Value::Integer(_) => Err(StepFault::WrongType),
    }
}

impl Due<'_> {
    /// The value of the expression of the node due.
    fn value(&self) -> Result<Value, StepFault>
        ensures evaluated { result ≡ value_at self.now.nodes.now (table self.now.rows.now) self.now.at }
    {
        let root = node_at(self.nodes, self.at).a;
        Ok(evaluate_root(self.nodes, self.rows.held_items(), self.at, root)?)
    }

    /// The topmost row of the name of the node due.
    fn target(&self) -> Result<Placed, StepFault>
        ensures found { result ≡ target self.now.nodes.now (table self.now.rows.now) self.now.at }
    {
        let name = node_at(self.nodes, self.at).name;
        find_topmost(self.rows.held_items(), name).ok_or(StepFault::NoTarget)
    }

    /// Where the run goes behind a declaration.
    fn behind(&self, next: u16) -> Result<u16, StepFault>
        ensures told { result ≡ behind self.now.nodes.now (top (table self.now.frames.now)) next }
    {
        if next == 0 {
            behind_last(self.nodes, self.frames.top())
        } else {
            Ok(next)
        }
    }

    /// The frame of the node due.
    fn frame(&self) -> Frame
        ensures made { result ≡ frame_at self.now.at (table self.now.rows.now) }
    {
        Frame {
            node: self.at,
            rows: self.rows.len(),
        }
    }

    /// Enters the statement due, where its frame finds a place.
    fn enter(&self, to: u16) -> Result<Act, StepFault>
        ensures entered { result ≡ enters (table self.now.frames.now) (frame_at self.now.at (table self.now.rows.now)) to }
    {
        if self.frames.room() == 0 {
            return Err(StepFault::FramesFull);
        }
        Ok(Act::Enter(self.frame(), to))
    }

    /// The step of a variable or a constant.
    fn declare(&self, constant: bool) -> Result<Act, StepFault>
        ensures decided { result ≡ declares constant self.now.nodes.now (table self.now.rows.now) (table self.now.frames.now) self.now.at }
    {
        let node = node_at(self.nodes, self.at);
        let to = self.behind(node.next)?;
        let value = self.value()?;
        let of_type = mark_of(node.lo).ok_or(StepFault::WrongType)?;
        if !value.is_of(of_type) {
            return Err(StepFault::WrongType);
        }
        if self.rows.room() == 0 {
            return Err(StepFault::RowsFull);
        }
        let row = Row {
            name: node.name,
            of_type,
            constant,
            value: i32::from(value),
        };
        Ok(Act::Declare(row, to))
    }

    fn assign(&self) -> Result<Act, StepFault>
        ensures decided { result ≡ assignment self.now.nodes.now (table self.now.rows.now) self.now.at }
    {
        let value = self.value()?;
        let Placed { place, row } = self.target()?;
        if !value.is_of(row.of_type) || row.constant {
            return Err(StepFault::WrongType);
        }
        let row = Row {
            value: i32::from(value),
            ..row
        };
        let to = node_at(self.nodes, self.at).next;
        Ok(Act::Assign(Placed { place, row }, to))
    }

    fn get(&self) -> Result<Act, StepFault>
        ensures decided { result ≡ gets self.now.nodes.now (table self.now.rows.now) self.now.at }
    {
        let placed = self.target()?;
        if placed.row.constant {
            return Err(StepFault::WrongType);
        }
        Ok(Act::Get(placed, node_at(self.nodes, self.at).next))
    }

    fn put(&self) -> Result<Act, StepFault>
        ensures decided { result ≡ puts self.now.nodes.now (table self.now.rows.now) self.now.at }
    {
        let value = self.value()?;
        Ok(Act::Put(i32::from(value), node_at(self.nodes, self.at).next))
    }

    fn branch(&self) -> Result<Act, StepFault>
        ensures decided { result ≡ branches self.now.nodes.now (table self.now.rows.now) (table self.now.frames.now) self.now.at }
    {
        let node = node_at(self.nodes, self.at);
        let value = self.value()?;
        if condition(value)? {
            self.enter(node.b)
        } else if node.c == 0 {
            Ok(Act::Pass(node.next))
        } else {
            self.enter(node.c)
        }
    }

    fn start_loop(&self) -> Result<Act, StepFault>
        ensures decided { result ≡ loops self.now.nodes.now (table self.now.rows.now) (table self.now.frames.now) self.now.at }
    {
        let node = node_at(self.nodes, self.at);
        if node.lo > node.hi {
            return Ok(Act::Pass(node.next));
        }
        if self.frames.room() == 0 {
            return Err(StepFault::FramesFull);
        }
        if self.rows.room() == 0 {
            return Err(StepFault::RowsFull);
        }
        let parameter = Row {
            name: node.name,
            of_type: Type::Integer,
            constant: true,
            value: node.lo,
        };
        Ok(Act::Loop(self.frame(), parameter, node.a))
    }

    fn start_block(&self) -> Result<Act, StepFault>
        ensures decided { result ≡ blocks self.now.nodes.now (table self.now.rows.now) (table self.now.frames.now) self.now.at }
    {
        let node = node_at(self.nodes, self.at);
        self.enter(if node.a == 0 { node.b } else { node.a })
    }

    fn decide_statement(&self, kind: StatementKind) -> Result<Act, StepFault>
        ensures decided { result ≡ stated kind self.now.nodes.now (table self.now.rows.now) (table self.now.frames.now) self.now.at }
    {
        match kind {
            StatementKind::Null => Ok(Act::Pass(node_at(self.nodes, self.at).next)),
            StatementKind::Assignment => self.assign(),
            StatementKind::If => self.branch(),
            StatementKind::For => self.start_loop(),
            StatementKind::Block => self.start_block(),
            StatementKind::Get => self.get(),
            StatementKind::Put => self.put(),
        }
    }

    /// What the step does, or why it fails.
    pub fn decide(&self) -> Result<Act, StepFault>
        ensures decided { result ≡ decided self.now.nodes.now (table self.now.rows.now) (table self.now.frames.now) self.now.at }
    {
        match standing_at(self.nodes, self.at) {
            Standing::End => self.end_list(),
            Standing::Declaration(DeclarationKind::Variable) => self.declare(false),
            Standing::Declaration(DeclarationKind::Constant) => self.declare(true),
            Standing::Statement(kind) => self.decide_statement(kind),
            _ => Err(StepFault::NoStep),
        }
    }
}
