//! Beginning a run.
ghost use Rattle.std.specs.Prelude.{◌≡◌, ◌≤◌, ◌++◌, length, drop, OnErr};
ghost use Rattle.procedure.specs.Table.{node};
ghost use Rattle.machine.specs.Begin.{behind_parameters, parameters, first_due, marked, fitting, parameter_row, parameter_rows, begun, with_places};

use crate::mark::mark_of;
use crate::outcome::Outcome;
use crate::parameters::Parameters;
use crate::progress::Progress;
use crate::run::{Run, Shown};
use evaluator::{Row, Value};
use procedure::table::node_at;
use procedure::types::Type;
use procedure::{Node, Reason, Refusal, demand, test_form};
use stack::Stack;

/// Tests the mark of each parameter.
fn test_marks(nodes: &[Node]) -> Result<(), Refusal>
    ensures marked { result ≡ marked nodes.now (parameters nodes.now) }
{
    for n in Parameters::of(nodes) {
        demand(mark_of(node_at(nodes, n).lo).is_some(), Reason::Unmarked, n)?;
    }
    Ok(())
}

/// The row of the parameter at node `n`.
fn parameter_row(nodes: &[Node], n: u16, value: i32) -> Row
    ensures made { result ≡ parameter_row nodes.now n value }
{
    let node = node_at(nodes, n);
    Row {
        name: node.name,
        of_type: mark_of(node.lo).unwrap_or(Type::Integer),
        constant: false,
        value,
    }
}

/// Tests that each value is one of its parameter's type.
fn test_values(nodes: &[Node], values: &[i32]) -> Result<(), Refusal>
    ensures fitting { result ≡ fitting nodes.now (parameters nodes.now) values.now }
{
    for (n, value) in Parameters::of(nodes).zip(values) {
        let row = parameter_row(nodes, n, *value);
        let is_fit = Value::of_number(row.value, row.of_type).is_some();
        demand(is_fit, Reason::Unfit, n)?;
    }
    Ok(())
}

/// Puts a row for each parameter.
fn put_rows(nodes: &[Node], values: &[i32], rows: &mut [Row])
    requires counted { length values.now ≡ length (parameters nodes.now) }
    requires room { length values.now ≤ length rows.old }
    ensures put { rows.new ≡ parameter_rows nodes.now (parameters nodes.now) values.now
        ++ drop (length values.now) rows.old }
{
    let mut stack = Stack::of(rows, 0);
    for (n, value) in Parameters::of(nodes).zip(values) {
        let _ = stack.put(parameter_row(nodes, n, *value));
    }
}

/// The node behind the parameters.
fn behind_parameters(nodes: &[Node]) -> u16
    ensures behind { result ≡ behind_parameters (length nodes.now) nodes.now (node nodes.now 0).a }
{
    let mut behind = node_at(nodes, 0).a;
    for n in Parameters::of(nodes) {
        behind = node_at(nodes, n).next;
    }
    behind
}

/// The node due first: the next declaration behind the parameters, else the first statement.
fn first_due(nodes: &[Node]) -> u16
    ensures due { result ≡ first_due nodes.now }
{
    let behind = behind_parameters(nodes);
    if behind == 0 {
        node_at(nodes, 0).b
    } else {
        behind
    }
}

/// Begins a run: a row for each parameter, with the values in their order. A refused begin leaves the rows as they were.
pub fn begin(nodes: &[Node], values: &[i32], rows: &mut [Row]) -> Result<Run, Refusal>
    ensures begun { with_places result rows.new ≡ begun nodes.now values.now rows.old }
    ensures refused_leaves_all { OnErr result (rows.new ≡ rows.old) }
{
    test_form(nodes)?;
    test_marks(nodes)?;
    let count = Parameters::of(nodes).count();
    demand(values.len() == count, Reason::Miscounted, 0)?;
    demand(count <= rows.len(), Reason::Short, 0)?;
    test_values(nodes, values)?;
    put_rows(nodes, values, rows);
    let progress = Progress {
        outcome: Outcome::Paused,
        cause: None,
        node: 0,
        at: first_due(nodes),
        steps: 0,
        reads: 0,
        writes: 0,
    };
    let shown = Shown {
        progress,
        rows: values.len(),
        frames: 0,
    };
    Ok(Run { shown })
}
