//! Evaluating an expression.
ghost use Rattle.std.specs.Prelude.{◌≡◌, length};
ghost use Rattle.stack.specs.Tables.{newest};
ghost use Rattle.evaluator.specs.Evaluate.{expression_of, named_part, operand_value, row_value, name_value, evaluated, root_value};

use crate::fault::ExpressionFault;
use crate::operators::{apply_binary, apply_unary};
use crate::rows::{Placed, Row, find_topmost};
use crate::value::Value;
use procedure::kind::ExpressionKind;
use procedure::limits::MAX_LEVELS;
use procedure::table::{node_at, part_of};
use procedure::{Kind, Node, names};

/// The value that a row holds, read at node `n`.
fn row_value(row: Row, n: u16) -> Result<Value, ExpressionFault>
    ensures read { result ≡ row_value row n }
{
    Value::of_number(row.value, row.of_type).ok_or(ExpressionFault::Unsuited(n))
}

/// The value of a name at node `n`, by its topmost row.
fn name_value(topmost: Option<Placed>, name: u16, n: u16) -> Result<Value, ExpressionFault>
    ensures read { result ≡ name_value topmost name n }
{
    match (topmost, name) {
        (Some(placed), _) => row_value(placed.row, n),
        (None, names::TRUE) => Ok(Value::Boolean(true)),
        (None, names::FALSE) => Ok(Value::Boolean(false)),
        (None, _) => Err(ExpressionFault::NoRow(n)),
    }
}

/// What expressions are evaluated by: the node table, and the rows that a run holds.
#[derive(Clone, Copy)]
struct Scope<'a> {
    nodes: &'a [Node],
    rows: &'a [Row],
}

impl<'a> Scope<'a> {
    /// The kind of the expression that node `n` names as a part.
    fn named_part(self, n: u16, part: u16) -> Result<ExpressionKind, ExpressionFault>
        ensures named { result ≡ named_part (expression_of self.entry.nodes.now part) n }
    {
        let Some(Kind::Expression(kind)) = part_of(self.nodes, part) else {
            return Err(ExpressionFault::NoPart(n));
        };
        Ok(kind)
    }

    /// The value of an operand of the operator at node `n`, which has a smaller number.
    #[cycle(evaluation)]
    fn operand(self, n: u16, operand: u16, levels: u16) -> Result<Value, ExpressionFault>
        ensures evaluated { result ≡ operand_value
            (evaluated levels self.entry.nodes.now (newest (length self.entry.rows.now) self.entry.rows.now))
            self.entry.nodes.now n operand }
    {
        if operand >= n {
            return Err(ExpressionFault::NoPart(n));
        }
        let kind = self.named_part(n, operand)?;
        self.evaluate(kind, operand, levels)
    }

    /// The value of the expression of a kind at node `n`, of which so many levels may be entered.
    #[cycle(evaluation)]
    #[tactic(auto, using(crate::proofs::Unrolled::evaluated_unrolled, crate::proofs::Unrolled::evaluated_none))]
    fn evaluate(self, kind: ExpressionKind, n: u16, levels: u16) -> Result<Value, ExpressionFault>
        ensures evaluated { result
            ≡ evaluated levels self.entry.nodes.now (newest (length self.entry.rows.now) self.entry.rows.now) kind n }
    {
        if levels == 0 {
            return Err(ExpressionFault::TooDeep(n));
        }
        let node = node_at(self.nodes, n);
        match kind {
            ExpressionKind::Numeral => Ok(Value::Integer(node.lo)),
            ExpressionKind::Name => name_value(find_topmost(self.rows, node.name), node.name, n),
            ExpressionKind::Unary => {
                let operand = self.operand(n, node.a, levels - 1)?;
                apply_unary(node.unary_operator(), operand, n)
            }
            ExpressionKind::Binary => {
                let left = self.operand(n, node.a, levels - 1)?;
                let right = self.operand(n, node.b, levels - 1)?;
                apply_binary(node.binary_operator(), left, right, n)
            }
        }
    }
}

/// The value of the expression `root`, which node `n` names.
pub fn evaluate_root(
    nodes: &[Node],
    rows: &[Row],
    n: u16,
    root: u16,
) -> Result<Value, ExpressionFault>
    ensures evaluated { result ≡ root_value nodes.now (newest (length rows.now) rows.now) n root }
{
    let scope = Scope { nodes, rows };
    let kind = scope.named_part(n, root)?;
    scope.evaluate(kind, root, MAX_LEVELS)
}
