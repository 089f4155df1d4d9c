//! What operators give.
ghost use Rattle.std.specs.Prelude.{◌≡◌};
ghost use Rattle.evaluator.specs.Operators.{computed, compared, combined, at_operator, unary_value, binary_value};

use crate::fault::{ExpressionFault, Located};
use crate::value::Value;
use integer::{
    ArithmeticFault, absolute, add, divide, modulo, multiply, negate, remainder, subtract,
};
use procedure::operator::{
    ArithmeticOperator, BinaryOperator, LogicalOperator, RelationalOperator, UnaryOperator,
};

fn compute(operator: ArithmeticOperator, x: i32, y: i32) -> Result<i32, ArithmeticFault>
    ensures exact { result ≡ computed operator x y }
{
    match operator {
        ArithmeticOperator::Add => add(x, y),
        ArithmeticOperator::Subtract => subtract(x, y),
        ArithmeticOperator::Multiply => multiply(x, y),
        ArithmeticOperator::Divide => divide(x, y),
        ArithmeticOperator::Mod => modulo(x, y),
        ArithmeticOperator::Rem => remainder(x, y),
    }
}

fn compare(operator: RelationalOperator, x: i32, y: i32) -> bool
    ensures compared { result ≡ compared operator x y }
{
    match operator {
        RelationalOperator::Equal => x == y,
        RelationalOperator::NotEqual => x != y,
        RelationalOperator::Less => x < y,
        RelationalOperator::LessOrEqual => x <= y,
        RelationalOperator::Greater => x > y,
        RelationalOperator::GreaterOrEqual => x >= y,
    }
}

fn combine(operator: LogicalOperator, x: bool, y: bool) -> bool
    ensures combined { result ≡ combined operator x y }
{
    match operator {
        LogicalOperator::And => x && y,
        LogicalOperator::Or => x || y,
        LogicalOperator::Xor => x != y,
    }
}

/// The number that arithmetic gives, or its fault at the operator's node.
fn at_operator(res: Result<i32, ArithmeticFault>, node: u16) -> Result<Value, ExpressionFault>
    ensures given { result ≡ at_operator res node }
{
    let number = res.map_err(|fault| Located { fault, node })?;
    Ok(Value::Integer(number))
}

/// The value that a unary operator at a node gives.
pub fn apply_unary(
    operator: Option<UnaryOperator>,
    operand: Value,
    node: u16,
) -> Result<Value, ExpressionFault>
    ensures given { result ≡ unary_value operator operand node }
{
    match (operator, operand) {
        (Some(UnaryOperator::Plus), Value::Integer(x)) => Ok(Value::Integer(x)),
        (Some(UnaryOperator::Minus), Value::Integer(x)) => at_operator(negate(x), node),
        (Some(UnaryOperator::Abs), Value::Integer(x)) => at_operator(absolute(x), node),
        (Some(UnaryOperator::Not), Value::Boolean(x)) => Ok(Value::Boolean(!x)),
        _ => Err(ExpressionFault::Unsuited(node)),
    }
}

/// The value that a binary operator at a node gives.
pub fn apply_binary(
    operator: Option<BinaryOperator>,
    left: Value,
    right: Value,
    node: u16,
) -> Result<Value, ExpressionFault>
    ensures given { result ≡ binary_value operator left right node }
{
    match (operator, left, right) {
        (Some(BinaryOperator::Arithmetic(o)), Value::Integer(x), Value::Integer(y)) => {
            at_operator(compute(o, x, y), node)
        }
        (Some(BinaryOperator::Relational(o)), Value::Integer(x), Value::Integer(y)) => {
            Ok(Value::Boolean(compare(o, x, y)))
        }
        (Some(BinaryOperator::Relational(o)), Value::Boolean(_), Value::Boolean(_)) => {
            Ok(Value::Boolean(compare(o, left.into(), right.into())))
        }
        (Some(BinaryOperator::Logical(o)), Value::Boolean(x), Value::Boolean(y)) => {
            Ok(Value::Boolean(combine(o, x, y)))
        }
        _ => Err(ExpressionFault::Unsuited(node)),
    }
}
