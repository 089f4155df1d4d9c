//! Operators, read out of the number in the field lo.
ghost use Rattle.std.specs.Prelude.{◌≡◌, ok_or};
ghost use Rattle.procedure.specs.Operator.{unary_operator_of, binary_operator_of};

use crate::unlisted::Unlisted;

/// An operator of one operand.
#[derive(Clone, Copy, PartialEq, Eq, Debug)]
pub enum UnaryOperator {
    Plus,
    Minus,
    Abs,
    Not,
}

/// An operator of two operands.
#[derive(Clone, Copy, PartialEq, Eq, Debug)]
pub enum BinaryOperator {
    Arithmetic(ArithmeticOperator),
    Relational(RelationalOperator),
    Logical(LogicalOperator),
}

/// Takes two of INTEGER and gives one.
#[derive(Clone, Copy, PartialEq, Eq, Debug)]
pub enum ArithmeticOperator {
    Add,
    Subtract,
    Multiply,
    Divide,
    Mod,
    Rem,
}

/// Takes two of one type and gives a BOOLEAN.
#[derive(Clone, Copy, PartialEq, Eq, Debug)]
pub enum RelationalOperator {
    Equal,
    NotEqual,
    Less,
    LessOrEqual,
    Greater,
    GreaterOrEqual,
}

/// Takes two of BOOLEAN and gives one.
#[derive(Clone, Copy, PartialEq, Eq, Debug)]
pub enum LogicalOperator {
    And,
    Or,
    Xor,
}

/// The unary operator of a number.
impl TryFrom<i32> for UnaryOperator {
    type Error = Unlisted;

    ghost try_from_gives = { λ number r. r ≡ ok_or (unary_operator_of number) (record {}) };

    fn try_from(number: i32) -> Result<UnaryOperator, Unlisted> {
        match number {
            1 => Ok(UnaryOperator::Plus),
            2 => Ok(UnaryOperator::Minus),
            3 => Ok(UnaryOperator::Abs),
            4 => Ok(UnaryOperator::Not),
            _ => Err(Unlisted),
        }
    }
}

/// The binary operator of a number.
impl TryFrom<i32> for BinaryOperator {
    type Error = Unlisted;

    ghost try_from_gives = { λ number r. r ≡ ok_or (binary_operator_of number) (record {}) };

    fn try_from(number: i32) -> Result<BinaryOperator, Unlisted> {
        match number {
            11 => Ok(BinaryOperator::Arithmetic(ArithmeticOperator::Add)),
            12 => Ok(BinaryOperator::Arithmetic(ArithmeticOperator::Subtract)),
            13 => Ok(BinaryOperator::Arithmetic(ArithmeticOperator::Multiply)),
            14 => Ok(BinaryOperator::Arithmetic(ArithmeticOperator::Divide)),
            15 => Ok(BinaryOperator::Arithmetic(ArithmeticOperator::Mod)),
            16 => Ok(BinaryOperator::Arithmetic(ArithmeticOperator::Rem)),
            21 => Ok(BinaryOperator::Relational(RelationalOperator::Equal)),
            22 => Ok(BinaryOperator::Relational(RelationalOperator::NotEqual)),
            23 => Ok(BinaryOperator::Relational(RelationalOperator::Less)),
            24 => Ok(BinaryOperator::Relational(RelationalOperator::LessOrEqual)),
            25 => Ok(BinaryOperator::Relational(RelationalOperator::Greater)),
            26 => Ok(BinaryOperator::Relational(RelationalOperator::GreaterOrEqual)),
            31 => Ok(BinaryOperator::Logical(LogicalOperator::And)),
            32 => Ok(BinaryOperator::Logical(LogicalOperator::Or)),
            33 => Ok(BinaryOperator::Logical(LogicalOperator::Xor)),
            _ => Err(Unlisted),
        }
    }
}
