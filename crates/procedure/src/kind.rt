//! What a node is, read out of the number in its field kind.
ghost use Rattle.std.specs.Prelude.{◌≡◌, Some, ok_or};
ghost use Rattle.procedure.specs.Kind.{kind_of, kind_word};

use crate::unlisted::Unlisted;
use std::fmt;

/// What a node is.
#[derive(Clone, Copy, PartialEq, Eq, Debug)]
pub enum Kind {
    Procedure,
    Declaration(DeclarationKind),
    Statement(StatementKind),
    Expression(ExpressionKind),
}

/// What is declared.
#[derive(Clone, Copy, PartialEq, Eq, Debug)]
pub enum DeclarationKind {
    Parameter,
    Variable,
    Constant,
}

/// Which statement.
#[derive(Clone, Copy, PartialEq, Eq, Debug)]
pub enum StatementKind {
    Null,
    Assignment,
    If,
    For,
    Block,
    Get,
    Put,
}

/// Which expression.
#[derive(Clone, Copy, PartialEq, Eq, Debug)]
pub enum ExpressionKind {
    Numeral,
    Name,
    Unary,
    Binary,
}

/// The kind of a number.
impl TryFrom<u8> for Kind {
    type Error = Unlisted;

    ghost try_from_gives = { λ number r. r ≡ ok_or (kind_of number) (record {}) };

    fn try_from(number: u8) -> Result<Kind, Unlisted> {
        match number {
            1 => Ok(Kind::Expression(ExpressionKind::Numeral)),
            2 => Ok(Kind::Expression(ExpressionKind::Name)),
            3 => Ok(Kind::Expression(ExpressionKind::Unary)),
            4 => Ok(Kind::Expression(ExpressionKind::Binary)),
            10 => Ok(Kind::Declaration(DeclarationKind::Parameter)),
            11 => Ok(Kind::Declaration(DeclarationKind::Variable)),
            12 => Ok(Kind::Declaration(DeclarationKind::Constant)),
            20 => Ok(Kind::Statement(StatementKind::Null)),
            21 => Ok(Kind::Statement(StatementKind::Assignment)),
            22 => Ok(Kind::Statement(StatementKind::If)),
            23 => Ok(Kind::Statement(StatementKind::For)),
            24 => Ok(Kind::Statement(StatementKind::Block)),
            25 => Ok(Kind::Statement(StatementKind::Get)),
            26 => Ok(Kind::Statement(StatementKind::Put)),
            30 => Ok(Kind::Procedure),
            _ => Err(Unlisted),
        }
    }
}

impl Kind {
    /// The word for the kind.
    pub fn word(self) -> &'static str
        ensures worded { result.now ≡ kind_word self }
    {
        match self {
            Kind::Procedure => "procedure",
            Kind::Declaration(DeclarationKind::Parameter) => "parameter",
            Kind::Declaration(DeclarationKind::Variable) => "variable",
            Kind::Declaration(DeclarationKind::Constant) => "constant",
            Kind::Statement(StatementKind::Null) => "null",
            Kind::Statement(StatementKind::Assignment) => "assignment",
            Kind::Statement(StatementKind::If) => "IF",
            Kind::Statement(StatementKind::For) => "FOR",
            Kind::Statement(StatementKind::Block) => "block",
            Kind::Statement(StatementKind::Get) => "GET",
            Kind::Statement(StatementKind::Put) => "PUT",
            Kind::Expression(ExpressionKind::Numeral) => "numeral",
            Kind::Expression(ExpressionKind::Name) => "name",
            Kind::Expression(ExpressionKind::Unary) => "unary",
            Kind::Expression(ExpressionKind::Binary) => "binary",
        }
    }
}

/// As its word.
impl fmt::Display for Kind {
    ghost output = { λ kind. Some (kind_word kind) };

    fn fmt<W: fmt::Write>(&self, f: &mut fmt::Formatter<W>) -> fmt::Result {
        f.write_str(self.word())
    }
}
