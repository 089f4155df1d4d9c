//! What the fields of a node hold, by its kind.
ghost use Rattle.std.specs.Prelude.{◌≡◌};
ghost use Rattle.procedure.specs.Layout.{layout, declaration_layout, statement_layout, expression_layout};

use crate::kind::{DeclarationKind, ExpressionKind, Kind, StatementKind};

/// What a reference, one of the fields a, b, c and next, names.
#[derive(Clone, Copy, PartialEq, Eq, Debug)]
pub enum Role {
    /// An operand: an expression with a smaller number.
    Operand,
    /// The root of an expression.
    Root,
    /// A declaration of any kind, or nothing.
    Declarations,
    /// A variable or a constant, or nothing.
    Locals,
    /// The first statement of a list that lies one level further in.
    Statements,
    /// The same, or nothing.
    Alternative,
    /// The next statement of the same list, or nothing.
    Following,
}

/// What one of the fields lo and hi holds.
#[derive(Clone, Copy, PartialEq, Eq, Debug)]
pub enum Number {
    /// A type mark, which is a name.
    Mark,
    /// The value of a numeral, from 0 up.
    Numeral,
    /// A bound of a FOR, any number.
    Bound,
    /// The number of a unary operator.
    UnaryOperator,
    /// The number of a binary operator.
    BinaryOperator,
}

/// The use of each field of a node. A field that is not used is 0.
#[derive(Clone, Copy, PartialEq, Eq, Default, Debug)]
pub struct Layout {
    pub name: bool,
    pub lo: Option<Number>,
    pub hi: Option<Number>,
    pub a: Option<Role>,
    pub b: Option<Role>,
    pub c: Option<Role>,
    pub next: Option<Role>,
}

impl Layout {
    /// The layout of a kind. A node of no listed kind uses no field.
    pub fn of(kind: Option<Kind>) -> Layout
        ensures laid { result ≡ layout kind }
    {
        match kind {
            None => Layout::default(),
            Some(Kind::Procedure) => Layout {
                name: true,
                a: Some(Role::Declarations),
                b: Some(Role::Statements),
                ..Layout::default()
            },
            Some(Kind::Declaration(kind)) => Layout::of_declaration(kind),
            Some(Kind::Statement(kind)) => Layout::of_statement(kind),
            Some(Kind::Expression(kind)) => Layout::of_expression(kind),
        }
    }

    fn of_declaration(kind: DeclarationKind) -> Layout
        ensures laid { result ≡ declaration_layout kind }
    {
        let object = Layout {
            name: true,
            lo: Some(Number::Mark),
            ..Layout::default()
        };
        match kind {
            DeclarationKind::Parameter => Layout {
                next: Some(Role::Declarations),
                ..object
            },
            DeclarationKind::Variable | DeclarationKind::Constant => {
                Layout {
                    a: Some(Role::Root),
                    next: Some(Role::Locals),
                    ..object
                }
            }
        }
    }

    fn of_statement(kind: StatementKind) -> Layout
        ensures laid { result ≡ statement_layout kind }
    {
        let statement = Layout {
            next: Some(Role::Following),
            ..Layout::default()
        };
        match kind {
            StatementKind::Null => statement,
            StatementKind::Assignment => Layout {
                name: true,
                a: Some(Role::Root),
                ..statement
            },
            StatementKind::If => Layout {
                a: Some(Role::Root),
                b: Some(Role::Statements),
                c: Some(Role::Alternative),
                ..statement
            },
            StatementKind::For => Layout {
                name: true,
                lo: Some(Number::Bound),
                hi: Some(Number::Bound),
                a: Some(Role::Statements),
                ..statement
            },
            StatementKind::Block => Layout {
                a: Some(Role::Locals),
                b: Some(Role::Statements),
                ..statement
            },
            StatementKind::Get => Layout {
                name: true,
                ..statement
            },
            StatementKind::Put => Layout {
                a: Some(Role::Root),
                ..statement
            },
        }
    }

    fn of_expression(kind: ExpressionKind) -> Layout
        ensures laid { result ≡ expression_layout kind }
    {
        match kind {
            ExpressionKind::Numeral => Layout {
                lo: Some(Number::Numeral),
                ..Layout::default()
            },
            ExpressionKind::Name => Layout {
                name: true,
                ..Layout::default()
            },
            ExpressionKind::Unary => Layout {
                lo: Some(Number::UnaryOperator),
                a: Some(Role::Operand),
                ..Layout::default()
            },
            ExpressionKind::Binary => Layout {
                lo: Some(Number::BinaryOperator),
                a: Some(Role::Operand),
                b: Some(Role::Operand),
                ..Layout::default()
            },
        }
    }
}
