//! The type of an expression.
ghost use Rattle.std.specs.Prelude.{◌≡◌, length};
ghost use Rattle.stack.specs.Tables.{newest};
ghost use Rattle.checker.specs.Typing.{unary_type, binary_type, object_type, mark_type, target_type, typed};

use crate::names::{Declaration, Meaning, meaning_inside};
use procedure::kind::ExpressionKind;
use procedure::operator::{BinaryOperator, UnaryOperator};
use procedure::table::{node_at, part_of};
use procedure::types::Type;
use procedure::{Kind, Node, Reason, Refusal};

/// The type of the object that a name denotes at node `n`.
fn object_type(meaning: Option<Meaning>, n: u16) -> Result<Type, Refusal>
    ensures denoted { result ≡ object_type meaning n }
{
    match meaning {
        Some(Meaning::Object { of_type, .. }) => Ok(of_type),
        Some(Meaning::Mark(_)) | None => Err(Reason::Unknown.at(n)),
    }
}

/// The type that a unary operator at node `n` gives.
fn unary_type(operator: Option<UnaryOperator>, operand: Type, n: u16) -> Result<Type, Refusal>
    ensures given { result ≡ unary_type operator operand n }
{
    match (operator, operand) {
        (None, _) => Err(Reason::Misshapen.at(n)),
        (Some(UnaryOperator::Not), Type::Boolean) => Ok(Type::Boolean),
        (Some(UnaryOperator::Plus | UnaryOperator::Minus | UnaryOperator::Abs), Type::Integer) => {
            Ok(Type::Integer)
        }
        (Some(_), _) => Err(Reason::Mismatched.at(n)),
    }
}

/// The type that a binary operator at node `n` gives.
fn binary_type(
    operator: Option<BinaryOperator>,
    left: Type,
    right: Type,
    n: u16,
) -> Result<Type, Refusal>
    ensures given { result ≡ binary_type operator left right n }
{
    match (operator, left, right) {
        (None, _, _) => Err(Reason::Misshapen.at(n)),
        (Some(BinaryOperator::Arithmetic(_)), Type::Integer, Type::Integer) => Ok(Type::Integer),
        (Some(BinaryOperator::Relational(_)), Type::Integer, Type::Integer) => Ok(Type::Boolean),
        (Some(BinaryOperator::Relational(_)), Type::Boolean, Type::Boolean) => Ok(Type::Boolean),
        (Some(BinaryOperator::Logical(_)), Type::Boolean, Type::Boolean) => Ok(Type::Boolean),
        (Some(_), _, _) => Err(Reason::Mismatched.at(n)),
    }
}

/// What an expression is typed by: the node table, the open declarations, and the declaration that it stands in, if any.
#[derive(Clone, Copy)]
struct Scope<'a> {
    nodes: &'a [Node],
    declared: &'a [Declaration],
    own: Option<u16>,
}

impl<'a> Scope<'a> {
    /// The type of the expression at node `n`, of so many levels at most, or its first fault.
    #[tactic(auto, using(crate::proofs::Unrolled::typed_unrolled, crate::proofs::Unrolled::typed_none))]
    fn type_of(self, n: u16, levels: u16) -> Result<Type, Refusal>
        ensures typed { result
            ≡ typed levels self.entry.nodes.now self.entry.own (newest (length self.entry.declared.now) self.entry.declared.now) n }
    {
        if levels == 0 {
            return Err(Reason::Misshapen.at(n));
        }
        let Some(Kind::Expression(kind)) = part_of(self.nodes, n) else {
            return Err(Reason::Misshapen.at(n));
        };
        let node = node_at(self.nodes, n);
        match kind {
            ExpressionKind::Numeral => Ok(Type::Integer),
            ExpressionKind::Name => object_type(
                meaning_inside(self.declared, self.own, node.name),
                n,
            ),
            ExpressionKind::Unary => {
                let operand = self.type_of(node.a, levels - 1)?;
                unary_type(node.unary_operator(), operand, n)
            }
            ExpressionKind::Binary => {
                let left = self.type_of(node.a, levels - 1)?;
                let right = self.type_of(node.b, levels - 1)?;
                binary_type(node.binary_operator(), left, right, n)
            }
        }
    }
}

/// The type of the expression at node `n`, of so many levels at most, inside the declaration of `own`, if any; or its first
/// fault.
pub fn type_of(
    nodes: &[Node],
    declared: &[Declaration],
    own: Option<u16>,
    n: u16,
    levels: u16,
) -> Result<Type, Refusal>
    ensures typed { result ≡ typed levels nodes.now own (newest (length declared.now) declared.now) n }
{
    let scope = Scope {
        nodes,
        declared,
        own,
    };
    scope.type_of(n, levels)
}

/// The type that a mark at node `n` denotes.
pub fn mark_type(meaning: Option<Meaning>, n: u16) -> Result<Type, Refusal>
    ensures denoted { result ≡ mark_type meaning n }
{
    match meaning {
        Some(Meaning::Mark(of_type)) => Ok(of_type),
        Some(Meaning::Object { .. }) | None => Err(Reason::Unmarked.at(n)),
    }
}

/// The type of the target of node `n`.
pub fn target_type(meaning: Option<Meaning>, n: u16) -> Result<Type, Refusal>
    ensures given { result ≡ target_type meaning n }
{
    match meaning {
        Some(Meaning::Object { constant: true, .. }) => Err(Reason::Fixed.at(n)),
        Some(Meaning::Object { of_type, .. }) => Ok(of_type),
        Some(Meaning::Mark(_)) | None => Err(Reason::Unknown.at(n)),
    }
}
