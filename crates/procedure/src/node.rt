//! One node of a procedure's table.
ghost use Rattle.std.specs.Prelude.{◌≡◌};
ghost use Rattle.procedure.specs.Kind.{kind_of};
ghost use Rattle.procedure.specs.Operator.{unary_operator_of, binary_operator_of};

use crate::kind::Kind;
use crate::operator::{BinaryOperator, UnaryOperator};

/// A node. Which fields its kind uses, and for what, is said by `layout`; in a, b, c and next 0 means nothing.
#[derive(Clone, Copy, PartialEq, Eq, Default, Debug)]
pub struct Node {
    pub kind: u8,
    pub name: u16,
    pub a: u16,
    pub b: u16,
    pub c: u16,
    pub next: u16,
    pub lo: i32,
    pub hi: i32,
}

impl Node {
    /// The kind of the node, where its number is listed.
    pub fn listed_kind(&self) -> Option<Kind>
        ensures listed { result ≡ kind_of self.now.kind }
    {
        Kind::try_from(self.kind).ok()
    }

    /// The unary operator whose number is in lo, where it is listed.
    pub fn unary_operator(&self) -> Option<UnaryOperator>
        ensures listed { result ≡ unary_operator_of self.now.lo }
    {
        UnaryOperator::try_from(self.lo).ok()
    }

    /// The binary operator whose number is in lo, where it is listed.
    pub fn binary_operator(&self) -> Option<BinaryOperator>
        ensures listed { result ≡ binary_operator_of self.now.lo }
    {
        BinaryOperator::try_from(self.lo).ok()
    }
}
