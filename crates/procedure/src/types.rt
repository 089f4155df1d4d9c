//! The two types.
ghost use Rattle.std.specs.Prelude.{◌≡◌};
ghost use Rattle.procedure.specs.Types.{type_of};

use crate::names;

/// A type of objects and values.
#[derive(Clone, Copy, PartialEq, Eq, Debug)]
pub enum Type {
    Integer,
    Boolean,
}

impl Type {
    /// The type that a predefined name denotes, where it denotes one: a look-up, since most names denote none.
    pub fn of_name(name: u16) -> Option<Type>
        ensures denoted { result ≡ type_of name }
    {
        match name {
            names::INTEGER => Some(Type::Integer),
            names::BOOLEAN => Some(Type::Boolean),
            _ => None,
        }
    }
}
