//! Values, and the numbers that stand for them in rows and at ports.
ghost use Rattle.std.specs.Prelude.{◌≡◌};
ghost use Rattle.evaluator.specs.Values.{number_of, type_of_value, is_of, truth, value_of_type};

use procedure::types::Type;

/// What an expression comes to.
#[derive(Clone, Copy, PartialEq, Eq, Debug)]
pub enum Value {
    Integer(i32),
    Boolean(bool),
}

/// The number that stands for a value: FALSE is 0, TRUE is 1.
impl From<Value> for i32 {
    ghost from_gives = { λ value number. number ≡ number_of value };

    fn from(value: Value) -> i32 {
        match value {
            Value::Integer(number) => number,
            Value::Boolean(false) => 0,
            Value::Boolean(true) => 1,
        }
    }
}

impl Value {
    fn of_type(self) -> Type
        ensures typed { result ≡ type_of_value self }
    {
        match self {
            Value::Integer(_) => Type::Integer,
            Value::Boolean(_) => Type::Boolean,
        }
    }

    /// Whether the value is of a type.
    pub fn is_of(self, of_type: Type) -> bool
        ensures typed { result ≡ is_of of_type self }
    {
        self.of_type() == of_type
    }

    /// The value of a type that a number stands for, where it stands for one.
    pub fn of_number(number: i32, of_type: Type) -> Option<Value>
        ensures valued { result ≡ value_of_type of_type number }
    {
        match (of_type, number) {
            (Type::Integer, _) => Some(Value::Integer(number)),
            (Type::Boolean, 0) => Some(Value::Boolean(false)),
            (Type::Boolean, 1) => Some(Value::Boolean(true)),
            (Type::Boolean, _) => None,
        }
    }
}
