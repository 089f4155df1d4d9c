//! The marks of declarations.
ghost use Rattle.std.specs.Prelude.{◌≡◌};
ghost use Rattle.machine.specs.Decide.{mark_of};

use procedure::types::Type;

/// The type that a mark names.
pub fn mark_of(lo: i32) -> Option<Type>
    ensures named { result ≡ mark_of lo }
{
    u16::try_from(lo).ok().and_then(Type::of_name)
}
