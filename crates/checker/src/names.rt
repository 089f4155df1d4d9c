//! What a name means where it is used.
ghost use Rattle.std.specs.Prelude.{◌≡◌, length};
ghost use Rattle.stack.specs.Tables.{newest};
ghost use Rattle.checker.specs.declared.names.Meaning.TheVariants.{Object};
ghost use Rattle.checker.specs.Names.{predefined, means, means_inside};

use procedure::names;
use procedure::types::Type;
use stack::{Named, newest_named};

/// A declaration that is open: an object of a type, which is constant or can be given a value.
#[derive(Clone, Copy, PartialEq, Eq, Debug)]
pub struct Declaration {
    pub name: u16,
    pub of_type: Type,
    pub constant: bool,
}

impl Declaration {
    /// A place of a working table in which nothing has been written yet.
    pub const BLANK: Declaration = Declaration {
        name: 0,
        of_type: Type::Integer,
        constant: false,
    };

    /// What the declared name means.
    fn meaning(self) -> Meaning
        ensures meant { result ≡ Object self.of_type self.constant }
    {
        Meaning::Object {
            of_type: self.of_type,
            constant: self.constant,
        }
    }
}

impl Named for Declaration {
    ghost named = { λ declaration. declaration.name };

    fn name(&self) -> u16 {
        self.name
    }
}

/// What a name means, if anything: a type, or an object.
#[derive(Clone, Copy, PartialEq, Eq, Debug)]
pub enum Meaning {
    Mark(Type),
    Object { of_type: Type, constant: bool },
}

/// What a name means where no declaration of it is open.
fn predefined_meaning(name: u16) -> Option<Meaning>
    ensures predefined { result ≡ predefined name }
{
    match name {
        names::INTEGER => Some(Meaning::Mark(Type::Integer)),
        names::BOOLEAN => Some(Meaning::Mark(Type::Boolean)),
        names::TRUE | names::FALSE => Some(Meaning::Object {
            of_type: Type::Boolean,
            constant: true,
        }),
        _ => None,
    }
}

/// What a name means among open declarations: its innermost one.
pub fn meaning_of(declared: &[Declaration], name: u16) -> Option<Meaning>
    ensures innermost { result ≡ means (newest (length declared.now) declared.now) name }
{
    match newest_named(declared, name) {
        Some(i) => Some(declared[i].meaning()),
        None => predefined_meaning(name),
    }
}

/// The same inside the declaration of `own`, if any: there its own name means nothing.
pub fn meaning_inside(declared: &[Declaration], own: Option<u16>, name: u16) -> Option<Meaning>
    ensures inside { result ≡ means_inside own (newest (length declared.now) declared.now) name }
{
    match own {
        Some(own) if own == name => None,
        _ => meaning_of(declared, name),
    }
}
