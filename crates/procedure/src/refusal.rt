//! Refusals: why a call was not taken, and at which node.
ghost use Rattle.std.specs.Prelude.{◌≡◌, Some};
ghost use Rattle.procedure.specs.Refusal.{told, refusal_at, refusal_text};
ghost use Rattle.procedure.specs.Sequence.{want};

use std::error::Error;
use std::fmt;

/// Why a call is refused.
#[derive(Clone, Copy, PartialEq, Eq, Debug)]
pub enum Reason {
    Bulky,
    Misshapen,
    Taken,
    Unmarked,
    Unknown,
    Mismatched,
    Fixed,
    Overlong,
    Cramped,
    Miscounted,
    Unfit,
    Short,
    Overdrawn,
    Over,
    Absent,
    Unset,
}

impl Reason {
    /// The number that stands for the reason.
    pub fn number(self) -> u8
        ensures numbered { result ≡ (told self).number }
    {
        match self {
            Reason::Bulky => 1,
            Reason::Misshapen => 2,
            Reason::Taken => 3,
            Reason::Unmarked => 4,
            Reason::Unknown => 5,
            Reason::Mismatched => 6,
            Reason::Fixed => 7,
            Reason::Overlong => 8,
            Reason::Cramped => 9,
            Reason::Miscounted => 10,
            Reason::Unfit => 11,
            Reason::Short => 12,
            Reason::Overdrawn => 13,
            Reason::Over => 14,
            Reason::Absent => 15,
            Reason::Unset => 16,
        }
    }

    /// The word that stands for the reason.
    pub fn word(self) -> &'static str
        ensures worded { result.now ≡ (told self).word }
    {
        match self {
            Reason::Bulky => "bulky",
            Reason::Misshapen => "misshapen",
            Reason::Taken => "taken",
            Reason::Unmarked => "unmarked",
            Reason::Unknown => "unknown",
            Reason::Mismatched => "mismatched",
            Reason::Fixed => "fixed",
            Reason::Overlong => "overlong",
            Reason::Cramped => "cramped",
            Reason::Miscounted => "miscounted",
            Reason::Unfit => "unfit",
            Reason::Short => "short",
            Reason::Overdrawn => "overdrawn",
            Reason::Over => "over",
            Reason::Absent => "absent",
            Reason::Unset => "unset",
        }
    }

    /// What the reason means, in a sentence.
    pub fn sentence(self) -> &'static str
        ensures explained { result.now ≡ (told self).sentence }
    {
        match self {
            Reason::Bulky => "a procedure has 1 to 1024 nodes",
            Reason::Misshapen => "this is the lowest node that breaks a rule of the table's form",
            Reason::Taken =>
                "the name is already declared in its region, or the procedure has a predefined name",
            Reason::Unmarked => "the type mark denotes no type",
            Reason::Unknown => "the name denotes no object",
            Reason::Mismatched => "an operand or a value is of the wrong type",
            Reason::Fixed => "only a parameter or a variable can be given a value",
            Reason::Overlong => "the procedure may need more than 1000000000 steps",
            Reason::Cramped => "more than 256 declarations would be open together",
            Reason::Miscounted => "the procedure has another number of parameters",
            Reason::Unfit => "the value of a BOOLEAN parameter is 0 or 1",
            Reason::Short => "a table that was supplied has too few places",
            Reason::Overdrawn => "the run would make more than 1000000000 steps",
            Reason::Over => "the run has ended",
            Reason::Absent => "there is no such row",
            Reason::Unset => "a limit of the calibrator is out of its range",
        }
    }

    /// The refusal for this reason, about a node, or about none where it is 0.
    pub fn at(self, node: u16) -> Refusal
        ensures told { result ≡ refusal_at self node }
    {
        Refusal { reason: self, node }
    }
}

/// As its word.
impl fmt::Display for Reason {
    ghost output = { λ x. Some (told x).word };

    fn fmt<W: fmt::Write>(&self, f: &mut fmt::Formatter<W>) -> fmt::Result {
        f.write_str(self.word())
    }
}

/// A call that was not taken: the reason, and the node that it is about, 0 where it is about none.
#[derive(Clone, Copy, PartialEq, Eq, Debug)]
pub struct Refusal {
    pub reason: Reason,
    pub node: u16,
}

/// Refuses unless the test holds.
pub fn demand(holds: bool, reason: Reason, node: u16) -> Result<(), Refusal>
    ensures wanted { result ≡ want holds reason node }
{
    if holds { Ok(()) } else { Err(reason.at(node)) }
}

/// As `2 misshapen at node 7: ` and then the sentence.
impl fmt::Display for Refusal {
    ghost output = { λ x. Some (refusal_text x) };

    fn fmt<W: fmt::Write>(&self, f: &mut fmt::Formatter<W>) -> fmt::Result {
        let Refusal { reason, node } = *self;
        write!(
            f,
            "{} {reason} at node {node}: {}",
            reason.number(),
            reason.sentence()
        )
    }
}

impl Error for Refusal {}
