//! The node that a line writes.
ghost use Rattle.std.specs.Prelude.{◌≡◌, ◌∷◌, ℤ, Option, Result, Some, FitsSigned, unsigned_abs};
ghost use Rattle.std.specs.Int.{FitsUnsignedBits, w32};
ghost use Rattle.files.specs.declared.line.Field.{Field};
ghost use Rattle.files.specs.declared.line.LineFault.{LineFault};
ghost use Rattle.files.specs.Scan.{Bytes, first, later, words_left};
ghost use Rattle.files.specs.Line.{described, Within, integer, natural, node_of, line_read};
ghost use Rattle.files.specs.Holding.{Holding, holding, holding_itself};

use crate::number::{NumberFault, read_number};
use crate::scan::Words;
use procedure::Node;

/// One of the eight numbers of a node, in the order of the line.
#[derive(Clone, Copy, PartialEq, Eq, Debug)]
pub enum Field {
    Kind,
    Name,
    PartA,
    PartB,
    PartC,
    Next,
    Lo,
    Hi,
}

/// Which of the eight numbers a field is, from 1, its name, and the least and the greatest number that it can be.
#[derive(Clone, Copy)]
pub(crate) struct Description {
    pub(crate) place: u8,
    pub(crate) word: &'static str,
    pub(crate) low: i32,
    pub(crate) high: i32,
}

impl Description {
    fn new(place: u8, word: &'static str, low: i32, high: i32) -> Description
        ensures made { result ≡ record { place = place; word = word.entry; low = low; high = high } }
    {
        Description {
            place,
            word,
            low,
            high,
        }
    }
}

impl Field {
    pub(crate) fn described(self) -> Description
        ensures placed { result.place ≡ (described self).place }
        ensures named { result.word.now ≡ (described self).word }
        ensures least { result.low ≡ (described self).low }
        ensures greatest { result.high ≡ (described self).high }
    {
        match self {
            Field::Kind => Description::new(1, "kind", 0, 255),
            Field::Name => Description::new(2, "name", 0, 65535),
            Field::PartA => Description::new(3, "a", 0, 65535),
            Field::PartB => Description::new(4, "b", 0, 65535),
            Field::PartC => Description::new(5, "c", 0, 65535),
            Field::Next => Description::new(6, "next", 0, 65535),
            Field::Lo => Description::new(7, "lo", i32::MIN, i32::MAX),
            Field::Hi => Description::new(8, "hi", i32::MIN, i32::MAX),
        }
    }
}

/// Why a line is no node.
#[derive(Clone, Copy, PartialEq, Eq, Debug)]
pub enum LineFault {
    /// The line ends before this number.
    Missing(Field),
    /// The word in the place of this number is no number.
    NoNumber(Field),
    /// This number is out of its range.
    OutOfRange(Field),
    /// Something follows the eighth number.
    Extra,
}

/// A type that fields of a node have.
trait Number: TryFrom<i32, Error: Drop> {
    /// The integers that it holds.
    ghost holds: { ℤ → Type 0 };

    /// What stands in the place of a field, of which it holds each number.
    ghost reads: { Field → Option Bytes → Result Self LineFault };

    ghost exact: { (f : Field) (place : Option Bytes) → Holding Self.TryFrom.try_from_gives holds (integer f place) (reads f place) };
}

impl Number for u8 {
    ghost holds = { FitsUnsignedBits 8 };

    ghost reads = { natural };

    ghost exact = { λ f place. holding _ (FitsUnsignedBits 8) unsigned_abs (integer f place) };
}

impl Number for u16 {
    ghost holds = { FitsUnsignedBits 16 };

    ghost reads = { natural };

    ghost exact = { λ f place. holding _ (FitsUnsignedBits 16) unsigned_abs (integer f place) };
}

impl Number for i32 {
    ghost holds = { FitsSigned w32 };

    ghost reads = { integer };

    ghost exact = { λ f place. holding_itself _ (FitsSigned w32) (integer f place) };
}

/// The number that a word writes for a field, of which the type holds each.
fn read_field<N: Number>(word: &[u8], field: Field) -> Result<N, LineFault>
    requires held { (z : ℤ) → Within field z → N.holds z }
    ensures as_written { result ≡ N.reads field (Some word.now) }
{
    let Description { low, high, .. } = field.described();
    let value = read_number(word, low, high).map_err(|fault| match fault {
        NumberFault::NoNumber => LineFault::NoNumber(field),
        NumberFault::OutOfRange => LineFault::OutOfRange(field),
    })?;
    N::try_from(value).map_err(|_| LineFault::OutOfRange(field))
}

/// The number that the next word writes for a field.
fn next_field<N: Number>(words: &mut Words, field: Field) -> Result<N, LineFault>
    requires held { (z : ℤ) → Within field z → N.holds z }
    ensures as_written { result ≡ N.reads field (first (words_left words.old)) }
    ensures leaves_later { words_left words.new ≡ later (words_left words.old) }
{
    match words.next() {
        Some(word) => read_field(word, field),
        None => Err(LineFault::Missing(field)),
    }
}

/// The node of a line, from the word of its kind and the words behind it.
fn read_node(kind: &[u8], words: &mut Words) -> Result<Node, LineFault>
    ensures as_written { result ≡ node_of (kind.now ∷ words_left words.old) }
{
    let node = Node {
        kind: read_field(kind, Field::Kind)?,
        name: next_field(words, Field::Name)?,
        a: next_field(words, Field::PartA)?,
        b: next_field(words, Field::PartB)?,
        c: next_field(words, Field::PartC)?,
        next: next_field(words, Field::Next)?,
        lo: next_field(words, Field::Lo)?,
        hi: next_field(words, Field::Hi)?,
    };
    match words.next() {
        Some(_) => Err(LineFault::Extra),
        None => Ok(node),
    }
}

/// The node that the line writes, or `None` where it is blank or holds a comment alone.
pub fn read_line(line: &[u8]) -> Result<Option<Node>, LineFault>
    ensures as_written { result ≡ line_read line.now }
{
    let mut words = Words::new(line);
    words
        .next()
        .map(|kind| read_node(kind, &mut words))
        .transpose()
}

#[cfg(test)]
mod tests {
    use super::*;

    const ONE_TO_SIX: Node = Node {
        kind: 1,
        name: 2,
        a: 3,
        b: 4,
        c: 5,
        next: 6,
        lo: 0,
        hi: 0,
    };

    fn node(lo: i32, hi: i32) -> Result<Option<Node>, LineFault> {
        Ok(Some(Node {
            lo,
            hi,
            ..ONE_TO_SIX
        }))
    }

    #[test]
    fn lines_are_read(rt: HostRuntime) {
        let table: [(&str, Result<Option<Node>, LineFault>); 24] = [
            ("", Ok(None)),
            (" \t \r", Ok(None)),
            ("# 1 2 3", Ok(None)),
            ("1 2 3 4 5 6 7 8", node(7, 8)),
            ("1 2 3 4 5 6 7 8# a node", node(7, 8)),
            ("1 2 3 4 5 6 7 8\r", node(7, 8)),
            ("\t1\t2 3  4 5 6 7 8 ", node(7, 8)),
            ("001 2 3 4 5 6 -0 -8", node(0, -8)),
            (
                "1 2 3 4 5 6 -2147483648 2147483647",
                node(i32::MIN, i32::MAX),
            ),
            ("1 2 3 4 5 6 7", Err(LineFault::Missing(Field::Hi))),
            ("1 2 3 # 4 5 6 7 8", Err(LineFault::Missing(Field::PartB))),
            ("1 2 3 4 5 6 7 8 9", Err(LineFault::Extra)),
            ("1 2 3 4 5 6 7 x 9", Err(LineFault::NoNumber(Field::Hi))),
            ("1 2 x 4 5", Err(LineFault::NoNumber(Field::PartA))),
            ("1 2 +3 4 5 6 7 8", Err(LineFault::NoNumber(Field::PartA))),
            ("1 2 - 4 5 6 7 8", Err(LineFault::NoNumber(Field::PartA))),
            ("1 2 3 4 5 6\n7 8", Err(LineFault::NoNumber(Field::Next))),
            (
                "\u{feff}1 2 3 4 5 6 7 8",
                Err(LineFault::NoNumber(Field::Kind)),
            ),
            ("256 2 3 4 5 6 7 8", Err(LineFault::OutOfRange(Field::Kind))),
            ("1 -2 3 4 5 6 7 8", Err(LineFault::OutOfRange(Field::Name))),
            (
                "1 2 65536 x 5 6 7 8",
                Err(LineFault::OutOfRange(Field::PartA)),
            ),
            (
                "1 2 3 4 5 6 2147483648 8",
                Err(LineFault::OutOfRange(Field::Lo)),
            ),
            (
                "1 2 3 4 5 6 -2147483649 8",
                Err(LineFault::OutOfRange(Field::Lo)),
            ),
            (
                "1 2 3 4 5 6 7 100000000000000000000000000008",
                Err(LineFault::OutOfRange(Field::Hi)),
            ),
        ];
        for (line, reads) in table {
            assert_eq!(rt; read_line(line.as_bytes()), reads, "{}", line);
        }
    }
}
