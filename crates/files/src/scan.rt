//! What a text is cut into: its lines, and the words of a line.
ghost use Rattle.std.specs.Prelude.{◌≡◌};
ghost use Rattle.files.specs.declared.scan.Separator.TheVariants.{LineEnd, Blank};

use crate::cut::cut_once;

/// A sign at which a text is cut.
#[derive(Clone, Copy, PartialEq, Eq, Debug)]
pub(crate) enum Separator {
    Blank,
    LineEnd,
    CommentSign,
}

impl Separator {
    ghost use Rattle.files.specs.Scan.{cuts};

    /// Whether the byte is such a sign.
    pub(crate) fn is(self, byte: u8) -> bool
        ensures tells { result ≡ cuts self byte }
    {
        match self {
            Separator::Blank => byte == b' ' || byte == b'\t' || byte == b'\r',
            Separator::LineEnd => byte == b'\n',
            Separator::CommentSign => byte == b'#',
        }
    }
}

/// Gives the pieces of a text, in order. A separator ends a piece; the last piece needs none.
#[derive(Debug, Drop)]
struct Pieces<'a> {
    rest: &'a [u8],
    separator: Separator,
}

impl<'a> Iterator for Pieces<'a> {
    ghost use Rattle.std.specs.Iterator.{item_count};
    ghost use Rattle.files.specs.Scan.{pieces_left, GivesPiece};

    type Item = &'a [u8];

    ghost next_gives = { GivesPiece };

    ghost remaining = { item_count pieces_left };

    fn next(&mut self) -> Option<&'a [u8]> {
        if self.rest.is_empty() {
            return None;
        }
        let (piece, rest) = cut_once(self.rest, self.separator);
        self.rest = rest;
        Some(piece)
    }
}

/// Gives the lines of a text, in order. A line end, byte 10, ends a line; the last line needs none.
#[derive(Debug, Drop)]
pub struct Lines<'a> {
    pieces: Pieces<'a>,
    ghost by_lines: { pieces.separator ≡ LineEnd },
}

impl<'a> Lines<'a> {
    ghost use Rattle.files.specs.Scan.{lines_of, lines_left};

    /// All the lines of a text.
    pub fn new(text: &'a [u8]) -> Lines<'a>
        ensures all_lines { lines_left result ≡ lines_of text.now }
    {
        let pieces = Pieces {
            rest: text,
            separator: Separator::LineEnd,
        };
        Lines { pieces }
    }
}

impl<'a> Iterator for Lines<'a> {
    ghost use Rattle.std.specs.Iterator.{YieldsFirstRef, item_count};
    ghost use Rattle.files.specs.Scan.{lines_left};

    type Item = &'a [u8];

    ghost next_gives = { YieldsFirstRef lines_left };

    ghost remaining = { item_count lines_left };

    fn next(&mut self) -> Option<&'a [u8]> {
        self.pieces.next()
    }
}

/// Gives the words of a line, in order: what stands between blanks, up to the comment.
#[derive(Debug, Drop)]
pub struct Words<'a> {
    pieces: Pieces<'a>,
    ghost by_words: { pieces.separator ≡ Blank },
}

impl<'a> Words<'a> {
    ghost use Rattle.files.specs.Scan.{words_of_line, words_left};

    /// All the words of a line.
    pub fn new(line: &'a [u8]) -> Words<'a>
        ensures all_words { words_left result ≡ words_of_line line.now }
    {
        let (rest, _) = cut_once(line, Separator::CommentSign);
        let pieces = Pieces {
            rest,
            separator: Separator::Blank,
        };
        Words { pieces }
    }
}

impl<'a> Iterator for Words<'a> {
    ghost use Rattle.std.specs.Iterator.{YieldsFirstRef, item_count};
    ghost use Rattle.files.specs.Scan.{words_left};

    type Item = &'a [u8];

    ghost next_gives = { YieldsFirstRef words_left };

    ghost remaining = { item_count words_left };

    fn next(&mut self) -> Option<&'a [u8]> {
        self.pieces.find(|word| !word.is_empty())
    }
}
