//! What the check answers.
ghost use Rattle.std.specs.Prelude.{Some};
ghost use Rattle.checker.specs.Answer.{sheet_text};

use std::fmt;

/// What a run of a procedure is to be given: steps, rows and frames.
#[derive(Clone, Copy, PartialEq, Eq, Default, Debug)]
pub struct Sheet {
    pub ceiling: u64,
    pub rows: u16,
    pub frames: u16,
}

/// As `ceiling 35, rows 9, frames 3`.
impl fmt::Display for Sheet {
    ghost output = { λ x. Some (sheet_text x) };

    fn fmt<W: fmt::Write>(&self, f: &mut fmt::Formatter<W>) -> fmt::Result {
        let ceiling = self.ceiling;
        let rows = self.rows;
        let frames = self.frames;
        write!(f, "ceiling {ceiling}, rows {rows}, frames {frames}")
    }
}
