//! A text cut in two.
ghost use Rattle.std.specs.Prelude.{◌≡◌};
ghost use Rattle.files.specs.Scan.{before, behind};

use crate::scan::Separator;

/// What stands before the first separator, and what stands behind it.
pub(crate) fn cut_once(text: &[u8], separator: Separator) -> (&[u8], &[u8])
    ensures front { result.0.now ≡ before separator text.now }
    ensures back { result.1.now ≡ behind separator text.now }
{
    match text.iter().position(|byte| separator.is(*byte)) {
        Some(i) => (&text[..i], &text[i + 1..]),
        None => (text, &[]),
    }
}
