//! The parts of an effect.

ghost use Rattle.std.specs.Prelude.{◌≡◌, IsTrue, false};
ghost use Rattle.ti_blames.specs.Parts as spec;

use ti_rows::{Attributes, Looks};
use vt_effects::{Effect, Switch};

/// A part of an effect.
#[derive(Clone, Copy, Debug, PartialEq, Eq)]
pub enum Part {
    /// The cursor's row.
    Row,
    /// The cursor's column.
    Column,
    /// The cells that are erased.
    Erasure,
    /// The scrolling of the region.
    Scroll,
    /// A mark of the rendition.
    Mark(Mark),
    /// The color of characters.
    Foreground,
    /// The color behind them.
    Background,
    /// The set G0, the set G1, and which of them is active.
    Sets,
    /// The first and the last line of the scrolling region.
    Margins,
    /// Whether the cursor is shown.
    Visible,
    /// Whether a pending wrap is cleared.
    Pending,
}

/// A mark of the rendition.
#[derive(Clone, Copy, Debug, PartialEq, Eq)]
pub enum Mark {
    Bold,
    Faint,
    Underline,
    Blink,
    Negative,
    Concealed,
}

/// All parts, in the order in which they are compared.
pub(crate) const PARTS: [Part; 16] = [
    Part::Row,
    Part::Column,
    Part::Erasure,
    Part::Scroll,
    Part::Mark(Mark::Bold),
    Part::Mark(Mark::Faint),
    Part::Mark(Mark::Underline),
    Part::Mark(Mark::Blink),
    Part::Mark(Mark::Negative),
    Part::Mark(Mark::Concealed),
    Part::Foreground,
    Part::Background,
    Part::Sets,
    Part::Margins,
    Part::Visible,
    Part::Pending,
];

/// The change of a mark by `effect`.
pub(crate) fn switch_of(mark: Mark, effect: &Effect) -> Switch
    ensures { result ≡ spec.switch_of mark effect.now }
{
    let rendition = effect.rendition;
    match mark {
        Mark::Bold => rendition.bold,
        Mark::Faint => rendition.faint,
        Mark::Underline => rendition.underline,
        Mark::Blink => rendition.blink,
        Mark::Negative => rendition.negative,
        Mark::Concealed => rendition.concealed,
    }
}

/// Whether two effects differ in `part`.
pub(crate) fn differ(part: Part, one: &Effect, other: &Effect) -> bool
    ensures apart { IsTrue result → spec.AreSame part one.now other.now → ⊥ }
    ensures same { result ≡ false → spec.AreSame part one.now other.now }
{
    match part {
        Part::Row => one.row != other.row,
        Part::Column => one.col != other.col,
        Part::Erasure => one.erasure != other.erasure,
        Part::Scroll => one.scroll != other.scroll,
        Part::Mark(mark) => switch_of(mark, one) != switch_of(mark, other),
        Part::Foreground => one.rendition.foreground != other.rendition.foreground,
        Part::Background => one.rendition.background != other.rendition.background,
        Part::Sets => one.charset != other.charset,
        Part::Margins => one.margins != other.margins,
        Part::Visible => one.visible != other.visible,
        Part::Pending => one.ends_pending != other.ends_pending,
    }
}

/// The digit of the `sgr` parameter to blame: that of the attribute of `mark` if `attributes` has it and `looks` shows
/// it by that mark, and otherwise the digit for standout.
pub(crate) fn digit_for(mark: Mark, attributes: Attributes, looks: Looks) -> u8
    ensures { result ≡ spec.digit_for mark attributes looks }
{
    let (is_shown, digit) = match mark {
        Mark::Underline => (attributes.underline && looks.underline, b'2'),
        Mark::Negative => (attributes.reverse && looks.reverse, b'3'),
        Mark::Blink => (attributes.blink && looks.blink, b'4'),
        Mark::Faint => (attributes.dim && looks.dim, b'5'),
        Mark::Bold => (attributes.bold && looks.bold, b'6'),
        Mark::Concealed => (attributes.invisible && looks.invisible, b'7'),
    };
    if is_shown { digit } else { b'1' }
}
