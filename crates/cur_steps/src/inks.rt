//! The content of a place of the screen.
ghost use Rattle.std.specs.Prelude.{◌≡◌, ◌+◌, ◌≤◌, ℕ, IfSome, length};
ghost use Rattle.cur_steps.specs.Inks as spec;

use crate::stretches::blank_shown;
use ti_rows::{Attributes, NO_ATTRIBUTES};
use vt_term::Color;

/// How characters are printed: their attributes and colors. `None` is the default color.
#[derive(Clone, Copy)]
pub struct Brush {
    pub attributes: Attributes,
    pub foreground: Option<Color>,
    pub background: Option<Color>,
}

/// One of the two colors of a brush: that of characters, or that behind them.
#[derive(Clone, Copy)]
pub enum Ground {
    Fore,
    Back,
}

/// The content of a place: a character of the plain or the graphic set, and how it is printed.
#[derive(Clone, Copy)]
pub struct Ink {
    pub byte: u8,
    pub graphic: bool,
    pub brush: Brush,
}

/// The `count` cells of the line `row` from the column `from` on.
#[derive(Clone, Copy)]
pub struct Cells {
    pub row: usize,
    pub from: usize,
    pub count: usize,
}

/// A screen that can be asked for the ink of each of its places.
pub trait Picture {
    ghost use Rattle.std.specs.Prelude.{◌+◌, ◌≤◌, length};
    ghost use Rattle.cur_steps.specs.{Inks.{byte_as, same, blank_ink}, Stretches.{AreShown, IsTextLike}};
    ghost use Rattle.cur_steps.specs.declared.inks.Ink.{Ink};

    ghost cells: { Self → ℕ → ℕ → Ink };

    /// The ink in line `row` and column `col`; outside the screen, a blank one.
    fn at(&self, row: usize, col: usize) -> Ink
        ensures value { result ≡ cells self.now row col };

    /// Whether the ink in line `row` and column `col` is printed like `ink`.
    fn shows(&self, row: usize, col: usize, ink: Ink) -> bool
        ensures value { result ≡ same (cells self.now row col) ink }
    {
        is_same(self.at(row, col), ink)
    }

    /// Whether the place in line `row` and column `col` is blank.
    fn is_blank(&self, row: usize, col: usize) -> bool
        ensures value { result ≡ same (cells self.now row col) blank_ink }
    {
        self.shows(row, col, Ink::blank())
    }

    /// The character in line `row` and column `col`, if it has the set and the brush of column `like` in that line.
    fn byte_like(&self, row: usize, col: usize, like: usize) -> Option<u8>
        ensures value { result ≡ byte_as (cells self.now row col) (cells self.now row like) }
    {
        byte_as(self.at(row, col), self.at(row, like))
    }

    /// Counts the cells of `stretch` before the first one that isn't printed in the set and the brush of the column
    /// `like` of their line, and writes their characters to `text`. It counts no more than `text` has room for.
    fn text_like(&self, stretch: Cells, like: usize, text: &mut [u8]) -> usize
        requires within { stretch.from + stretch.count ≤ 1000 }
        ensures room { length text.new ≡ length text.old }
        ensures found { IsTextLike (cells self.now) stretch like result text.new }
    {
        let mut n = 0;
        while n < stretch.count && n < text.len() {
            match self.byte_like(stretch.row, stretch.from + n, like) {
                Some(byte) => text[n] = byte,
                None => return n,
            }
            n += 1;
        }
        n
    }

    /// Sets in `shown`, for each cell of `stretch`, whether it is printed like `ink` with the character that `text` has
    /// for it. Both `text` and `shown` must be at least as long as `stretch`.
    fn shows_text(&self, stretch: Cells, ink: Ink, text: &[u8], shown: &mut [bool])
        requires within { stretch.from + stretch.count ≤ 1000 }
        requires text { stretch.count ≤ length text.now }
        requires room { stretch.count ≤ length shown.old }
        ensures room { length shown.new ≡ length shown.old }
        ensures found { AreShown (cells self.now) stretch ink text.now shown.new }
    {
        for n in 0..stretch.count {
            let byte = text[n];
            shown[n] = self.shows(stretch.row, stretch.from + n, Ink { byte, ..ink });
        }
    }
}

/// A blank screen.
pub struct Blank;

impl Picture for Blank {
    ghost use Rattle.cur_steps.specs.Inks.{blank_ink};

    ghost cells = { λ b i j. blank_ink };

    fn at(&self, row: usize, col: usize) -> Ink
        ensures value { result ≡ blank_ink }
    {
        Ink::blank()
    }

    fn shows_text(&self, stretch: Cells, ink: Ink, text: &[u8], shown: &mut [bool]) {
        blank_shown(stretch.count, ink, text, shown);
    }
}

impl Ink {
    /// A space without attributes, in the default colors.
    pub fn blank() -> Ink
        ensures value { result ≡ spec.blank_ink }
    {
        Ink {
            byte: 32,
            graphic: false,
            brush: Brush::plain(),
        }
    }
}

impl Brush {
    /// No attributes and the default colors.
    pub fn plain() -> Brush
        ensures value { result ≡ spec.plain_brush }
    {
        Brush {
            attributes: NO_ATTRIBUTES,
            foreground: None,
            background: None,
        }
    }
}

/// Whether `ink` is of the plain set, without attributes and in the default colors.
pub fn is_plain_ink(ink: Ink) -> bool
    ensures value { result ≡ spec.same spec.blank_ink (record ink { byte = 32 }) }
{
    is_same(Ink::blank(), Ink { byte: b' ', ..ink })
}

/// Whether `a` and `b` have the same character, set and brush.
pub fn is_same(a: Ink, b: Ink) -> bool
    ensures value { result ≡ spec.same a b }
{
    a.byte == b.byte && a.graphic == b.graphic && same_brush(a.brush, b.brush)
}

/// The character of `ink`, if it has the set and the brush of `like`.
pub fn byte_as(ink: Ink, like: Ink) -> Option<u8>
    ensures value { result ≡ spec.byte_as ink like }
{
    let is_like = ink.graphic == like.graphic && same_brush(ink.brush, like.brush);
    is_like.then_some(ink.byte)
}

/// Whether the brushes `a` and `b` are the same.
pub fn same_brush(a: Brush, b: Brush) -> bool
    ensures value { result ≡ spec.same_brush a b }
{
    same_attributes(a.attributes, b.attributes)
        && same_color(a.foreground, b.foreground)
        && same_color(a.background, b.background)
}

/// Whether the attributes `a` and `b` are the same.
pub fn same_attributes(a: Attributes, b: Attributes) -> bool
    ensures value { result ≡ spec.same_attributes a b }
{
    same_few(a, b) && same_others(a, b)
}

/// Whether `a` and `b` are the same in standout, underline and reverse.
fn same_few(a: Attributes, b: Attributes) -> bool
    ensures value { result ≡ spec.same_few a b }
{
    a.standout == b.standout && a.underline == b.underline && a.reverse == b.reverse
}

/// Whether `a` and `b` are the same in blink, dim, bold and invisible.
fn same_others(a: Attributes, b: Attributes) -> bool
    ensures value { result ≡ spec.same_others a b }
{
    a.blink == b.blink && a.dim == b.dim && a.bold == b.bold && a.invisible == b.invisible
}

/// Whether the colors `a` and `b` are the same; `None` is the default color.
pub fn same_color(a: Option<Color>, b: Option<Color>) -> bool
    ensures value { result ≡ spec.same_color a b }
{
    match (a, b) {
        (None, None) => true,
        (Some(a), Some(b)) => a.number() == b.number(),
        (Some(_), None) | (None, Some(_)) => false,
    }
}
