//! A state of the terminal in a few numbers.

use ti_rows::Marks;
use vt_term::{Charset, Color};

/// A state of the terminal in which no sequence is open, autowrap is on, insertion is off, and every place has the
/// character `fill` in default rendition. Rows and columns count from 0.
#[derive(Clone, Copy, Debug, PartialEq, Eq)]
pub struct Probe {
    /// The cursor.
    pub row: u16,
    pub col: u16,
    /// Whether the last column was just printed.
    pub pending: bool,
    /// The first and the last line of the scrolling region.
    pub top: u16,
    pub bottom: u16,
    pub charset: Charset,
    /// The marks of the rendition, and its colors.
    pub look: Marks,
    pub foreground: Option<Color>,
    pub background: Option<Color>,
    pub visible: bool,
    /// The character in every place, 33 to 126.
    pub fill: u8,
}
