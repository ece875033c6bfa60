//! The painter's knowledge of the terminal.
use crate::inks::Brush;

/// A place of the screen.
#[derive(Clone, Copy)]
pub struct Place {
    pub row: usize,
    pub col: usize,
}

/// The mode in which the cursor is shown (X/Open Curses, `curs_set`).
#[derive(Clone, Copy)]
pub enum Mode {
    Hidden,
    Normal,
    Prominent,
}

/// The knowledge of the terminal: the cursor's place, past the last column if a wrap is pending; the brush in which
/// characters are printed; whether the graphic set is active; and the cursor's mode.
#[derive(Clone, Copy)]
pub struct Belief {
    pub place: Place,
    pub brush: Brush,
    pub graphic: Option<bool>,
    pub mode: Option<Mode>,
}
