//! The sizes that a terminal can have.

ghost use Rattle.std.specs.Prelude.{◌≡◌, ◌↔◌, IsSome, IfSome};
ghost use Rattle.vt_screen.specs.Size.{IsSize};

/// The greatest number of rows of a terminal.
pub const MAX_ROWS: usize = 200;

/// The greatest number of columns of a terminal.
pub const MAX_COLS: usize = 500;

/// The size of a terminal in rows and columns.
#[derive(Clone, Copy, Debug, PartialEq, Eq)]
pub struct Size {
    pub rows: usize,
    pub cols: usize,
    ghost limits: { IsSize rows cols },
}

impl Size {
    /// A size of 2 to 200 rows and 2 to 500 columns; `None` for any other.
    pub fn new(rows: usize, cols: usize) -> Option<Size>
        ensures within { IsSome result ↔ IsSize rows cols }
        ensures value { IfSome result (λ size. (size.rows ≡ rows) × (size.cols ≡ cols)) }
    {
        if (2..=MAX_ROWS).contains(&rows) && (2..=MAX_COLS).contains(&cols) {
            Some(Size { rows, cols })
        } else {
            None
        }
    }
}
