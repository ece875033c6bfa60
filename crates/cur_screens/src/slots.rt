//! The places of windows and of their grids.
ghost use Rattle.std.specs.Prelude.{◌≡◌};
ghost use Rattle.cur_screens.specs.Slots as spec;

use cur_drawing::Window;
use grids::Area;

/// The most windows.
pub const WINDOWS: usize = 64;

/// The place of a grid on the screen, and whether it is a pad's, which has none.
#[derive(Clone, Copy)]
pub struct Origin {
    pub top: u16,
    pub left: u16,
    pub pad: bool,
}

/// The numbers of lines and columns of a screen.
#[derive(Clone, Copy)]
pub struct Extent {
    pub rows: u16,
    pub cols: u16,
}

/// A window with the number of its grid and, if it is a subwindow, that of its parent.
#[derive(Clone, Copy)]
pub struct Slot {
    pub root: u8,
    pub parent: Option<u8>,
    pub window: Window,
}

/// The rectangle of `rows` rows and `cols` columns that begins at the corner.
pub fn whole_area(rows: u16, cols: u16) -> Area
    ensures { result ≡ spec.whole_area rows cols }
{
    Area {
        top: 0,
        left: 0,
        rows,
        cols,
    }
}
