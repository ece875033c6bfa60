//! One window: its rectangle, cursor, background, scrolling region and options.
ghost use Rattle.std.specs.Prelude.{◌≡◌, ◌<◌, ◌≤◌, ◌+◌, nat_lt, Option, IfSome, IfOk, bit_or, bit_and, ◌-◌, ◌==◌};
ghost use Rattle.std.specs.Prelude.{if◌then◌else◌};
ghost use Rattle.cur_drawing.specs.{Cells.{IsPrinted}, Grids.{is_in}};
ghost use Rattle.cur_drawing.specs.Windows.{IsWindow, fresh, lines_of, cells_of, column_of, place_below, count_to};
ghost use Rattle.cur_drawing.specs.Windows.{first_pair, content, as_is, move_to, part_cursor, set_region, set_pair};
ghost use Rattle.cur_drawing.specs.Windows.{StaysInPlace, set_background, is_printed, is_pair};

use crate::cells::{Attrs, Cell, PAIRS};
use crate::puts::Put;
use crate::refusals::Refusal;
use grids::{Area, Place};

/// The most rows and the most columns of the grid under a window.
pub const LONGEST: u16 = 1000;

/// A rectangle of a grid with a cursor, a background, a scrolling region and options. Rows and columns
/// count from the window's corner.
#[derive(Clone, Copy)]
pub struct Window {
    /// The rectangle, in the places of the grid.
    pub area: Area,
    /// The cursor's row.
    pub row: u16,
    /// The cursor's column.
    pub col: u16,
    /// The attributes that each written character gets.
    pub attrs: Attrs,
    /// The cell that spaces are written as, and with which erasing fills.
    pub background: Cell,
    /// The pair of a written character that has none of its own.
    pub pair: u8,
    /// Whether it may scroll.
    pub scrolls: bool,
    /// Whether refreshes may leave its cursor anywhere.
    pub leaves: bool,
    /// Whether its next refresh clears the screen.
    pub clears: bool,
    /// The first line of the scrolling region.
    pub region_top: u16,
    /// The last line of the scrolling region.
    pub region_bottom: u16,
}

impl Window {
    /// A new window on `area`: the cursor at its corner, spaces as background, all options off.
    /// `area` must not be empty, and must end within 1000 rows and columns.
    pub fn new(area: Area) -> Window
        requires rows { 0 < area.rows }
        requires cols { 0 < area.cols }
        requires height { area.top + area.rows ≤ 1000 }
        requires width { area.left + area.cols ≤ 1000 }
        ensures value { result ≡ fresh area }
        ensures legal { IsWindow result }
    {
        Window {
            area,
            row: 0,
            col: 0,
            attrs: Attrs::none(),
            background: Cell::space(),
            pair: 0,
            scrolls: false,
            leaves: false,
            clears: false,
            region_top: 0,
            region_bottom: area.rows - 1,
        }
    }

    /// Moves the cursor to row `y` and column `x` of the window (X/Open Curses, `move`).
    /// `OutOfWindow` if there is no such place; nothing has then changed.
    pub fn move_to(&mut self, y: i32, x: i32) -> Result<(), Refusal>
        requires { IsWindow self.old }
        ensures value { (self.new, result) ≡ move_to y x self.old }
        ensures kept { StaysInPlace self.old self.new }
    {
        let Area { rows, cols, .. } = self.area;
        let (Some(row), Some(col)) = (place_below(y, rows), place_below(x, cols)) else {
            return Err(Refusal::OutOfWindow);
        };
        self.row = row;
        self.col = col;
        Ok(())
    }

    /// Makes the lines from `top` to `bottom` the scrolling region (`setscrreg`). `BadRegion`
    /// unless they are lines of the window, in order; nothing has then changed.
    pub fn set_region(&mut self, top: i32, bottom: i32) -> Result<(), Refusal>
        requires { IsWindow self.old }
        ensures value { (self.new, result) ≡ set_region top bottom self.old }
        ensures kept { StaysInPlace self.old self.new }
    {
        let rows = self.area.rows;
        let (Some(top), Some(bottom)) = (place_below(top, rows), place_below(bottom, rows)) else {
            return Err(Refusal::BadRegion);
        };
        if bottom < top {
            return Err(Refusal::BadRegion);
        }
        self.region_top = top;
        self.region_bottom = bottom;
        Ok(())
    }

    /// Sets the pair of written characters that have none of their own (`color_set`). `BadPair` for
    /// a number that isn't 0 to 63; nothing has then changed.
    pub fn set_pair(&mut self, pair: i32) -> Result<(), Refusal>
        requires { IsWindow self.old }
        ensures value { (self.new, result) ≡ set_pair pair self.old }
        ensures kept { StaysInPlace self.old self.new }
    {
        let Some(pair) = place_below(pair, PAIRS as u16) else {
            return Err(Refusal::BadPair);
        };
        self.pair = pair as u8;
        Ok(())
    }

    /// Sets the background for what is written and erased from now on (`bkgdset`). `BadCell` for a
    /// byte outside 32 to 126, else `BadPair` for a pair above 63; nothing has then changed.
    pub fn set_background(&mut self, put: Put) -> Result<(), Refusal>
        requires { IsWindow self.old }
        ensures value { (self.new, result) ≡ set_background put self.old }
        ensures kept { StaysInPlace self.old self.new }
    {
        put.check_cell()?;
        self.background = Cell::new(put.byte, put.attrs, put.pair);
        Ok(())
    }

    /// The cell for `put` when it is written in this window.
    pub(crate) fn content(&self, put: Put) -> Cell
        requires window { IsWindow self.now }
        requires pair { put.pair < 64 }
        requires byte { IsPrinted put.byte }
        ensures { result ≡ content self.now put }
    {
        let byte = if put.byte == 32 {
            self.background.byte()
        } else {
            put.byte
        };
        let attrs = put.attrs.with(self.attrs).with(self.background.attrs());
        Cell::new(
            byte,
            attrs,
            first_pair(put.pair, self.pair, self.background.pair()),
        )
    }

    /// `n` of the window's lines, from `from` on.
    pub(crate) fn lines(&self, from: u16, n: u16) -> Area
        requires window { IsWindow self.now }
        requires within { from + n ≤ self.now.area.rows }
        ensures { result ≡ lines_of self.now from n }
    {
        Area {
            top: self.area.top + from,
            left: self.area.left,
            rows: n,
            cols: self.area.cols,
        }
    }

    /// `n` places of the window's line `row`, from `from` on.
    pub(crate) fn cells(&self, row: u16, from: u16, n: u16) -> Area
        requires window { IsWindow self.now }
        requires row_within { row < self.now.area.rows }
        requires within { from + n ≤ self.now.area.cols }
        ensures { result ≡ cells_of self.now row from n }
    {
        Area {
            top: self.area.top + row,
            left: self.area.left + from,
            rows: 1,
            cols: n,
        }
    }

    /// `n` places of the window's column `col`, from `from` on.
    pub(crate) fn column(&self, from: u16, col: u16, n: u16) -> Area
        requires window { IsWindow self.now }
        requires col_within { col < self.now.area.cols }
        requires within { from + n ≤ self.now.area.rows }
        ensures { result ≡ column_of self.now from col n }
    {
        let lines = self.lines(from, n);
        Area {
            left: self.area.left + col,
            cols: 1,
            ..lines
        }
    }
}

/// The number `n`, if it is a place below the limit.
pub fn place_below(n: i32, limit: u16) -> Option<u16>
    ensures value { result ≡ place_below n limit }
    ensures below { IfSome result (λ place. place < limit) }
{
    if n < 0 || n >= limit as i32 {
        return None;
    }
    Some(n as u16)
}

// The number `n` as a count: 0 if it is negative, and at most the limit.
pub(crate) fn count_to(n: i32, limit: u16) -> u16
    ensures value { result ≡ count_to n limit }
    ensures within { result ≤ limit }
{
    if n < 0 {
        0
    } else if n < limit as i32 {
        n as u16
    } else {
        limit
    }
}

fn first_pair(own: u8, window: u8, background: u8) -> u8
    requires own { own < 64 }
    requires window { window < 64 }
    requires background { background < 64 }
    ensures value { result ≡ first_pair own window background }
    ensures there { result < 64 }
{
    if own != 0 {
        own
    } else if window != 0 {
        window
    } else {
        background
    }
}

/// The place of the window's cursor if its `part` is shown from the place `to` on: none if the
/// window leaves its cursor anywhere, or if the cursor isn't in the part. The part, shown there,
/// must end within 1000 rows and columns.
pub fn cursor_in_part(window: &Window, part: Area, to: Place) -> Option<Place>
    requires window { IsWindow window.now }
    requires height { to.row + part.rows ≤ 1000 }
    requires width { to.col + part.cols ≤ 1000 }
    ensures value { result ≡ part_cursor window.now part to }
    ensures within { IfSome result (λ p. (p.row < to.row + part.rows) × (p.col < to.col + part.cols)) }
{
    if window.leaves {
        return None;
    }
    if !is_in(part, window.row, window.col) {
        return None;
    }
    Some(Place {
        row: to.row + (window.row - part.top),
        col: to.col + (window.col - part.left),
    })
}

fn is_in(part: Area, row: u16, col: u16) -> bool
    ensures { result ≡ is_in part row col }
{
    let (row, col) = (row as u32, col as u32);
    let (top, left) = (part.top as u32, part.left as u32);
    let rows = top <= row && row < top + part.rows as u32;
    rows && left <= col && col < left + part.cols as u32
}
