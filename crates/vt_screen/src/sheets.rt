//! `Sheet`: the lines of the display in a ring, so that scrolling all of them moves none.

ghost use Rattle.std.specs.Prelude.{◌≡◌, ◌<◌, ◌≤◌, ◌+◌, ◌++◌, true, length, slice_set, IfOk};
ghost use Rattle.vt_screen.specs.Grid.{line_at, look_at, put, uniform, scrolled_up, scrolled_down, written};
ghost use Rattle.vt_screen.specs.Grid.{part_filled, cells_inserted, cells_deleted, line_changed, lines_filled};
ghost use Rattle.vt_screen.specs.{Grid.{HasEvenLines}, Sheets.{ring_place, ring_next}};
ghost use Rattle.grids.specs.Grids.{rotated_up};

use crate::cells::Cell;
use crate::pens::Ink;
use grids::{Grid, Line};
use std::alloc::{AllocError, Global};
use std::marker::Model;

/// The lines of the display. The grid has them in a ring: those from `start` on are shown first, then the others.
#[derive(Drop)]
pub(crate) struct Sheet {
    grid: Grid<Cell>,
    start: usize,
}

impl Model for Sheet {
    ghost use Rattle.std.specs.Prelude.{List, ◌<◌, length};
    ghost use Rattle.grids.specs.Grids.{rotated_up};
    ghost use Rattle.vt_screen.specs.Look.{Look};

    ghost Value = { List (List Look) };

    ghost view = { λ s. rotated_up s.start s.grid };

    ghost invariant = { λ s. s.start < length s.grid };
}

impl Sheet {
    ghost use Rattle.vt_screen.specs.Look.{shown_by};

    /// A sheet of `rows` lines, at least one, and `cols` columns, filled with `cell`. Fails only when out of memory.
    pub fn new(alloc: Global, rows: usize, cols: usize, cell: Cell) -> Result<Sheet, AllocError>
        requires { 0 < rows }
        ensures { IfOk result (λ sheet. sheet ≡ uniform rows cols cell) }
    {
        let grid = Grid::new(alloc, rows, cols, cell)?;
        Ok(Sheet { grid, start: 0 })
    }

    /// All lines, from the top, in two parts.
    pub fn parts(&self) -> (&[Line<Cell>], &[Line<Cell>])
        ensures { self.now ≡ result.0.now ++ result.1.now }
    {
        let (lower, upper) = self.grid.lines().split_at(self.start);
        (upper, lower)
    }

    /// The cells of the line `row`, which must be in the sheet.
    pub fn line(&self, row: usize) -> &[Cell]
        requires { row < length self.now }
        ensures { result.now ≡ line_at self.now row }
    {
        let at = place_of(&self.grid, self.start, row);
        self.grid.line(at)
    }

    /// The cell at row `row` and column `col`, which must be in the sheet.
    pub fn get(&self, row: usize, col: usize) -> Cell
        requires row_within { row < length self.now }
        requires col_within { col < length (line_at self.now row) }
        ensures { result ≡ look_at self.now row col }
    {
        let at = place_of(&self.grid, self.start, row);
        self.grid.get(at, col)
    }

    /// Sets the cell at row `row` and column `col`, which must be in the sheet.
    pub fn set(&mut self, row: usize, col: usize, cell: Cell)
        requires row_within { row < length self.old }
        requires col_within { col < length (line_at self.old row) }
        ensures { self.new ≡ put row col cell self.old }
    {
        let at = place_of(&self.grid, self.start, row);
        self.grid.set(at, col, cell);
    }

    /// Sets the columns `from..to` of the line `row`, which must be in the sheet, to `cell`.
    pub fn fill_part(&mut self, row: usize, from: usize, to: usize, cell: Cell)
        requires row_within { row < length self.old }
        requires ordered { from ≤ to }
        requires to_within { to ≤ length (line_at self.old row) }
        ensures { self.new ≡ line_changed row (part_filled from to cell) self.old }
    {
        let at = place_of(&self.grid, self.start, row);
        self.grid.fill_part(at, from, to, cell);
    }

    /// Writes a text into the line `row` from the column `col` on. The text must fit in the line.
    pub fn write(&mut self, row: usize, col: usize, bytes: &[u8], ink: &Ink<'_>)
        requires row_within { row < length self.old }
        requires col_within { col + length bytes.now ≤ length (line_at self.old row) }
        ensures { self.new ≡ slice_set self.old row
            (written (shown_by ink.now.pen.now ink.now.graphic) col bytes.now (line_at self.old row)) }
    {
        let at = place_of(&self.grid, self.start, row);
        self.grid.write(at, col, bytes, ink);
    }

    /// Inserts `n` copies of `cell` at row `row` and column `col`, which must be in the sheet.
    pub fn insert(&mut self, row: usize, col: usize, n: usize, cell: Cell)
        requires row_within { row < length self.old }
        requires col_within { col ≤ length (line_at self.old row) }
        ensures { self.new ≡ line_changed row (cells_inserted col n cell (line_at self.old row)) self.old }
    {
        let at = place_of(&self.grid, self.start, row);
        self.grid.insert(at, col, n, cell);
    }

    /// Deletes `n` cells at row `row` and column `col`, which must be in the sheet.
    pub fn delete(&mut self, row: usize, col: usize, n: usize, cell: Cell)
        requires row_within { row < length self.old }
        requires col_within { col ≤ length (line_at self.old row) }
        ensures { self.new ≡ line_changed row (cells_deleted col n cell (line_at self.old row)) self.old }
    {
        let at = place_of(&self.grid, self.start, row);
        self.grid.delete(at, col, n, cell);
    }

    /// Sets every cell of the lines `from..to` to `cell`. The lines must be in the sheet.
    #[tactic(auto, using(crate::proofs::Rings::rotated_up_none, crate::proofs::Rings::first_within))]
    pub fn fill_lines(&mut self, from: usize, to: usize, cell: Cell)
        requires ordered { from ≤ to }
        requires within { to ≤ length self.old }
        ensures { self.new ≡ lines_filled from to cell self.old }
    {
        self.grid.rotate_up(self.start);
        self.start = 0;
        self.grid.fill_lines(from, to, cell);
    }

    /// Moves the lines from `top` to `bottom`, both included, up by `n`; the last `n` of them are filled with `cell`.
    /// The lines must be in the sheet, and all lines must have one length.
    pub fn scroll_up(&mut self, top: usize, bottom: usize, n: usize, cell: Cell)
        requires ordered { top ≤ bottom }
        requires within { bottom < length self.old }
        requires even { HasEvenLines self.old }
        ensures { self.new ≡ scrolled_up top bottom n cell self.old }
    {
        if self.is_whole(top, bottom, n) {
            self.turn_up(bottom, cell);
        } else {
            self.scroll_part_up(top, bottom, n, cell);
        }
    }

    /// Whether all lines are to move, by one.
    fn is_whole(&self, top: usize, bottom: usize, n: usize) -> bool
        requires { bottom < length self.now }
        ensures one { result ≡ true → n ≡ 1 }
        ensures top { result ≡ true → top ≡ 0 }
        ensures all { result ≡ true → bottom + 1 ≡ length self.now }
    {
        is_all(self.grid.lines().len(), top, bottom, n)
    }

    /// Moves all lines up by one; the last is filled with `cell`. All lines must have one length.
    fn turn_up(&mut self, bottom: usize, cell: Cell)
        requires whole { bottom + 1 ≡ length self.old }
        requires even { HasEvenLines self.old }
        ensures { self.new ≡ scrolled_up 0 bottom 1 cell self.old }
    {
        let count = self.grid.lines().len();
        let at = self.start;
        self.grid.fill_lines(at, at + 1, cell);
        self.start = ring_next(at, count);
    }

    /// Like `scroll_up`, with the lines themselves.
    #[tactic(auto, using(crate::proofs::Rings::rotated_up_none, crate::proofs::Rings::first_within))]
    fn scroll_part_up(&mut self, top: usize, bottom: usize, n: usize, cell: Cell)
        requires ordered { top ≤ bottom }
        requires within { bottom < length self.old }
        requires even { HasEvenLines self.old }
        ensures { self.new ≡ scrolled_up top bottom n cell self.old }
    {
        self.grid.rotate_up(self.start);
        self.start = 0;
        self.grid.scroll_up(top, bottom, n, cell);
    }

    /// Moves the lines from `top` to `bottom`, both included, down by `n`; the first `n` of them are filled with
    /// `cell`. The lines must be in the sheet, and all lines must have one length.
    #[tactic(auto, using(crate::proofs::Rings::rotated_up_none, crate::proofs::Rings::first_within))]
    pub fn scroll_down(&mut self, top: usize, bottom: usize, n: usize, cell: Cell)
        requires ordered { top ≤ bottom }
        requires within { bottom < length self.old }
        requires even { HasEvenLines self.old }
        ensures { self.new ≡ scrolled_down top bottom n cell self.old }
    {
        self.grid.rotate_up(self.start);
        self.start = 0;
        self.grid.scroll_down(top, bottom, n, cell);
    }
}

/// The place of the line of a row in the grid, if its first line is at `start`.
fn place_of(grid: &Grid<Cell>, start: usize, row: usize) -> usize
    requires start { start < length grid.now }
    requires row { row < length (rotated_up start grid.now) }
    ensures place { result ≡ ring_place start (length grid.now) row }
    ensures within { result < length grid.now }
    ensures line { line_at grid.now result ≡ line_at (rotated_up start grid.now) row }
{
    let rest = grid.lines().len() - start;
    if row < rest { start + row } else { row - rest }
}

/// Whether all of `count` lines are to move, by one.
fn is_all(count: usize, top: usize, bottom: usize, n: usize) -> bool
    requires { bottom < count }
    ensures one { result ≡ true → n ≡ 1 }
    ensures top { result ≡ true → top ≡ 0 }
    ensures all { result ≡ true → bottom + 1 ≡ count }
{
    (n == 1) & (top == 0) & (bottom + 1 == count)
}

/// Where the first line is after all `count` lines have moved up by one.
fn ring_next(start: usize, count: usize) -> usize
    requires { start < count }
    ensures { result ≡ ring_next start count }
{
    if start + 1 < count { start + 1 } else { 0 }
}
