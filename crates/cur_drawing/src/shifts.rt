//! Erasing and shifting lines and cells of one window.
ghost use Rattle.std.specs.Prelude.{◌≡◌, ◌<◌, ◌≤◌, ◌+◌, ◌-◌, false};
ghost use Rattle.cur_drawing.specs.Windows.{IsWindow, lines_of, cells_of, column_of, content};
ghost use Rattle.cur_drawing.specs.Grids.{shifted, filled, shape_of};
ghost use Rattle.cur_drawing.specs.Calls.{IsCanvas, place, canvas, done, lines_up, lines_down, inserted, deleted};
ghost use Rattle.cur_drawing.specs.Calls.{line_cleared, bottom_cleared, insert_line, delete_line, delete_char};
ghost use Rattle.cur_drawing.specs.Calls.{HasLines, clear_line, clear_bottom};

use crate::cells::Cell;
use crate::windows::Window;
use grids::{Grid, Place};

// Changes of the lines and cells of a window's grid; the cursor stays.
impl Window {
    /// Erases the cells from the cursor to the line's end (`clrtoeol`).
    pub fn clear_line(&self, grid: &mut Grid<Cell>)
        requires { IsCanvas grid.old self.now }
        ensures value { done grid.new self.now ≡ clear_line (canvas grid.old self.now) }
        ensures shape { shape_of grid.new ≡ shape_of grid.old }
    {
        self.fill_cells(grid, self.col, self.area.cols - self.col, self.background);
    }

    /// Erases the cells from the cursor to the window's end (`clrtobot`).
    pub fn clear_bottom(&self, grid: &mut Grid<Cell>)
        requires { IsCanvas grid.old self.now }
        ensures value { done grid.new self.now ≡ clear_bottom (canvas grid.old self.now) }
        ensures shape { shape_of grid.new ≡ shape_of grid.old }
    {
        self.clear_line(grid);
        self.fill_lines(
            grid,
            self.row + 1,
            self.area.rows - (self.row + 1),
            self.background,
        );
    }

    /// Inserts a line of the background at the cursor's line; the lines from there to the window's
    /// bottom move down, and the last one is dropped (`insertln`).
    pub fn insert_line(&self, grid: &mut Grid<Cell>)
        requires { IsCanvas grid.old self.now }
        ensures value { done grid.new self.now ≡ insert_line (canvas grid.old self.now) }
        ensures shape { shape_of grid.new ≡ shape_of grid.old }
    {
        self.lines_down(grid, self.row, self.area.rows - self.row, 1);
    }

    /// Deletes the cursor's line; the lines below it move up, and the window's last line becomes
    /// background (`deleteln`).
    pub fn delete_line(&self, grid: &mut Grid<Cell>)
        requires { IsCanvas grid.old self.now }
        ensures value { done grid.new self.now ≡ delete_line (canvas grid.old self.now) }
        ensures shape { shape_of grid.new ≡ shape_of grid.old }
    {
        self.lines_up(grid, self.row, self.area.rows - self.row, 1);
    }

    /// Deletes the cursor's cell; the rest of the line moves left, and the line's last cell becomes
    /// background (`delch`).
    pub fn delete_char(&self, grid: &mut Grid<Cell>)
        requires { IsCanvas grid.old self.now }
        ensures value { done grid.new self.now ≡ delete_char (canvas grid.old self.now) }
        ensures shape { shape_of grid.new ≡ shape_of grid.old }
    {
        let rest = self.area.cols - (self.col + 1);
        self.shift_cells(grid, self.col, self.col + 1, rest);
        self.fill_cells(grid, self.area.cols - 1, 1, self.background);
    }

    // Inserts the cell at the cursor; the rest of the line moves right.
    pub(crate) fn insert_cell(&self, grid: &mut Grid<Cell>, cell: Cell)
        requires { IsCanvas grid.old self.now }
        ensures value { grid.new ≡ inserted cell self.now grid.old }
        ensures shape { shape_of grid.new ≡ shape_of grid.old }
    {
        let rest = self.area.cols - (self.col + 1);
        self.shift_cells(grid, self.col + 1, self.col, rest);
        self.put_cell(grid, cell);
    }

    // Of `height` lines from `from` on, drops the upper `n`, moves the others up, and fills those
    // below with the background.
    pub(crate) fn lines_up(&self, grid: &mut Grid<Cell>, from: u16, height: u16, n: u16)
        requires { HasLines grid.old self.now from height }
        ensures value { grid.new ≡ lines_up self.now from height n grid.old }
        ensures shape { shape_of grid.new ≡ shape_of grid.old }
    {
        let n = n.min(height);
        self.shift_lines(grid, from, from + n, height - n);
        self.fill_lines(grid, from + (height - n), n, self.background);
    }

    // Of `height` lines from `from` on, drops the lower `n`, moves the others down, and fills those
    // above with the background.
    pub(crate) fn lines_down(&self, grid: &mut Grid<Cell>, from: u16, height: u16, n: u16)
        requires { HasLines grid.old self.now from height }
        ensures value { grid.new ≡ lines_down self.now from height n grid.old }
        ensures shape { shape_of grid.new ≡ shape_of grid.old }
    {
        let n = n.min(height);
        self.shift_lines(grid, from + n, from, height - n);
        self.fill_lines(grid, from, n, self.background);
    }

    // Fills `n` of the window's lines with `cell`.
    pub(crate) fn fill_lines(&self, grid: &mut Grid<Cell>, from: u16, n: u16, cell: Cell)
        requires canvas { IsCanvas grid.old self.now }
        requires within { from + n ≤ self.now.area.rows }
        ensures value { grid.new ≡ filled (lines_of self.now from n) cell grid.old }
        ensures shape { shape_of grid.new ≡ shape_of grid.old }
    {
        grid.fill(self.lines(from, n), cell);
    }

    // Fills `n` cells of the cursor's line with `cell`.
    pub(crate) fn fill_cells(&self, grid: &mut Grid<Cell>, from: u16, n: u16, cell: Cell)
        requires canvas { IsCanvas grid.old self.now }
        requires within { from + n ≤ self.now.area.cols }
        ensures value { grid.new ≡ filled (cells_of self.now self.now.row from n) cell grid.old }
        ensures shape { shape_of grid.new ≡ shape_of grid.old }
    {
        grid.fill(self.cells(self.row, from, n), cell);
    }

    // Fills the window's column `col` with `cell`.
    pub(crate) fn fill_column(&self, grid: &mut Grid<Cell>, col: u16, cell: Cell)
        requires canvas { IsCanvas grid.old self.now }
        requires within { col < self.now.area.cols }
        ensures value { grid.new ≡ filled (column_of self.now 0 col self.now.area.rows) cell grid.old }
        ensures shape { shape_of grid.new ≡ shape_of grid.old }
    {
        grid.fill(self.column(0, col, self.area.rows), cell);
    }

    // Writes `cell` at the cursor.
    pub(crate) fn put_cell(&self, grid: &mut Grid<Cell>, cell: Cell)
        requires { IsCanvas grid.old self.now }
        ensures value { grid.new ≡ filled (cells_of self.now self.now.row self.now.col 1) cell grid.old }
        ensures shape { shape_of grid.new ≡ shape_of grid.old }
    {
        self.put_at(grid, self.row, self.col, cell);
    }

    // Writes `cell` at a place of the window.
    pub(crate) fn put_at(&self, grid: &mut Grid<Cell>, row: u16, col: u16, cell: Cell)
        requires canvas { IsCanvas grid.old self.now }
        requires row_within { row < self.now.area.rows }
        requires col_within { col < self.now.area.cols }
        ensures value { grid.new ≡ filled (cells_of self.now row col 1) cell grid.old }
        ensures shape { shape_of grid.new ≡ shape_of grid.old }
    {
        grid.set(
            self.area.top as usize + row as usize,
            self.area.left as usize + col as usize,
            cell,
        );
    }

    // Copies the `n` lines from `from` on to those from `to` on.
    fn shift_lines(&self, grid: &mut Grid<Cell>, to: u16, from: u16, n: u16)
        requires canvas { IsCanvas grid.old self.now }
        requires to_within { to + n ≤ self.now.area.rows }
        requires from_within { from + n ≤ self.now.area.rows }
        ensures value { grid.new ≡ shifted (lines_of self.now to n)
            (place (self.now.area.top + from) self.now.area.left) grid.old }
        ensures shape { shape_of grid.new ≡ shape_of grid.old }
    {
        let source = Place {
            row: self.area.top + from,
            col: self.area.left,
        };
        grid.shift(self.lines(to, n), source);
    }

    // Copies the `n` cells of the cursor's line from `from` on to those from `to` on.
    fn shift_cells(&self, grid: &mut Grid<Cell>, to: u16, from: u16, n: u16)
        requires canvas { IsCanvas grid.old self.now }
        requires to_within { to + n ≤ self.now.area.cols }
        requires from_within { from + n ≤ self.now.area.cols }
        ensures value { grid.new ≡ shifted (cells_of self.now self.now.row to n)
            (place (self.now.area.top + self.now.row) (self.now.area.left + from)) grid.old }
        ensures shape { shape_of grid.new ≡ shape_of grid.old }
    {
        let source = Place {
            row: self.area.top + self.row,
            col: self.area.left + from,
        };
        grid.shift(self.cells(self.row, to, n), source);
    }
}
