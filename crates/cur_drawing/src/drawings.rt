//! Writing, drawing and scrolling in one window.
ghost use Rattle.std.specs.Prelude.{◌≡◌, ◌<◌, ◌≤◌, ◌+◌, ◌-◌, min, true};
ghost use Rattle.cur_drawing.specs.{Cells.{IsPrinted}, Grids.{shape_of}, Windows.{IsWindow, is_pair, is_printed}};
ghost use Rattle.cur_drawing.specs.Calls.{IsCanvas, IsKept, canvas, step, done, advanced, written, written_times};
ghost use Rattle.cur_drawing.specs.Calls.{character, added, erased, cleared, insert_char, horizontal, vertical};
ghost use Rattle.cur_drawing.specs.Calls.{IsBorder, sides, corners, bordered, scrolled, scroll_by, change_background};
ghost use Rattle.cur_drawing.specs.Calls.{tab_width, region_height};

use crate::cells::Cell;
use crate::puts::{Border, Put};
use crate::refusals::Refusal;
use crate::rules::Restyle;
use crate::windows::{LONGEST, Window, count_to};
use grids::Grid;

// How a window writes into its grid.
impl Window {
    /// Writes the character `put` at the cursor, which moves on (`addch`). A space becomes the
    /// background's character; a newline clears to the line's end and moves to the next line, a tab
    /// writes spaces, a backspace and a return move the cursor, and any other control is written as `^X`.
    ///
    /// `BadCell` for a byte above 127, else `BadPair` for a pair above 63: nothing has then
    /// changed. `NoScroll` if the cursor would leave the last line: the characters written before
    /// remain, and the cursor stays where the last of them is.
    ///
    /// `scrolled` is increased by the number of lines by which the scrolling region moved up; no
    /// clause says so.
    #[tactic(auto, using(crate::proofs::Written::added_one))]
    pub fn add(
        &mut self,
        grid: &mut Grid<Cell>,
        put: Put,
        scrolled: &mut u16,
    ) -> Result<(), Refusal>
        requires { IsCanvas grid.old self.old }
        ensures value { step grid.new self.new result ≡ added put (canvas grid.old self.old) }
        ensures kept { IsKept grid.old self.old grid.new self.new }
    {
        // most characters need none of the further tests
        if put.is_cell() {
            return self.write(grid, put, scrolled);
        }
        put.check_written()?;
        self.add_character(grid, put, scrolled)
    }

    /// Writes the character `put` at the cursor as `add` does, and leaves it to the caller to move the cursor to the
    /// next column. A cell must be able to hold the character, and the cursor must not be in the last column.
    #[tactic(auto, using(crate::proofs::Written::added_next))]
    pub fn put_next(&self, grid: &mut Grid<Cell>, put: Put)
        requires canvas { IsCanvas grid.old self.now }
        requires byte { is_printed put.byte ≡ true }
        requires pair { is_pair put.pair ≡ true }
        requires before { (self.now).col + 1 < (self.now).area.cols }
        ensures value { done grid.new (record self.now { col = (self.now).col + 1 })
            ≡ added put (canvas grid.old self.now) }
        ensures kept { IsKept grid.old self.now grid.new (record self.now { col = (self.now).col + 1 }) }
    {
        self.put_cell(grid, self.content(put));
    }

    /// Erases the whole window, and moves the cursor to its corner (`erase`).
    pub fn erase(&mut self, grid: &mut Grid<Cell>)
        requires { IsCanvas grid.old self.old }
        ensures value { done grid.new self.new ≡ erased (canvas grid.old self.old) }
        ensures kept { IsKept grid.old self.old grid.new self.new }
    {
        grid.fill(self.area, self.background);
        self.row = 0;
        self.col = 0;
    }

    /// As `erase`; the next refresh of this window also clears the screen (`clear`).
    pub fn clear(&mut self, grid: &mut Grid<Cell>)
        requires { IsCanvas grid.old self.old }
        ensures value { done grid.new self.new ≡ cleared (canvas grid.old self.old) }
        ensures kept { IsKept grid.old self.old grid.new self.new }
    {
        self.erase(grid);
        self.clears = true;
    }

    /// Inserts the character `put` at the cursor, which stays; the rest of the line moves right
    /// (`insch`). `BadCell` for a byte outside 32 to 126, else `BadPair`; nothing has then changed.
    pub fn insert_char(&self, grid: &mut Grid<Cell>, put: Put) -> Result<(), Refusal>
        requires { IsCanvas grid.old self.now }
        ensures value { step grid.new self.now result ≡ insert_char put (canvas grid.old self.now) }
        ensures shape { shape_of grid.new ≡ shape_of grid.old }
    {
        put.check_cell()?;
        self.insert_cell(grid, self.content(put));
        Ok(())
    }

    /// Draws at most `n` cells of `put` from the cursor, which stays, to the line's end (`hline`).
    /// `BadCell` for a byte outside 32 to 126, else `BadPair`; nothing has then changed.
    pub fn horizontal(&self, grid: &mut Grid<Cell>, put: Put, n: i32) -> Result<(), Refusal>
        requires { IsCanvas grid.old self.now }
        ensures value { step grid.new self.now result ≡ horizontal put n (canvas grid.old self.now) }
        ensures shape { shape_of grid.new ≡ shape_of grid.old }
    {
        put.check_cell()?;
        let n = count_to(n, self.area.cols - self.col);
        self.fill_cells(grid, self.col, n, self.content(put));
        Ok(())
    }

    /// Draws at most `n` cells of `put` from the cursor, which stays, to the window's bottom
    /// (`vline`). `BadCell` for a byte outside 32 to 126, else `BadPair`; nothing has then changed.
    pub fn vertical(&self, grid: &mut Grid<Cell>, put: Put, n: i32) -> Result<(), Refusal>
        requires { IsCanvas grid.old self.now }
        ensures value { step grid.new self.now result ≡ vertical put n (canvas grid.old self.now) }
        ensures shape { shape_of grid.new ≡ shape_of grid.old }
    {
        let n = count_to(n, self.area.rows - self.row);
        put.check_cell()?;
        grid.fill(self.column(self.row, self.col, n), self.content(put));
        Ok(())
    }

    /// Draws `border` just inside the window's edges (`border`, `box`). `BadCell` for a byte
    /// outside 32 to 126 anywhere in it, else `BadPair`; nothing has then changed.
    pub fn draw_border(&self, grid: &mut Grid<Cell>, border: &Border) -> Result<(), Refusal>
        requires { IsCanvas grid.old self.now }
        ensures value { step grid.new self.now result ≡ bordered border.now (canvas grid.old self.now) }
        ensures shape { shape_of grid.new ≡ shape_of grid.old }
    {
        border.check_cells()?;
        self.draw_sides(grid, border);
        self.draw_corners(grid, border);
        Ok(())
    }

    /// Moves the lines of the scrolling region up by `n`, or down if `n` is negative (`scroll`).
    /// `NoScroll` for a window that may not scroll; nothing has then changed.
    pub fn scroll(&self, grid: &mut Grid<Cell>, n: i32) -> Result<(), Refusal>
        requires { IsCanvas grid.old self.now }
        ensures value { step grid.new self.now result ≡ scroll_by n (canvas grid.old self.now) }
        ensures shape { shape_of grid.new ≡ shape_of grid.old }
    {
        if !self.scrolls {
            return Err(Refusal::NoScroll);
        }
        self.scroll_region(grid, n);
        Ok(())
    }

    /// Changes the background to `put`, in the cells of `grid` too: its old character becomes the new one, its old
    /// attributes and pair the new ones (`bkgd`). `BadCell` for a byte outside 32 to 126, else `BadPair`; nothing has
    /// then changed.
    pub fn change_background(&mut self, grid: &mut Grid<Cell>, put: Put) -> Result<(), Refusal>
        requires { IsCanvas grid.old self.old }
        ensures value { step grid.new self.new result ≡ change_background put (canvas grid.old self.old) }
        ensures kept { IsKept grid.old self.old grid.new self.new }
    {
        put.check_cell()?;
        let new = Cell::new(put.byte, put.attrs, put.pair);
        grid.redraw(
            self.area,
            &Restyle {
                was: self.background,
                new,
            },
        );
        self.background = new;
        Ok(())
    }

    fn draw_sides(&self, grid: &mut Grid<Cell>, border: &Border)
        requires canvas { IsCanvas grid.old self.now }
        requires border { IsBorder border.now }
        ensures value { grid.new ≡ sides border.now self.now grid.old }
        ensures shape { shape_of grid.new ≡ shape_of grid.old }
    {
        self.fill_lines(grid, 0, 1, self.content(border.top));
        self.fill_lines(grid, self.area.rows - 1, 1, self.content(border.bottom));
        self.fill_column(grid, 0, self.content(border.left));
        self.fill_column(grid, self.area.cols - 1, self.content(border.right));
    }

    fn draw_corners(&self, grid: &mut Grid<Cell>, border: &Border)
        requires canvas { IsCanvas grid.old self.now }
        requires border { IsBorder border.now }
        ensures value { grid.new ≡ corners border.now self.now grid.old }
        ensures shape { shape_of grid.new ≡ shape_of grid.old }
    {
        let last = self.area.rows - 1;
        let right = self.area.cols - 1;
        self.put_at(grid, 0, 0, self.content(border.top_left));
        self.put_at(grid, 0, right, self.content(border.top_right));
        self.put_at(grid, last, 0, self.content(border.bottom_left));
        self.put_at(grid, last, right, self.content(border.bottom_right));
    }

    fn scroll_region(&self, grid: &mut Grid<Cell>, n: i32)
        requires { IsCanvas grid.old self.now }
        ensures value { grid.new ≡ scrolled n self.now grid.old }
        ensures shape { shape_of grid.new ≡ shape_of grid.old }
    {
        let height = self.region_bottom + 1 - self.region_top;
        if n < 0 {
            self.lines_down(grid, self.region_top, height, clamped(n.unsigned_abs()));
        } else {
            self.lines_up(grid, self.region_top, height, clamped(n.unsigned_abs()));
        }
    }

    // Moves the cursor to the next line.
    fn advance(&mut self, grid: &mut Grid<Cell>, scrolled: &mut u16) -> Result<(), Refusal>
        requires { IsCanvas grid.old self.old }
        ensures value { step grid.new self.new result ≡ advanced (canvas grid.old self.old) }
        ensures kept { IsKept grid.old self.old grid.new self.new }
    {
        if self.scrolls && self.row == self.region_bottom {
            let height = self.region_bottom + 1 - self.region_top;
            self.lines_up(grid, self.region_top, height, 1);
            *scrolled = scrolled.saturating_add(1);
            self.col = 0;
            return Ok(());
        }
        if self.row + 1 == self.area.rows {
            return Err(Refusal::NoScroll);
        }
        self.row += 1;
        self.col = 0;
        Ok(())
    }

    // Writes a character at the cursor, which moves on.
    fn write(&mut self, grid: &mut Grid<Cell>, put: Put, scrolled: &mut u16) -> Result<(), Refusal>
        requires canvas { IsCanvas grid.old self.old }
        requires byte { IsPrinted put.byte }
        requires pair { put.pair < 64 }
        ensures value { step grid.new self.new result ≡ written put (canvas grid.old self.old) }
        ensures kept { IsKept grid.old self.old grid.new self.new }
    {
        self.put_cell(grid, self.content(put));
        if self.col + 1 < self.area.cols {
            self.col += 1;
            return Ok(());
        }
        self.advance(grid, scrolled)
    }

    fn write_times(
        &mut self,
        grid: &mut Grid<Cell>,
        n: u16,
        put: Put,
        scrolled: &mut u16,
    ) -> Result<(), Refusal>
        requires canvas { IsCanvas grid.old self.old }
        requires byte { IsPrinted put.byte }
        requires pair { put.pair < 64 }
        ensures value { step grid.new self.new result ≡ written_times n put (canvas grid.old self.old) }
        ensures kept { IsKept grid.old self.old grid.new self.new }
    {
        for _time in 0..n {
            self.write(grid, put, scrolled)?;
        }
        Ok(())
    }

    // Writes one byte below 128.
    fn add_character(
        &mut self,
        grid: &mut Grid<Cell>,
        put: Put,
        scrolled: &mut u16,
    ) -> Result<(), Refusal>
        requires canvas { IsCanvas grid.old self.old }
        requires byte { put.byte < 128 }
        requires pair { put.pair < 64 }
        ensures value { step grid.new self.new result ≡ character put (canvas grid.old self.old) }
        ensures kept { IsKept grid.old self.old grid.new self.new }
    {
        match put.byte {
            b'\n' => {
                self.clear_line(grid);
                self.advance(grid, scrolled)
            }
            b'\t' => {
                let width = (8 - self.col % 8).min(self.area.cols - self.col);
                self.write_times(grid, width, Put { byte: 32, ..put }, scrolled)
            }
            8 => {
                self.col = self.col.saturating_sub(1);
                Ok(())
            }
            b'\r' => {
                self.col = 0;
                Ok(())
            }
            0..32 | 127 => {
                self.write(grid, Put { byte: b'^', ..put }, scrolled)?;
                self.write(
                    grid,
                    Put {
                        byte: put.byte ^ 64,
                        ..put
                    },
                    scrolled,
                )
            }
            _ => self.write(grid, put, scrolled),
        }
    }
}

// A number of lines that scrolls as far as `n` does: no window has more lines.
fn clamped(n: u32) -> u16
    ensures { result ≡ min n 1000 }
{
    n.min(LONGEST as u32) as u16
}
