//! Strings written in one window, a run of characters at a time.
ghost use Rattle.std.specs.Prelude.{◌≡◌, ◌<◌, ◌≤◌, ◌+◌, ℕ, IfOk, MatchResult, Err, drop, length, slice_index};
ghost use Rattle.cur_drawing.specs.Cells.{IsPrinted, lettered};
ghost use Rattle.cur_drawing.specs.Calls.{IsCanvas, IsKept, canvas, step, done, added_all};

use crate::cells::Cell;
use crate::puts::Put;
use crate::refusals::Refusal;
use crate::windows::Window;
use grids::{Grid, Paint};

// The cells that a window writes for the characters of a string: one for a space, and one with the
// attributes and the pair of each other character.
#[derive(Drop)]
struct Style {
    space: Cell,
    letter: Cell,
}

impl Paint<Cell> for Style {
    ghost painted = { λ style byte. lettered style.space style.letter byte };

    fn paint(&self, byte: u8) -> Cell {
        if byte < 33 || 126 < byte {
            return self.space;
        }
        Cell::new(byte, self.letter.attrs(), self.letter.pair())
    }
}

// How a window writes a string.
impl Window {
    /// Writes the string `text` at the cursor (`addstr`). It stops at the first refusal, and the
    /// characters written before remain. `scrolled` is increased by the number of lines by which
    /// the scrolling region moved up; no clause says so.
    pub fn add_all(
        &mut self,
        grid: &mut Grid<Cell>,
        text: &[u8],
        scrolled: &mut u16,
    ) -> Result<(), Refusal>
        requires { IsCanvas grid.old self.old }
        ensures value { step grid.new self.new result ≡ added_all text.now (canvas grid.old self.old) }
        ensures kept { IsKept grid.old self.old grid.new self.new }
    {
        let mut at = 0;
        while at < text.len() {
            at += self.add_some(grid, &text[at..], scrolled)?;
        }
        Ok(())
    }

    // Writes at least one byte of `text` at the cursor, which moves on, and returns how many.
    fn add_some(
        &mut self,
        grid: &mut Grid<Cell>,
        text: &[u8],
        scrolled: &mut u16,
    ) -> Result<usize, Refusal>
        requires canvas { IsCanvas grid.old self.old }
        requires some { 0 < length text.now }
        ensures value { MatchResult result
            (λ n. added_all (drop n text.now) (canvas grid.new self.new)
            ≡ added_all text.now (canvas grid.old self.old))
            (λ e. step grid.new self.new (Err e) ≡ added_all text.now (canvas grid.old self.old)) }
        ensures count { IfOk result (λ n. (0 < n) × (n ≤ length text.now)) }
        ensures kept { IsKept grid.old self.old grid.new self.new }
    {
        let room = (self.area.cols - self.col - 1) as usize;
        let run = printed_front(text, room);
        if run == 0 {
            self.add(grid, Put::plain(text[0]), scrolled)?;
            return Ok(1);
        }
        self.write_run(grid, &text[..run]);
        Ok(run)
    }

    // Writes characters from 32 to 126 at the cursor, which moves on; they must end before the
    // line's last place.
    fn write_run(&mut self, grid: &mut Grid<Cell>, text: &[u8])
        requires canvas { IsCanvas grid.old self.old }
        requires printed { (k : ℕ) → k < length text.now → IsPrinted (slice_index text.now k) }
        requires room { self.old.col + length text.now < self.old.area.cols }
        ensures value { done grid.new self.new ≡ added_all text.now (canvas grid.old self.old) }
        ensures kept { IsKept grid.old self.old grid.new self.new }
    {
        let style = Style {
            space: self.content(Put::plain(b' ')),
            letter: self.content(Put::plain(b'x')),
        };
        let row = self.area.top as usize + self.row as usize;
        let col = self.area.left as usize + self.col as usize;
        grid.write(row, col, text, &style);
        self.col += text.len() as u16;
    }
}

// The number of bytes at the start of `text` that are characters from 32 to 126, counted up to the limit.
fn printed_front(text: &[u8], limit: usize) -> usize
    ensures within { result ≤ length text.now }
    ensures limit { result ≤ limit }
    ensures printed { (k : ℕ) → k < result → IsPrinted (slice_index text.now k) }
{
    let limit = limit.min(text.len());
    for k in 0..limit {
        if text[k] < 32 || 126 < text[k] {
            return k;
        }
    }
    limit
}
