//! The virtual screen as a painter sees it.
ghost use Rattle.std.specs.Prelude.{◌≡◌, ◌+◌, ◌<◌, ◌≤◌, ℕ, false, true, length};
ghost use Rattle.cur_drawing.specs.Cells.{Content, IsCell};
ghost use Rattle.cur_steps.specs.{Inks.{byte_as, same, same_brush}, Stretches.{IsTextLike}};
ghost use Rattle.cur_update.specs.Inks.{AreCellsShown, IsBare, IsLineText, content_at, ink_at_with, is_other};
ghost use Rattle.cur_update.specs.Inks.{printed_cell};

use crate::inks::{Means, brush_of, character_of, ink_of, is_blank_ink, shows_ink};
use crate::shortcuts::{is_other, is_plain_like, note_alike};
use cur_drawing::Cell;
use cur_screens::Virtual;
use cur_steps::{Cells, Ink, Picture, is_plain_ink, is_same, same_brush};

/// The fewest cells for which it pays to compare all characters first, where those that are alike have to be looked at
/// once more.
const LONG: usize = 32;

/// A virtual screen, and what the entry has for printing its cells.
#[derive(Drop)]
pub(crate) struct PrintedScreen<'a> {
    pub screen: &'a Virtual,
    pub means: &'a Means,
}

impl<'a> Picture for PrintedScreen<'a> {
    ghost use Rattle.cur_update.specs.Inks.{ink_at_with};

    ghost cells = { λ s. ink_at_with s.means.now s.screen.now };

    fn at(&self, row: usize, col: usize) -> Ink
        ensures value { result ≡ ink_at_with self.now.means.now
            self.now.screen.now row col }
    {
        ink_on(self.screen, self.means, row, col)
    }

    fn shows(&self, row: usize, col: usize, ink: Ink) -> bool {
        let (rows, cols) = self.screen.size();
        if row >= rows as usize || col >= cols as usize {
            return is_same(Ink::blank(), ink);
        }
        self.shows_cell(self.screen.row(row as u16)[col], ink)
    }

    fn is_blank(&self, row: usize, col: usize) -> bool {
        let (rows, cols) = self.screen.size();
        if row >= rows as usize || col >= cols as usize {
            return true;
        }
        let cell = self.screen.row(row as u16)[col];
        if is_other(cell, b' ') {
            return false;
        }
        is_blank_ink(self.means, self.screen.pair(cell.pair()), cell)
    }

    fn text_like(&self, stretch: Cells, like: usize, text: &mut [u8]) -> usize {
        let (rows, cols) = self.screen.size();
        let end = stretch.from + stretch.count;
        if stretch.row >= rows as usize || end > cols as usize || like >= cols as usize {
            return self.text_beyond(stretch, like, text);
        }
        let cells = self.screen.row(stretch.row as u16);
        self.line_text(&cells[stretch.from..end], cells[like], text)
    }

    fn shows_text(&self, stretch: Cells, ink: Ink, text: &[u8], shown: &mut [bool]) {
        let (rows, cols) = self.screen.size();
        let end = stretch.from + stretch.count;
        if stretch.row < rows as usize && end <= cols as usize {
            let line = self.screen.row(stretch.row as u16);
            self.line_shows(&line[stretch.from..end], ink, text, shown);
            return;
        }
        let each = Inks {
            screen: self.screen,
            means: self.means,
        };
        each.shows_text(stretch, ink, text, shown);
    }
}

/// The inks of a `PrintedScreen`, asked for one after another.
#[derive(Drop)]
struct Inks<'a> {
    screen: &'a Virtual,
    means: &'a Means,
}

impl<'a> Picture for Inks<'a> {
    ghost use Rattle.cur_update.specs.Inks.{ink_at_with};

    ghost cells = { λ s. ink_at_with s.means.now s.screen.now };

    fn at(&self, row: usize, col: usize) -> Ink {
        ink_on(self.screen, self.means, row, col)
    }
}

/// The ink of `screen` in line `row` and column `col`, by `means`; outside the screen, a blank one.
fn ink_on(screen: &Virtual, means: &Means, row: usize, col: usize) -> Ink
    ensures { result ≡ ink_at_with means.now screen.now row col }
{
    let (rows, cols) = screen.size();
    if row >= rows as usize || col >= cols as usize {
        return Ink::blank();
    }
    let cell = screen.row(row as u16)[col];
    ink_of(means, screen.pair(cell.pair()), cell)
}

impl<'a> PrintedScreen<'a> {
    /// The character of the screen's `cell`, if it is printed in the set and the brush of `other`.
    #[inline(always)]
    fn byte_of(&self, cell: Cell, other: Cell) -> Option<u8>
        ensures { result ≡ byte_as (printed_cell self.now.means.now self.now.screen.now cell)
            (printed_cell self.now.means.now self.now.screen.now other) }
    {
        if is_plain_like(cell, other) {
            return Some(cell.byte());
        }
        self.styled_byte_of(cell, other)
    }

    /// Slow path of `byte_of`, for cells that aren't alike by their numbers.
    #[inline(never)]
    fn styled_byte_of(&self, cell: Cell, other: Cell) -> Option<u8>
        ensures { result ≡ byte_as (printed_cell self.now.means.now self.now.screen.now cell)
            (printed_cell self.now.means.now self.now.screen.now other) }
    {
        let character = character_of(self.means, cell);
        let is_like = character.graphic == character_of(self.means, other).graphic
            && self.has_brush_of(cell, other);
        is_like.then_some(character.byte)
    }

    /// Whether the screen's `cell` is printed in the brush of `other`.
    fn has_brush_of(&self, cell: Cell, other: Cell) -> bool
        ensures { result ≡ same_brush (printed_cell self.now.means.now self.now.screen.now cell).brush
            (printed_cell self.now.means.now self.now.screen.now other).brush }
    {
        if cell.is_styled_like(other) {
            return true;
        }
        let colored = self.means.colored;
        let brush = brush_of(colored, self.screen.pair(cell.pair()), cell);
        same_brush(
            brush,
            brush_of(colored, self.screen.pair(other.pair()), other),
        )
    }

    /// Counts the cells of the screen in `line` before the first one that isn't printed in the set and the brush of
    /// `other`, and writes their characters to `text`. It counts no more than `text` has room for.
    fn line_text(&self, line: &[Cell], other: Cell, text: &mut [u8]) -> usize
        ensures room { length text.new ≡ length text.old }
        ensures found { IsLineText self.now.means.now self.now.screen.now line.now other result text.new }
    {
        let mut n = 0;
        while n < line.len() && n < text.len() {
            match self.byte_of(line[n], other) {
                Some(byte) => text[n] = byte,
                None => return n,
            }
            n += 1;
        }
        n
    }

    /// `text_like` of cells that aren't all on the screen.
    #[inline(never)]
    fn text_beyond(&self, stretch: Cells, like: usize, text: &mut [u8]) -> usize
        requires within { stretch.from + stretch.count ≤ 1000 }
        ensures room { length text.new ≡ length text.old }
        ensures found { IsTextLike (ink_at_with self.now.means.now self.now.screen.now) stretch like result text.new }
    {
        let each = Inks {
            screen: self.screen,
            means: self.means,
        };
        each.text_like(stretch, like, text)
    }

    /// Whether the screen's `cell` is printed like `ink`.
    fn shows_cell(&self, cell: Cell, ink: Ink) -> bool
        ensures { result ≡ same (printed_cell self.now.means.now self.now.screen.now cell) ink }
    {
        if is_other(cell, ink.byte) {
            return false;
        }
        shows_ink(self.means, self.screen.pair(cell.pair()), cell, ink)
    }

    /// Whether each cell without attributes and of pair 0 is surely printed in the set and the brush of `ink`.
    #[tactic(auto, using(crate::proofs::Plainly::bare_told))]
    fn shows_bare(&self, ink: Ink) -> bool
        ensures { result ≡ true → (cell : Content) (byte : ℕ) → IsBare cell → is_other cell byte ≡ false
            → same (printed_cell self.now.means.now self.now.screen.now cell) (record ink { byte = byte }) ≡ true }
    {
        let colors = self.screen.pair(0);
        is_plain_ink(ink) && colors.0.is_none() && colors.1.is_none()
    }

    /// Sets in `shown`, for each cell of the screen in `line`, whether it is printed like `ink` with the character that
    /// `text` has for it.
    fn line_shows(&self, line: &[Cell], ink: Ink, text: &[u8], shown: &mut [bool])
        requires text { length line.now ≤ length text.now }
        requires room { length line.now ≤ length shown.old }
        ensures room { length shown.new ≡ length shown.old }
        ensures found { AreCellsShown self.now.means.now self.now.screen.now line.now ink text.now shown.new }
    {
        let shows_bare = self.shows_bare(ink);
        if line.len() < LONG && !shows_bare {
            self.cells_show(line, ink, text, shown);
            return;
        }
        let are_bare = note_alike(line, text, shown);
        if are_bare && shows_bare {
            return;
        }
        for n in 0..line.len() {
            if !shown[n] {
                continue;
            }
            let byte = text[n];
            shown[n] = self.shows_cell(line[n], Ink { byte, ..ink });
        }
    }

    /// `line_shows` of a short line, cell by cell.
    fn cells_show(&self, line: &[Cell], ink: Ink, text: &[u8], shown: &mut [bool])
        requires text { length line.now ≤ length text.now }
        requires room { length line.now ≤ length shown.old }
        ensures room { length shown.new ≡ length shown.old }
        ensures found { AreCellsShown self.now.means.now self.now.screen.now line.now ink text.now shown.new }
    {
        for n in 0..line.len() {
            let byte = text[n];
            shown[n] = self.shows_cell(line[n], Ink { byte, ..ink });
        }
    }
}

/// Shows the prover that each cell of both screens holds a character from 32 to 126 and a pair below 64.
pub(crate) fn cells_hold(old: &Virtual, new: &Virtual)
    ensures old { (i j : ℕ) → i < (old.now).rows → j < (old.now).cols → IsCell (content_at old.now i j) }
    ensures new { (i j : ℕ) → i < (new.now).rows → j < (new.now).cols → IsCell (content_at new.now i j) }
{
    all_cells(old);
    all_cells(new);
}

/// Shows the prover that each cell of `screen` holds a character from 32 to 126 and a pair below 64.
fn all_cells(screen: &Virtual)
    ensures { (i j : ℕ) → i < (screen.now).rows → j < (screen.now).cols → IsCell (content_at screen.now i j) }
{
    for row in 0..screen.size().0 {
        // only this call's contract says what the cells of a line hold
        let _ = screen.row(row);
    }
}
