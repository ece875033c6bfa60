//! Marks at the places where a screen may differ from another one.
ghost use Rattle.std.specs.Prelude.{ℕ, ◌≡◌, ◌<◌, ◌≤◌, ◌+◌, ◌⊎◌, IfOk, length, replicate, true, []};
ghost use Rattle.cur_screens.specs.Marks.{AreMarkedWithin, IsUnmarked, JoinsMarks, JoinsLine, JoinsLines};
ghost use Rattle.cur_screens.specs.Marks.{marked_between, none_marked, nothing, widened};

use cur_drawing::Span;
use std::alloc::{AllocError, Global};
use std::marker::Model;

/// A run of marked columns of a line, or of lines of a screen: from one on, and before another.
#[derive(Clone, Copy)]
pub struct Marked {
    pub from: u16,
    pub end: u16,
}

// No column, or no line.
const NONE: Marked = Marked { from: 0, end: 0 };

impl Marked {
    // These columns, those from `from` on and before `end`, and all between them.
    fn widened(self, from: u16, end: u16) -> Marked
        ensures { result ≡ widened from end self }
    {
        if self.from >= self.end {
            return Marked { from, end };
        }
        Marked {
            from: self.from.min(from),
            end: self.end.max(end),
        }
    }
}

/// For each line of a screen, the columns in which it may differ from another screen; or all places may differ.
#[derive(Drop)]
pub struct Marks {
    all: bool,
    lines: Vec<Marked>,
    // no other line has a mark
    rows: Marked,
}

impl Model for Marks {
    ghost use Rattle.cur_screens.specs.Marks.{AreMarkedWithin, Marking};

    ghost Value = { Marking };

    ghost view = { λ m. record { all = m.all; lines = m.lines.items } };

    ghost invariant = { λ m. AreMarkedWithin m.rows m.lines.items };
}

impl Marks {
    /// Marks for `rows` lines, none of which is marked. Fails if memory runs out.
    pub fn new(alloc: Global, rows: u16) -> Result<Marks, AllocError>
        ensures { IfOk result (λ m. m ≡ none_marked rows) }
    {
        let lines = vec![in alloc; NONE; rows as usize]?;
        Ok(Marks {
            all: false,
            lines,
            rows: NONE,
        })
    }

    /// Marks at all places, for any number of lines. Takes no memory.
    pub fn unknown(alloc: Global) -> Marks
        ensures { result ≡ record { all = true; lines = [] } }
    {
        Marks {
            all: true,
            lines: Vec::new(alloc),
            rows: NONE,
        }
    }

    /// Marks all places.
    pub fn mark_all(&mut self)
        ensures { self.new ≡ record self.old { all = true } }
    {
        self.all = true;
    }

    /// Marks the columns from `from` on and before `end` of the line `row`, and all between them
    /// and those already marked there. A line beyond the last one counts as marked already.
    pub fn mark(&mut self, row: u16, from: u16, end: u16)
        ensures { self.new ≡ marked_between row from end self.old }
    {
        let place = row as usize;
        if place < self.lines.len() {
            let line = self.lines[place];
            self.lines[place] = line.widened(from, end);
            // a line that has marks is among these already
            if line.from >= line.end {
                self.rows = self.rows.widened(row, row + 1);
            }
        }
    }

    /// Removes all marks from the lines.
    pub fn clear(&mut self)
        ensures { self.new ≡ none_marked (length self.old.lines) }
    {
        if self.rows.end - self.rows.from == 1 {
            clear_line(&mut self.lines, self.rows);
        } else {
            clear_lines(&mut self.lines, self.rows);
        }
        self.rows = NONE;
        self.all = false;
    }

    /// Whether all places are marked, for any number of lines.
    pub fn is_full(&self) -> bool
        ensures { result ≡ (self.now).all }
    {
        self.all
    }

    /// Adds the marks that `other` has in the first `rows` lines and `cols` columns, in each line
    /// from its first mark to its last one.
    pub fn join(&mut self, other: &Marks, rows: u16, cols: u16)
        ensures { JoinsMarks self.old other.now rows cols self.new }
    {
        join_lines(self, other, other.rows(rows), cols);
    }

    /// A run of lines, among the first `rows`, outside which none of these has a mark.
    pub fn rows(&self, rows: u16) -> Span
        ensures within { result.at + result.size ≤ rows }
        ensures others { (i j : ℕ) → i < rows → (i < result.at) ⊎ (result.at + result.size ≤ i)
            → IsUnmarked self.now i j }
    {
        if self.all || self.lines.len() < rows as usize {
            return Span { at: 0, size: rows };
        }
        let end = self.rows.end.min(rows);
        let at = self.rows.from.min(end);
        Span { at, size: end - at }
    }

    /// A run of lines, among the `rows` lines from `top` on and counted from there, outside which
    /// none of these has a mark.
    pub(crate) fn rows_from(&self, top: u16, rows: u16) -> Span
        requires { top + rows < 65536 }
        ensures within { result.at + result.size ≤ rows }
        ensures others { (i j : ℕ) → i < rows → (i < result.at) ⊎ (result.at + result.size ≤ i)
            → IsUnmarked self.now (top + i) j }
    {
        self.rows(top + rows).counted_from(top)
    }

    /// The marked columns of the line `row`, which has `cols` columns.
    pub fn columns(&self, row: u16, cols: u16) -> Span
        ensures within { result.at + result.size ≤ cols }
        ensures marked { (j : ℕ) → result.at ≤ j → j < result.at + result.size → IsUnmarked self.now row j → ⊥ }
        ensures others { (j : ℕ) → j < cols → (j < result.at) ⊎ (result.at + result.size ≤ j)
            → IsUnmarked self.now row j }
    {
        let row = row as usize;
        if self.all || row >= self.lines.len() {
            return Span { at: 0, size: cols };
        }
        let line = self.lines[row];
        let end = line.end.min(cols);
        if line.from >= end {
            return Span { at: 0, size: 0 };
        }
        Span {
            at: line.from,
            size: end - line.from,
        }
    }

    /// The marked columns of the line `row` among the `cols` columns from `left` on, counted from there.
    pub(crate) fn columns_from(&self, row: u16, left: u16, cols: u16) -> Span
        requires { left + cols < 65536 }
        ensures within { result.at + result.size ≤ cols }
        ensures others { (j : ℕ) → j < cols → (j < result.at) ⊎ (result.at + result.size ≤ j)
            → IsUnmarked self.now row (left + j) }
    {
        self.columns(row, left + cols).counted_from(left)
    }
}

// Removes the marks from the lines `rows`, which must be all that have any.
fn clear_lines(lines: &mut [Marked], rows: Marked)
    requires { AreMarkedWithin rows lines.old }
    ensures { lines.new ≡ replicate (length lines.old) nothing }
{
    for k in rows.from..rows.end {
        lines[k as usize] = NONE;
    }
}

// Removes the marks from the only line that has any.
fn clear_line(lines: &mut [Marked], rows: Marked)
    requires within { AreMarkedWithin rows lines.old }
    requires one { rows.end ≡ rows.from + 1 }
    ensures { lines.new ≡ replicate (length lines.old) nothing }
{
    lines[rows.from as usize] = NONE;
}

// Adds the marks that `other` has in these lines.
fn join_lines(marks: &mut Marks, other: &Marks, lines: Span, cols: u16)
    requires { lines.at + lines.size < 65536 }
    ensures { JoinsLines marks.old other.now lines lines.size cols marks.new }
{
    for k in 0..lines.size {
        join_line(marks, other, lines.at + k, cols);
    }
}

// Adds the marks that `other` has in a line.
fn join_line(marks: &mut Marks, other: &Marks, row: u16, cols: u16)
    ensures { JoinsLine marks.old other.now row cols marks.new }
{
    let line = other.columns(row, cols);
    if line.size > 0 {
        marks.mark(row, line.at, line.at + line.size);
    }
}
