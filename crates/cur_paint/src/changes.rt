//! The lines and columns that may differ.
ghost use Rattle.std.specs.Prelude.{◌≡◌, ◌+◌, ◌<◌, ◌≤◌, ℕ, true};
ghost use Rattle.cur_moves.specs.Scrolls.{shifted};
ghost use Rattle.cur_steps.specs.{Inks.{blank_ink}, declared.inks.Ink.{Ink}};

use cur_moves::{Landing, Scroll, first_blank, line_before};
use cur_steps::{Picture, blank_from};

/// The columns of a line from the column `from` up to, but not including, the column `end`.
#[derive(Clone, Copy)]
pub struct Columns {
    pub from: usize,
    pub end: usize,
}

/// The lines of a screen from the line `from` up to, but not including, the line `end`.
#[derive(Clone, Copy)]
pub struct LineRange {
    pub from: usize,
    pub end: usize,
}

/// The scrolls by which lines may have moved, if any are known: the second one comes after the first.
#[derive(Clone, Copy)]
pub struct Scrolls {
    pub first: Option<Scroll>,
    pub second: Option<Scroll>,
}

/// The places where one screen may differ from another.
pub trait Changes {
    ghost use Rattle.std.specs.Prelude.{◌≤◌, ℕ};
    ghost use Rattle.cur_steps.specs.declared.inks.Ink.{Ink};
    ghost use Rattle.cur_moves.specs.Scrolls.{shifted};
    ghost use Rattle.cur_paint.specs.Differ.{AreSameOutside, IsSameOutside};

    ghost between: { Self → (ℕ → ℕ → Ink) → (ℕ → ℕ → Ink) → Type 0 };

    /// The lines that may differ, on screens of `rows` lines and `cols` columns.
    fn lines(&self, rows: usize, _cols: usize) -> LineRange
        ensures order { result.from ≤ result.end }
        ensures within { result.end ≤ rows }
        ensures same { (old new : ℕ → ℕ → Ink) → between self.now old new
            → AreSameOutside old new result.from result.end rows _cols }
    {
        LineRange { from: 0, end: rows }
    }

    /// The columns of the line `row` that may differ, on screens of `cols` columns.
    fn columns(&self, row: usize, cols: usize) -> Columns
        ensures order { result.from ≤ result.end }
        ensures within { result.end ≤ cols }
        ensures same { (old new : ℕ → ℕ → Ink) → between self.now old new
            → IsSameOutside old new row result.from result.end cols };

    /// The scrolls by which lines may have moved from one screen to the other, if any are known. No clause says that
    /// they are right.
    fn scrolls(&self) -> Scrolls {
        Scrolls {
            first: None,
            second: None,
        }
    }

    /// The columns of the line `row` that may differ after the lines of the old screen have moved as `scroll` says.
    fn columns_after(&self, scroll: Scroll, _row: usize, cols: usize) -> Columns
        ensures order { result.from ≤ result.end }
        ensures within { result.end ≤ cols }
        ensures same { (old new : ℕ → ℕ → Ink) → between self.now old new
            → IsSameOutside (shifted scroll old) new _row result.from result.end cols }
    {
        Columns { from: 0, end: cols }
    }
}

/// The lines from the first line of `a` or `b` to the last line of either.
fn joined(a: LineRange, b: LineRange) -> LineRange
    ensures from { result.from ≤ a.from }
    ensures also_from { result.from ≤ b.from }
    ensures end { a.end ≤ result.end }
    ensures also_end { b.end ≤ result.end }
    ensures within { (n : ℕ) → a.end ≤ n → b.end ≤ n → result.end ≤ n }
{
    LineRange {
        from: a.from.min(b.from),
        end: a.end.max(b.end),
    }
}

/// The lines of the region of `scroll` on a screen of `rows` lines.
pub(crate) fn region(scroll: Scroll, rows: usize) -> LineRange
    ensures from { result.from ≡ scroll.top }
    ensures within { result.end ≤ rows }
    ensures last { scroll.bottom < rows → result.end ≡ scroll.bottom + 1 }
    ensures below { (i : ℕ) → result.end ≤ i → i < rows → scroll.bottom < i }
{
    LineRange {
        from: usize::from(scroll.top),
        end: (usize::from(scroll.bottom) + 1).min(rows),
    }
}

/// The place of the first cell above the region of `scroll` that may differ; or else, the start of the first line that
/// comes in.
pub(crate) fn landing<D: Changes>(changes: &D, scroll: Scroll, cols: usize) -> Landing
    requires lines { scroll.top ≤ scroll.bottom }
    requires some { 0 < cols }
    requires few { cols ≤ 1000 }
    ensures row { result.row ≤ scroll.bottom }
    ensures col { result.col < cols }
{
    for row in 0..scroll.top {
        let columns = changes.columns(usize::from(row), cols);
        if columns.from < columns.end {
            return Landing {
                row,
                col: columns.from as u16,
            };
        }
    }
    Landing {
        row: first_blank(scroll),
        col: 0,
    }
}

/// The places where the screens differ after a scroll, the second of which is `new`.
#[derive(Drop)]
pub(crate) struct Moved<'a, D, N> {
    pub changes: &'a D,
    pub scroll: Scroll,
    pub new: &'a N,
}

impl<'a, D: Changes, N: Picture> Changes for Moved<'a, D, N> {
    ghost use Rattle.std.specs.Prelude.{◌≤◌, ℕ};
    ghost use Rattle.cur_steps.specs.declared.inks.Ink.{Ink};
    ghost use Rattle.cur_moves.specs.Scrolls.{shifted};
    ghost use Rattle.cur_paint.specs.Differ.{AreSameOutside, IsMoved, IsSameOutside};

    ghost between = { λ m g new. IsMoved (D.between m.changes.now) m.scroll (N.cells m.new.now) g new };

    fn lines(&self, rows: usize, cols: usize) -> LineRange
        ensures order { result.from ≤ result.end }
        ensures within { result.end ≤ rows }
        ensures same { (g new : ℕ → ℕ → Ink)
            → IsMoved (D.between self.now.changes.now) self.now.scroll (N.cells self.now.new.now) g new
            → AreSameOutside g new result.from result.end rows cols }
    {
        let lines = self.changes.lines(rows, cols);
        joined(lines, region(self.scroll, rows))
    }

    fn columns(&self, row: usize, cols: usize) -> Columns
        ensures order { result.from ≤ result.end }
        ensures within { result.end ≤ cols }
        ensures same { (g new : ℕ → ℕ → Ink)
            → IsMoved (D.between self.now.changes.now) self.now.scroll (N.cells self.now.new.now) g new
            → IsSameOutside g new row result.from result.end cols }
    {
        match line_before(self.scroll, row) {
            Some(_) => self.changes.columns_after(self.scroll, row, cols),
            None => columns_written(self.new, row, cols),
        }
    }

    fn columns_after(&self, scroll: Scroll, row: usize, cols: usize) -> Columns
        ensures order { result.from ≤ result.end }
        ensures within { result.end ≤ cols }
        ensures same { (g new : ℕ → ℕ → Ink)
            → IsMoved (D.between self.now.changes.now) self.now.scroll (N.cells self.now.new.now) g new
            → IsSameOutside (shifted scroll g) new row result.from result.end cols }
    {
        let whole = Columns { from: 0, end: cols };
        let Some(line) = line_before(scroll, row) else {
            return whole;
        };
        if line == row {
            return self.columns(row, cols);
        }
        if stays(self.scroll, line) {
            return self.changes.columns_after(scroll, row, cols);
        }
        whole
    }
}

/// The columns of the line `row` of `screen` up to the blanks at its end.
fn columns_written<P: Picture>(screen: &P, row: usize, cols: usize) -> Columns
    ensures order { result.from ≤ result.end }
    ensures within { result.end ≤ cols }
    ensures blank { (k : ℕ) → result.end ≤ k → k < cols → P.cells screen.now row k ≡ blank_ink }
    ensures start { result.from ≡ 0 }
{
    Columns {
        from: 0,
        end: blank_from(screen, row, cols),
    }
}

/// Whether the `scroll` leaves the line `row` where it is.
fn stays(scroll: Scroll, row: usize) -> bool
    ensures { result ≡ true → (g : ℕ → ℕ → Ink) (j : ℕ) → shifted scroll g row j ≡ g row j }
{
    match line_before(scroll, row) {
        Some(line) => line == row,
        None => false,
    }
}

/// The places where the screen `new` may differ from a blank one: its lines up to the blanks at their ends.
#[derive(Drop)]
pub(crate) struct Written<'a, N> {
    pub new: &'a N,
}

impl<'a, N: Picture> Changes for Written<'a, N> {
    ghost use Rattle.cur_paint.specs.Differ.{IsWritten};

    ghost between = { λ w old new. IsWritten (N.cells w.new.now) old new };

    fn columns(&self, row: usize, cols: usize) -> Columns {
        columns_written(self.new, row, cols)
    }
}
