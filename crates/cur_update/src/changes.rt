//! The places where the virtual screen differs from the screen shown last.
ghost use Rattle.std.specs.Prelude.{◌≡◌, ◌<◌, ◌≤◌, ◌+◌, ℕ, true, length, IfSome};
ghost use Rattle.cur_screens.specs.{Differences.{AreEqualIn}, Marks.{AreSame}};
ghost use Rattle.cur_steps.specs.declared.inks.Ink.{Ink};
ghost use Rattle.cur_drawing.specs.Cells.{IsCell};
ghost use Rattle.cur_paint.specs.Differ.{AreSameOutside};
ghost use Rattle.cur_update.specs.{Inks.{content_at}, Shift.{AreAlikeOutside, AreFound, Shifts, found_at}};

use crate::scrolls::found_scrolls;
use cur_drawing::{Cell, Span};
use cur_moves::{Scroll, line_before};
use cur_paint::{Changes, Columns, LineRange, Scrolls};
use cur_screens::{Marks, Virtual, first_diff, last_diff};
use ti_conforms::Certificate;

/// The screen that was shown last, and the one to be shown.
#[derive(Drop)]
pub(crate) struct Shift<'a, C> {
    pub shown: &'a Virtual,
    pub screen: &'a Virtual,
    pub checked: &'a C,
    /// Whether each pair has the same colors on both screens.
    pub same_pairs: bool,
}

impl<'a, C: Certificate> Shift<'a, C> {
    /// Whether places with equal cells are printed alike: both screens have one size, with `cols` columns, and each
    /// pair has the same colors on both.
    fn is_told_by_cells(&self, cols: usize) -> bool
        ensures pairs { result ≡ true → self.now.same_pairs ≡ true }
        ensures rows { result ≡ true → (self.now.shown.now).rows ≡ (self.now.screen.now).rows }
        ensures cols { result ≡ true → (self.now.shown.now).cols ≡ (self.now.screen.now).cols }
        ensures columns { result ≡ true → cols ≡ (self.now.screen.now).cols }
    {
        let (old_rows, old_cols) = self.shown.size();
        let (new_rows, new_cols) = self.screen.size();
        self.same_pairs && old_rows == new_rows && old_cols == new_cols && cols == new_cols as usize
    }

    /// The columns in which line `to` of the screen may be printed differently from line `from` of the screen shown
    /// last.
    fn columns_between(&self, from: usize, to: usize, cols: usize) -> Columns
        ensures order { result.from ≤ result.end }
        ensures within { result.end ≤ cols }
        ensures same { (old new : ℕ → ℕ → Ink) → Shifts C.table C.partners self.now old new
            → AreAlikeOutside old new from to result.from result.end cols }
    {
        let rows = self.screen.size().0 as usize;
        if !(self.is_told_by_cells(cols) && from < rows && to < rows) {
            return Columns { from: 0, end: cols };
        }
        changed_columns(self.shown.row(from as u16), self.screen.row(to as u16))
    }

    /// The columns in which line `row` of the screen may be printed differently from that of the screen shown last.
    /// Only marked columns are compared.
    fn columns_marked(&self, marks: &Marks, row: usize, cols: usize) -> Columns
        requires marked { AreSame marks.now (self.now.shown.now).grid (self.now.screen.now).grid }
        ensures order { result.from ≤ result.end }
        ensures within { result.end ≤ cols }
        ensures same { (old new : ℕ → ℕ → Ink) → Shifts C.table C.partners self.now old new
            → AreAlikeOutside old new row row result.from result.end cols }
    {
        let (rows, new_cols) = self.screen.size();
        if !(self.is_told_by_cells(cols) && row < rows as usize) {
            return Columns { from: 0, end: cols };
        }
        let row = row as u16;
        changed_within(
            self.shown.row(row),
            self.screen.row(row),
            marks.columns(row, new_cols),
        )
    }

    /// The lines of `rows` that may be printed differently from those of the screen shown last: from the first marked
    /// line to the last one.
    fn lines_marked(&self, marks: &Marks, rows: usize, cols: usize) -> LineRange
        requires cells { (i j : ℕ) → i < (self.now.screen.now).rows → j < (self.now.screen.now).cols
            → IsCell (content_at self.now.screen.now i j) }
        requires marked { AreSame marks.now (self.now.shown.now).grid (self.now.screen.now).grid }
        ensures order { result.from ≤ result.end }
        ensures within { result.end ≤ rows }
        ensures same { (old new : ℕ → ℕ → Ink) → Shifts C.table C.partners self.now old new
            → AreSameOutside old new result.from result.end rows cols }
    {
        let new_rows = self.screen.size().0;
        if rows != new_rows as usize || !self.is_told_by_cells(cols) {
            return LineRange { from: 0, end: rows };
        }
        let span = marks.rows(new_rows);
        LineRange {
            from: span.at as usize,
            end: span.at as usize + span.size as usize,
        }
    }

    /// Finds the marked lines that may be printed differently, and stores in `columns` the columns of each. The entries
    /// of other lines stay.
    pub(crate) fn find(&self, marks: &Marks, columns: &mut [Columns], cols: usize) -> LineRange
        requires cells { (i j : ℕ) → i < (self.now.screen.now).rows → j < (self.now.screen.now).cols
            → IsCell (content_at self.now.screen.now i j) }
        requires marked { AreSame marks.now (self.now.shown.now).grid (self.now.screen.now).grid }
        ensures long { length columns.new ≡ length columns.old }
        ensures order { result.from ≤ result.end }
        ensures within { result.end ≤ length columns.old }
        ensures found { (old new : ℕ → ℕ → Ink) → Shifts C.table C.partners self.now old new
            → AreFound result columns.new (length columns.new) cols old new }
    {
        let lines = self.lines_marked(marks, columns.len(), cols);
        for row in lines.from..lines.end {
            columns[row] = self.columns_marked(marks, row, cols);
        }
        lines
    }
}

/// The lines that may differ and the columns of each; the columns of other lines are left over from earlier refreshes.
#[derive(Clone, Copy)]
pub(crate) struct Findings<'a> {
    pub lines: LineRange,
    pub columns: &'a [Columns],
}

/// The places where the virtual screen differs from the screen shown last, found once.
#[derive(Drop)]
pub(crate) struct Found<'a, C> {
    pub shift: Shift<'a, C>,
    /// The number of columns of a line.
    pub cols: usize,
    /// The lines that may differ.
    pub lines: LineRange,
    /// The columns of these lines; the entries of other lines aren't read.
    pub columns: &'a [Columns],
}

impl<'a, C: Certificate> Changes for Found<'a, C> {
    ghost use Rattle.std.specs.Prelude.{◌≤◌, ℕ, length};
    ghost use Rattle.cur_steps.specs.declared.inks.Ink.{Ink};
    ghost use Rattle.cur_paint.specs.Differ.{IsSameOutside};
    ghost use Rattle.cur_update.specs.Shift.{AreFound, Shifts};

    ghost between = { λ f old new. Shifts C.table C.partners f.shift old new
        × AreFound f.lines f.columns.now (length f.columns.now) f.cols old new };

    fn lines(&self, rows: usize, cols: usize) -> LineRange {
        let lines = self.lines;
        let is_found = cols == self.cols && rows == self.columns.len();
        if is_found && lines.from <= lines.end && lines.end <= rows {
            lines
        } else {
            LineRange { from: 0, end: rows }
        }
    }

    fn columns(&self, row: usize, cols: usize) -> Columns {
        if cols != self.cols || row >= self.columns.len() {
            return Columns { from: 0, end: cols };
        }
        if row < self.lines.from || row >= self.lines.end {
            return Columns { from: 0, end: 0 };
        }
        match kept(self.columns, row, cols) {
            Some(columns) => columns,
            None => Columns { from: 0, end: cols },
        }
    }

    fn scrolls(&self) -> Scrolls {
        let found = Findings {
            lines: self.lines,
            columns: self.columns,
        };
        found_scrolls(self.shift.shown, self.shift.screen, found)
    }

    fn columns_after(&self, scroll: Scroll, row: usize, cols: usize) -> Columns {
        match line_before(scroll, row) {
            Some(line) => self.shift.columns_between(line, row, cols),
            None => Columns { from: 0, end: cols },
        }
    }
}

/// The columns found for line `row`, if they lie within `cols` columns.
fn kept(columns: &[Columns], row: usize, cols: usize) -> Option<Columns>
    ensures order { IfSome result (λ c. c.from ≤ c.end) }
    ensures within { IfSome result (λ c. c.end ≤ cols) }
    ensures there { IfSome result (λ c. row < length columns.now) }
    ensures value { IfSome result (λ c. c ≡ found_at columns.now row) }
{
    if row >= columns.len() {
        return None;
    }
    let found = columns[row];
    if found.from <= found.end && found.end <= cols {
        Some(found)
    } else {
        None
    }
}

/// The columns in which the line `row` may differ: none if it doesn't.
pub(crate) fn columns_at(found: &Findings<'_>, row: u16) -> Columns {
    let row = usize::from(row);
    let is_found = found.lines.from <= row && row < found.lines.end;
    if !is_found || row >= found.columns.len() {
        return Columns { from: 0, end: 0 };
    }
    found.columns[row]
}

/// Whether the line `row` may differ.
pub(crate) fn may_differ(found: &Findings<'_>, row: u16) -> bool {
    let columns = columns_at(found, row);
    columns.from < columns.end
}

/// The columns in which two lines of one length may differ: none if they are equal.
fn changed_columns(old: &[Cell], new: &[Cell]) -> Columns
    requires { length old.now ≡ length new.now }
    ensures order { result.from ≤ result.end }
    ensures within { result.end ≤ length new.now }
    ensures before { AreEqualIn old.now new.now 0 result.from }
    ensures after { AreEqualIn old.now new.now result.end (length new.now) }
{
    let Some(first) = first_diff(old, new) else {
        return Columns { from: 0, end: 0 };
    };
    if first + 1 == new.len() {
        return Columns {
            from: first,
            end: first + 1,
        };
    }
    match last_diff(old, new) {
        Some(last) => Columns {
            from: first,
            end: last + 1,
        },
        None => Columns { from: 0, end: 0 },
    }
}

/// The columns in which two lines of one length may differ. The lines must be equal outside the columns of `span`: only
/// these are compared.
fn changed_within(old: &[Cell], new: &[Cell], span: Span) -> Columns
    requires same_length { length old.now ≡ length new.now }
    requires within { span.at + span.size ≤ length new.now }
    requires before { AreEqualIn old.now new.now 0 span.at }
    requires after { AreEqualIn old.now new.now (span.at + span.size) (length new.now) }
    ensures order { result.from ≤ result.end }
    ensures within { result.end ≤ length new.now }
    ensures before { AreEqualIn old.now new.now 0 result.from }
    ensures after { AreEqualIn old.now new.now result.end (length new.now) }
{
    let from = span.at as usize;
    let end = from + span.size as usize;
    let columns = changed_columns(&old[from..end], &new[from..end]);
    Columns {
        from: from + columns.from,
        end: from + columns.end,
    }
}
