//! The number of cells in which two screens differ.
ghost use Rattle.std.specs.Prelude.{◌≡◌, ◌+◌, ◌-◌, ◌<◌, ◌≤◌, length, true, false, ℕ};
ghost use Rattle.cur_steps.specs.declared.inks.Ink.{Ink};
ghost use Rattle.cur_paint.specs.Differ.{IsSameBy, differs, span};
ghost use Rattle.cur_paint.specs.Scenes.{CanCompare, all_changed, changed_above, scene};

use crate::changes::{Changes, Columns, LineRange};
use crate::pieces::{TEXT, differs_in};
use crate::screens::Screens;
use cur_steps::{Cells, Picture};
use ti_conforms::Certificate;

/// The most cells that a screen has.
pub(crate) const MOST_CELLS: usize = 1_000_000;

/// The fewest cells for which it pays to compare many at once.
const MANY: usize = 12;

/// 1 if the place in line `row` and column `col` differs, else 0.
fn differing<O: Picture, N: Picture>(old: &O, new: &N, row: usize, col: usize) -> usize
    ensures value { result ≡ differs (O.cells old.now) (N.cells new.now) row col }
    ensures few { result ≤ 1 }
{
    if old.shows(row, col, new.at(row, col)) {
        0
    } else {
        1
    }
}

/// The number of the `columns` in which line `row` differs, found one by one.
fn count_each<O: Picture, N: Picture>(old: &O, new: &N, row: usize, columns: Columns) -> usize
    requires order { columns.from ≤ columns.end }
    requires few { columns.end ≤ 1000 }
    ensures value { result ≡ span (O.cells old.now) (N.cells new.now) row columns.from (columns.end - columns.from) }
    ensures few { result ≤ columns.end - columns.from }
{
    let mut count = 0;
    for n in 0..columns.end - columns.from {
        count += differing(old, new, row, columns.from + n);
    }
    count
}

/// The first of some cells, which are of one set and one brush: how many there are, and how many of them differ.
#[derive(Clone, Copy)]
struct Alike {
    count: usize,
    differing: usize,
}

/// 0 if a cell is the same on both screens (`is_same`), else 1. There is no branch.
fn mark_of(is_same: bool) -> usize
    ensures same { is_same ≡ true → result ≡ 0 }
    ensures differs { is_same ≡ false → result ≡ 1 }
    ensures few { result ≤ 1 }
{
    if is_same { 0 } else { 1 }
}

/// The number of cells that `same` says are not the same on both screens.
fn count_marks(same: &[bool]) -> usize
    requires short { length same.now ≤ 512 }
    ensures value { (old new : ℕ → ℕ → Ink) (row from : ℕ) → IsSameBy old new row from same.now
        → result ≡ span old new row from (length same.now) }
    ensures few { result ≤ length same.now }
{
    let mut count = 0;
    for k in 0..same.len() {
        count += mark_of(same[k]);
    }
    count
}

/// The first of the `cells`, compared all at once. `text` gets their characters, and `same` whether each is unchanged.
fn first_alike<O: Picture, N: Picture>(
    old: &O,
    new: &N,
    cells: Cells,
    text: &mut [u8],
    same: &mut [bool],
) -> Alike
    requires within { cells.from + cells.count ≤ 1000 }
    requires some { 0 < cells.count }
    requires room { 0 < length text.old }
    requires short { length text.old ≤ 512 }
    requires marks { length text.old ≤ length same.old }
    ensures text { length text.new ≡ length text.old }
    ensures marks { length same.new ≡ length same.old }
    ensures some { 0 < result.count }
    ensures within { result.count ≤ cells.count }
    ensures few { result.differing ≤ result.count }
    ensures value { result.differing
        ≡ span (O.cells old.now) (N.cells new.now) cells.row cells.from result.count }
{
    let ink = new.at(cells.row, cells.from);
    let count = new.text_like(cells, cells.from, text);
    old.shows_text(Cells { count, ..cells }, ink, text, same);
    Alike {
        count,
        differing: count_marks(&same[..count]),
    }
}

/// The number of the `columns` in which line `row` differs, found many at once.
fn count_many<O: Picture, N: Picture>(old: &O, new: &N, row: usize, columns: Columns) -> usize
    requires order { columns.from ≤ columns.end }
    requires few { columns.end ≤ 1000 }
    ensures value { result ≡ span (O.cells old.now) (N.cells new.now) row columns.from (columns.end - columns.from) }
    ensures few { result ≤ columns.end - columns.from }
{
    let mut text = [0; TEXT];
    let mut same = [false; TEXT];
    let mut count = 0;
    let mut done = 0;
    while done < columns.end - columns.from {
        let rest = Cells {
            row,
            from: columns.from + done,
            count: columns.end - columns.from - done,
        };
        let alike = first_alike(old, new, rest, &mut text, &mut same);
        count += alike.differing;
        done += alike.count;
    }
    count
}

/// The number of the `columns` in which line `row` differs.
fn count_columns<O: Picture, N: Picture>(old: &O, new: &N, row: usize, columns: Columns) -> usize
    requires order { columns.from ≤ columns.end }
    requires few { columns.end ≤ 1000 }
    ensures value { result ≡ span (O.cells old.now) (N.cells new.now) row columns.from (columns.end - columns.from) }
    ensures few { result ≤ columns.end - columns.from }
{
    if columns.end - columns.from < MANY {
        count_each(old, new, row, columns)
    } else {
        count_many(old, new, row, columns)
    }
}

/// The number of cells in which line `row` differs. Only the columns that may differ according to `changes` are
/// compared.
fn count_line<O: Picture, N: Picture, D: Changes>(
    old: &O,
    new: &N,
    changes: &D,
    row: usize,
    cols: usize,
) -> usize
    requires few { cols ≤ 1000 }
    requires changes { D.between changes.now (O.cells old.now) (N.cells new.now) }
    ensures value { result ≡ span (O.cells old.now) (N.cells new.now) row 0 cols }
    ensures few { result ≤ cols }
{
    let columns = changes.columns(row, cols);
    count_columns(old, new, row, columns)
}

impl<C: Certificate, O: Picture, N: Picture> Screens<'_, C, O, N> {
    /// The number of cells in which the screens differ.
    pub(crate) fn count_cells<D: Changes>(&self, changes: &D) -> usize
        requires compared { CanCompare D.between changes.now (scene C.table O.cells N.cells self.now) }
        ensures value { result ≡ all_changed (scene C.table O.cells N.cells self.now) }
        ensures few { result ≤ 1000000 }
    {
        self.count_until(changes, MOST_CELLS)
    }

    /// Counts the cells in which the screens differ, line by line, until there are more than `most`.
    fn count_until<D: Changes>(&self, changes: &D, most: usize) -> usize
        requires compared { CanCompare D.between changes.now (scene C.table O.cells N.cells self.now) }
        ensures value { result ≤ most → result ≡ all_changed (scene C.table O.cells N.cells self.now) }
        ensures within { result ≤ all_changed (scene C.table O.cells N.cells self.now) }
        ensures few { result ≤ 1000000 }
    {
        let lines = changes.lines(self.checked.rows(), self.checked.cols());
        self.count_lines(changes, lines, most)
    }

    /// Counts the cells in which these lines differ, line by line, until there are more than `most`.
    pub(crate) fn count_lines<D: Changes>(
        &self,
        changes: &D,
        lines: LineRange,
        most: usize,
    ) -> usize
        requires compared { CanCompare D.between changes.now (scene C.table O.cells N.cells self.now) }
        requires order { lines.from ≤ lines.end }
        requires within { lines.end ≤ (C.table self.now.checked.now).rows }
        ensures value { result ≤ most → changed_above (scene C.table O.cells N.cells self.now) lines.from + result
            ≡ changed_above (scene C.table O.cells N.cells self.now) lines.end }
        ensures within { changed_above (scene C.table O.cells N.cells self.now) lines.from + result
            ≤ changed_above (scene C.table O.cells N.cells self.now) lines.end }
        ensures few { result ≤ 1000000 }
    {
        let cols = self.checked.cols();
        let _ = self.checked.rows();
        let mut count = 0;
        for row in lines.from..lines.end {
            count += count_line(self.old, self.new, changes, row, cols);
            if count > most {
                return count;
            }
        }
        count
    }

    /// The number of columns of these lines that may differ according to `changes`.
    pub(crate) fn columns_in<D: Changes>(&self, changes: &D, lines: LineRange) -> usize
        requires compared { CanCompare D.between changes.now (scene C.table O.cells N.cells self.now) }
        requires order { lines.from ≤ lines.end }
        requires within { lines.end ≤ (C.table self.now.checked.now).rows }
        ensures most { changed_above (scene C.table O.cells N.cells self.now) lines.end
            ≤ changed_above (scene C.table O.cells N.cells self.now) lines.from + result }
        ensures few { result ≤ 1000000 }
    {
        let cols = self.checked.cols();
        let _ = self.checked.rows();
        let mut count = 0;
        for row in lines.from..lines.end {
            let columns = changes.columns(row, cols);
            count += columns.end - columns.from;
        }
        count
    }

    /// Whether the first line that may differ does so: a cheap look before all cells are compared.
    pub(crate) fn first_differs<D: Changes>(&self, changes: &D) -> bool
        requires compared { CanCompare D.between changes.now (scene C.table O.cells N.cells self.now) }
        ensures { result ≡ true → 0 < all_changed (scene C.table O.cells N.cells self.now) }
    {
        let cols = self.checked.cols();
        let lines = changes.lines(self.checked.rows(), cols);
        if lines.from == lines.end {
            return false;
        }
        let columns = changes.columns(lines.from, cols);
        let cells = Cells {
            row: lines.from,
            from: columns.from,
            count: columns.end - columns.from,
        };
        differs_in(self.old, self.new, cells)
    }

    /// Whether the screens differ in more than `least` cells.
    pub(crate) fn differ_in_more<D: Changes>(&self, changes: &D, least: usize) -> bool
        requires compared { CanCompare D.between changes.now (scene C.table O.cells N.cells self.now) }
        ensures more { result ≡ true → least < all_changed (scene C.table O.cells N.cells self.now) }
        ensures within { result ≡ false → all_changed (scene C.table O.cells N.cells self.now) ≤ least }
    {
        self.count_until(changes, least) > least
    }
}
