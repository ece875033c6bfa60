//! The blank ends of lines and of the screen, and whether one erasure of them takes the fewest bytes.
ghost use Rattle.std.specs.Prelude.{◌<◌, ◌≡◌, ◌≤◌, IfSome, Some, ℕ};
ghost use Rattle.cur_paint.specs.Scenes.{IsBlankBelow, IsBlankPast, IsPaintable, changed_from, scene};
ghost use Rattle.cur_steps.specs.Inks.{blank_ink};
ghost use Rattle.ti_rows.specs.declared.rows.Row.TheVariants.{Ed, El};

use crate::changes::{Changes, Columns};
use crate::screens::Screens;
use cur_moves::{ErasedPart, erasing_line};
use cur_steps::{Picture, Place, are_blank, blank_from, first_solid};
use ti_conforms::Certificate;
use ti_rows::Row;

/// The column of a line from which on the rest of the screen is to be erased, or a column past the line if it isn't;
/// and a line below that isn't blank, if there is one.
#[derive(Clone, Copy)]
pub(crate) struct Bottom {
    pub col: usize,
    pub solid: usize,
}

impl<C: Certificate, O: Picture, N: Picture> Screens<'_, C, O, N> {
    /// The column of the place `tail`, if one `ed` from there on can erase the rest of the screen: everything there is
    /// to be blank, the end of the line's `columns` and the next line may differ, and `ed` is no longer than erasing
    /// line by line. The line `solid`, if it is below, isn't blank.
    pub(crate) fn bottom_from<D: Changes>(
        &self,
        changes: &D,
        tail: Place,
        columns: Columns,
        solid: usize,
    ) -> Bottom
        requires scene { IsPaintable (scene C.table O.cells N.cells self.now) }
        requires row { tail.row < (C.table self.now.checked.now).rows }
        requires within { columns.end ≤ (C.table self.now.checked.now).cols }
        requires blank { tail.col < columns.end
            → IsBlankPast (scene C.table O.cells N.cells self.now) tail.row tail.col }
        ensures differs { result.col < (C.table self.now.checked.now).cols
            → 0 < changed_from (scene C.table O.cells N.cells self.now) tail.row result.col }
        ensures blank { result.col < (C.table self.now.checked.now).cols
            → IsBlankBelow (scene C.table O.cells N.cells self.now) tail.row result.col }
        ensures tail { result.col < (C.table self.now.checked.now).cols → result.col ≡ tail.col }
    {
        let rows = self.checked.rows();
        let cols = self.checked.cols();
        let row = tail.row;
        if tail.col >= columns.end || row < solid || !may_differ(changes, row + 1, rows, cols) {
            return Bottom { col: cols, solid };
        }
        if erasing_line(self.checked, ErasedPart::Rest).is_none() {
            return Bottom {
                col: cols,
                solid: rows,
            };
        }
        let solid = first_solid(self.new, row + 1, rows, cols);
        if solid < rows || are_blank(self.old, row, tail.col, cols) {
            return Bottom { col: cols, solid };
        }
        if !self.rest_is_short(row, tail.col) {
            return Bottom { col: cols, solid };
        }
        Bottom {
            col: tail.col,
            solid,
        }
    }

    /// Whether erasing everything from the line `row` and the column `tail` on takes no more bytes than erasing line by
    /// line.
    fn rest_is_short(&self, row: usize, tail: usize) -> bool
        requires scene { IsPaintable (scene C.table O.cells N.cells self.now) }
        requires row { row < (C.table self.now.checked.now).rows }
        requires tail { tail ≤ (C.table self.now.checked.now).cols }
    {
        let end = tail_bytes(self.checked, self.checked.cols() - tail);
        match erasing_line(self.checked, ErasedPart::Rest) {
            Some(rest) => rest.len() <= end || self.lines_take(row + 1, rest.len() - end),
            None => false,
        }
    }

    /// Whether it takes at least `bytes` bytes to make the lines from `from` on blank, one by one, where they aren't.
    fn lines_take(&self, from: usize, bytes: usize) -> bool
        requires scene { IsPaintable (scene C.table O.cells N.cells self.now) }
    {
        let cols = self.checked.cols();
        let line = tail_bytes(self.checked, cols).saturating_add(1);
        let mut left = bytes;
        for row in from..self.checked.rows() {
            if !are_blank(self.old, row, 0, cols) {
                left = left.saturating_sub(line);
            }
            if left == 0 {
                return true;
            }
        }
        false
    }
}

/// The number of bytes that it takes to make the last `count` cells of a line blank.
fn tail_bytes<C: Certificate>(checked: &C, count: usize) -> usize {
    match short_tail(checked, count) {
        Some(tail) => tail.len(),
        None => count,
    }
}

/// The string that erases the rest of the screen, if there is one and the column `col` is one of the `cols`.
pub(crate) fn rest_line<C: Certificate>(checked: &C, col: usize, cols: usize) -> Option<&[u8]>
    ensures line { IfSome result (λ b. (C.table checked.now).line_of Ed ≡ Some b.now) }
    ensures col { IfSome result (λ b. col < cols) }
{
    if col < cols {
        erasing_line(checked, ErasedPart::Rest)
    } else {
        None
    }
}

/// The string that erases a line's end, if there is one and it is no longer than `count` blanks.
pub(crate) fn short_tail<C: Certificate>(checked: &C, count: usize) -> Option<&[u8]>
    ensures value { IfSome result (λ b. (C.table checked.now).line_of El ≡ Some b.now) }
{
    match checked.line(Row::El) {
        Some(tail) if tail.len() <= count => Some(tail),
        _ => None,
    }
}

/// The column from which on the line `row` of `cols` columns is blank, if the last of `columns` is blank; else their
/// end.
pub(crate) fn tail_from<N: Picture>(new: &N, row: usize, columns: Columns, cols: usize) -> usize
    requires order { columns.from ≤ columns.end }
    requires within { columns.end ≤ cols }
    ensures within { result ≤ columns.end }
    ensures blank { result < columns.end → (k : ℕ) → result ≤ k → k < cols → N.cells new.now row k ≡ blank_ink }
{
    if columns.from == columns.end || !new.is_blank(row, columns.end - 1) {
        return columns.end;
    }
    let tail = blank_from(new, row, cols);
    if tail < columns.end {
        tail
    } else {
        columns.end
    }
}

/// Whether the line `row` is one of the screen's `rows` and may differ.
pub(crate) fn may_differ<D: Changes>(changes: &D, row: usize, rows: usize, cols: usize) -> bool {
    if row >= rows {
        return false;
    }
    let columns = changes.columns(row, cols);
    columns.from < columns.end
}
