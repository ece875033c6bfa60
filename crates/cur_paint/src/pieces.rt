//! The characters of a line that go out in one piece.
ghost use Rattle.std.specs.Prelude.{◌*◌, ◌+◌, ◌<◌, ◌≡◌, ◌≤◌, false, length, true, ℕ};
ghost use Rattle.cur_paint.specs.{Differ.{HasFewGaps, IsSameBy, span}, Scenes.{AreInked, HasCells, IsShort, scene}};
ghost use Rattle.cur_steps.specs.{Gaps.{IsAlike}, declared.inks.Ink.{Ink}};
ghost use Rattle.ti_conforms.specs.Certified.{cell_limit};

use crate::screens::Screens;
use cur_moves::{goes_on, line_bytes};
use cur_steps::{Belief, Cells, Ink, Picture, Place};
use ti_conforms::Certificate;

/// The most characters that go out in one piece after the first one.
pub(crate) const TEXT: usize = 512;

/// The fewest bytes of a move by a count or to a column.
const FEW: usize = 3;

/// The number of cells to print in one piece after the first one of `cells`, which has the ink `ink`. They have the set
/// and the brush of `ink`, and between two that differ there are no more unchanged ones than a move over them has
/// bytes. `text` gets their characters, and `same` whether each is unchanged.
pub(crate) fn piece_of<C: Certificate, O: Picture, N: Picture>(
    screens: &Screens<'_, C, O, N>,
    cells: Cells,
    ink: Ink,
    text: &mut [u8],
    same: &mut [bool],
) -> usize
    requires cells { HasCells (scene C.table O.cells N.cells screens.now) cells }
    requires some { 0 < cells.count }
    requires ink { ink ≡ N.cells screens.now.new.now cells.row cells.from }
    requires room { length text.old ≤ 512 }
    requires marks { length text.old ≤ length same.old }
    ensures within { result < cells.count }
    ensures room { result ≤ length text.new }
    ensures cells { AreInked (N.cells screens.now.new.now) (record cells { from = cells.from + 1 }) ink result
        text.new }
    ensures bytes { IsShort (scene C.table O.cells N.cells screens.now)
        (record cells { from = cells.from + 1; count = result }) }
{
    let rest = Cells {
        row: cells.row,
        from: cells.from + 1,
        count: cells.count - 1,
    };
    if rest.count == 0 {
        return 0;
    }
    let count = screens.new.text_like(rest, cells.from, text);
    screens
        .old
        .shows_text(Cells { count, ..rest }, ink, text, same);
    let at = Place {
        row: rest.row,
        col: rest.from,
    };
    piece_length(screens.checked, at, &same[..count])
}

/// The length of the piece to print in one write, beginning at `at`. `same[n]` says whether cell n is unchanged; the
/// piece never crosses more unchanged cells than a move to `at` takes bytes.
fn piece_length<C: Certificate>(checked: &C, at: Place, same: &[bool]) -> usize
    requires row { at.row < (C.table checked.now).rows }
    requires col { at.col < (C.table checked.now).cols }
    requires short { length same.now ≤ 512 }
    ensures within { result ≤ length same.now }
    ensures bytes { (old new : ℕ → ℕ → Ink) (row from : ℕ) → IsSameBy old new row from same.now
        → result ≤ span old new row from result * cell_limit (C.table checked.now) }
{
    // mostly all of them differ, and no gap has to be weighed
    let start = piece_end(same, 0, 0);
    if start == same.len() {
        return start;
    }
    let few = line_bytes(checked, None, at).min(FEW);
    piece_end(same, start, few)
}

/// The length of the piece to print in one write, given whether each cell is unchanged (`same`). The piece begins with
/// `start` cells that were looked at before, ends with a cell that differs, and never has more than `few` unchanged
/// cells between two that differ.
fn piece_end(same: &[bool], start: usize, few: usize) -> usize
    requires few { few ≤ 3 }
    requires short { length same.now ≤ 512 }
    requires start { start ≤ length same.now }
    requires before { HasFewGaps same.now few start }
    ensures within { result ≤ length same.now }
    ensures few { HasFewGaps same.now few result }
{
    let mut end = start;
    for k in start..same.len() {
        end = end_after(end, k, same[k]);
        if k >= end + few {
            return end;
        }
    }
    end
}

/// The `end` of a piece after its cell `k`, which is unchanged if `is_same`. There is no branch.
fn end_after(end: usize, k: usize, is_same: bool) -> usize
    requires { k < 512 }
    ensures same { is_same ≡ true → result ≡ end }
    ensures differs { is_same ≡ false → result ≡ k + 1 }
{
    if is_same { end } else { k + 1 }
}

/// Whether `count` is not 0, and the next character is known to go to line `row` and column `col`, in the set and the
/// brush of `ink`.
pub(crate) fn is_led_on(belief: &Belief, row: usize, col: usize, ink: Ink, count: usize) -> bool
    ensures place { result ≡ true → belief.now.place ≡ record { row = row; col = col } }
    ensures alike { result ≡ true → IsAlike belief.now ink }
{
    count > 0 && goes_on(belief, Place { row, col }, ink)
}

/// Whether any of the `cells` differs between `old` and `new`.
pub(crate) fn differs_in<O: Picture, N: Picture>(old: &O, new: &N, cells: Cells) -> bool
    requires { cells.from + cells.count ≤ 1000 }
    ensures { result ≡ true → 0 < span (O.cells old.now) (N.cells new.now) cells.row cells.from cells.count }
{
    for n in 0..cells.count {
        let col = cells.from + n;
        if !old.shows(cells.row, col, new.at(cells.row, col)) {
            return true;
        }
    }
    false
}
