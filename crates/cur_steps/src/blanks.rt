//! The blank parts of a screen.

ghost use Rattle.std.specs.Prelude.{◌<◌, ◌≡◌, ◌≤◌, ◌-◌, false, true, ℕ};
ghost use Rattle.cur_steps.specs.Inks.{blank_ink, same};

use crate::inks::Picture;

/// Whether the line `row` of `screen` is blank from the column `from` to the one before `end`.
pub fn are_blank<P: Picture>(screen: &P, row: usize, from: usize, end: usize) -> bool
    ensures blank { result ≡ true → (k : ℕ) → from ≤ k → k < end → P.cells screen.now row k ≡ blank_ink }
    ensures solid { result ≡ false → (k : ℕ) × (from ≤ k) × (k < end)
        × (same (P.cells screen.now row k) blank_ink ≡ false) }
{
    for col in from..end {
        if !screen.is_blank(row, col) {
            return false;
        }
    }
    true
}

/// The column from which on the line `row` of `cols` columns is blank.
pub fn blank_from<P: Picture>(screen: &P, row: usize, cols: usize) -> usize
    ensures within { result ≤ cols }
    ensures blank { (k : ℕ) → result ≤ k → k < cols → P.cells screen.now row k ≡ blank_ink }
    ensures last { 0 < result → same (P.cells screen.now row (result - 1)) blank_ink ≡ false }
{
    let mut col = cols;
    while col > 0 {
        if !screen.is_blank(row, col - 1) {
            return col;
        }
        col -= 1;
    }
    col
}

/// The first line from `from` to the one before `rows` that isn't blank, or else the one after them.
pub fn first_solid<P: Picture>(screen: &P, from: usize, rows: usize, cols: usize) -> usize
    ensures blank { (i j : ℕ) → from ≤ i → i < result → j < cols → P.cells screen.now i j ≡ blank_ink }
    ensures within { from ≤ rows → result ≤ rows }
    ensures onward { from ≤ result }
    ensures solid { result < rows → (j : ℕ) × (j < cols) × (same (P.cells screen.now result j) blank_ink ≡ false) }
{
    for row in from..rows {
        if !are_blank(screen, row, 0, cols) {
            return row;
        }
    }
    rows.max(from)
}
