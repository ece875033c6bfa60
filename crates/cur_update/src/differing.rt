//! Counting the cells in which two virtual screens differ.
ghost use Rattle.std.specs.Prelude.{◌≡◌, ◌<◌, ◌≤◌, ◌*◌};
ghost use Rattle.cur_update.specs.Differ as spec;
ghost use Rattle.cur_update.specs.Inks.{pair_colors};

use cur_screens::Virtual;

/// Whether two colors, each of which may be the terminal's own, are the same.
fn same_number(a: Option<u8>, b: Option<u8>) -> bool
    ensures { result ≡ spec.same_number a b }
{
    match (a, b) {
        (None, None) => true,
        (Some(a), Some(b)) => a == b,
        (Some(_), None) | (None, Some(_)) => false,
    }
}

/// Whether two pairs have the same colors.
fn same_colors(a: (Option<u8>, Option<u8>), b: (Option<u8>, Option<u8>)) -> bool
    ensures { result ≡ spec.same_colors (pair_colors a) (pair_colors b) }
{
    same_number(a.0, b.0) && same_number(a.1, b.1)
}

/// Whether both screens show the same at this place, which must be on both: the same character with the same attributes
/// in the same colors.
fn same_at(old: &Virtual, new: &Virtual, row: u16, col: u16) -> bool
    requires row { row < (old.now).rows }
    requires new_row { row < (new.now).rows }
    requires col { col < (old.now).cols }
    requires new_col { col < (new.now).cols }
    ensures { result ≡ spec.same_at old.now new.now row col }
{
    let a = old.row(row)[col as usize];
    let b = new.row(row)[col as usize];
    a.byte() == b.byte()
        && a.attrs() == b.attrs()
        && same_colors(old.pair(a.pair()), new.pair(b.pair()))
}

/// The number of cells of the line `row` in which two screens differ. Both must have the line, and `cols` columns.
fn in_line(old: &Virtual, new: &Virtual, row: u16, cols: u16) -> usize
    requires row { row < (old.now).rows }
    requires new_row { row < (new.now).rows }
    requires cols { cols ≤ (old.now).cols }
    requires new_cols { cols ≤ (new.now).cols }
    ensures value { result ≡ spec.in_line old.now new.now row cols }
    ensures few { result ≤ cols }
{
    let mut count = 0;
    for col in 0..cols {
        if !same_at(old, new, row, col) {
            count += 1;
        }
    }
    count
}

/// The number of cells in which two screens differ, which must have one size.
pub(crate) fn differ(old: &Virtual, new: &Virtual) -> usize
    requires rows { (old.now).rows ≡ (new.now).rows }
    requires cols { (old.now).cols ≡ (new.now).cols }
    requires few_rows { (new.now).rows ≤ 200 }
    requires few_cols { (new.now).cols ≤ 500 }
    ensures value { result ≡ spec.in_lines old.now new.now (new.now).cols (new.now).rows }
    ensures few { result ≤ 100000 }
{
    let (rows, cols) = new.size();
    let mut count = 0;
    for row in 0..rows {
        count += in_line(old, new, row, cols);
    }
    count
}
