//! The most bytes that a refresh sends.
ghost use Rattle.std.specs.Prelude.{◌≡◌, ◌≤◌, ◌<◌, ◌+◌, ◌*◌, ◌^◌};
ghost use Rattle.ti_conforms.specs.Certified.{cell_limit};
ghost use Rattle.cur_paint.specs.Limits as spec;

use ti_conforms::Certificate;

/// The most bytes of this many cells, with the strings that give the cursor its mode and its place.
pub(crate) fn cells_limit<C: Certificate>(checked: &C, cells: usize) -> usize
    requires { cells ≤ 100000 }
    ensures value { result ≡ (cells + 1) * cell_limit (C.table checked.now) }
    ensures few { result < 2 ^ 58 }
{
    // only this call's contract says that the limit of a cell is small
    let _ = checked.rows();
    (cells + 1) * checked.cell_limit()
}

/// The most bytes of a refresh that begins anew: all cells, and the way out of an unknown state.
pub(crate) fn fresh_limit<C: Certificate>(checked: &C) -> usize
    ensures { result ≡ spec.fresh_limit (C.table checked.now) }
{
    let cells = checked.rows() * checked.cols();
    cells_limit(checked, cells) + checked.resync().len()
}
