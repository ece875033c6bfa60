//! Text written into a line.

ghost use Rattle.std.specs.Prelude.{◌≡◌, ◌+◌, ◌≤◌, length};
ghost use Rattle.grids.specs.Grids.{written};

use crate::rules::Paint;

pub(crate) fn write_cells<C: Copy, P: Paint<C>>(
    cells: &mut [C],
    col: usize,
    bytes: &[u8],
    paint: &P,
)
    requires { col + length bytes.now ≤ length cells.old }
    ensures len { length cells.new ≡ length cells.old }
    ensures written { cells.new ≡ written (P.painted paint.now) col bytes.now cells.old }
{
    for (k, byte) in bytes.iter().enumerate() {
        cells[col + k] = paint.paint(*byte);
    }
}
