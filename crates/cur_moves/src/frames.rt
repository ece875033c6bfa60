//! Single lines that go out while margins may be set.
ghost use Rattle.std.specs.Prelude.{◌≡◌, ◌+◌, ◌<◌, ◌≤◌, ℕ, true, Some};
ghost use Rattle.ti_conforms.specs.{Certified.{IsChecked, has, limit_of}, Table.{widening}};
ghost use Rattle.cur_steps.specs.{Pieces.{paints}, declared.beliefs.Belief.{Belief}};
ghost use Rattle.ti_rows.specs.declared.rows.Row.TheVariants.{Csr};
ghost use Rattle.cur_moves.specs.Frames.{Frame, Moves, Reframes, framed_at};

use cur_steps::{Sent, Wire, send_all};
use ti_conforms::Certificate;
use ti_rows::Row;

/// Sends the line of `row`, which leads from each frame in which the row may start to the frame that the row makes of
/// it, and is a step of a painter if the row paints.
pub(crate) fn send_row<C: Certificate, W: Wire>(checked: &C, wire: &mut W, row: Row) -> Sent
    requires checked { IsChecked (C.table checked.now) }
    requires widens { has (C.table checked.now) (widening (C.table checked.now)) ≡ true }
    requires there { has (C.table checked.now) row ≡ true }
    ensures step { (n : ℕ) (f h : Frame) (b : Belief) → paints row ≡ true → limit_of (C.table checked.now) row ≤ n
        → Reframes (C.table checked.now) row f h b
        → Moves W.went W.failures wire.old wire.new result (C.table checked.now) n f h b }
{
    let line = checked.line(row).unwrap();
    send_all(wire, line)
}

/// Sets the margins to the lines from `top` to `bottom`, and moves the cursor to line `row` and column `col`.
pub(crate) fn set_frame<C: Certificate, W: Wire>(
    checked: &C,
    wire: &mut W,
    top: u16,
    bottom: u16,
    row: u16,
    col: u16,
) -> Sent
    requires checked { IsChecked (C.table checked.now) }
    requires widens { has (C.table checked.now) (widening (C.table checked.now)) ≡ true }
    requires there { has (C.table checked.now) (Csr top bottom) ≡ true }
    requires row { row < (C.table checked.now).rows }
    requires col { col < (C.table checked.now).cols }
    ensures step { (f : Frame) (b : Belief) → Moves W.went W.failures wire.old wire.new result (C.table checked.now)
        ((C.table checked.now).longest.scroll + (C.table checked.now).longest.cup) f
        (framed_at top bottom f.cells row col) b }
{
    send_row(checked, wire, Row::Csr(top, bottom))?;
    send_row(checked, wire, Row::Cup(row, col))
}
