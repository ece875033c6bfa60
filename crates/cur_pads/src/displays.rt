//! Copying a part of a pad to the virtual screen.
ghost use Rattle.std.specs.Prelude.{◌≡◌};
ghost use Rattle.cur_windows.specs.Refreshes.{refresh};
ghost use Rattle.cur_pads.specs.Displays.{pnoutrefresh};

use crate::checks::pad_size;
use crate::ranges::{at_least_zero, between, from, start};
use cur_drawing::rectangle;
use cur_screens::Virtual;
use cur_windows::{Desk, Place, Refusal, in_order};

/// Copies the cells of pad `id` from row `row` and column `col` on to the rows `top` to `bottom` and
/// columns `left` to `right` of the virtual screen, and keeps all its other cells (X/Open Curses,
/// `pnoutrefresh`). The screen's cursor becomes the pad's if that is in the shown part and the pad
/// doesn't leave it anywhere, else none; the screen takes over the pad's `clearok`. A negative
/// `row`, `col`, `top` or `left` counts as 0. `Full`, `NoWindow`, `PadKind` for a window,
/// `BadRegion` if an end is before its start, `OutOfScreen` if it isn't on the screen, `OutOfWindow`
/// if the pad ends before; nothing has then changed. The screen must have the desk's size.
pub fn pnoutrefresh(
    desk: &mut Desk,
    id: usize,
    row: i32,
    col: i32,
    top: i32,
    left: i32,
    bottom: i32,
    right: i32,
    screen: &mut Virtual,
) -> Result<(), Refusal>
    requires rows { (screen.old).rows ≡ (desk.old).rows }
    requires cols { (screen.old).cols ≡ (desk.old).cols }
    ensures { refresh desk.new screen.new result ≡ pnoutrefresh desk.old screen.old id row col top left bottom right }
{
    let (height, width) = pad_size(desk, id)?;
    in_order(at_least_zero(top), bottom, at_least_zero(left), right)?;
    let (rows, cols) = desk.screen_size();
    let to = rectangle(
        between(start(top), bottom, rows),
        between(start(left), right, cols),
        Refusal::OutOfScreen,
    )?;
    let part = rectangle(
        from(start(row), to.rows, height),
        from(start(col), to.cols, width),
        Refusal::OutOfWindow,
    )?;
    let place = Place {
        row: to.top,
        col: to.left,
    };
    desk.show_part(id, part, place, screen);
    Ok(())
}
