//! Making pads.
ghost use Rattle.std.specs.Prelude.{◌≡◌, ◌<◌, ◌≤◌, ◌⊎◌, Ok, Err, IfSome};
ghost use Rattle.cur_windows.specs.Desks.{step};
ghost use Rattle.cur_pads.specs.Creations as spec;

use crate::checks::pad_size;
use cur_drawing::{Geometry, LONGEST, area_within};
use cur_windows::{Answer, Desk, Refusal, in_range};

/// Makes pad `n` of 1 to 1000 lines and 1 to 1000 columns (X/Open Curses, `newpad`). `Full` for a number above
/// 63, `NumberUsed`, `BadRegion` for any other size; `NoMemory` if memory runs out. Nothing has then changed.
pub fn newpad(desk: &mut Desk, n: usize, lines: i32, cols: i32) -> Result<(), Refusal>
    ensures { ((result ≡ Err Refusal.NoMemory) × (desk.new ≡ desk.old) ×
        ((spec.newpad desk.old n lines cols).1 ≡ Ok tt)) ⊎ (step desk.new result ≡ spec.newpad desk.old n lines cols) }
{
    desk.check_free(n)?;
    let (Some(rows), Some(cols)) = (side(lines), side(cols)) else {
        return Err(Refusal::BadRegion);
    };
    if desk.add_pad(n, rows, cols).is_err() {
        return Err(Refusal::NoMemory);
    }
    Ok(())
}

/// Makes pad `n` as a part of pad `id`, whose cells it shares; the place is relative to the corner of `id`,
/// and 0 lines or columns mean all up to its edge (`subpad`). `Full`, `NumberUsed`, `NoWindow`, `PadKind` for
/// a window, `BadRegion` for a negative size, `OutOfWindow` if it isn't within `id`. Nothing has then changed.
pub fn subpad(desk: &mut Desk, n: usize, id: usize, lines: i32, cols: i32, y: i32, x: i32) -> Answer
    ensures { step desk.new result ≡ spec.subpad desk.old n id lines cols y x }
{
    in_range(n, id)?;
    desk.check_free(n)?;
    let (height, width) = pad_size(desk, id)?;
    let geometry = Geometry::new(lines, cols, y, x);
    let area = area_within(height, width, geometry, Refusal::OutOfWindow)?;
    desk.add_subpad(n, id, area);
    Ok(())
}

// The number `n` of a pad's lines or columns, if a pad can have as many.
fn side(n: i32) -> Option<u16>
    ensures value { result ≡ spec.side n }
    ensures within { IfSome result (λ size. (0 < size) × (size ≤ 1000)) }
{
    if n < 1 || n > LONGEST as i32 {
        return None;
    }
    Some(n as u16)
}
