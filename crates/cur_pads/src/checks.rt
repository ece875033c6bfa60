//! Checks of a pad.
ghost use Rattle.std.specs.Prelude.{◌≡◌, Ok, IfOk};
ghost use Rattle.cur_screens.specs.declared.slots.Slot.{Slot};
ghost use Rattle.cur_windows.specs.{Desks.{slot_of}, Sizes.{size_in}};
ghost use Rattle.cur_pads.specs.Creations.{pad_of};

use cur_windows::{Desk, Refusal};

/// The lines and columns of a pad or of a part of one.
pub(crate) fn pad_size(desk: &Desk, id: usize) -> Result<(u16, u16), Refusal>
    ensures value { result ≡ size_in (pad_of desk.now id) }
    ensures there { IfOk result (λ size. (s : Slot) × (pad_of desk.now id ≡ Ok s) × (slot_of desk.now id ≡ Ok s) ×
        (size ≡ (s.window.area.rows, s.window.area.cols))) }
{
    if !desk.is_pad(id)? {
        return Err(Refusal::PadKind);
    }
    desk.window_size(id)
}
