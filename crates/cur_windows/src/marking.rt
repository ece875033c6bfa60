//! Marks for the places of a window that a call may change.
ghost use Rattle.cur_drawing.specs.Calls.{IsCanvas};
ghost use Rattle.cur_windows.specs.{Desks.{IsDesk}, TouchedWindows.{MarksSlot, MarksWindow}};
ghost use Rattle.cur_windows.specs.Desks as spec;
ghost use Rattle.std.specs.Prelude.{◌<◌};

use crate::desks::Desk;
use cur_screens::{Slot, Touched, mark_rectangle};

impl Desk {
    /// Marks the rectangle of window `id`, for a call that changes nothing outside it and makes no marks
    /// itself. Marks nothing if there is no such window, or if it is in a pad. The desk is a legal one.
    pub fn mark_window(&self, id: usize, touched: &mut Touched)
        ensures marks { MarksWindow touched.old touched.new self.now
            (spec.slot_of self.now id) }
        ensures legal { IsDesk self.now }
    {
        // reading a field brings in the invariant: the desk is a legal one
        let _ = &self.rows;
        if let Ok(slot) = self.find(id) {
            self.mark_slot(&slot, touched);
        }
    }

    // Marks the rectangle of a window.
    fn mark_slot(&self, slot: &Slot, touched: &mut Touched)
        requires canvas { IsCanvas (spec.grid_at self.now (slot.now).root) (slot.now).window }
        requires root { (slot.now).root < 64 }
        ensures { MarksSlot touched.old touched.new self.now slot.now }
    {
        if self.origin_of(slot).pad {
            return;
        }
        let area = self.place_on_screen(slot);
        mark_rectangle(touched, slot.root as usize, area);
    }
}
