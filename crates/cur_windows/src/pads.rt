//! The calls that the crate of pads uses.
ghost use Rattle.std.specs.Prelude.{◌≡◌, ◌<◌, ◌≤◌, ◌+◌, None, IfOk, IsOk, MatchResult};
ghost use Rattle.cur_drawing.specs.Spans.{IsAreaWithin};
ghost use Rattle.cur_windows.specs.Pads.{is_pad, pad_added, part_shown};
ghost use Rattle.cur_windows.specs.Desks as spec;
ghost use Rattle.cur_windows.specs.Creations as make;

use crate::desks::Desk;
use cur_drawing::{Refusal, Window, cursor_in_part};
use cur_screens::{AreaCopy, Marks, Origin, ScreenCopy, Virtual, blank_grid, whole_area};
use grids::{Area, Place};
use std::alloc::AllocError;

// The calls that the crate of pads uses. A pad is a window that isn't on the screen; parts of it can be shown.
impl Desk {
    /// Whether window `id` is a pad or a part of one. `Full`, `NoWindow`.
    pub fn is_pad(&self, id: usize) -> Result<bool, Refusal>
        ensures { result ≡ is_pad self.now id }
    {
        let slot = self.find(id)?;
        Ok(self.origins[slot.root as usize].pad)
    }

    /// Makes a pad of `rows` rows and `cols` columns, 1 to 1000 each, as window `n`; the number
    /// must be free. Fails if memory runs out; nothing has then changed.
    pub fn add_pad(&mut self, n: usize, rows: u16, cols: u16) -> Result<(), AllocError>
        requires number { n < 64 }
        requires free { spec.window_at self.old n ≡ None }
        requires rows { (0 < rows) × (rows ≤ 1000) }
        requires cols { (0 < cols) × (cols ≤ 1000) }
        ensures { MatchResult result (λ u. self.new ≡ pad_added self.old n rows cols) (λ e. self.new ≡ self.old) }
    {
        let grid = blank_grid(self.alloc, rows, cols)?;
        let origin = Origin {
            top: 0,
            left: 0,
            pad: true,
        };
        let whole = whole_area(rows, cols);
        self.add_root(n, grid, origin, Window::new(whole));
        Ok(())
    }

    /// Makes window `n` as a part of window `id`, whose cells it shares: the rectangle `area` of it,
    /// counted from its corner. The number `n` must be free, there must be a window `id`, and the
    /// part must be within it.
    pub fn add_subpad(&mut self, n: usize, id: usize, area: Area)
        requires number { n < 64 }
        requires free { spec.window_at self.old n ≡ None }
        requires there { IsOk (spec.slot_of self.old id) }
        requires inside { IfOk (spec.slot_of self.old id)
            (λ s. IsAreaWithin s.window.area.rows s.window.area.cols area) }
        ensures { IfOk (spec.slot_of self.old id) (λ s. self.new ≡ make.subwindow_added self.old n id s area) }
    {
        let Ok(slot) = self.find(id) else {
            return;
        };
        self.add_subwindow(n, id, &slot, area);
    }

    /// Copies the rectangle `part` of window `id`, counted from its corner, to the virtual screen, from
    /// the place `to` on. The screen's cursor becomes the window's if that is in the part and the
    /// window doesn't leave it anywhere, else none; the screen takes over the window's `clearok`. There
    /// must be such a window, the part must be within it and its copy within the screen, and the screen
    /// must have the desk's size.
    pub fn show_part(&mut self, id: usize, part: Area, to: Place, screen: &mut Virtual)
        requires there { IsOk (spec.slot_of self.old id) }
        requires inside { IfOk (spec.slot_of self.old id)
            (λ s. (part.top + part.rows ≤ s.window.area.rows) × (part.left + part.cols ≤ s.window.area.cols)) }
        requires bottom { to.row + part.rows ≤ (self.old).rows }
        requires right { to.col + part.cols ≤ (self.old).cols }
        requires screen_rows { (screen.old).rows ≡ (self.old).rows }
        requires screen_cols { (screen.old).cols ≡ (self.old).cols }
        ensures { IfOk (spec.slot_of self.old id)
            (λ s. (self.new, screen.new) ≡ part_shown self.old screen.old id s part to) }
    {
        let Ok(mut slot) = self.find(id) else {
            return;
        };
        let from = Place {
            row: slot.window.area.top + part.top,
            col: slot.window.area.left + part.left,
        };
        let area = Area {
            top: to.row,
            left: to.col,
            ..part
        };
        // reading a field brings in the invariant: no screen is larger than a window may be
        let _ = &self.rows;
        let cursor = cursor_in_part(&slot.window, part, to);
        let copy = ScreenCopy {
            part: AreaCopy { area, from },
            cursor,
            clears: slot.window.clears,
            root: slot.root,
            scrolled: None,
        };
        let unknown = Marks::unknown(self.alloc);
        let mut marks = Marks::unknown(self.alloc);
        screen.show(copy, self.grid_of(&slot), &unknown, &mut marks);
        slot.window.clears = false;
        self.windows[id] = Some(slot);
    }
}
