//! Copying some lines of a window to the virtual screen.
ghost use Rattle.std.specs.Prelude.{◌≡◌, ◌<◌, ◌≤◌, ◌+◌, IfErr, IfOk, Ok, false};
ghost use Rattle.cur_drawing.specs.Calls.{IsCanvas, place};
ghost use Rattle.cur_screens.specs.{Marks.{Keeps, MarksOnly}, Touched.{Spreads}, VirtualScreen.{shown}};
ghost use Rattle.cur_screens.specs.declared.slots.Slot.{Slot};
ghost use Rattle.cur_windows.specs.TouchedWindows.{ShowsBut};
ghost use Rattle.cur_windows.specs.Desks as spec;
ghost use Rattle.cur_windows.specs.Refreshes as copies;

use crate::desks::Desk;
use crate::refreshes::SlotLines;
use cur_drawing::{Refusal, place_below};
use cur_screens::{Extent, Marks, Touched, Virtual, spread};
use grids::Area;

/// The lines `top` to `bottom` of window `window`, counted from its first one; there may be no such lines.
#[derive(Clone, Copy)]
pub struct WindowLines {
    pub window: usize,
    pub top: i32,
    pub bottom: i32,
}

impl Desk {
    /// Copies the lines `top` to `bottom` of window `id` to the virtual screen, whose other places keep their cells.
    /// All else is as in `noutrefresh`: the screen's cursor becomes the window's, or none if the window leaves it
    /// anywhere, and the screen takes over the window's `clearok` and the desk's hint. `screen` must have the desk's
    /// size. `Full`, `NoWindow`, `PadKind` for a pad, `BadRegion` unless these are lines of the window, in order;
    /// nothing has then changed.
    pub fn noutrefresh_lines(
        &mut self,
        id: usize,
        top: i32,
        bottom: i32,
        screen: &mut Virtual,
    ) -> Result<(), Refusal>
        requires rows { (screen.old).rows ≡ (self.old).rows }
        requires cols { (screen.old).cols ≡ (self.old).cols }
        ensures { copies.refresh self.new screen.new result
            ≡ copies.noutrefresh_lines self.old screen.old id top bottom }
    {
        let mut touched = Touched::unknown(self.alloc);
        let mut marks = Marks::unknown(self.alloc);
        let lines = WindowLines {
            window: id,
            top,
            bottom,
        };
        self.noutrefresh_lines_marked(lines, screen, &mut touched, &mut marks)
    }

    /// Copies as `noutrefresh_lines` does, but looks only at the marked places of the window's grid. Outside the marks
    /// `touched` the screen must have the cells of each grid, and it has them there afterwards. The marks of the
    /// window's grid stay as they are. The changed places of the screen are added to `marks`, and all that is marked
    /// there is added to the marks of each other grid.
    pub fn noutrefresh_lines_marked(
        &mut self,
        lines: WindowLines,
        screen: &mut Virtual,
        touched: &mut Touched,
        marks: &mut Marks,
    ) -> Result<(), Refusal>
        requires rows { (screen.old).rows ≡ (self.old).rows }
        requires cols { (screen.old).cols ≡ (self.old).cols }
        requires touched { ShowsBut touched.old self.old (screen.old).grid }
        ensures step { copies.refresh self.new screen.new result
            ≡ copies.noutrefresh_lines self.old screen.old lines.window lines.top lines.bottom }
        ensures touched { ShowsBut touched.new self.new (screen.new).grid }
        ensures copied { IfOk result (λ _. (s : Slot) → spec.slot_of self.old lines.window ≡ Ok s
            → Spreads touched.old touched.new s.root marks.new (self.old).rows (self.old).cols) }
        ensures refused { IfErr result (λ _. touched.new ≡ touched.old) }
        ensures marked { Keeps marks.old (screen.old).grid marks.new (screen.new).grid }
        ensures only { MarksOnly marks.old (screen.old).grid marks.new (screen.new).grid }
    {
        let WindowLines {
            window,
            top,
            bottom,
        } = lines;
        let slot = self.find(window)?;
        self.check_window(&slot)?;
        let area = lines_of(slot.window.area, top, bottom)?;
        let part = SlotLines { slot, area };
        self.copy_lines(part, screen, touched, marks);
        self.end_copy(window, slot);
        Ok(())
    }

    // Copies these lines of the window to the screen, with its cursor, its `clearok` and the desk's hint.
    fn copy_lines(
        &self,
        lines: SlotLines,
        screen: &mut Virtual,
        touched: &mut Touched,
        marks: &mut Marks,
    )
        requires canvas { IsCanvas (spec.grid_at self.now lines.slot.root) lines.slot.window }
        requires root { lines.slot.root < 64 }
        requires window { (spec.origin_at self.now lines.slot.root).pad ≡ false }
        requires lines { copies.AreLinesOf lines.slot.window.area lines.area }
        requires rows { (screen.old).rows ≡ (self.now).rows }
        requires cols { (screen.old).cols ≡ (self.now).cols }
        requires touched { ShowsBut touched.old self.now (screen.old).grid }
        ensures value { screen.new ≡ shown (copies.part_on_screen self.now lines.slot lines.area)
            (spec.grid_at self.now lines.slot.root) (place lines.area.top lines.area.left)
            (copies.cursor_on_screen self.now lines.slot) lines.slot.window.clears screen.old }
        ensures touched { ShowsBut touched.new self.now (screen.new).grid }
        ensures copied { Spreads touched.old touched.new lines.slot.root marks.new (self.now).rows (self.now).cols }
        ensures marked { Keeps marks.old (screen.old).grid marks.new (screen.new).grid }
        ensures only { MarksOnly marks.old (screen.old).grid marks.new (screen.new).grid }
    {
        let SlotLines { slot, .. } = lines;
        self.show_lines(lines, screen, touched, marks);
        let size = Extent {
            rows: self.rows,
            cols: self.cols,
        };
        spread(touched, slot.root as usize, marks, size);
    }
}

// The lines `top` to `bottom` of a rectangle. `BadRegion` unless it has them, in order.
fn lines_of(area: Area, top: i32, bottom: i32) -> Result<Area, Refusal>
    requires { area.top + area.rows ≤ 1000 }
    ensures value { result ≡ copies.lines_of top bottom area }
    ensures lines { IfOk result (λ part. copies.AreLinesOf area part) }
{
    let Some(top) = place_below(top, area.rows) else {
        return Err(Refusal::BadRegion);
    };
    let Some(bottom) = place_below(bottom, area.rows) else {
        return Err(Refusal::BadRegion);
    };
    if top > bottom {
        return Err(Refusal::BadRegion);
    }
    Ok(Area {
        top: area.top + top,
        left: area.left,
        rows: bottom + 1 - top,
        cols: area.cols,
    })
}
