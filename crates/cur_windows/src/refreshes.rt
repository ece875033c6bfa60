//! Copying a window to the virtual screen.
ghost use Rattle.std.specs.Prelude.{◌≡◌, ◌<◌, ◌≤◌, ◌+◌, IfErr, IfOk, IfSome, Ok, Some, None, if◌then◌else◌, false};
ghost use Rattle.std.specs.Prelude.{true};
ghost use Rattle.cur_drawing.specs.{Calls.{IsCanvas, place}, Windows.{IsWindow}};
ghost use Rattle.cur_screens.specs.{Marks.{Keeps, MarksOnly}, Touched.{IsShownBut, LiesWithin, grid_marks}};
ghost use Rattle.cur_screens.specs.{declared.slots.Slot.{Slot}, VirtualScreen.{IsScreen, shown}};
ghost use Rattle.cur_windows.specs.TouchedWindows.{HasAll, MarksCopied, ShowsBut};
ghost use Rattle.cur_windows.specs.Desks as spec;
ghost use Rattle.cur_windows.specs.Creations as make;
ghost use Rattle.cur_windows.specs.Refreshes.{AreLinesOf, area_on_screen, cursor_on_screen, noutrefresh};
ghost use Rattle.cur_windows.specs.Refreshes.{part_on_screen, refresh};

use crate::desks::Desk;
use cur_drawing::{Cell, Refusal};
use cur_screens::{
    AreaCopy, Extent, Marks, Origin, ScreenCopy, Slot, Touched, Virtual, spread, unmark,
};
use grids::{Area, Grid, Place};

/// A window, and the rectangle of its grid that some of its lines are.
#[derive(Clone, Copy)]
pub(crate) struct SlotLines {
    pub slot: Slot,
    pub area: Area,
}

impl Desk {
    /// Copies the whole window `id` to the virtual screen. The screen's cursor becomes the window's, or none if the
    /// window leaves it anywhere; the screen takes over the window's `clearok` and the desk's hint. `screen` must have
    /// the desk's size. `Full`, `NoWindow`, `PadKind` for a pad; nothing has then changed.
    pub fn noutrefresh(&mut self, id: usize, screen: &mut Virtual) -> Result<(), Refusal>
        requires rows { (screen.old).rows ≡ (self.old).rows }
        requires cols { (screen.old).cols ≡ (self.old).cols }
        ensures { refresh self.new screen.new result ≡ noutrefresh self.old screen.old id }
    {
        let mut touched = Touched::unknown(self.alloc);
        let mut marks = Marks::unknown(self.alloc);
        self.noutrefresh_marked(id, screen, &mut touched, &mut marks)
    }

    /// Copies as `noutrefresh` does, but looks only at the marked places of the window's grid.
    /// Outside the marks `touched` the screen must have the cells of each grid, and it has them
    /// there afterwards. A window that has all of its grid removes that grid's marks, and any other
    /// adds none to them. The changed places of the screen are added to `marks`, and all that is
    /// marked there is added to the marks of each other grid.
    pub fn noutrefresh_marked(
        &mut self,
        id: usize,
        screen: &mut Virtual,
        touched: &mut Touched,
        marks: &mut Marks,
    ) -> Result<(), Refusal>
        requires rows { (screen.old).rows ≡ (self.old).rows }
        requires cols { (screen.old).cols ≡ (self.old).cols }
        requires touched { ShowsBut touched.old self.old (screen.old).grid }
        ensures step { refresh self.new screen.new result ≡ noutrefresh self.old screen.old id }
        ensures touched { ShowsBut touched.new self.new (screen.new).grid }
        ensures copied { IfOk result (λ _. (s : Slot) → spec.slot_of self.old id ≡ Ok s
            → MarksCopied touched.old touched.new marks.new self.old s) }
        ensures refused { IfErr result (λ _. touched.new ≡ touched.old) }
        ensures marked { Keeps marks.old (screen.old).grid marks.new (screen.new).grid }
        ensures only { MarksOnly marks.old (screen.old).grid marks.new (screen.new).grid }
    {
        let slot = self.slot(id)?;
        self.check_window(slot)?;
        self.copy_slot(slot, screen, touched, marks);
        let slot = *slot;
        self.end_copy(id, slot);
        Ok(())
    }

    // Takes `clearok` from the window `id`, which must be `slot`, and the hint from the desk: the screen has both.
    pub(crate) fn end_copy(&mut self, id: usize, slot: Slot)
        requires number { id < 64 }
        requires there { spec.window_at self.old id ≡ Some slot }
        requires placed { spec.IsPlaced self.old id slot }
        ensures { self.new ≡ spec.with_window self.old id slot (record slot.window { clears = false }) }
    {
        let mut slot = slot;
        self.scrolled = None;
        if !slot.window.clears {
            return;
        }
        slot.window.clears = false;
        self.windows[id] = Some(slot);
    }

    // Copies the whole window to the screen, with its cursor, its `clearok` and the desk's hint.
    fn copy_slot(&self, slot: &Slot, screen: &mut Virtual, touched: &mut Touched, marks: &mut Marks)
        requires canvas { IsCanvas (spec.grid_at self.now (slot.now).root) (slot.now).window }
        requires root { (slot.now).root < 64 }
        requires whole { (slot.now).parent ≡ None
            → spec.IsWhole (slot.now).window.area (spec.grid_at self.now (slot.now).root) }
        requires window { (spec.origin_at self.now (slot.now).root).pad ≡ false }
        requires rows { (screen.old).rows ≡ (self.now).rows }
        requires cols { (screen.old).cols ≡ (self.now).cols }
        requires touched { ShowsBut touched.old self.now (screen.old).grid }
        ensures value { screen.new ≡ shown (area_on_screen self.now slot.now) (spec.grid_at self.now (slot.now).root)
            (place (slot.now).window.area.top (slot.now).window.area.left) (cursor_on_screen self.now slot.now)
            (slot.now).window.clears screen.old }
        ensures touched { ShowsBut touched.new self.now (screen.new).grid }
        ensures copied { MarksCopied touched.old touched.new marks.new self.now slot.now }
        ensures marked { Keeps marks.old (screen.old).grid marks.new (screen.new).grid }
        ensures only { MarksOnly marks.old (screen.old).grid marks.new (screen.new).grid }
    {
        let copied = *slot;
        let whole = SlotLines {
            slot: copied,
            area: copied.window.area,
        };
        self.show_lines(whole, screen, touched, marks);
        let root = slot.root as usize;
        let size = Extent {
            rows: self.rows,
            cols: self.cols,
        };
        spread(touched, root, marks, size);
        unmark(touched, root, self.has_all(slot));
    }

    // Copies the marked places in these lines of the window, with its cursor, its `clearok` and the desk's hint.
    pub(crate) fn show_lines(
        &self,
        lines: SlotLines,
        screen: &mut Virtual,
        touched: &Touched,
        marks: &mut Marks,
    )
        requires canvas { IsCanvas (spec.grid_at self.now lines.slot.root) lines.slot.window }
        requires root { lines.slot.root < 64 }
        requires window { (spec.origin_at self.now lines.slot.root).pad ≡ false }
        requires lines { AreLinesOf lines.slot.window.area lines.area }
        requires rows { (screen.old).rows ≡ (self.now).rows }
        requires cols { (screen.old).cols ≡ (self.now).cols }
        requires touched { IsShownBut (grid_marks touched.now lines.slot.root)
            (spec.origin_at self.now lines.slot.root) (spec.grid_at self.now lines.slot.root) (screen.old).grid }
        ensures value { screen.new ≡ shown (part_on_screen self.now lines.slot lines.area)
            (spec.grid_at self.now lines.slot.root) (place lines.area.top lines.area.left)
            (cursor_on_screen self.now lines.slot) lines.slot.window.clears screen.old }
        ensures marked { Keeps marks.old (screen.old).grid marks.new (screen.new).grid }
        ensures only { MarksOnly marks.old (screen.old).grid marks.new (screen.new).grid }
        ensures rows { (part_on_screen self.now lines.slot lines.area).top + lines.area.rows ≤ (self.now).rows }
        ensures cols { (part_on_screen self.now lines.slot lines.area).left + lines.area.cols ≤ (self.now).cols }
        ensures legal { IsScreen screen.old }
    {
        let SlotLines { slot, area } = lines;
        let scrolled = self.scrolled;
        let whole = self.place_on_screen(&slot);
        let copy = ScreenCopy {
            part: AreaCopy {
                area: Area {
                    top: whole.top + (area.top - slot.window.area.top),
                    left: whole.left,
                    rows: area.rows,
                    cols: area.cols,
                },
                from: Place {
                    row: area.top,
                    col: area.left,
                },
            },
            cursor: cursor_in(&slot, whole),
            clears: slot.window.clears,
            root: slot.root,
            scrolled,
        };
        let grid = self.grid_of(&slot);
        match touched.of_grid(slot.root as usize) {
            Some(touched) => screen.show(copy, grid, touched, marks),
            None => {
                let unknown = Marks::unknown(self.alloc);
                screen.show(copy, grid, &unknown, marks);
            }
        }
    }

    // Whether the window has all of its grid, or is as large as the screen.
    fn has_all(&self, slot: &Slot) -> bool
        ensures there { result ≡ true → HasAll self.now slot.now }
        ensures part { result ≡ false → HasAll self.now slot.now → ⊥ }
    {
        let area = slot.window.area;
        slot.parent.is_none() || (area.rows == self.rows && area.cols == self.cols)
    }

    // The grid of a window.
    pub(crate) fn grid_of(&self, slot: &Slot) -> &Grid<Cell>
        requires { (slot.now).root < 64 }
        ensures { result.now ≡ spec.grid_at self.now (slot.now).root }
    {
        &self.grids[slot.root as usize]
    }

    // The place of a window's grid on the screen.
    pub(crate) fn origin_of(&self, slot: &Slot) -> Origin
        requires canvas { IsCanvas (spec.grid_at self.now (slot.now).root) (slot.now).window }
        requires root { (slot.now).root < 64 }
        ensures value { result ≡ spec.origin_at self.now (slot.now).root }
        ensures within { result.pad ≡ false → LiesWithin result (slot.now).window.area }
    {
        self.origins[slot.root as usize]
    }

    // The window's rectangle on the screen.
    pub(crate) fn place_on_screen(&self, slot: &Slot) -> Area
        requires canvas { IsCanvas (spec.grid_at self.now (slot.now).root) (slot.now).window }
        requires root { (slot.now).root < 64 }
        requires window { (spec.origin_at self.now (slot.now).root).pad ≡ false }
        ensures value { result ≡ area_on_screen self.now slot.now }
        ensures rows { result.top + result.rows ≤ (self.now).rows }
        ensures cols { result.left + result.cols ≤ (self.now).cols }
    {
        let origin = self.origins[slot.root as usize];
        let area = slot.window.area;
        Area {
            top: origin.top + area.top,
            left: origin.left + area.left,
            rows: area.rows,
            cols: area.cols,
        }
    }
}

// The place of the window's cursor, if the window is at `area`.
fn cursor_in(slot: &Slot, area: Area) -> Option<Place>
    requires window { IsWindow (slot.now).window }
    requires rows { area.rows ≡ (slot.now).window.area.rows }
    requires cols { area.cols ≡ (slot.now).window.area.cols }
    requires height { area.top + area.rows ≤ 1000 }
    requires width { area.left + area.cols ≤ 1000 }
    ensures value { result ≡ (if (slot.now).window.leaves then None else Some
        (place (area.top + (slot.now).window.row) (area.left + (slot.now).window.col))) }
    ensures within { IfSome result (λ p. (p.row < area.top + area.rows) × (p.col < area.left + area.cols)) }
{
    if slot.window.leaves {
        return None;
    }
    Some(Place {
        row: area.top + slot.window.row,
        col: area.left + slot.window.col,
    })
}
