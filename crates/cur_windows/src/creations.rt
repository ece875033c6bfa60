//! Making, moving and deleting windows.
ghost use Rattle.std.specs.Prelude.{◌≡◌, ◌<◌, ◌≤◌, ◌+◌, ◌⊎◌, Ok, Err, Some, None, IfOk, OnOk, length, slice_set, false};
ghost use Rattle.std.specs.Prelude.{slice_index_or, ◌-ℤ◌, pos};
ghost use Rattle.cur_drawing.specs.{Grids.{blank}, Windows.{fresh}, Calls.{IsCanvas}, Spans.{IsAreaWithin}};
ghost use Rattle.cur_windows.specs.Desks as spec;
ghost use Rattle.cur_windows.specs.Creations as make;
ghost use Rattle.cur_screens.specs.Slots.{whole_area};

use crate::desks::Desk;
use cur_drawing::{Answer, Cell, Geometry, Refusal, Window, area_within, start_within};
use cur_screens::{Origin, Slot, WINDOWS, blank_grid, whole_area};
use grids::{Area, Grid, Place};

// Making, moving and deleting windows. A refusal changes nothing.
impl Desk {
    /// Makes window `n` of this size, at this place of the screen; 0 lines or columns mean all up to the
    /// screen's edge (X/Open Curses, `newwin`). `Full` for a number above 63, `NumberUsed`, `BadRegion` for
    /// a negative size, `OutOfScreen` if the window isn't within the screen; `NoMemory` if memory runs out.
    pub fn newwin(&mut self, n: usize, lines: i32, cols: i32, y: i32, x: i32) -> Result<(), Refusal>
        ensures { ((result ≡ Err
            Refusal.NoMemory) × (self.new ≡ self.old) × ((make.newwin self.old n lines cols y x).1 ≡ Ok tt))
            ⊎ (spec.step self.new result ≡ make.newwin self.old n lines cols y x) }
    {
        self.check_free(n)?;
        let geometry = Geometry::new(lines, cols, y, x);
        let area = area_within(self.rows, self.cols, geometry, Refusal::OutOfScreen)?;
        let Ok(grid) = blank_grid(self.alloc, area.rows, area.cols) else {
            return Err(Refusal::NoMemory);
        };
        self.add_blank_root(n, grid, area);
        Ok(())
    }

    /// Makes window `n` as a part of window `id`, whose cells it shares; the place is relative to the corner
    /// of `id`, and 0 lines or columns mean all up to its edge (`derwin`). `Full`, `NumberUsed`, `NoWindow`,
    /// `PadKind` for a pad, `BadRegion` for a negative size, `OutOfWindow` if it isn't within `id`.
    pub fn derwin(&mut self, n: usize, id: usize, lines: i32, cols: i32, y: i32, x: i32) -> Answer
        ensures { spec.step self.new result ≡ make.derwin self.old n id lines cols y x }
    {
        let geometry = Geometry::new(lines, cols, y, x);
        in_range(n, id)?;
        self.check_free(n)?;
        let slot = self.find(id)?;
        self.check_window(&slot)?;
        self.make_subwindow(n, id, &slot, geometry)
    }

    /// Makes window `n` as `derwin` does, at a place relative to the screen's corner (`subwin`).
    pub fn subwin(&mut self, n: usize, id: usize, lines: i32, cols: i32, y: i32, x: i32) -> Answer
        ensures { spec.step self.new result ≡ make.subwin self.old n id lines cols y x }
    {
        in_range(n, id)?;
        self.check_free(n)?;
        let slot = self.find(id)?;
        self.check_window(&slot)?;
        let corner = self.place_on_screen(&slot);
        let geometry = Geometry {
            lines,
            cols,
            y: counted_from(y, corner.top),
            x: counted_from(x, corner.left),
        };
        self.make_subwindow(n, id, &slot, geometry)
    }

    /// Makes window `n` with a copy of the cells, cursor, attributes, background, region and
    /// options of `id`, at its place; the copy of a subwindow isn't a subwindow (`dupwin`). `Full`,
    /// `NumberUsed`, `NoWindow`; `NoMemory` if memory runs out.
    pub fn dupwin(&mut self, n: usize, id: usize) -> Result<(), Refusal>
        ensures { ((result ≡ Err Refusal.NoMemory) × (self.new ≡ self.old) × ((make.dupwin self.old n id).1 ≡ Ok tt))
            ⊎ (spec.step self.new result ≡ make.dupwin self.old n id) }
    {
        in_range(n, id)?;
        self.check_free(n)?;
        let slot = self.find(id)?;
        let area = slot.window.area;
        let whole = whole_area(area.rows, area.cols);
        let from = Place {
            row: area.top,
            col: area.left,
        };
        let Ok(mut grid) = blank_grid(self.alloc, area.rows, area.cols) else {
            return Err(Refusal::NoMemory);
        };
        grid.copy_from(whole, self.grid_of(&slot), from);
        let origin = self.copy_origin(&slot);
        let mut window = slot.window;
        window.area = whole;
        self.add_root(n, grid, origin, window);
        Ok(())
    }

    /// Deletes the window, whose number becomes free (`delwin`). `Full`, `NoWindow`, `IsScreen` for
    /// window 0, `HasChildren` if another window has it as its parent or shares its grid.
    pub fn delwin(&mut self, id: usize) -> Result<(), Refusal>
        ensures { spec.step self.new result ≡ make.delwin self.old id }
    {
        self.find(id)?;
        self.check_childless(id)?;
        self.grids[id] = Grid::empty(self.alloc);
        self.windows[id] = None;
        Ok(())
    }

    /// Moves the window `id` and its subwindows to row `y` and column `x` of the screen (`mvwin`).
    /// `Full`, `NoWindow`, `PadKind` for a pad, `IsSub` for a subwindow, `OutOfScreen` if it
    /// wouldn't be within the screen.
    pub fn mvwin(&mut self, id: usize, y: i32, x: i32) -> Result<(), Refusal>
        ensures { spec.step self.new result ≡ make.mvwin self.old id y x }
    {
        let slot = self.find(id)?;
        self.check_window(&slot)?;
        no_sub(slot.parent)?;
        let size = slot.window.area;
        let Some(top) = start_within(y, size.rows, self.rows) else {
            return Err(Refusal::OutOfScreen);
        };
        let Some(left) = start_within(x, size.cols, self.cols) else {
            return Err(Refusal::OutOfScreen);
        };
        self.origins[slot.root as usize] = Origin {
            top,
            left,
            pad: false,
        };
        Ok(())
    }

    /// `Full` for a number above 63, `NumberUsed` for one that names a window.
    pub fn check_free(&self, n: usize) -> Result<(), Refusal>
        ensures value { result ≡ make.free self.now n }
        ensures free { OnOk result ((n < 64) × (spec.window_at self.now n ≡ None)) }
    {
        if n >= WINDOWS {
            return Err(Refusal::Full);
        }
        if self.windows[n].is_some() {
            return Err(Refusal::NumberUsed);
        }
        Ok(())
    }

    // Refuses a pad.
    pub(crate) fn check_window(&self, slot: &Slot) -> Result<(), Refusal>
        requires { slot.now.root < 64 }
        ensures value { result ≡ make.window_only self.now slot.now }
        ensures window { OnOk result ((spec.origin_at self.now slot.now.root).pad ≡ false) }
    {
        if self.origins[slot.root as usize].pad {
            return Err(Refusal::PadKind);
        }
        Ok(())
    }

    // Refuses a window that can't be deleted.
    fn check_childless(&self, n: usize) -> Result<(), Refusal>
        requires { n < 64 }
        ensures value { result ≡ make.childless self.now n }
        ensures good { OnOk result ((0 < n) × (make.has_child n 0 (self.now).windows ≡ false)) }
    {
        if n == 0 {
            return Err(Refusal::IsScreen);
        }
        if has_child(&self.windows, n) {
            return Err(Refusal::HasChildren);
        }
        Ok(())
    }

    // Makes window `n` on this grid, at the area's place of the screen.
    fn add_blank_root(&mut self, n: usize, grid: Grid<Cell>, area: Area)
        requires number { n < 64 }
        requires free { spec.window_at self.old n ≡ None }
        requires grid { grid ≡ blank area.rows area.cols }
        requires within { IsAreaWithin self.old.rows self.old.cols area }
        ensures { self.new ≡ make.root_added self.old n grid (spec.on_screen area.top area.left false)
            (fresh (whole_area area.rows area.cols)) }
    {
        let whole = whole_area(area.rows, area.cols);
        // reading a field brings in the invariant: no screen is larger than a window may be
        let _ = &self.rows;
        let origin = Origin {
            top: area.top,
            left: area.left,
            pad: false,
        };
        self.add_root(n, grid, origin, Window::new(whole));
    }

    // Makes window `n` with this grid of its own.
    pub(crate) fn add_root(&mut self, n: usize, grid: Grid<Cell>, origin: Origin, window: Window)
        requires number { n < 64 }
        requires free { spec.window_at self.old n ≡ None }
        requires canvas { IsCanvas grid window }
        requires whole { spec.IsWhole window.area grid }
        requires frame { origin.pad ≡ false → make.IsInFrame (self.old).rows (self.old).cols origin grid }
        ensures { self.new ≡ make.root_added self.old n grid origin window }
    {
        self.grids[n] = grid;
        self.origins[n] = origin;
        self.windows[n] = Some(Slot {
            root: n as u8,
            parent: None,
            window,
        });
    }

    // The place of the copy of a window.
    fn copy_origin(&self, slot: &Slot) -> Origin
        requires canvas { IsCanvas (spec.grid_at self.now (slot.now).root) (slot.now).window }
        requires root { (slot.now).root < 64 }
        ensures value { result ≡ make.copy_origin self.now slot.now }
        ensures rows { result.pad ≡ false → result.top + (slot.now).window.area.rows ≤ (self.now).rows }
        ensures cols { result.pad ≡ false → result.left + (slot.now).window.area.cols ≤ (self.now).cols }
    {
        if self.origins[slot.root as usize].pad {
            return Origin {
                top: 0,
                left: 0,
                pad: true,
            };
        }
        let area = self.place_on_screen(slot);
        Origin {
            top: area.top,
            left: area.left,
            pad: false,
        }
    }

    // Makes window `n` as a part of window `id`, at a place relative to its corner.
    fn make_subwindow(
        &mut self,
        n: usize,
        id: usize,
        slot: &Slot,
        geometry: Geometry,
    ) -> Result<(), Refusal>
        requires number { n < 64 }
        requires free { spec.window_at self.old n ≡ None }
        requires parent { id < 64 }
        requires placed { spec.IsPlaced self.old id slot.now }
        ensures { spec.step self.new result ≡ make.subwindow_at self.old n id slot.now geometry.lines geometry.cols
            geometry.y geometry.x }
    {
        let outer = slot.window.area;
        let area = area_within(outer.rows, outer.cols, geometry, Refusal::OutOfWindow)?;
        self.add_subwindow(n, id, slot, area);
        Ok(())
    }

    // Makes window `n` as the part `area` of window `id`, in places of that window.
    pub(crate) fn add_subwindow(&mut self, n: usize, id: usize, slot: &Slot, area: Area)
        requires number { n < 64 }
        requires free { spec.window_at self.old n ≡ None }
        requires parent { id < 64 }
        requires placed { spec.IsPlaced self.old id slot.now }
        requires part { IsAreaWithin (slot.now).window.area.rows (slot.now).window.area.cols area }
        ensures { self.new ≡ make.subwindow_added self.old n id slot.now area }
    {
        let outer = slot.window.area;
        let inside = Area {
            top: outer.top + area.top,
            left: outer.left + area.left,
            rows: area.rows,
            cols: area.cols,
        };
        self.windows[n] = Some(Slot {
            root: slot.root,
            parent: Some(id as u8),
            window: Window::new(inside),
        });
    }
}

/// `Full` if one of the numbers is above 63.
pub fn in_range(n: usize, id: usize) -> Result<(), Refusal>
    ensures value { result ≡ make.in_range n id }
    ensures small { OnOk result ((n < 64) × (id < 64)) }
{
    if n >= WINDOWS || id >= WINDOWS {
        return Err(Refusal::Full);
    }
    Ok(())
}

// A row or a column of the screen, relative to a corner.
fn counted_from(place: i32, corner: u16) -> i64
    ensures { result ≡ place -ℤ pos corner }
{
    place as i64 - corner as i64
}

fn no_sub(parent: Option<u8>) -> Result<(), Refusal>
    ensures value { result ≡ make.no_sub parent }
    ensures own { OnOk result (parent ≡ None) }
{
    if parent.is_some() {
        return Err(Refusal::IsSub);
    }
    Ok(())
}

// Whether a window other than `n` has `n` as its parent, or has its grid.
fn has_child(windows: &[Option<Slot>], n: usize) -> bool
    requires { n < 64 }
    ensures { result ≡ make.has_child n 0 windows.now }
{
    for (k, slot) in windows.iter().enumerate() {
        if is_child(*slot, k, n) {
            return true;
        }
    }
    false
}

fn is_child(slot: Option<Slot>, k: usize, n: usize) -> bool
    ensures { result ≡ make.is_child n k slot }
{
    let Some(slot) = slot else {
        return false;
    };
    k != n && (is_parent(slot.parent, n) || slot.root as usize == n)
}

fn is_parent(parent: Option<u8>, n: usize) -> bool
    ensures { result ≡ make.is_parent n parent }
{
    match parent {
        Some(number) => number as usize == n,
        None => false,
    }
}
