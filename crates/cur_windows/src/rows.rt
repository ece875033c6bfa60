//! One line of a window, borrowed for writing.
ghost use Rattle.std.specs.Prelude.{◌≡◌, ◌<◌, ◌≤◌, ◌+◌, ◌-◌, IfOk, length, take, drop, slice_set};
ghost use Rattle.cur_drawing.specs.Grids.{Fits, filled, line_at, one};
ghost use Rattle.cur_windows.specs.{Rows.{IsLine, line_of, lent_of, place_written}, Views.{cut}};
ghost use Rattle.cur_windows.specs.Desks as spec;

use crate::desks::Desk;
use cur_drawing::{Cell, Refusal};
use cur_screens::Slot;

/// One line of a window that is borrowed for writing. The desk can't be used while it is held.
#[derive(Drop)]
pub struct RowMut<'a> {
    desk: &'a mut Desk,
    slot: Slot,
    row: u16,
}

impl Desk {
    ghost use Rattle.std.specs.Borrow.{sem, RestsIfErr};
    ghost use Rattle.cur_windows.specs.{Loans.{LendsPart}, contracts.desks.Desk.{the_row}};

    /// The line `y` of window `id`, for writing: each cell written through it is in the grid at its
    /// place, and nothing else changes. `Full`, `NoWindow`, `OutOfWindow` if the window has no such
    /// line; nothing has then changed.
    pub fn row_mut(&mut self, id: usize, y: u16) -> Result<RowMut<'_>, Refusal>
        ensures* refused { sem 𝓛 (RestsIfErr the_row self.entry (λ r. r.desk.ghost_name) result (λ d. d ≡ self.old)) }
        ensures same_reference { IfOk result (λ r. r.desk.ghost_name ≡ self.entry.ghost_name) }
        ensures answer { lent_of result ≡ line_of self.old id y }
        ensures lent { IfOk result (λ r. (r.desk.now ≡ self.old) × (r.row ≡ y)) }
        ensures line { IfOk result (λ r. IsLine r.desk.now r.slot r.row) }
    {
        let slot = self.find(id)?;
        if y >= slot.window.area.rows {
            return Err(Refusal::OutOfWindow);
        }
        Ok(RowMut {
            desk: self,
            slot,
            row: y,
        })
    }

    // The cells of one line of a grid, from column `from` on and before column `to`, for writing.
    fn part_mut(&mut self, root: usize, row: usize, from: usize, to: usize) -> &mut [Cell]
        requires root { root < 64 }
        requires row { row < length (spec.grid_at self.old root) }
        requires order { from ≤ to }
        requires within { to ≤ length (line_at (spec.grid_at self.old root) row) }
        ensures* writes_back { sem 𝓛 (LendsPart self.entry root row from result) }
        ensures value { result.now ≡ take (to - from) (drop from (line_at (spec.grid_at self.old root) row)) }
    {
        self.grids[root].part_mut(row, from, to)
    }

    // Writes one cell of a grid.
    fn put_cell(&mut self, root: usize, row: usize, col: usize, cell: Cell)
        requires root { root < 64 }
        requires place { Fits (one row col) (spec.grid_at self.old root) }
        ensures { self.new ≡ record self.old
            { grids = slice_set (self.old).grids root (filled (one row col) cell (spec.grid_at self.old root)) } }
    {
        let grid = &mut self.grids[root];
        grid.set(row, col, cell);
    }
}

impl<'a> RowMut<'a> {
    ghost use Rattle.std.specs.Borrow.{sem};
    ghost use Rattle.cur_windows.specs.Loans.{LendsLine};

    /// The cells of the line, for writing: their last content is in the window's grid at its place,
    /// and nothing else changes.
    pub fn into_cells(self) -> &'a mut [Cell]
        requires { IsLine self.desk.now self.slot self.row }
        ensures* writes_back { sem 𝓛 (LendsLine self.entry result) }
        ensures value { result.now ≡ cut self.entry.slot.window.area
            (line_at (spec.grid_at self.entry.desk.now self.entry.slot.root)
            (self.entry.slot.window.area.top + self.entry.row)) }
    {
        let RowMut { desk, slot, row } = self;
        let area = slot.window.area;
        let left = area.left as usize;
        let right = left + area.cols as usize;
        desk.part_mut(slot.root as usize, (area.top + row) as usize, left, right)
    }

    /// The number of its places.
    pub fn cols(&self) -> u16
        ensures { result ≡ (self.now).slot.window.area.cols }
    {
        self.slot.window.area.cols
    }

    /// The cells of the line.
    pub fn cells(&self) -> &[Cell]
        requires { IsLine (self.now).desk.now (self.now).slot (self.now).row }
        ensures { result.now ≡ cut (self.now).slot.window.area
            (line_at (spec.grid_at (self.now).desk.now (self.now).slot.root)
            ((self.now).slot.window.area.top + (self.now).row)) }
    {
        let area = self.slot.window.area;
        let left = area.left as usize;
        let line = self
            .desk
            .grid_of(&self.slot)
            .line((area.top + self.row) as usize);
        &line[left..left + area.cols as usize]
    }

    /// Writes `cell` at the place `x` of the line, which must exist.
    pub fn set(&mut self, x: u16, cell: Cell)
        requires line { IsLine (self.old).desk.now (self.old).slot (self.old).row }
        requires within { x < (self.old).slot.window.area.cols }
        ensures same_reference { (self.new).desk.ghost_name ≡ (self.old).desk.ghost_name }
        ensures same_line { ((self.new).slot ≡ (self.old).slot) × ((self.new).row ≡ (self.old).row) }
        ensures value { (self.new).desk.now ≡ place_written (self.old).desk.now (self.old).slot (self.old).row x cell }
        ensures line { IsLine (self.new).desk.now (self.new).slot (self.new).row }
    {
        let area = self.slot.window.area;
        self.desk.put_cell(
            self.slot.root as usize,
            (area.top + self.row) as usize,
            (area.left + x) as usize,
            cell,
        );
    }
}
