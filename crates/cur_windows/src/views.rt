//! A window's cells, for reading.
ghost use Rattle.std.specs.Prelude.{◌≡◌, ◌<◌, ◌≤◌, ◌+◌, ℕ, length};
ghost use Rattle.cur_drawing.specs.Grids.{Grid, line_at};
ghost use Rattle.cur_windows.specs.Views.{IsSeen, seen, window_cells};
ghost use Rattle.cur_windows.specs.Desks as spec;

use crate::desks::Desk;
use cur_drawing::{Cell, Refusal};
use cur_screens::Slot;
use grids::{Area, Grid};
use std::marker::Model;

/// The view of a window, a subwindow or a pad: its cells, line by line.
pub trait View {
    /// The cells as a grid.
    ghost cells: { Self → Grid };

    /// The number of lines.
    fn rows(&self) -> u16
        ensures { result ≡ length (cells self.now) };

    /// The number of columns.
    fn cols(&self) -> u16
        ensures { (y : ℕ) → y < length (cells self.now) → length (line_at (cells self.now) y) ≡ result };

    /// The line `y`, which must exist.
    fn row(&self, y: u16) -> &[Cell]
        requires { y < length (cells self.now) }
        ensures { result.now ≡ line_at (cells self.now) y };
}

/// A window's part of its grid.
#[derive(Drop)]
pub struct Part<'a> {
    grid: &'a Grid<Cell>,
    area: Area,
}

impl<'a> Model for Part<'a> {
    ghost use Rattle.cur_drawing.specs.Grids.{Grid};
    ghost use Rattle.cur_windows.specs.Views.{IsSeen, window_cells};

    ghost Value = { Grid };

    ghost view = { λ p. window_cells p.area p.grid.now };

    ghost invariant = { λ p. IsSeen p.area p.grid.now };
}

impl<'a> View for Part<'a> {
    ghost cells = { λ p. p };

    fn rows(&self) -> u16 {
        self.area.rows
    }

    fn cols(&self) -> u16 {
        self.area.cols
    }

    fn row(&self, y: u16) -> &[Cell] {
        let left = self.area.left as usize;
        let line = self.grid.line((self.area.top + y) as usize);
        &line[left..left + self.area.cols as usize]
    }
}

impl Desk {
    /// The cells of a window. `Full`, `NoWindow`.
    pub fn view(&self, id: usize) -> Result<Part<'_>, Refusal>
        ensures { result ≡ seen self.now id }
    {
        let slot = self.find(id)?;
        Ok(self.view_of(&slot))
    }

    fn view_of(&self, slot: &Slot) -> Part<'_>
        requires root { slot.now.root < 64 }
        requires seen { IsSeen slot.now.window.area (spec.grid_at self.now slot.now.root) }
        ensures { result ≡ window_cells slot.now.window.area (spec.grid_at self.now slot.now.root) }
    {
        Part {
            grid: self.grid_of(slot),
            area: slot.window.area,
        }
    }
}
