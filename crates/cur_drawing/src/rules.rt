//! Rules that change the cells of a grid.
ghost use Rattle.std.specs.Prelude.{◌≡◌};
ghost use Rattle.cur_drawing.specs.Cells.{restyled, unless_space};

use crate::cells::Cell;
use grids::{Merge, Rule};

/// Makes each cell what it is after its window's background was changed from `was` to `new`.
#[derive(Drop)]
pub struct Restyle {
    pub was: Cell,
    pub new: Cell,
}

impl Rule<Cell> for Restyle {
    ghost made = { λ rule old. restyled rule.was rule.new old };

    fn make(&self, old: Cell) -> Cell {
        old.restyled(self.was, self.new)
    }
}

/// Keeps the old cell if the new one is a space.
#[derive(Drop)]
pub struct SkipSpaces;

impl Merge<Cell> for SkipSpaces {
    ghost merged = { λ rule old new. unless_space old new };

    fn merge(&self, old: Cell, new: Cell) -> Cell {
        if new.byte() == b' ' { old } else { new }
    }
}
