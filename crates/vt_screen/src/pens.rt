//! `Pen`: a rendition, kept as the cells that it makes.

ghost use Rattle.std.specs.Prelude.{◌≡◌};

use crate::cells::Cell;
use crate::renditions::Rendition;
use grids::Paint;
use std::marker::Model;

/// A rendition as the cells that it makes, so that printing a character packs nothing.
#[derive(Drop)]
pub(crate) struct Pen {
    plain: Cell,
    graphic: Cell,
}

impl Model for Pen {
    ghost use Rattle.vt_screen.specs.{declared.renditions.Rendition.{Rendition}, Look.{IsPenOf}};

    ghost Value = { Rendition };

    ghost view = { λ p. p.plain.rendition };

    ghost invariant = { λ p. IsPenOf p.plain p.graphic };
}

impl Pen {
    ghost use Rattle.vt_screen.specs.Look.{blank, shown_by};

    /// The pen of a rendition.
    pub fn new(rendition: Rendition) -> Pen
        ensures { result ≡ rendition }
    {
        Pen {
            plain: Cell::new(b' ', false, rendition),
            graphic: Cell::new(b' ', true, rendition),
        }
    }

    /// The rendition.
    pub fn rendition(&self) -> Rendition
        ensures { result ≡ self.now }
    {
        self.plain.rendition()
    }

    /// The cell that a place gets when `byte` is printed there; `graphic` says whether the active set is the graphic
    /// one.
    #[inline(always)]
    pub fn cell(&self, byte: u8, graphic: bool) -> Cell
        ensures { result ≡ shown_by self.now graphic byte }
    {
        if graphic & (byte >= 95) {
            self.graphic.showing(byte)
        } else {
            self.plain.showing(byte)
        }
    }

    /// The cell that a place gets when it is erased.
    pub fn blank(&self) -> Cell
        ensures { result ≡ blank self.now }
    {
        Cell::blank(self.rendition())
    }
}

/// A pen with the active set, for writing a run of characters.
#[derive(Drop)]
pub(crate) struct Ink<'a> {
    pub pen: &'a Pen,
    pub graphic: bool,
}

impl<'a> Paint<Cell> for Ink<'a> {
    ghost use Rattle.vt_screen.specs.Look.{shown_by};

    ghost painted = { λ ink. shown_by ink.pen.now ink.graphic };

    #[inline(always)]
    fn paint(&self, byte: u8) -> Cell {
        self.pen.cell(byte, self.graphic)
    }
}
