//! A screen whose lines have moved.
ghost use Rattle.std.specs.Prelude.{◌≡◌};

use crate::scrolls::{Scroll, line_before};
use cur_steps::{Cells, Ink, Picture, blank_shown, is_same};

/// The screen `old` after `scroll`.
#[derive(Drop)]
pub struct Shifted<'a, O> {
    pub old: &'a O,
    pub scroll: Scroll,
}

impl<'a, O: Picture> Picture for Shifted<'a, O> {
    ghost use Rattle.cur_moves.specs.Scrolls.{shifted};

    ghost cells = { λ s. shifted s.scroll (O.cells s.old.now) };

    fn at(&self, row: usize, col: usize) -> Ink
        ensures value { result ≡ shifted self.now.scroll (O.cells self.now.old.now) row col }
    {
        match line_before(self.scroll, row) {
            Some(line) => self.old.at(line, col),
            None => Ink::blank(),
        }
    }

    fn shows(&self, row: usize, col: usize, ink: Ink) -> bool {
        match line_before(self.scroll, row) {
            Some(line) => self.old.shows(line, col, ink),
            None => is_same(Ink::blank(), ink),
        }
    }

    fn is_blank(&self, row: usize, col: usize) -> bool {
        match line_before(self.scroll, row) {
            Some(line) => self.old.is_blank(line, col),
            None => true,
        }
    }

    fn shows_text(&self, stretch: Cells, ink: Ink, text: &[u8], shown: &mut [bool]) {
        match line_before(self.scroll, stretch.row) {
            Some(row) => self
                .old
                .shows_text(Cells { row, ..stretch }, ink, text, shown),
            None => blank_shown(stretch.count, ink, text, shown),
        }
    }
}
