//! Characters of a line that go out in one piece.
ghost use Rattle.std.specs.Prelude.{◌≡◌, ◌+◌, ◌<◌, ◌≤◌, ℕ, true, length, slice_index_or};
ghost use Rattle.cur_steps.specs.{Inks.{CanShow, mixed}, Gaps.{IsAlike}, Steps.{ActsWith}, declared.inks.Ink.{Ink}};

use crate::routes::is_alike;
use crate::targets::Target;
use cur_steps::{Belief, Cells, Ink, Pen, Picture, Place, Sent, Wire, send_all, stands};
use ti_conforms::Certificate;

impl<C: Certificate, N: Picture> Target<'_, C, N> {
    /// Prints `cells` of the target, whose characters are the first bytes of `text`. The cursor must be known to be at
    /// the first cell, and all of them must be printed in the known brush and set.
    pub fn print_text<W: Wire>(&self, pen: &mut Pen<W>, cells: Cells, text: &[u8]) -> Sent
        requires drawable { CanShow (C.table self.now.checked.now) (N.cells self.now.shown.now) }
        requires row { cells.row < (C.table self.now.checked.now).rows }
        requires within { cells.from + cells.count ≤ (C.table self.now.checked.now).cols }
        requires long { cells.count ≤ length text.now }
        requires place { pen.old.belief.place ≡ record { row = cells.row; col = cells.from } }
        requires alike { (k : ℕ) → k < cells.count
            → IsAlike pen.old.belief (N.cells self.now.shown.now cells.row (cells.from + k)) }
        requires bytes { (k : ℕ) → k < cells.count
            → (N.cells self.now.shown.now cells.row (cells.from + k)).byte ≡ slice_index_or text.now k 0 }
        ensures belief { pen.new.belief ≡ record pen.old.belief {
          place = record { row = cells.row; col = cells.from + cells.count };
        } }
        ensures step { (old : ℕ → ℕ → Ink) → ActsWith W.went W.failures pen.old pen.new result
            (C.table self.now.checked.now) cells.count (mixed old (N.cells self.now.shown.now) cells.row cells.from)
            (mixed old (N.cells self.now.shown.now) cells.row (cells.from + cells.count)) }
    {
        // only this call's contract says that the certificate is verified
        let _ = self.checked.rows();
        pen.belief.place = Place {
            row: cells.row,
            col: cells.from + cells.count,
        };
        send_all(&mut pen.wire, &text[..cells.count])
    }
}

/// Whether the next character is known to go to the place `at` and to be printed in the set and the brush of `ink`.
pub fn goes_on(belief: &Belief, at: Place, ink: Ink) -> bool
    ensures place { result ≡ true → belief.now.place ≡ at }
    ensures alike { result ≡ true → IsAlike belief.now ink }
    ensures known { belief.now.place ≡ at → IsAlike belief.now ink → result ≡ true }
{
    stands(belief.place, at) && is_alike(belief, ink)
}
