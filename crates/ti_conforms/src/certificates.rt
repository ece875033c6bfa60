//! The interface of a painter to a verified certificate.
ghost use Rattle.std.specs.Prelude.{◌≡◌, IfSome, Some, None};
ghost use Rattle.ti_conforms.specs.Certified.{Table, IsChecked, cell_limit};

use ti_rows::Row;

/// A verified certificate: the strings of an entry for a size, with all facts that a painter needs.
pub trait Certificate {
    ghost use Rattle.std.specs.Prelude.{ℕ, Option};

    ghost table: { Self → Table };

    /// The partner of each letter in the graphic set (terminfo(5), "Line Graphics"), if it has one.
    ghost partners: { Self → ℕ → Option ℕ };

    /// The number of lines of the screen. Its contract also says that the whole table was verified.
    fn rows(&self) -> usize
        ensures value { result ≡ (table self.now).rows }
        ensures checked { IsChecked (table self.now) };

    /// The number of columns of the screen.
    fn cols(&self) -> usize
        ensures value { result ≡ (table self.now).cols };

    /// The bytes of a row's line, if the entry has it.
    fn line(&self, row: Row) -> Option<&[u8]>
        ensures value { IfSome result (λ b. (table self.now).line_of row ≡ Some b.now) }
        ensures none { result ≡ None → (table self.now).line_of row ≡ None };

    /// The bytes that lead from any state to a blank screen at rest.
    fn resync(&self) -> &[u8]
        ensures value { result.now ≡ (table self.now).resync };

    /// The most bytes that a cell takes, with its move and all changes of its look: the lengths of the longest line of
    /// each group of capabilities, added up, and one more for the character.
    fn cell_limit(&self) -> usize
        ensures value { result ≡ cell_limit (table self.now) };

    /// The partner that the entry lists for `letter` in `acsc`, or `None` if it lists none or lacks the
    /// strings for the graphic set.
    fn partner(&self, letter: u8) -> Option<u8>
        ensures value { result ≡ partners self.now letter };
}

/// A borrowed certificate.
impl<'a, C: Certificate> Certificate for &'a C {
    ghost table = { λ c. C.table c.now };

    ghost partners = { λ c letter. C.partners c.now letter };

    fn rows(&self) -> usize {
        (**self).rows()
    }

    fn cols(&self) -> usize {
        (**self).cols()
    }

    fn line(&self, row: Row) -> Option<&[u8]> {
        (**self).line(row)
    }

    fn resync(&self) -> &[u8] {
        (**self).resync()
    }

    fn cell_limit(&self) -> usize {
        (**self).cell_limit()
    }

    fn partner(&self, letter: u8) -> Option<u8> {
        (**self).partner(letter)
    }
}
