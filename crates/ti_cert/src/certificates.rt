//! A verified certificate, as a painter uses it.
ghost use Rattle.std.specs.Prelude.{◌≡◌, ◌&&◌, not};
ghost use Rattle.ti_rows.specs.Right.{sets_visible};
ghost use Rattle.ti_cert.specs.Table.{certified};

use crate::verification::Checked;
use ti_conforms::Certificate;
use ti_rows::Row;

/// Whether the row's line is for showing or hiding the cursor.
fn sets_visible(row: Row) -> bool
    ensures { result ≡ sets_visible row }
{
    matches!(row, Row::Civis | Row::Cnorm | Row::Cvvis)
}

impl Certificate for Checked {
    ghost use Rattle.ti_cert.specs.{Table.{certified}, Verified.{partner_in}};

    ghost table = { λ c. certified c };

    ghost partners = { λ c letter. partner_in c letter };

    fn rows(&self) -> usize {
        self.size().rows
    }

    fn cols(&self) -> usize {
        self.size().cols
    }

    fn line(&self, row: Row) -> Option<&[u8]> {
        if sets_visible(row) && self.row_bytes(Row::Cnorm).is_none() {
            None
        } else {
            self.row_bytes(row)
        }
    }

    fn resync(&self) -> &[u8] {
        Checked::resync(self)
    }

    fn cell_limit(&self) -> usize {
        Checked::cell_limit(self)
    }

    fn partner(&self, letter: u8) -> Option<u8> {
        Checked::partner(self, letter)
    }
}
