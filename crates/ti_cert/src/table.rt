//! The table that a certificate makes.

ghost use Rattle.std.specs.Prelude.{◌≡◌, option_copied};
ghost use Rattle.ti_conforms.specs.{Judged.{IsJudged}, Looks.{LooksStand}};
ghost use Rattle.ti_cert.specs.{Lengths.{longest_line}, Strings.{row_string}};
ghost use Rattle.ti_cert.specs.Table as spec;

use crate::known::Known;
use std::marker::Model;
use ti_caps::Bytes;
use ti_conforms::{Charsets, LinesByRow};
use ti_rows::Row;
use vt_term::Size;

/// The lines of a certificate for a size, each of which was judged.
#[derive(Drop)]
pub struct Table {
    known: Known,
    acsc: Option<Bytes>,
    settled: Charsets,
}

impl Model for Table {
    ghost use Rattle.ti_conforms.specs.{Judged.{IsJudged}, Looks.{LooksStand}};
    ghost use Rattle.ti_cert.specs.Table.{CheckedTable, checked_of};

    ghost Value = { CheckedTable };

    ghost view = { λ t. record { known = t.known; acsc = t.acsc; settled = t.settled } };

    ghost invariant = { λ t. IsJudged (checked_of t.known t.settled) × LooksStand (checked_of t.known t.settled) };
}

impl Table {
    pub(crate) fn new(known: Known, acsc: Option<Bytes>, settled: Charsets) -> Table
        requires judged { IsJudged (spec.checked_of known settled) }
        requires looks { LooksStand (spec.checked_of known settled) }
        ensures { result ≡ record { known = known; acsc = acsc; settled = settled } }
    {
        Table {
            known,
            acsc,
            settled,
        }
    }

    /// The size that the certificate is for.
    pub fn size(&self) -> Size
        ensures rows { result.rows ≡ self.now.known.strings.rows }
        ensures cols { result.cols ≡ self.now.known.strings.cols }
    {
        self.known.strings.size()
    }

    /// The pairs of alternate characters, if the certificate has them.
    pub fn acsc(&self) -> Option<&[u8]>
        ensures { option_copied result ≡ self.now.acsc }
    {
        self.acsc.as_ref().map(|bytes| bytes.as_slice())
    }

    /// The bytes of the row's line, if there is one.
    pub fn bytes(&self, row: Row) -> Option<&[u8]>
        ensures { option_copied result ≡ row_string self.now.known.strings row }
    {
        self.known.strings.get(row)
    }

    /// The number of bytes of the longest line of the row's capability, 0 if it has none.
    pub(crate) fn longest(&self, row: Row) -> usize
        ensures { result ≡ longest_line self.now.known.strings row }
    {
        self.known.strings.longest(row)
    }

    /// Lemma: the lines were judged, and attributes with strings of their own look as those show.
    pub fn judged(&self)
        ensures lines { IsJudged (spec.table_of self.now) }
        ensures looks { LooksStand (spec.table_of self.now) }
    {
        // a look at a field brings in the invariant: the lines were judged
        let _ = &self.settled;
    }
}

impl LinesByRow for Table {
    ghost use Rattle.ti_cert.specs.Strings.{row_string};

    ghost line_of = { λ t row. row_string t.known.strings row };

    fn line(&self, row: Row) -> Option<&[u8]> {
        self.bytes(row)
    }

    fn has_any(&self, row: Row) -> bool {
        self.known.strings.has(row)
    }
}
