//! Entries that are only there to be used by others.

ghost use Rattle.std.specs.Prelude.{◌≡◌};
ghost use Rattle.ti_surveys.specs.Parts as spec;

use ti_caps::Entry;
use ti_rows::Row;
use ti_verdicts::first_name;

/// Whether `entry` has no string for `row`.
fn lacks(entry: &Entry, row: Row) -> bool
    ensures { result ≡ spec.lacks entry.now row }
{
    entry.get_string(row.cap()).is_none()
}

/// Whether `entry` has none of the strings that each certificate needs.
#[tactic(auto, unfolding(crate::specs::Parts::lacks_all))]
fn lacks_all(entry: &Entry) -> bool
    ensures { result ≡ spec.lacks_all entry.now }
{
    lacks(entry, Row::Clear) && lacks(entry, Row::Cup(0, 0)) && lacks(entry, Row::Sgr0)
}

/// Whether there is a plus sign in the first of these `names`.
#[tactic(auto, unfolding(crate::specs::Parts::has_plus))]
fn has_plus(names: &[u8]) -> bool
    ensures { result ≡ spec.has_plus names.now }
{
    first_name(names).iter().any(|byte| *byte == b'+')
}

/// Whether `entry` is only there to be used by others: it has none of the strings that each certificate needs, or a
/// plus sign in its first name.
pub fn is_part(entry: &Entry) -> bool
    ensures { result ≡ spec.is_part entry.now }
{
    lacks_all(entry) || has_plus(entry.names())
}
