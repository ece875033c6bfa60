//! Whether an entry is for a terminal of another kind.

ghost use Rattle.std.specs.Prelude.{◌≡◌};
ghost use Rattle.ti_faults.specs.Remedies as spec;

use ti_checker::{No, names};
use ti_rows::Row;

/// Whether an entry with these `faults` seems to be for a terminal of another kind: both its `clear` and its `cup` are
/// among the capabilities at fault. The standards' strings are no remedies then.
pub fn is_of_another_kind(faults: &[No]) -> bool
    ensures { result ≡ spec.is_of_another_kind faults.now }
{
    names(faults, Row::Clear.cap()) && names(faults, Row::Cup(0, 0).cap())
}
