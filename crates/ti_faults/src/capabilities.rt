//! The row of a capability.

ghost use Rattle.std.specs.Prelude.{◌≡◌, ◌≢◌, ◌<◌, IfNone, IfSome};
ghost use Rattle.ti_rows.specs.Names.{cap_of, order, capabilities};
ghost use Rattle.ti_rows.specs.declared.rows.Row as rows;

use ti_caps::Cap;
use ti_rows::{CAPABILITIES, Row};

/// The first row of the capability at `place` in the order of names.
#[tactic(auto, using(crate::proofs::Places::has_first, crate::proofs::Places::first_order))]
fn first_row(place: usize) -> Row
    requires { place < capabilities }
    ensures { order result ≡ place }
{
    Row::first(place).unwrap()
}

/// The first row of `cap`, if it is a checked capability.
pub fn row_of(cap: Cap) -> Option<Row>
    ensures found { IfSome result (λ row. cap_of row ≡ cap) }
    ensures none { IfNone result ((row : rows.Row) → cap_of row ≢ cap) }
{
    for place in 0..CAPABILITIES {
        let row = first_row(place);
        if row.cap() == cap {
            return Some(row);
        }
    }
    None
}
