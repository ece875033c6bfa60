//! The strings that lead a terminal out of an unknown state.

ghost use Rattle.std.specs.Prelude.{◌≡◌};
ghost use Rattle.ti_conforms.specs.Resync as spec;

use ti_rows::Row;
use vt_term::Size;

/// The rows whose strings lead a terminal of `size` out of an unknown state, in the order in which
/// they are sent.
pub fn resync_rows(size: Size) -> [Row; 6]
    ensures { result ≡ spec.resync_rows size.rows }
{
    let bottom = (size.rows - 1) as u16;
    [
        Row::Smcup,
        Row::Enacs,
        Row::Sgr0,
        Row::Rmacs,
        Row::Csr(0, bottom),
        Row::Clear,
    ]
}
