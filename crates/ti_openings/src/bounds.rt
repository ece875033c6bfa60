//! The bound of a session on an entry, as numbers.

ghost use Rattle.std.specs.Prelude.{IfErr, IfOk};
ghost use Rattle.ti_checker.specs.No.{IsNo};
ghost use Rattle.ti_openings.specs.Openings.{IsBound};

use std::alloc::Global;
use ti_caps::Entry;
use ti_checker::{No, certify};
use vt_term::Size;

/// The numbers by which the bytes of a refresh are bounded.
#[derive(Clone, Copy, Debug, PartialEq, Eq)]
pub struct Bound {
    /// The most bytes of a cell that differs, with its move and all changes of its look.
    pub cell_limit: usize,
    /// The number of bytes that lead out of an unknown state.
    pub way_out: usize,
}

/// The bound of a session on `entry`, for a terminal of `size`.
///
/// # Errors
/// The refusal of `check`; or out of memory.
pub fn bound_of(alloc: Global, entry: &Entry, size: Size) -> Result<Bound, No>
    ensures bound { IfOk result (IsBound entry.now size.rows size.cols) }
    ensures refused { IfErr result (IsNo entry.now size.rows size.cols) }
{
    let checked = certify(alloc, entry, size)?;
    Ok(Bound {
        cell_limit: checked.cell_limit(),
        way_out: checked.resync().len(),
    })
}
