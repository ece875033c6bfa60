//! Whether lines have one effect at all sizes.

ghost use Rattle.std.specs.Prelude.{◌≡◌, IsTrue, OnOk};
ghost use Rattle.ti_rows.specs.{Lists.{IsFirst, IsInRange}, Names.{order}};
ghost use Rattle.ti_sizes.specs.Lines as spec;
ghost use Rattle.vt_term.specs.Size.{max_rows, max_cols};

use crate::steps::greatest;
use crate::texts::is_steady;
use std::alloc::{AllocError, Global};
use ti_conforms::LinesByRow;
use ti_rows::{CAPABILITIES, Row};

/// Why lines aren't known to have one effect at all sizes.
#[derive(Drop)]
pub(crate) enum Unsteady {
    /// Nothing is known of the line of this row.
    At(Row),
    /// Out of memory.
    NoMemory,
}

impl From<AllocError> for Unsteady {
    fn from(_: AllocError) -> Unsteady {
        Unsteady::NoMemory
    }
}

/// Checks that the line of `row`, if there is one, has the effect of the greatest size at each that allows the row.
fn check_row<L: LinesByRow>(alloc: Global, lines: &L, row: Row) -> Result<(), Unsteady>
    ensures { OnOk result (spec.IsSteadyLine row (L.line_of lines.now row)) }
{
    match lines.line(row) {
        None => Ok(()),
        Some(bytes) => {
            if is_steady(alloc, row, bytes)? {
                Ok(())
            } else {
                Err(Unsteady::At(row))
            }
        }
    }
}

/// Checks the lines of the capability whose first row is `first`.
fn check_cap<L: LinesByRow>(alloc: Global, lines: &L, first: Row) -> Result<(), Unsteady>
    requires { IsFirst max_rows max_cols first }
    ensures { OnOk result (spec.CapIsSteady (L.line_of lines.now) (order first)) }
{
    let size = greatest();
    let mut row = first;
    loop {
        check_row(alloc, lines, row)?;
        match row.next(size) {
            Some(next) => row = next,
            None => return Ok(()),
        }
    }
}

/// Checks that each line of the greatest size has the same effect at each size that allows its row. The error names the
/// first row of which this isn't known.
pub(crate) fn check_lines<L: LinesByRow>(alloc: Global, lines: &L) -> Result<(), Unsteady>
    ensures { OnOk result (spec.AreSteady (L.line_of lines.now)) }
{
    for order in 0..CAPABILITIES {
        if let Some(first) = Row::first(order) {
            check_cap(alloc, lines, first)?;
        }
    }
    Ok(())
}
