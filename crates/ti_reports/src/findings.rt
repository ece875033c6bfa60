//! The faults that are reported of an entry.

ghost use Rattle.std.specs.Prelude.{◌≡◌, [], ◌∷◌, IfOk};
ghost use Rattle.ti_reports.specs.Findings as spec;

use std::alloc::{AllocError, Global};
use ti_caps::Entry;
use ti_checker::{No, check};
use ti_faults::{faults, must_claim};
use vt_term::Size;

/// All faults of `entry` if `lists_all`, or else the first alone; none if it has a certificate.
pub fn found_faults(
    alloc: Global,
    entry: &Entry,
    size: Size,
    lists_all: bool,
) -> Result<Vec<No>, AllocError>
    ensures { IfOk result (λ nos. spec.AreFaults lists_all entry.now size.rows size.cols nos.items) }
{
    if lists_all {
        faults(alloc, entry, size)
    } else {
        first_fault(alloc, entry, size)
    }
}

/// The refusal by `check` of `entry`, or none.
fn first_fault(alloc: Global, entry: &Entry, size: Size) -> Result<Vec<No>, AllocError>
    ensures { IfOk result (λ nos. spec.AreFirst entry.now size.rows size.cols nos.items) }
{
    match check(alloc, entry, size) {
        Ok(_text) => Ok(Vec::new(alloc)),
        Err(no) => {
            must_claim(no.cause)?;
            only(alloc, no)
        }
    }
}

/// A list of `no` alone.
fn only(alloc: Global, no: No) -> Result<Vec<No>, AllocError>
    ensures { IfOk result (λ nos. nos.items ≡ no ∷ []) }
{
    Ok(vec![in alloc; no]?)
}
