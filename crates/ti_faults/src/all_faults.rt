//! All faults of an entry.

ghost use Rattle.std.specs.Prelude.{◌≡◌, ◌≢◌, ◌++◌, IfOk, OnOk};
ghost use Rattle.ti_checker.specs.{Clashes.{AreClashes}, No.{IsNo}};
ghost use Rattle.ti_faults.specs.RowFaults.{OfCaps};
ghost use Rattle.ti_faults.specs.AllFaults as spec;
ghost use Rattle.ti_rows.specs.Names.{capabilities};

use crate::claims::must_claim;
use crate::lacks::lacks;
use crate::row_faults::row_faults;
use std::alloc::{AllocError, Global};
use ti_caps::Entry;
use ti_checker::{Cause, No, check, clashes};
use vt_term::Size;

/// The refusals `nos`, or `refusal` alone if there are none.
fn or_one(nos: Vec<No>, refusal: No) -> Result<Vec<No>, AllocError>
    ensures { IfOk result (λ found. found.items ≡ spec.or_one nos.items refusal) }
{
    let mut nos = nos;
    if nos.is_empty() {
        nos.push(refusal)?;
    }
    Ok(nos)
}

/// All faults of `entry` for `size`, as [`faults`] lists them, where `check` was called already: `refusal` must be its
/// refusal, other than for want of memory.
///
/// # Errors
/// Out of memory.
pub fn faults_beside(
    alloc: Global,
    entry: &Entry,
    size: Size,
    refusal: No,
) -> Result<Vec<No>, AllocError>
    requires refused { IsNo entry.now size.rows size.cols refusal }
    requires claims { refusal.cause ≢ Cause.NoMemory }
    ensures { IfOk result (λ nos. spec.AreFaults entry.now size.rows size.cols nos.items) }
{
    let mut nos = lacks(alloc, entry)?;
    let mut single = row_faults(alloc, entry, size)?;
    let mut together = clashes(alloc, entry, single.as_slice(), size)?;
    nos.append(&mut single)?;
    nos.append(&mut together)?;
    or_one(nos, refusal)
}

/// All faults of `entry` for `size`, as `check` names them. First come each of `xmc`, `hc`, `gn` and `os` that it has,
/// each of `clear`, `cup` and `sgr0` that it lacks, and an `acsc` with a partner that can't be printed; then, for each
/// checked capability with a faulty row, the first such row, in the order of a certificate's lines; then the clashes of
/// the other checked capabilities, one refusal each about `smacs`, `rmacs`, `acsc` and `clear`. If there are none of
/// these, but no certificate either, the only fault is the refusal of `check` about the certificate's length. There are
/// no faults exactly if `check` gives a certificate.
///
/// # Errors
/// Out of memory.
pub fn faults(alloc: Global, entry: &Entry, size: Size) -> Result<Vec<No>, AllocError>
    ensures { IfOk result (λ nos. spec.AreAllFaults entry.now size.rows size.cols nos.items) }
{
    match check(alloc, entry, size) {
        Ok(_text) => Ok(Vec::new(alloc)),
        Err(no) => {
            must_claim(no.cause)?;
            faults_beside(alloc, entry, size, no)
        }
    }
}
