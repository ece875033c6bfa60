//! The certificate of an entry without the strings that are at fault.

ghost use Rattle.std.specs.Prelude.{◌≡◌, [], All, IfErr, IfNone, IfOk, IfSome, true};
ghost use Rattle.ti_checker.specs.No.{IsNo};
ghost use Rattle.ti_faults.specs.AllFaults.{AreFaults};
ghost use Rattle.ti_without.specs.{Less.{caps_of, less}, Rounds.{AreRounds, can_go_on}};
ghost use Rattle.ti_without.specs.Without as spec;

use crate::returning::settled;
use crate::rounds::{Smaller, can_go_on, next};
use crate::without::Without;
use std::alloc::{AllocError, Global};
use ti_caps::Entry;
use ti_checker::{No, certify};
use ti_faults::must_claim;
use vt_term::Size;

/// The first certificate that further rounds lead to, for `entry` without what `smaller` lacks, which `check` refuses
/// by `no`.
#[tactic(auto, using(crate::proofs::Ends::memory_end))]
fn further_rounds(
    alloc: Global,
    entry: &Entry,
    size: Size,
    smaller: Smaller,
    no: No,
) -> Result<Without, No>
    requires refused { IsNo smaller.entry size.rows size.cols no }
    requires is { smaller.entry ≡ less entry.now (caps_of smaller.left.items) }
    requires rounds { AreRounds entry.now size.rows size.cols smaller.left.items }
    ensures found { IfOk result (spec.IsFound entry.now size.rows size.cols) }
    ensures end { IfErr result (spec.IsEnd entry.now size.rows size.cols) }
{
    // the contract alone speaks of the whole entry
    let _ = entry;
    let mut smaller = smaller;
    let mut no = no;
    loop {
        smaller = match next(alloc, smaller, size, no) {
            Ok(further) => further,
            Err(stop) => return Err(stop),
        };
        match certify(alloc, &smaller.entry, size) {
            Ok(checked) => return Ok(Without {
                checked,
                left_out: smaller.left,
            }),
            Err(other) => no = other,
        }
    }
}

/// The whole `entry`, with nothing left out.
fn whole(alloc: Global, entry: &Entry) -> Result<Smaller, AllocError>
    ensures entry { IfOk result (λ smaller. smaller.entry ≡ entry.now) }
    ensures left { IfOk result (λ smaller. smaller.left.items ≡ []) }
{
    Ok(Smaller {
        entry: entry.try_copy()?,
        left: Vec::new(alloc),
    })
}

/// The first certificate that rounds lead to, for an entry that `check` refuses by `no`.
#[tactic(auto, using(crate::proofs::Ends::memory_end))]
fn by_rounds(alloc: Global, entry: &Entry, size: Size, no: No) -> Result<Without, No>
    requires { IsNo entry.now size.rows size.cols no }
    ensures found { IfOk result (spec.IsFound entry.now size.rows size.cols) }
    ensures refused { IfOk result (λ _. spec.IsRefused entry.now size.rows size.cols) }
    ensures end { IfErr result (spec.IsEnd entry.now size.rows size.cols) }
{
    must_claim(no.cause)?;
    let smaller = whole(alloc, entry)?;
    further_rounds(alloc, entry, size, smaller, no)
}

/// The first certificate that rounds lead to, for an entry that has the faults `nos`, with which there is a round.
#[tactic(auto, using(crate::proofs::Ends::memory_end))]
fn by_faults(alloc: Global, entry: &Entry, size: Size, nos: &[No]) -> Result<Without, No>
    requires faults { AreFaults entry.now size.rows size.cols nos.now }
    requires can { can_go_on entry.now nos.now ≡ true }
    ensures found { IfOk result (spec.IsFound entry.now size.rows size.cols) }
    ensures end { IfErr result (spec.IsEnd entry.now size.rows size.cols) }
{
    let smaller = whole(alloc, entry)?;
    let smaller = smaller.but_all(nos)?;
    match certify(alloc, &smaller.entry, size) {
        Ok(checked) => Ok(Without {
            checked,
            left_out: smaller.left,
        }),
        Err(no) => further_rounds(alloc, entry, size, smaller, no),
    }
}

/// The strings of the first certificate that rounds lead to, for an entry whose faults are known: `nos` must be these.
/// `None` if rounds lead to none. Some of the strings that are left out might come back.
///
/// # Errors
/// Out of memory.
pub fn found_beside(
    alloc: Global,
    entry: &Entry,
    size: Size,
    nos: &[No],
) -> Result<Option<Without>, AllocError>
    requires { AreFaults entry.now size.rows size.cols nos.now }
    ensures some { IfOk result (λ found. IfSome found (spec.IsFound entry.now size.rows size.cols)) }
    ensures none { IfOk result (λ found. IfNone found (spec.IsClosed entry.now size.rows size.cols)) }
{
    if !can_go_on(entry, nos) {
        return Ok(None);
    }
    match by_faults(alloc, entry, size, nos) {
        Ok(found) => Ok(Some(found)),
        Err(no) => {
            must_claim(no.cause)?;
            Ok(None)
        }
    }
}

/// The checked strings of [`certify_without`] for an entry whose faults are known: `nos` must be these. `None` if it is
/// refused: the entry isn't judged again if one of its faults can't be left out.
///
/// # Errors
/// Out of memory.
pub fn certify_beside(
    alloc: Global,
    entry: &Entry,
    size: Size,
    nos: &[No],
) -> Result<Option<Without>, AllocError>
    requires { AreFaults entry.now size.rows size.cols nos.now }
    ensures found { IfOk result (λ found. IfSome found (spec.IsFound entry.now size.rows size.cols)) }
    ensures needed { IfOk result (λ found. IfSome found (λ w. All (spec.IsNeeded entry.now size.rows size.cols
        w.left_out.items) w.left_out.items)) }
    ensures none { IfOk result (λ found. IfNone found (spec.IsClosed entry.now size.rows size.cols)) }
{
    match found_beside(alloc, entry, size, nos)? {
        Some(found) => Ok(Some(settled(alloc, entry, size, found)?)),
        None => Ok(None),
    }
}

/// The checked strings of `entry` for `size`, without those that are at fault. If the entry has a certificate, nothing
/// is left out. Else all its faults are listed, their strings are left out, and what is left is judged again, round by
/// round, until there is a certificate; a string that comes back without costing the certificate stays. `smcup` and
/// `rmcup` are left out together. A fault of the way out of an unknown state (`NoResync`) waits until nothing else is
/// at fault. Each round leaves out at least one string.
///
/// # Errors
/// A fault can't be left out: that of `clear`, `cup`, `sgr0`, of a flag or number, or of what all strings do together
/// though the entry lacks the string that is named. The refusal is that of `check` for the entry without what was left
/// out by then. Or out of memory.
#[tactic(auto, using(crate::proofs::Ends::memory_end))]
pub fn certify_without(alloc: Global, entry: &Entry, size: Size) -> Result<Without, No>
    ensures found { IfOk result (spec.IsFound entry.now size.rows size.cols) }
    ensures needed { IfOk result (λ w. All (spec.IsNeeded entry.now size.rows size.cols w.left_out.items)
        w.left_out.items) }
    ensures whole { IfOk result (λ w. spec.IsWhole entry.now size.rows size.cols w.left_out.items) }
    ensures end { IfErr result (spec.IsEnd entry.now size.rows size.cols) }
{
    match certify(alloc, entry, size) {
        Ok(checked) => Ok(Without {
            checked,
            left_out: Vec::new(alloc),
        }),
        Err(no) => {
            let found = by_rounds(alloc, entry, size, no)?;
            Ok(settled(alloc, entry, size, found)?)
        }
    }
}
