//! The strings of some capabilities of an entry: those that no refusal names.

ghost use Rattle.std.specs.Prelude.{◌≡◌, ◌+◌, ◌<◌, ◌≤◌, IfErr, IfNone, IfOk, IfSome, OnOk, Some, false, true};
ghost use Rattle.ti_checker.specs.{No.{IsFaulty}, Switches.{IsSeen, IsSeenToo}};
ghost use Rattle.ti_checker.specs.Kept as spec;
ghost use Rattle.ti_conforms.specs.Entries.{string_of};
ghost use Rattle.ti_rows.specs.{Lists.{IsFirst}, Names.{capabilities, order}};

use crate::causes::{Cause, No};
use crate::switches::{Seen, change_by};
use std::alloc::{AllocError, Global};
use ti_caps::{Cap, Entry};
use ti_conforms::is_checked;
use ti_rows::{CAPABILITIES, Row};
use vt_term::Size;

/// Whether one of the `refusals` is about `cap`.
pub fn names(refusals: &[No], cap: Cap) -> bool
    ensures { result ≡ spec.names refusals.now cap }
{
    refusals.iter().any(|no| no.cap == cap)
}

/// Whether the entry has the capability of `row`, it is checked, and none of the refusals `left_out` is about it.
pub(crate) fn is_sent(entry: &Entry, left_out: &[No], row: Row) -> bool
    ensures { result ≡ spec.is_sent entry.now (spec.unnamed left_out.now) row }
{
    !names(left_out, row.cap()) && is_checked(entry, row)
}

/// The entry's string for `row`, if the entry has it, it is checked, and none of the refusals `left_out` is about it.
pub(crate) fn kept_string<'a>(entry: &'a Entry, left_out: &[No], row: Row) -> Option<&'a [u8]>
    ensures sent { IfSome result (λ string. spec.is_sent entry.now (spec.unnamed left_out.now) row ≡ true) }
    ensures there { IfSome result (λ string. string_of entry.now row ≡ Some string.now) }
    ensures none { IfNone result (spec.is_sent entry.now (spec.unnamed left_out.now) row ≡ false) }
{
    if is_sent(entry, left_out, row) {
        entry.get_string(row.cap())
    } else {
        None
    }
}

/// Turns `cause`, which must be `NoMemory`, into the fault of an accepted string.
pub(crate) fn out_of_memory(cause: Cause) -> AllocError
    requires { cause ≡ Cause.NoMemory }
{
    let _ = cause;
    AllocError
}

/// Adds to `seen` the facts of the bytes that `string` sends for `row`. The error is the string's fault.
fn see_row(alloc: Global, string: &[u8], row: Row, size: Size, seen: &mut Seen) -> Result<(), Cause>
    ensures seen { OnOk result (IsSeenToo string.now row seen.old.reach seen.old.changes.items seen.new.reach
        seen.new.changes.items) }
    ensures faulty { IfErr result (λ cause. IsFaulty size.rows size.cols string.now row cause) }
{
    let found = change_by(alloc, string, row, size)?;
    seen.reach.learn_all(&found.tokens);
    match seen.add_change(row, found.change) {
        Ok(()) => Ok(()),
        Err(_) => Err(Cause::NoMemory),
    }
}

/// Adds to `seen` the facts of all rows of the capability whose first row is `first`, if it is checked and none of the
/// refusals `left_out` is about it. It must stand then.
fn see_cap(
    alloc: Global,
    entry: &Entry,
    left_out: &[No],
    first: Row,
    size: Size,
    seen: &mut Seen,
) -> Result<(), AllocError>
    requires first { IsFirst size.rows size.cols first }
    requires stand { spec.KeptStand entry.now size.rows size.cols (spec.unnamed left_out.now) }
    requires seen { IsSeen entry.now size.rows size.cols (spec.unnamed left_out.now) seen.old.reach
        seen.old.changes.items (order first) 0 }
    ensures { OnOk result (IsSeen entry.now size.rows size.cols (spec.unnamed left_out.now) seen.new.reach
        seen.new.changes.items (order first + 1) 0) }
{
    let Some(string) = kept_string(entry, left_out, first) else {
        return Ok(());
    };
    let mut row = first;
    loop {
        match see_row(alloc, string, row, size, seen) {
            Ok(()) => (),
            Err(cause) => return Err(out_of_memory(cause)),
        }
        match row.next(size) {
            Some(next) => row = next,
            None => return Ok(()),
        }
    }
}

/// Adds to `seen` the facts of all rows of the capability at `place` in the order of names, if it is checked and none
/// of the refusals `left_out` is about it. It must stand then.
fn see_at(
    alloc: Global,
    entry: &Entry,
    left_out: &[No],
    place: usize,
    size: Size,
    seen: &mut Seen,
) -> Result<(), AllocError>
    requires place { place < capabilities }
    requires stand { spec.KeptStand entry.now size.rows size.cols (spec.unnamed left_out.now) }
    requires seen { IsSeen entry.now size.rows size.cols (spec.unnamed left_out.now) seen.old.reach
        seen.old.changes.items place 0 }
    ensures { OnOk result (IsSeen entry.now size.rows size.cols (spec.unnamed left_out.now) seen.new.reach
        seen.new.changes.items (place + 1) 0) }
{
    match Row::first(place) {
        Some(first) => see_cap(alloc, entry, left_out, first, size, seen),
        None => Ok(()),
    }
}

/// The facts of the strings of all checked capabilities that none of the refusals `left_out` is about. Each of them
/// must stand. Fails if memory runs out.
pub(crate) fn seen_but(
    alloc: Global,
    entry: &Entry,
    left_out: &[No],
    size: Size,
) -> Result<Seen, AllocError>
    requires { spec.KeptStand entry.now size.rows size.cols (spec.unnamed left_out.now) }
    ensures { IfOk result (λ seen. IsSeen entry.now size.rows size.cols (spec.unnamed left_out.now) seen.reach
        seen.changes.items capabilities 0) }
{
    let mut seen = Seen::new(alloc);
    for place in 0..CAPABILITIES {
        see_at(alloc, entry, left_out, place, size, &mut seen)?;
    }
    Ok(seen)
}
