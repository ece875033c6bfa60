//! The first faulty row of each checked capability.

ghost use Rattle.std.specs.Prelude.{◌≡◌, ◌≢◌, ◌<◌, ◌++◌, ◌∷◌, [], IfNone, IfOk, IfSome, OnOk};
ghost use Rattle.ti_checker.specs.First.{CapStands};
ghost use Rattle.ti_faults.specs.RowFaults as spec;
ghost use Rattle.ti_rows.specs.{Lists.{IsFirst}, Names.{order, capabilities}};

use crate::claims::must_claim;
use std::alloc::{AllocError, Global};
use ti_caps::Entry;
use ti_checker::{Cause, Judge, No};
use ti_conforms::checked_string;
use ti_rows::{CAPABILITIES, NO_LOOKS, Row};
use vt_term::Size;

/// An entry, and the size at which it is judged.
#[derive(Clone, Copy)]
struct Asked<'a> {
    entry: &'a Entry,
    size: Size,
}

/// The first row, from the capability's row `first` on, for which the string is at fault.
fn string_fault(
    alloc: Global,
    string: &[u8],
    first: Row,
    size: Size,
    judge: &mut Judge,
) -> Option<No>
    requires { IsFirst size.rows size.cols first }
    ensures none { IfNone result (spec.SendsAllAsked size.rows size.cols string.now (order first)) }
    ensures some { IfSome result (spec.IsStringFault size.rows size.cols string.now (order first)) }
{
    let mut looks = NO_LOOKS;
    let mut row = first;
    loop {
        match judge.judge_row(alloc, string, row, size, &mut looks) {
            Ok(_) => (),
            Err(cause) => return Some(No::at(row, cause)),
        }
        match row.next(size) {
            Some(next) => row = next,
            None => return None,
        }
    }
}

/// The refusal about the first faulty row of the capability at `place` in the order of names, if it is checked and has
/// such a row.
fn cap_fault(alloc: Global, asked: Asked<'_>, place: usize, judge: &mut Judge) -> Option<No>
    requires { place < capabilities }
    ensures none { IfNone result (CapStands asked.entry.entry.now asked.entry.size.rows asked.entry.size.cols place) }
    ensures some { IfSome result
        (spec.IsCapFault asked.entry.entry.now asked.entry.size.rows asked.entry.size.cols place) }
{
    let Some(first) = Row::first(place) else {
        return None;
    };
    match checked_string(asked.entry, first) {
        Some(string) => string_fault(alloc, string, first, asked.size, judge),
        None => None,
    }
}

/// Adds to `nos` the fault of the capability at `place`, if it has one.
#[tactic(auto, using(crate::proofs::Caps::stands_added, crate::proofs::Caps::fault_added))]
fn push_cap_fault(
    alloc: Global,
    asked: Asked<'_>,
    place: usize,
    judge: &mut Judge,
    nos: &mut Vec<No>,
) -> Result<(), AllocError>
    requires { place < capabilities }
    ensures { OnOk result (spec.AddsCap asked.entry.entry.now asked.entry.size.rows asked.entry.size.cols place
        nos.old.items nos.new.items) }
{
    match cap_fault(alloc, asked, place, judge) {
        None => Ok(()),
        Some(no) => push_claim(no, nos),
    }
}

/// Adds `no` to `nos`. Fails if its cause is that memory ran out, or if memory runs out here.
fn push_claim(no: No, nos: &mut Vec<No>) -> Result<(), AllocError>
    ensures claims { OnOk result (no.cause ≢ Cause.NoMemory) }
    ensures added { OnOk result (nos.new.items ≡ nos.old.items ++ no ∷ []) }
{
    must_claim(no.cause)?;
    nos.push(no)?;
    Ok(())
}

/// The first faulty row of each checked capability, in the order of names.
pub(crate) fn row_faults(alloc: Global, entry: &Entry, size: Size) -> Result<Vec<No>, AllocError>
    ensures { IfOk result (λ nos. spec.OfCaps entry.now size.rows size.cols capabilities nos.items) }
{
    let asked = Asked { entry, size };
    let mut nos = Vec::new(alloc);
    let mut judge = Judge::new(alloc)?;
    for place in 0..CAPABILITIES {
        push_cap_fault(alloc, asked, place, &mut judge, &mut nos)?;
    }
    Ok(nos)
}
