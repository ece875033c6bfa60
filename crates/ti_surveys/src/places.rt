//! The places of faults in a survey: each fault of a field once, with the names of the entries that have it.

ghost use Rattle.std.specs.Prelude.{◌≡◌, ◌<◌, ◌++◌, IfOk, OnOk, drop, get_or, length, map, option_copied, take};
ghost use Rattle.ti_surveys.specs.Places as spec;
ghost use Rattle.ti_surveys.specs.Shares.{lines_if, lines_with};
ghost use Rattle.ti_verdicts.specs.Locations.{placed_in};

use crate::shares::Shares;
use std::alloc::Global;
use ti_verdicts::{Added, Lines, PlacedFault};

/// The lines of these `faults`, each at its place and once, with the names of the entries that have it.
///
/// # Errors
/// Out of memory.
#[tactic(auto, using(crate::proofs::PlaceFacts::whole_after), unfolding(crate::specs::Places::places_text))]
pub fn places_lines(alloc: Global, faults: &[PlacedFault]) -> Lines
    ensures { IfOk result (λ lines. lines.items ≡ spec.places_text (map placed_in faults.now)) }
{
    let shares = Shares::new(alloc, faults)?;
    let mut lines = Vec::new(alloc);
    for at in 0..faults.len() {
        push_unless(&faults[at], shares.names_behind(at), &mut lines)?;
    }
    Ok(lines)
}

/// Appends the lines of `fault` with its own name and the names of the `others` that have it, each behind a comma.
/// Appends nothing without these, where an earlier fault is the same.
fn push_unless(fault: &PlacedFault, others: Option<&[u8]>, lines: &mut Vec<u8>) -> Added
    ensures { OnOk result (lines.new.items
        ≡ lines.old.items ++ lines_if (placed_in fault.now) (option_copied others.entry)) }
{
    match others {
        None => Ok(()),
        Some(others) => push_lines(fault, others, lines),
    }
}

/// Appends the lines of `fault` with its own name and the names of the `others` that have it, each behind a comma.
fn push_lines(fault: &PlacedFault, others: &[u8], lines: &mut Vec<u8>) -> Added
    ensures { OnOk result (lines.new.items ≡ lines.old.items ++ lines_with (placed_in fault.now) others.now) }
{
    lines.extend_from_slice(fault.place.as_slice())?;
    lines.extend_from_slice(fault.name.as_slice())?;
    lines.extend_from_slice(fault.fault.as_slice())?;
    if !others.is_empty() {
        lines.extend_from_slice(b"    in ")?;
        lines.extend_from_slice(fault.name.as_slice())?;
        lines.extend_from_slice(others)?;
        lines.push(b'\n')?;
    }
    Ok(())
}
