//! The capabilities that a session on an entry goes without.

ghost use Rattle.std.specs.Prelude.{◌≡◌, IfOk, option_map};
ghost use Rattle.ti_faults.specs.AllFaults.{AreAllFaults};
ghost use Rattle.ti_openings.specs.Openings as spec;

use std::alloc::{AllocError, Global};
use ti_caps::{Entry, name};
use ti_checker::No;
use ti_faults::must_claim;
use ti_without::{LeftOut, certify_beside, certify_without, found_beside};
use vt_term::Size;

/// The names of capabilities.
pub type Names = Vec<&'static [u8]>;

/// The names of what a session on `entry` goes without, for a terminal of `size`, in the order of the alphabet: none if
/// the entry has a certificate. `None` if there is no session, since a fault can't be left out.
///
/// # Errors
/// Out of memory.
pub fn names_left_out(alloc: Global, entry: &Entry, size: Size) -> Result<Option<Names>, AllocError>
    ensures { IfOk result (λ found. spec.OpensIf entry.now size.rows size.cols
        (option_map (λ names. spec.texts_of names.items) found)) }
{
    match certify_without(alloc, entry, size) {
        Ok(found) => {
            let names = names_of(alloc, found.left_out.as_slice())?;
            Ok(Some(names))
        }
        Err(no) => {
            must_claim(no.cause)?;
            Ok(None)
        }
    }
}

/// The names of what a session on `entry` goes without, as [`names_left_out`] has them, for an entry whose faults are
/// known: `nos` must be all of them. An entry without a fault, and one with a fault that can't be left out, isn't
/// judged again.
///
/// # Errors
/// Out of memory.
pub fn names_left_out_beside(
    alloc: Global,
    entry: &Entry,
    size: Size,
    nos: &[No],
) -> Result<Option<Names>, AllocError>
    requires { AreAllFaults entry.now size.rows size.cols nos.now }
    ensures { IfOk result (λ found. spec.OpensIf entry.now size.rows size.cols
        (option_map (λ names. spec.texts_of names.items) found)) }
{
    if nos.is_empty() {
        return Ok(Some(Vec::new(alloc)));
    }
    match certify_beside(alloc, entry, size, nos)? {
        Some(found) => {
            let names = names_of(alloc, found.left_out.as_slice())?;
            Ok(Some(names))
        }
        None => Ok(None),
    }
}

/// Whether a session opens on `entry`, whole or without some strings, for an entry whose faults are known: `nos` must
/// be all of them.
///
/// # Errors
/// Out of memory.
pub fn opens_beside(
    alloc: Global,
    entry: &Entry,
    size: Size,
    nos: &[No],
) -> Result<bool, AllocError>
    requires { AreAllFaults entry.now size.rows size.cols nos.now }
    ensures { IfOk result (λ opens. spec.OpensAs opens entry.now size.rows size.cols) }
{
    if nos.is_empty() {
        return Ok(true);
    }
    let found = found_beside(alloc, entry, size, nos)?;
    Ok(found.is_some())
}

/// The names of the capabilities of `left`, in the order of the alphabet.
fn names_of(alloc: Global, left: &[LeftOut]) -> Result<Names, AllocError>
    ensures { IfOk result (λ names. spec.AreNames left.now (spec.texts_of names.items)) }
{
    let mut names = names_in(alloc, left)?;
    names.sort()?;
    Ok(names)
}

/// The names of the capabilities of `left`, in their order.
fn names_in(alloc: Global, left: &[LeftOut]) -> Result<Names, AllocError>
    ensures { IfOk result (λ names. spec.texts_of names.items ≡ spec.names_of left.now) }
{
    let mut names = Vec::new(alloc);
    for one in left {
        names.push(name(one.cap))?;
    }
    Ok(names)
}
