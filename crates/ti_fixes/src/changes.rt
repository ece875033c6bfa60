//! Giving several fields of a source text their strings, all at once.

ghost use Rattle.std.specs.{Prelude.{◌≡◌, Ok, IfOk, IfSome, IsTrue, true}, List.{AllByRecursion}};
ghost use Rattle.ti_caps.specs.Fits.{string_fits};
ghost use Rattle.ti_fixes.specs.Cuts.{whole};
ghost use Rattle.ti_fixes.specs.Texts.{IsWritten};
ghost use Rattle.ti_fixes.specs.Changes as spec;
ghost use Rattle.ti_source.specs.{Raw.{IsRaw}, Source.{source_of}};

use crate::cuts::{cut, joined};
use crate::differences::first_difference;
use crate::fixes::{Fixed, entries_of};
use crate::places::find_own_piece;
use crate::texts::written;
use std::alloc::{AllocError, AllocFailed, Global};
use ti_caps::{Bytes, Cap};
use ti_source::RawEntry;

/// A string for a capability of an entry.
#[derive(Debug, Drop)]
pub struct Change {
    /// The entry's place in its text; the first is 0.
    pub place: usize,
    /// The capability.
    pub cap: Cap,
    /// The string.
    pub string: Bytes,
}

impl Change {
    /// The change that gives `cap` a copy of this string in the entry at `place`.
    ///
    /// # Errors
    /// Out of memory.
    pub fn of(place: usize, cap: Cap, string: &Bytes) -> Result<Change, AllocError>
        ensures { IfOk result (λ change. change ≡ record { place = place; cap = cap; string = string.now }) }
    {
        Ok(Change {
            place,
            cap,
            string: string.try_copy()?,
        })
    }

    /// A copy of the change.
    ///
    /// # Errors
    /// Out of memory.
    pub fn try_copy(&self) -> Result<Change, AllocError>
        ensures { IfOk result (λ copy. copy ≡ self.now) }
    {
        Change::of(self.place, self.cap, &self.string)
    }
}

/// Why changes aren't made.
#[derive(Clone, Copy, Debug, PartialEq, Eq)]
pub enum ChangeFault {
    /// No place was found where a change of the entry at this place gives it the string.
    Unplaced(usize),
    /// Out of memory.
    NoMemory,
}

impl From<AllocError> for ChangeFault {
    fn from(_error: AllocError) -> ChangeFault {
        ChangeFault::NoMemory
    }
}

impl<T: Drop> From<AllocFailed<T>> for ChangeFault {
    fn from(_error: AllocFailed<T>) -> ChangeFault {
        ChangeFault::NoMemory
    }
}

/// The text of one entry with the change written; `None` if no place was found for it.
fn changed(alloc: Global, own: &[u8], change: &Change) -> Result<Option<Vec<u8>>, AllocError>
    requires { IsTrue (string_fits change.now.string) }
    ensures { IfOk result (λ found. IfSome found
        (λ after. IsWritten change.now.cap change.now.string own.now after.items)) }
{
    match find_own_piece(alloc, own, change.cap)? {
        Some(piece) => written(alloc, own, piece, change.cap, change.string.as_slice()),
        None => Ok(None),
    }
}

/// Writes the change into the part of the text that is its entry's; `false` if no place was found for it.
fn put(alloc: Global, parts: &mut Vec<Vec<u8>>, change: &Change) -> Result<bool, AllocError>
    requires { IsTrue (string_fits change.now.string) }
    ensures { IfOk result (λ done. done ≡ true
        → IsWritten change.now.cap change.now.string (whole parts.old.items) (whole parts.new.items)) }
{
    let at = change.place.saturating_add(1);
    if at >= parts.len() {
        return Ok(false);
    }
    match changed(alloc, parts[at].as_slice(), change)? {
        Some(next) => {
            parts[at] = next;
            Ok(true)
        }
        None => Ok(false),
    }
}

/// The text with all changes written.
fn all_changed(
    alloc: Global,
    text: &[u8],
    raws: &[RawEntry],
    changes: &[Change],
) -> Result<Vec<u8>, ChangeFault>
    requires { AllByRecursion (λ change. IsTrue (string_fits change.string)) changes.now }
    ensures { IfOk result (λ after. spec.IsWrittenBy changes.now text.now after.items) }
{
    let mut parts = cut(alloc, text, raws)?;
    for change in changes {
        let done = put(alloc, &mut parts, change)?;
        if !done {
            return Err(ChangeFault::Unplaced(change.place));
        }
    }
    Ok(joined(alloc, parts.as_slice())?)
}

/// The `text` with all `changes`, one after another: the first field of the entry about the capability is written anew,
/// or one is put behind its last field if there is none. `raws` are the entries of the text.
///
/// # Errors
/// A change for which no place was found: nothing is returned that isn't read as just these entries with these strings.
/// Out of memory.
pub fn give_all(
    alloc: Global,
    text: &[u8],
    raws: &[RawEntry],
    changes: &[Change],
) -> Result<Fixed, ChangeFault>
    requires { AllByRecursion (λ change. IsTrue (string_fits change.string)) changes.now }
    ensures { IfOk result (λ fixed. spec.GivesAll text.now raws.now changes.now fixed.text.items fixed.raws.items) }
{
    let after = all_changed(alloc, text, raws, changes)?;
    let Some(afters) = entries_of(alloc, after.as_slice())? else {
        return Err(ChangeFault::Unplaced(raws.len()));
    };
    match first_difference(alloc, raws, afters.as_slice(), changes)? {
        None => Ok(Fixed {
            text: after,
            raws: afters,
        }),
        Some(place) => Err(ChangeFault::Unplaced(place)),
    }
}
