//! Why remedies aren't taken.

ghost use Rattle.std.specs.Prelude.{◌≡◌, ◌≢◌, ◌<◌, ◌&&◌, ◌==◌, IfOk, IfSome, IsTrue, Some, length, not, true};
ghost use Rattle.std.specs.List.{AllByRecursion, list_any};
ghost use Rattle.ti_caps.specs.{Entry.{string_at}, Fits.{string_fits}};
ghost use Rattle.ti_steps.specs.Reasons as spec;
ghost use Rattle.ti_source.specs.Raw.{IsRaw};

use crate::advice::{Adviser, Finding, Judged, Remedy};
use crate::findings::{allows, has_new, is_earned, is_none, is_whole};
use crate::gathering::place_or;
use crate::steps::resolved;
use std::alloc::{AllocError, Global};
use ti_caps::{Cap, Entry, Kind, is_kind};
use ti_resolve::{Index, ResolveFault, origin_from};

/// The reason why a remedy isn't taken.
#[derive(Clone, Copy, Debug, PartialEq, Eq)]
pub enum Reason {
    /// No place was found where its field gives the entry the string, or it wasn't tried.
    Unplaced,
    /// It would change a string of the entry at this place for which nothing is at fault there, or that entry would
    /// stay at fault.
    Changes(usize),
    /// The entry at this place would have a fault about this capability that it hasn't.
    Faults(usize, Cap),
    /// The entry at this place would lose its yes.
    Loses(usize),
    /// The entry that wants it would stay at fault.
    Refused,
}

/// A remedy, and the reason why it isn't taken.
#[derive(Debug, Drop)]
pub struct Kept {
    /// The remedy.
    pub remedy: Remedy,
    /// The reason.
    pub reason: Reason,
}

/// An entry, and what is found about it without a remedy and with it.
#[derive(Drop)]
struct Tried {
    entry: Entry,
    old: Vec<Finding>,
    new: Vec<Finding>,
}

/// Whether the entry at `place` has its value from the field of the remedy, or wants it there.
fn is_touched(alloc: Global, index: &Index<'_>, one: &Remedy, place: usize) -> Judged
    requires { place < length index.now.raws.now }
    ensures { IfOk result (λ is. is ≡ true → spec.IsThere index.now.raws.now one.now place) }
{
    match origin_from(alloc, index, place, one.change.cap) {
        Ok(origin) => Ok(place_or(place, origin) == one.change.place),
        Err(ResolveFault::NoMemory) => Err(AllocError),
        Err(ResolveFault::NoSuchEntry(_)) => Ok(false),
        Err(ResolveFault::Cycle(_)) => Ok(false),
        Err(ResolveFault::TooMany(_)) => Ok(false),
    }
}

/// The entry with the string of the remedy.
fn with_string(entry: &Entry, one: &Remedy) -> Result<Option<Entry>, AllocError>
    requires { IsTrue (string_fits one.now.change.string) }
    ensures { IfOk result (λ found. IfSome found (λ with. with ≡ spec.with_string one.now entry.now)) }
{
    let cap = one.change.cap;
    if !is_kind(cap, Kind::String) {
        return Ok(None);
    }
    let mut changed = entry.try_copy()?;
    changed.set_string(cap, one.change.string.as_slice())?;
    Ok(Some(changed))
}

/// The findings about the entry without the remedy and with it.
fn make_tried<A: Adviser>(
    alloc: Global,
    adviser: &A,
    one: &Remedy,
    entry: Entry,
) -> Result<Option<Tried>, AllocError>
    requires { IsTrue (string_fits one.now.change.string) }
    ensures entry { IfOk result (λ found. IfSome found (λ tried. tried.entry ≡ entry)) }
    ensures found { IfOk result (λ found. IfSome found (λ tried. A.finds adviser.now tried.entry tried.old.items)) }
    ensures found_after { IfOk result (λ found. IfSome found
        (λ tried. A.finds adviser.now (spec.with_string one.now tried.entry) tried.new.items)) }
{
    let Some(after) = with_string(&entry, one)? else {
        return Ok(None);
    };
    let old = adviser.find(alloc, &entry)?;
    let new = adviser.find(alloc, &after)?;
    Ok(Some(Tried { entry, old, new }))
}

/// The findings about the entry at `place` without the remedy and with it; none if that doesn't touch it.
fn tried_at<A: Adviser>(
    alloc: Global,
    adviser: &A,
    index: &Index<'_>,
    one: &Remedy,
    place: usize,
) -> Result<Option<Tried>, AllocError>
    requires fit { AllByRecursion IsRaw index.now.raws.now }
    requires fits { IsTrue (string_fits one.now.change.string) }
    ensures { IfOk result (λ found. IfSome found (λ tried. spec.IsTouched (A.finds adviser.now) index.now.raws.now
        one.now place tried.entry tried.old.items tried.new.items)) }
{
    if place >= index.raws.len() {
        return Ok(None);
    }
    let touched = is_touched(alloc, index, one, place)?;
    if !touched {
        return Ok(None);
    }
    let Some(entry) = resolved(alloc, index, place)? else {
        return Ok(None);
    };
    make_tried(alloc, adviser, one, entry)
}

/// Whether the entry has another string than the remedy's, or none.
fn differs(entry: &Entry, one: &Remedy) -> bool
    ensures { result ≡ true → string_at entry.now one.now.change.cap ≢ Some one.now.change.string }
{
    match entry.get_string(one.change.cap) {
        Some(own) => own != one.change.string.as_slice(),
        None => true,
    }
}

/// Whether the remedy changes a string of the entry, for which that entry may not change.
fn alters(one: &Remedy, tried: &Tried) -> bool
    ensures { result ≡ true → spec.Alters one.now tried.now.entry tried.now.old.items tried.now.new.items }
{
    let whole = is_whole(tried.new.as_slice());
    let allowed = allows(tried.old.as_slice(), whole, one);
    differs(&tried.entry, one) && !allowed
}

/// The capability of a new fault.
fn first_new(old: &[Finding], new: &[Finding]) -> Option<Cap>
    ensures { IfSome result (λ cap. spec.Harms cap old.now new.now) }
{
    for own in new {
        if has_new(old, new, own.cap) {
            return Some(own.cap);
        }
    }
    None
}

/// Why the remedy isn't to be taken, for the entry at `place`.
fn harm_of(one: &Remedy, place: usize, tried: &Tried) -> Option<Reason>
    ensures says { IfSome result
        (spec.Says one.now tried.now.entry tried.now.old.items tried.now.new.items) }
    ensures about { IfSome result (spec.IsAbout place) }
{
    let (old, new) = (tried.old.as_slice(), tried.new.as_slice());
    if is_none(old) && !is_none(new) {
        return Some(Reason::Loses(place));
    }
    if alters(one, tried) {
        return Some(Reason::Changes(place));
    }
    match first_new(old, new) {
        Some(cap) => Some(Reason::Faults(place, cap)),
        None => None,
    }
}

/// Why the remedy isn't to be taken, for the entry at `place`; none if it does that entry no harm.
pub fn harm_at<A: Adviser>(
    alloc: Global,
    adviser: &A,
    index: &Index<'_>,
    one: &Remedy,
    place: usize,
) -> Result<Option<Reason>, AllocError>
    requires fit { AllByRecursion IsRaw index.now.raws.now }
    requires fits { IsTrue (string_fits one.now.change.string) }
    ensures { IfOk result (λ found. IfSome found
        (spec.IsReason (A.finds adviser.now) index.now.raws.now one.now)) }
{
    match tried_at(alloc, adviser, index, one, place)? {
        Some(tried) => Ok(harm_of(one, place, &tried)),
        None => Ok(None),
    }
}

/// `Refused` if the remedy is of no use to the entry that wants it, and else `Unplaced`.
pub fn use_of<A: Adviser>(
    alloc: Global,
    adviser: &A,
    index: &Index<'_>,
    one: &Remedy,
) -> Result<Reason, AllocError>
    requires fit { AllByRecursion IsRaw index.now.raws.now }
    requires fits { IsTrue (string_fits one.now.change.string) }
    ensures { IfOk result (spec.IsReason (A.finds adviser.now) index.now.raws.now one.now) }
{
    match tried_at(alloc, adviser, index, one, one.root)? {
        Some(tried) => {
            if is_earned(tried.old.as_slice(), tried.new.as_slice(), one) {
                Ok(Reason::Unplaced)
            } else {
                Ok(Reason::Refused)
            }
        }
        None => Ok(Reason::Unplaced),
    }
}
