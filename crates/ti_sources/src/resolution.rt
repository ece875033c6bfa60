//! An entry with all that it uses, if some entries of the text can't be read.

ghost use Rattle.std.specs.{Prelude.{◌≡◌, ◌<◌, None, Some, IfErr, IfOk, length, slice_get}, List.{AllByRecursion}};
ghost use Rattle.ti_sources.specs.Resolution.{FailsApart, FaultlessAreResolved, IsResolvedApart, fault_in, first_fault};
ghost use Rattle.ti_source.specs.Fitting.{FieldsFit, NamesFit};

use std::alloc::Global;
use ti_caps::Entry;
use ti_resolve::{Index, ResolveFault, entered_from, resolve_from};
use ti_source::SourceFault;

/// The reason why an entry of a source text that was read entry by entry can't be resolved.
#[derive(Debug, Drop)]
pub enum ApartFault {
    /// The entry, or one that it uses, can't be read; this is the first such fault.
    Unread(SourceFault),
    /// The entry can't be resolved, or memory ran out.
    Unresolved(ResolveFault),
}

/// The fault of each entry that can't be read, in their order.
pub type Faults<'a> = &'a [Option<SourceFault>];

/// The entry with all that it uses, or why it can't be resolved.
pub type Resolved = Result<Entry, ApartFault>;

/// The fault of the entry at `place`; `None` if it can be read.
#[tactic(auto, using(std::proofs::lemmas::Option::slice_get_read))]
fn own_fault(faults: Faults<'_>, place: usize) -> Option<SourceFault>
    requires { place < length faults.now }
    ensures { slice_get faults.now place ≡ Some result }
{
    faults[place]
}

/// The fault of the entry at `place`; `None` if it can be read, or if there is no such entry.
fn fault_in(faults: Faults<'_>, place: usize) -> Option<SourceFault>
    ensures { result ≡ fault_in faults.now place }
{
    match faults.get(place) {
        Some(fault) => *fault,
        None => None,
    }
}

/// The fault of the first entry among these `places` that can't be read.
#[tactic(auto, using(ti_resolve::proofs::OriginFacts::first_more, ti_resolve::proofs::OriginFacts::first_found))]
fn first_fault(faults: Faults<'_>, places: &[usize]) -> Option<SourceFault>
    ensures { result ≡ first_fault faults.now places.now }
{
    for place in places {
        if let Some(fault) = fault_in(faults, *place) {
            return Some(fault);
        }
    }
    None
}

/// The entry at `place`, which must be readable, with all that it uses.
fn resolve_read(alloc: Global, index: &Index<'_>, faults: Faults<'_>, place: usize) -> Resolved
    requires fit { AllByRecursion FieldsFit index.now.raws.now }
    requires names { NamesFit index.now.raws.now faults.now }
    requires there { place < length index.now.raws.now }
    requires read { slice_get faults.now place ≡ Some None }
    ensures entry { IfOk result (λ entry. IsResolvedApart index.now.raws.now faults.now place entry) }
    ensures fault { IfErr result (λ fault. FailsApart index.now.raws.now faults.now place fault) }
{
    match entered_from(alloc, index, place) {
        Err(fault) => Err(ApartFault::Unresolved(fault)),
        Ok(entered) => match first_fault(faults, entered.as_slice()) {
            Some(fault) => Err(ApartFault::Unread(fault)),
            None => match resolve_from(alloc, index, place) {
                Ok(entry) => Ok(entry),
                Err(fault) => Err(ApartFault::Unresolved(fault)),
            },
        },
    }
}

/// The entry at `place` of a source text that was read entry by entry (`ti_source::read_apart`), with all that it
/// uses, as `ti_resolve::resolve_at` returns it. The `index` must be that of the entries, and `faults` must say which
/// can't be read.
///
/// # Errors
/// `Unread` if the entry or one that it uses can't be read, with the first such fault in the order of the walk;
/// `Unresolved` with the first fault of the walk, or if memory ran out.
pub fn resolve_apart(alloc: Global, index: &Index<'_>, faults: Faults<'_>, place: usize) -> Resolved
    requires fit { AllByRecursion FieldsFit index.now.raws.now }
    requires names { NamesFit index.now.raws.now faults.now }
    requires there { place < length index.now.raws.now }
    requires beside { length faults.now ≡ length index.now.raws.now }
    ensures entry { IfOk result (λ entry. IsResolvedApart index.now.raws.now faults.now place entry) }
    ensures fault { IfErr result (λ fault. FailsApart index.now.raws.now faults.now place fault) }
{
    match own_fault(faults, place) {
        Some(fault) => Err(ApartFault::Unread(fault)),
        None => resolve_read(alloc, index, faults, place),
    }
}

/// Law: if each entry can be read, an entry is the one that resolving it in the whole text gives, and it is refused
/// only if resolving refuses it.
pub fn faultless_are_resolved()
    ensures { FaultlessAreResolved }
{}
