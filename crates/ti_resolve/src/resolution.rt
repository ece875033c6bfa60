//! An entry with all that it uses.

ghost use Rattle.std.specs.Prelude.{◌≡◌, ◌<◌, [], Some, IfOk, IsTrue, MatchResult, IsOk, length};
ghost use Rattle.std.specs.List.{AllByRecursion};
ghost use Rattle.ti_caps.specs.Fits.{names_fit};
ghost use Rattle.ti_source.specs.{Fitting.{FieldsFit}, Raw.{IsRaw}};
ghost use Rattle.ti_resolve.specs.{Uses.{names_at}, Faults.{AnswersOnce, FaultsAreSo, FaultsFromAreSo, WalksResolve}};
ghost use Rattle.ti_resolve.specs.Origins.{GivesValue, GivesValueAt, IsOrigin, IsOriginAt};
ghost use Rattle.ti_resolve.specs.Resolved.{ExpandsOnce, IsResolved, IsResolvedAt, ResolvedAtOnce, ResolvedOnce};
ghost use Rattle.ti_resolve.specs.Walk.{Gives, FailsBy, walk_at, walk_of};

use crate::faults::ResolveFault;
use crate::fill::filled;
use crate::origins::{Origin, giving};
use crate::search::{Index, names_of};
use crate::walk::{Destination, MOST_USED, Trail, enter};
use std::alloc::Global;
use ti_caps::{Cap, Entry};
use ti_source::RawEntry;

/// The places of the entries that the walk from the one at `root` enters, in that order: the entry itself and all
/// that it uses.
///
/// # Errors
/// The first fault met on the way, or out of memory.
pub fn entered_from(
    alloc: Global,
    index: &Index<'_>,
    root: usize,
) -> Result<Vec<usize>, ResolveFault>
    requires { root < length index.now.raws.now }
    ensures { Gives (λ places. places.items) result (walk_at index.now.raws.now root) }
{
    let mut trail = Trail {
        chain: Vec::new(alloc),
        entered: Vec::new(alloc),
    };
    let to = Destination {
        name: names_of(index.raws, root),
        place: root,
    };
    enter(alloc, index, MOST_USED + 1, to, &mut trail)?;
    Ok(trail.entered)
}

/// The entry at the place `root`, as `resolve_at` returns it, but with an index that serves many calls. Only the
/// names of this entry must fit.
///
/// # Errors
/// The first fault met on the way, or out of memory.
pub fn resolve_from(alloc: Global, index: &Index<'_>, root: usize) -> Result<Entry, ResolveFault>
    requires fit { AllByRecursion FieldsFit index.now.raws.now }
    requires names { IsTrue (names_fit (names_at index.now.raws.now root)) }
    requires range { root < length index.now.raws.now }
    ensures entry { IfOk result (λ entry. IsResolvedAt index.now.raws.now root entry) }
    ensures walk { MatchResult result (λ _. IsOk (walk_at index.now.raws.now root))
        (λ fault. FailsBy fault (walk_at index.now.raws.now root)) }
{
    let entered = entered_from(alloc, index, root)?;
    let entry = filled(
        alloc,
        index.raws,
        names_of(index.raws, root),
        entered.as_slice(),
    )?;
    Ok(entry)
}

/// The first entry named `name`, with all that it uses.
#[tactic(auto, using(crate::proofs::Taken::raws_fields, crate::proofs::Taken::names_fit_at))]
fn resolve_in(alloc: Global, index: &Index<'_>, name: &[u8]) -> Result<Entry, ResolveFault>
    requires { AllByRecursion IsRaw index.now.raws.now }
    ensures entry { IfOk result (λ entry. IsResolved index.now.raws.now name.now entry) }
    ensures walk { MatchResult result (λ _. IsOk (walk_of index.now.raws.now name.now))
        (λ fault. FailsBy fault (walk_of index.now.raws.now name.now)) }
{
    match index.find(name) {
        Some(root) => resolve_from(alloc, index, root),
        None => Err(ResolveFault::no_such_entry(alloc, name)),
    }
}

/// The field that gives `cap` its value in the entry at the place `root`, as `origin_at` returns it, but with an
/// index that serves many calls.
///
/// # Errors
/// The first fault met on the way, or out of memory.
pub fn origin_from(
    alloc: Global,
    index: &Index<'_>,
    root: usize,
    cap: Cap,
) -> Result<Option<Origin>, ResolveFault>
    requires { root < length index.now.raws.now }
    ensures origin { IfOk result (λ found. IsOriginAt index.now.raws.now root cap found) }
    ensures value { IfOk result (λ found. GivesValueAt index.now.raws.now root cap found) }
    ensures walk { MatchResult result (λ _. IsOk (walk_at index.now.raws.now root))
        (λ fault. FailsBy fault (walk_at index.now.raws.now root)) }
{
    // the capability is in the table
    let _ = cap.place();
    let entered = entered_from(alloc, index, root)?;
    Ok(giving(index.raws, cap, entered.as_slice()))
}

/// The field that gives `cap` its value in the first entry named `name`.
fn origin_of(
    alloc: Global,
    index: &Index<'_>,
    name: &[u8],
    cap: Cap,
) -> Result<Option<Origin>, ResolveFault>
    ensures origin { IfOk result (λ found. IsOrigin index.now.raws.now name.now cap found) }
    ensures value { IfOk result (λ found. GivesValue index.now.raws.now name.now cap found) }
    ensures walk { MatchResult result (λ _. IsOk (walk_of index.now.raws.now name.now))
        (λ fault. FailsBy fault (walk_of index.now.raws.now name.now)) }
{
    match index.find(name) {
        Some(root) => origin_from(alloc, index, root, cap),
        None => Err(ResolveFault::no_such_entry(alloc, name)),
    }
}

/// The first entry of `raws` named `name`, with all that it uses: depth first and left to right, an entry's own
/// fields before its uses. Of several fields about one capability the first decides, even if it cancels.
///
/// Fails with the first fault met on the way, or when out of memory.
///
/// With N names in all entries and M uses in the at most 65 entries entered, this takes (N + M) log N comparisons of
/// names, and one pass over the fields of the entries entered.
pub fn resolve(alloc: Global, raws: &[RawEntry], name: &[u8]) -> Result<Entry, ResolveFault>
    requires { AllByRecursion IsRaw raws.now }
    ensures entry { IfOk result (λ entry. IsResolved raws.now name.now entry) }
    ensures walk { MatchResult result (λ _. IsOk (walk_of raws.now name.now))
        (λ fault. FailsBy fault (walk_of raws.now name.now)) }
{
    let index = Index::new(alloc, raws)?;
    resolve_in(alloc, &index, name)
}

/// The entry at `place` in `raws`, with all that it uses, like `resolve`; since its names don't matter, this reaches
/// each of several entries with one name.
///
/// # Errors
/// The first fault met on the way, or out of memory.
#[tactic(auto, using(crate::proofs::Taken::raws_fields, crate::proofs::Taken::names_fit_at))]
pub fn resolve_at(alloc: Global, raws: &[RawEntry], place: usize) -> Result<Entry, ResolveFault>
    requires fit { AllByRecursion IsRaw raws.now }
    requires range { place < length raws.now }
    ensures entry { IfOk result (λ entry. IsResolvedAt raws.now place entry) }
    ensures walk { MatchResult result (λ _. IsOk (walk_at raws.now place))
        (λ fault. FailsBy fault (walk_at raws.now place)) }
{
    let index = Index::new(alloc, raws)?;
    resolve_from(alloc, &index, place)
}

/// The field that gives `cap` its value in the first entry of `raws` named `name`, with all that it uses: the first
/// field about `cap`, in the order of `resolve`. `None` if the entry has no value for it.
///
/// This takes as long as `resolve`, but goes through the fields only up to that one.
///
/// # Errors
/// As for `resolve`.
pub fn origin(
    alloc: Global,
    raws: &[RawEntry],
    name: &[u8],
    cap: Cap,
) -> Result<Option<Origin>, ResolveFault>
    ensures origin { IfOk result (λ found. IsOrigin raws.now name.now cap found) }
    ensures value { IfOk result (λ found. GivesValue raws.now name.now cap found) }
    ensures walk { MatchResult result (λ _. IsOk (walk_of raws.now name.now))
        (λ fault. FailsBy fault (walk_of raws.now name.now)) }
{
    let index = Index::new(alloc, raws)?;
    origin_of(alloc, &index, name, cap)
}

/// The field that gives `cap` its value in the entry at `place` in `raws`, like `origin`; the entry's names don't
/// matter, as in `resolve_at`.
///
/// # Errors
/// As for `resolve_at`.
pub fn origin_at(
    alloc: Global,
    raws: &[RawEntry],
    place: usize,
    cap: Cap,
) -> Result<Option<Origin>, ResolveFault>
    requires { place < length raws.now }
    ensures origin { IfOk result (λ found. IsOriginAt raws.now place cap found) }
    ensures value { IfOk result (λ found. GivesValueAt raws.now place cap found) }
    ensures walk { MatchResult result (λ _. IsOk (walk_at raws.now place))
        (λ fault. FailsBy fault (walk_at raws.now place)) }
{
    let index = Index::new(alloc, raws)?;
    origin_from(alloc, &index, place, cap)
}

/// Law: uses expand to at most one list of entries.
#[tactic(auto, using(crate::proofs::Once::expands_once))]
pub fn expands_once()
    ensures { ExpandsOnce }
{}

/// Law: the entry at a place, resolved, is unique.
pub fn resolved_at_once()
    ensures { ResolvedAtOnce }
{}

/// Law: the entry with a name, resolved, is unique.
pub fn resolved_once()
    ensures { ResolvedOnce }
{}

/// Law: a walk without a fault resolves the name.
pub fn walks_resolve()
    ensures { WalksResolve }
{}

/// Law: each fault of the walk from a place is true of the entries and their uses.
pub fn faults_from_are_so()
    ensures { FaultsFromAreSo }
{}

/// Law: each fault of the walk from a name is true of the entries and their uses.
pub fn faults_are_so()
    ensures { FaultsAreSo }
{}

/// Law: a name has one answer. If the walk has a fault, neither an entry nor another fault is an answer.
pub fn answers_once()
    ensures { AnswersOnce }
{}
