//! The remedies for entries of a source text.

ghost use Rattle.std.specs.{Prelude.{◌≡◌, ◌<◌, ◌≤◌, IfErr, IfOk, IsTrue, length}, List.{AllByRecursion}};
ghost use Rattle.ti_caps.specs.Fits.{string_fits};
ghost use Rattle.ti_steps.specs.Mended as mended;
ghost use Rattle.ti_steps.specs.Remedies as spec;
ghost use Rattle.ti_resolve.specs.Walk.{FailsBy, walk_at};
ghost use Rattle.ti_source.specs.Raw.{IsRaw};

use crate::advice::{Advice, Adviser, Remedy};
use std::alloc::{AllocError, Global};
use ti_fixes::Change;
use ti_resolve::{Index, Origin, ResolveFault, origin_from, resolve_from};
use ti_source::RawEntry;

/// The entries that are to be mended.
#[derive(Clone, Copy, Debug, PartialEq, Eq)]
pub enum Wanted {
    /// As many entries as this, from the first one on.
    First(usize),
    /// The entry at this place alone.
    Only(usize),
}

/// The place of the entry that has the field at `origin`; else `root`.
pub fn place_or(root: usize, origin: Option<Origin>) -> usize
    ensures { result ≡ spec.place_or root origin }
{
    match origin {
        Some(origin) => origin.entry,
        None => root,
    }
}

/// The remedy by which the entry at `root` gets the advised string.
fn placed(
    alloc: Global,
    index: &Index<'_>,
    root: usize,
    advice: &Advice,
) -> Result<Remedy, ResolveFault>
    requires there { root < length index.now.raws.now }
    ensures placed { IfOk result (spec.IsPlaced index.now.raws.now root advice.now) }
    ensures walk { IfErr result (λ fault. FailsBy fault (walk_at index.now.raws.now root)) }
{
    let origin = origin_from(alloc, index, root, advice.cap)?;
    let change = Change::of(place_or(root, origin), advice.cap, &advice.string)?;
    Ok(Remedy {
        root,
        fault: advice.fault,
        change,
    })
}

/// The remedies for an entry, or why it can't be resolved.
type Placed = Result<Vec<Remedy>, ResolveFault>;

/// The remedies by which the entry at `root` gets the advised strings.
fn all_placed(alloc: Global, index: &Index<'_>, root: usize, advices: &[Advice]) -> Placed
    requires there { root < length index.now.raws.now }
    requires fits { AllByRecursion (λ one. IsTrue (string_fits one.string)) advices.now }
    ensures placed { IfOk result (λ remedies. spec.ArePlaced index.now.raws.now root advices.now remedies.items) }
    ensures fits { IfOk result (λ remedies. AllByRecursion spec.Fits remedies.items) }
    ensures walk { IfErr result (λ fault. FailsBy fault (walk_at index.now.raws.now root)) }
{
    let mut remedies = Vec::new(alloc);
    for advice in advices {
        let remedy = placed(alloc, index, root, advice)?;
        remedies.push(remedy)?;
    }
    Ok(remedies)
}

/// The remedies for the entry at `root`, which can be resolved.
#[tactic(auto, using(ti_resolve::proofs::Taken::raws_fields, ti_resolve::proofs::Taken::names_fit_at))]
fn found<A: Adviser>(alloc: Global, adviser: &A, index: &Index<'_>, root: usize) -> Placed
    requires fit { AllByRecursion IsRaw index.now.raws.now }
    requires there { root < length index.now.raws.now }
    ensures advised { IfOk result
        (λ remedies. spec.IsAdvisedAt (A.advises adviser.now) index.now.raws.now root remedies.items) }
    ensures fits { IfOk result (λ remedies. AllByRecursion spec.Fits remedies.items) }
    ensures walk { IfErr result (λ fault. FailsBy fault (walk_at index.now.raws.now root)) }
{
    let entry = resolve_from(alloc, index, root)?;
    let advices = adviser.advise(alloc, &entry)?;
    all_placed(alloc, index, root, advices.as_slice())
}

/// The remedies for entries, unless memory ran out.
type Advised = Result<Vec<Remedy>, AllocError>;

/// The remedies for the entry at `root`; none if it can't be resolved.
///
/// # Errors
/// Out of memory.
fn remedies_at<A: Adviser>(alloc: Global, adviser: &A, index: &Index<'_>, root: usize) -> Advised
    requires fit { AllByRecursion IsRaw index.now.raws.now }
    requires there { root < length index.now.raws.now }
    ensures advised { IfOk result
        (λ remedies. spec.IsAdvisedAt (A.advises adviser.now) index.now.raws.now root remedies.items) }
    ensures fits { IfOk result (λ remedies. AllByRecursion spec.Fits remedies.items) }
{
    match found(alloc, adviser, index, root) {
        Ok(remedies) => Ok(remedies),
        Err(ResolveFault::NoMemory) => Err(AllocError),
        Err(ResolveFault::NoSuchEntry(_)) => Ok(Vec::new(alloc)),
        Err(ResolveFault::Cycle(_)) => Ok(Vec::new(alloc)),
        Err(ResolveFault::TooMany(_)) => Ok(Vec::new(alloc)),
    }
}

/// The remedies that `adviser` has for the first `count` entries of `index`, in their order.
///
/// # Errors
/// Out of memory.
fn all_remedies<A: Adviser>(alloc: Global, adviser: &A, index: &Index<'_>, count: usize) -> Advised
    requires fit { AllByRecursion IsRaw index.now.raws.now }
    requires there { count ≤ length index.now.raws.now }
    ensures advised { IfOk result
        (λ remedies. spec.AreAdvised (A.advises adviser.now) index.now.raws.now count remedies.items) }
    ensures fits { IfOk result (λ remedies. AllByRecursion spec.Fits remedies.items) }
{
    let mut remedies = Vec::new(alloc);
    for root in 0..count {
        let mut own = remedies_at(alloc, adviser, index, root)?;
        remedies.append(&mut own)?;
    }
    Ok(remedies)
}

/// The remedies that `adviser` has for the `wanted` entries of the `raws`, in their order.
///
/// # Errors
/// Out of memory.
pub fn remedies_for<A: Adviser>(
    alloc: Global,
    adviser: &A,
    raws: &[RawEntry],
    wanted: Wanted,
) -> Advised
    requires fit { AllByRecursion IsRaw raws.now }
    requires there { mended.Fits (length raws.now) wanted }
    ensures advised { IfOk result
        (λ remedies. mended.AreWanted (A.advises adviser.now) raws.now wanted remedies.items) }
    ensures fits { IfOk result (λ remedies. AllByRecursion spec.Fits remedies.items) }
{
    let index = Index::new(alloc, raws)?;
    match wanted {
        Wanted::First(count) => all_remedies(alloc, adviser, &index, count),
        Wanted::Only(root) => remedies_at(alloc, adviser, &index, root),
    }
}
