//! Taking remedies together: that is a step if it is fair to every entry, and each of them is of use.

ghost use Rattle.std.specs.Prelude.{◌≡◌, ◌<◌, IfOk, IsTrue, length, true};
ghost use Rattle.ti_caps.specs.Fits.{string_fits};
ghost use Rattle.std.specs.List.{AllByRecursion};
ghost use Rattle.ti_fixes.specs.Files.{GivesFiles, all_raws, sheets};
ghost use Rattle.ti_steps.specs.Remedies.{Fits};
ghost use Rattle.ti_steps.specs.Steps as spec;
ghost use Rattle.ti_source.specs.Raw.{IsRaw};

use crate::advice::{Adviser, Judged, Remedy};
use crate::entries::{is_fair, same_values};
use crate::findings::is_earned;
use std::alloc::{AllocError, Global};
use ti_caps::Entry;
use ti_fixes::{Change, ChangeFault, Texts, give_each};
use ti_resolve::{Index, ResolveFault, resolve_from};
use ti_source::RawEntry;

/// Whether the change of an entry from `before` to `after` is fair. One whose values stay isn't judged.
fn is_fair_change<A: Adviser>(
    alloc: Global,
    adviser: &A,
    taken: &[Remedy],
    before: &Entry,
    after: &Entry,
) -> Judged
    ensures { IfOk result (λ fair. fair ≡ true
        → spec.IsFairChange (A.finds adviser.now) taken.now before.now after.now) }
{
    if same_values(before, after) {
        Ok(true)
    } else {
        is_fair(alloc, adviser, taken, before, after)
    }
}

/// The entry at `place`, or none if it can't be resolved.
#[tactic(auto, using(ti_resolve::proofs::Taken::raws_fields, ti_resolve::proofs::Taken::names_fit_at))]
pub fn resolved(alloc: Global, index: &Index<'_>, place: usize) -> Result<Option<Entry>, AllocError>
    requires fit { AllByRecursion IsRaw index.now.raws.now }
    requires there { place < length index.now.raws.now }
    ensures { IfOk result (spec.ResolvesTo index.now.raws.now place) }
{
    match resolve_from(alloc, index, place) {
        Ok(entry) => Ok(Some(entry)),
        Err(ResolveFault::NoMemory) => Err(AllocError),
        Err(ResolveFault::NoSuchEntry(_)) => Ok(None),
        Err(ResolveFault::Cycle(_)) => Ok(None),
        Err(ResolveFault::TooMany(_)) => Ok(None),
    }
}

/// Whether an entry changes fairly, or can't be resolved before and after.
fn are_fair<A: Adviser>(
    alloc: Global,
    adviser: &A,
    taken: &[Remedy],
    before: &Option<Entry>,
    after: &Option<Entry>,
) -> Judged
    ensures { IfOk result (λ fair. fair ≡ true
        → spec.AreFair (A.finds adviser.now) taken.now before.now after.now) }
{
    match (before, after) {
        (None, None) => Ok(true),
        (Some(before), Some(after)) => is_fair_change(alloc, adviser, taken, before, after),
        (None, Some(_)) => Ok(false),
        (Some(_), None) => Ok(false),
    }
}

/// Whether the step is fair to the entry at `place`.
fn is_fair_at<A: Adviser>(
    alloc: Global,
    adviser: &A,
    taken: &[Remedy],
    olds: &Index<'_>,
    news: &Index<'_>,
    place: usize,
) -> Judged
    requires fit { AllByRecursion IsRaw olds.now.raws.now }
    requires fit_too { AllByRecursion IsRaw news.now.raws.now }
    requires there { place < length olds.now.raws.now }
    requires there_too { place < length news.now.raws.now }
    ensures { IfOk result (λ fair. fair ≡ true
        → spec.IsFairAt (A.finds adviser.now) taken.now olds.now.raws.now news.now.raws.now place) }
{
    let before = resolved(alloc, olds, place)?;
    let after = resolved(alloc, news, place)?;
    are_fair(alloc, adviser, taken, &before, &after)
}

/// Whether the step is fair to every entry.
fn is_fair_to_all<A: Adviser>(
    alloc: Global,
    adviser: &A,
    taken: &[Remedy],
    olds: &Index<'_>,
    news: &Index<'_>,
) -> Judged
    requires fit { AllByRecursion IsRaw olds.now.raws.now }
    requires fit_too { AllByRecursion IsRaw news.now.raws.now }
    requires as_many { length news.now.raws.now ≡ length olds.now.raws.now }
    ensures { IfOk result (λ fair. fair ≡ true
        → spec.AllFair (A.finds adviser.now) taken.now olds.now.raws.now news.now.raws.now) }
{
    for place in 0..olds.raws.len() {
        let fair = is_fair_at(alloc, adviser, taken, olds, news, place)?;
        if !fair {
            return Ok(false);
        }
    }
    Ok(true)
}

/// Whether the remedy mends an entry, so that no fault is left or its own one was certain.
fn improves<A: Adviser>(
    alloc: Global,
    adviser: &A,
    one: &Remedy,
    before: &Entry,
    after: &Entry,
) -> Judged
    ensures { IfOk result (λ is. is ≡ true → spec.Improves (A.finds adviser.now) one.now before.now after.now) }
{
    let old = adviser.find(alloc, before)?;
    let new = adviser.find(alloc, after)?;
    Ok(is_earned(old.as_slice(), new.as_slice(), one))
}

/// Whether the remedy is of use to the entry that wants it.
fn is_of_use<A: Adviser>(
    alloc: Global,
    adviser: &A,
    one: &Remedy,
    olds: &Index<'_>,
    news: &Index<'_>,
) -> Judged
    requires fit { AllByRecursion IsRaw olds.now.raws.now }
    requires fit_too { AllByRecursion IsRaw news.now.raws.now }
    ensures { IfOk result (λ is. is ≡ true
        → spec.IsEarned (A.finds adviser.now) olds.now.raws.now news.now.raws.now one.now) }
{
    let root = one.root;
    if root >= olds.raws.len() || root >= news.raws.len() {
        return Ok(false);
    }
    let Some(before) = resolved(alloc, olds, root)? else {
        return Ok(false);
    };
    let Some(after) = resolved(alloc, news, root)? else {
        return Ok(false);
    };
    improves(alloc, adviser, one, &before, &after)
}

/// Whether each of the remedies is of use to the entry that wants it.
fn are_of_use<A: Adviser>(
    alloc: Global,
    adviser: &A,
    taken: &[Remedy],
    olds: &Index<'_>,
    news: &Index<'_>,
) -> Judged
    requires fit { AllByRecursion IsRaw olds.now.raws.now }
    requires fit_too { AllByRecursion IsRaw news.now.raws.now }
    ensures { IfOk result (λ are. are ≡ true
        → AllByRecursion (spec.IsEarned (A.finds adviser.now) olds.now.raws.now news.now.raws.now) taken.now) }
{
    for one in taken {
        let of_use = is_of_use(alloc, adviser, one, olds, news)?;
        if !of_use {
            return Ok(false);
        }
    }
    Ok(true)
}

/// The changes of the remedies.
fn changes_of(alloc: Global, taken: &[Remedy]) -> Result<Vec<Change>, AllocError>
    requires { AllByRecursion Fits taken.now }
    ensures changes { IfOk result (λ changes. changes.items ≡ spec.changes_of taken.now) }
    ensures fits { IfOk result (λ changes.
        AllByRecursion (λ change. IsTrue (string_fits change.string)) changes.items) }
{
    let mut changes = Vec::new(alloc);
    for one in taken {
        let change = one.change.try_copy()?;
        changes.push(change)?;
    }
    Ok(changes)
}

/// The outcome of taking remedies together.
#[derive(Drop)]
pub enum Step {
    /// The files in which they are taken.
    Done(Texts),
    /// They aren't taken, for some entry.
    Unfair,
    /// They aren't taken, as no place was found for one of the entry at this place.
    Unplaced(usize),
    /// There is nothing to be taken.
    Ended,
}

/// Whether the `taken` remedies are fair to every entry and of use, by the old files and the new ones.
fn is_right<A: Adviser>(
    alloc: Global,
    adviser: &A,
    taken: &[Remedy],
    olds: &[RawEntry],
    news: &[RawEntry],
) -> Judged
    requires fit { AllByRecursion IsRaw olds.now }
    requires fit_too { AllByRecursion IsRaw news.now }
    requires as_many { length news.now ≡ length olds.now }
    ensures { IfOk result (λ is. is ≡ true → spec.IsRight (A.finds adviser.now) taken.now olds.now news.now) }
{
    let before = Index::new(alloc, olds)?;
    let after = Index::new(alloc, news)?;
    let fair = is_fair_to_all(alloc, adviser, taken, &before, &after)?;
    let earned = are_of_use(alloc, adviser, taken, &before, &after)?;
    Ok(fair && earned)
}

/// The new files, if the `taken` remedies are fair to every entry and of use by them.
fn judged<A: Adviser>(
    alloc: Global,
    adviser: &A,
    old: &Texts,
    taken: &[Remedy],
    new: Texts,
) -> Result<Step, AllocError>
    requires whole { old.now.raws.items ≡ all_raws (sheets old.now.files.items) }
    requires fit { AllByRecursion IsRaw old.now.raws.items }
    requires gives { GivesFiles (spec.changes_of taken.now) (sheets old.now.files.items) (sheets new.files.items) }
    requires raws { new.raws.items ≡ all_raws (sheets new.files.items) }
    ensures { IfOk result (spec.Took (A.finds adviser.now) (sheets old.now.files.items) taken.now) }
{
    let right = is_right(
        alloc,
        adviser,
        taken,
        old.raws.as_slice(),
        new.raws.as_slice(),
    )?;
    if right {
        Ok(Step::Done(new))
    } else {
        Ok(Step::Unfair)
    }
}

/// The files with all of the `taken` remedies, if these are fair to every entry and each of them is of use.
///
/// # Errors
/// Out of memory.
pub fn take_step<A: Adviser>(
    alloc: Global,
    adviser: &A,
    old: &Texts,
    taken: &[Remedy],
) -> Result<Step, AllocError>
    requires whole { old.now.raws.items ≡ all_raws (sheets old.now.files.items) }
    requires fit { AllByRecursion IsRaw old.now.raws.items }
    requires fits { AllByRecursion Fits taken.now }
    ensures { IfOk result (spec.Took (A.finds adviser.now) (sheets old.now.files.items) taken.now) }
{
    let changes = changes_of(alloc, taken)?;
    match give_each(alloc, old.files.as_slice(), changes) {
        Ok(new) => judged(alloc, adviser, old, taken, new),
        Err(ChangeFault::NoMemory) => Err(AllocError),
        Err(ChangeFault::Unplaced(place)) => Ok(Step::Unplaced(place)),
    }
}
