//! Comparing resolved entries, before and after values of them change.

ghost use Rattle.std.specs.Prelude.{◌≡◌, ◌<◌, ℕ, IfOk, true};
ghost use Rattle.std.specs.{Bool.{OnTrue}, Option.{option_copied}};
ghost use Rattle.ti_caps.specs.{Entry.{value_at}, Table.{place_of_rank}};
ghost use Rattle.ti_steps.specs.Findings.{is_explained};
ghost use Rattle.ti_steps.specs.Steps as spec;

use crate::advice::{Adviser, Finding, Judged, Remedy};
use crate::findings::{is_explained, is_no_worse, is_whole};
use std::alloc::Global;
use ti_caps::{CAPABILITIES, Cap, Entry, Value, at_rank, ranks_order_names};
use ti_fixes::same_value;

/// Whether both are the same value, or none.
fn same_option(one: Option<&Value>, other: Option<&Value>) -> bool
    ensures { result ≡ true → option_copied one.entry ≡ option_copied other.entry }
{
    match (one, other) {
        (Some(one), Some(other)) => same_value(one, other),
        (None, None) => true,
        (Some(_), None) => false,
        (None, Some(_)) => false,
    }
}

/// Whether both entries have the same value of the capability with this rank.
#[tactic(auto, unfolding(ti_caps::specs::Table::place_ranked))]
fn same_at(one: &Entry, other: &Entry, rank: usize) -> bool
    requires { rank < 497 }
    ensures { result ≡ true → value_at one.now (place_of_rank rank) ≡ value_at other.now (place_of_rank rank) }
{
    match at_rank(rank) {
        Some(cap) => same_option(one.value(cap), other.value(cap)),
        None => false,
    }
}

/// Whether both entries have the same value of each capability.
pub fn same_values(one: &Entry, other: &Entry) -> bool
    ensures { result ≡ true → spec.HasSameValues one.now other.now }
{
    ranks_order_names();
    for rank in 0..CAPABILITIES {
        if !same_at(one, other, rank) {
            return false;
        }
    }
    true
}

/// The findings about an entry before and after some of its values change, and the remedies that are taken.
#[derive(Clone, Copy)]
struct Change<'a> {
    old: &'a [Finding],
    new: &'a [Finding],
    taken: &'a [Remedy],
}

/// Whether the value of the capability with this rank is one for which the entry may change.
#[tactic(auto, unfolding(ti_caps::specs::Table::place_ranked))]
fn is_explained_at(change: Change<'_>, whole: bool, rank: usize) -> bool
    requires { rank < 497 }
    ensures { result ≡ true
        → is_explained change.entry.old.now whole (place_of_rank rank) change.entry.taken.now ≡ true }
{
    match at_rank(rank) {
        Some(cap) => is_explained(change.old, whole, cap, change.taken),
        None => false,
    }
}

/// Whether the value of the capability with this rank is the same, or one for which the entry may change.
fn may_differ_at(
    before: &Entry,
    after: &Entry,
    change: Change<'_>,
    whole: bool,
    rank: usize,
) -> bool
    requires { rank < 497 }
    ensures { result ≡ true → spec.DiffersFairly change.entry.old.now whole change.entry.taken.now
        before.now after.now (place_of_rank rank) }
{
    same_at(before, after, rank) || is_explained_at(change, whole, rank)
}

/// Whether each value that changes is one for which the entry may change.
fn may_differ(before: &Entry, after: &Entry, change: Change<'_>, whole: bool) -> bool
    ensures { result ≡ true → (cap : ℕ) → cap < 497 → spec.DiffersFairly change.entry.old.now whole
        change.entry.taken.now before.now after.now cap }
{
    ranks_order_names();
    for rank in 0..CAPABILITIES {
        if !may_differ_at(before, after, change, whole, rank) {
            return false;
        }
    }
    true
}

/// Whether the values of an entry change as they may: each is that of a fault that it had, and it has no fault that it
/// hadn't.
pub fn is_fair<A: Adviser>(
    alloc: Global,
    adviser: &A,
    taken: &[Remedy],
    before: &Entry,
    after: &Entry,
) -> Judged
    ensures { IfOk result (λ fair. fair ≡ true → spec.IsFair (A.finds adviser.now) taken.now before.now after.now) }
{
    let old = adviser.find(alloc, before)?;
    let new = adviser.find(alloc, after)?;
    let (old, new) = (old.as_slice(), new.as_slice());
    let whole = is_whole(new);
    let change = Change { old, new, taken };
    let no_worse = is_no_worse(old, new);
    let differ = may_differ(before, after, change, whole);
    Ok(no_worse && differ)
}
