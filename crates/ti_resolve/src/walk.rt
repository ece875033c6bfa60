//! The walk through the uses of an entry.

ghost use Rattle.std.specs.Prelude.{◌≡◌, ◌<◌, ℕ, List, [], ◌∷◌, ◌++◌, Some, length, IfErr, IfSome, IfOk, OnOk};
ghost use Rattle.std.specs.List.{AllByRecursion};
ghost use Rattle.ti_resolve.specs.Faults.{Includes, Reaches};
ghost use Rattle.ti_resolve.specs.FaultyUses.{EndsBy, EndsEntered, IsAboutIf};
ghost use Rattle.ti_resolve.specs.Uses.{place_named, uses_in};
ghost use Rattle.ti_resolve.specs.Walk.{Gives, and_then, enter, follow_field, follow_uses, go_to, target};

use crate::faults::ResolveFault;
use crate::search::Index;
use std::alloc::Global;
use ti_source::Field;

/// The greatest number of used entries, not counting the resolved one.
pub(crate) const MOST_USED: usize = 64;

/// The place of an entry among all, and the name that led to it.
#[derive(Clone, Copy)]
pub(crate) struct Destination<'a> {
    pub(crate) name: &'a [u8],
    pub(crate) place: usize,
}

/// Where a walk is, and what it has entered.
#[derive(Drop)]
pub(crate) struct Trail {
    /// The places of the entries that led to here: each uses the next one.
    pub(crate) chain: Vec<usize>,
    /// The places of all entries entered so far, in that order.
    pub(crate) entered: Vec<usize>,
}

/// The place of the entry to enter for a use of `name`; `None` if that entry was entered before.
#[tactic(auto, using(crate::proofs::Told::told_fails, crate::proofs::FaultyFacts::about_missing, crate::proofs::FaultyFacts::about_cycle, crate::proofs::FaultyFacts::about_many), unfolding(crate::specs::Walk::target))]
fn lead(
    alloc: Global,
    index: &Index<'_>,
    name: &[u8],
    chain: &[usize],
    entered: &[usize],
) -> Result<Option<usize>, ResolveFault>
    ensures value { Gives (λ place. place) result
        (target (place_named index.now.raws.now name.now) name.now chain.now entered.now) }
    ensures range { IfOk result (λ found. IfSome found (λ place. place < length index.now.raws.now)) }
    ensures about { IfErr result (IsAboutIf name.now) }
    ensures leads { IfOk result
        (λ found. IfSome found (λ place. place_named index.now.raws.now name.now ≡ Some place)) }
{
    let Some(place) = index.find(name) else {
        return Err(ResolveFault::no_such_entry(alloc, name));
    };
    if chain.contains(&place) {
        return Err(ResolveFault::cycle(alloc, name));
    }
    if entered.contains(&place) {
        return Ok(None);
    }
    if entered.len() > MOST_USED {
        return Err(ResolveFault::too_many(alloc, name));
    }
    Ok(Some(place))
}

/// Enters the entry `to`, and then all that it uses.
///
/// Each entry is entered once, and at most 65 are, so calls nest at most 65 deep and each field of an entered entry
/// is looked at once, however often and in whatever diamonds entries are used. Where the walk fails, the chain ends
/// with the entry whose use it can't follow.
#[cycle(walk)]
pub(crate) fn enter(
    alloc: Global,
    index: &Index<'_>,
    depth: usize,
    to: Destination<'_>,
    trail: &mut Trail,
) -> Result<(), ResolveFault>
    requires { to.place < length index.now.raws.now }
    ensures walk { Gives (λ _. trail.new.entered.items) result
        (enter depth index.now.raws.now trail.old.chain.items to.entry.name.now to.entry.place
        trail.old.entered.items) }
    ensures chain { OnOk result (trail.new.chain.items ≡ trail.old.chain.items) }
    ensures failed { (root : ℕ) → Reaches index.now.raws.now root to.entry.place → IfErr result
        (EndsEntered index.now.raws.now root depth to.entry.name.now trail.old.chain.items trail.new.chain.items) }
{
    if depth == 0 {
        return Err(ResolveFault::too_many(alloc, to.name));
    }
    trail.chain.push(to.place)?;
    trail.entered.push(to.place)?;
    follow_all(alloc, index, depth - 1, index.fields_of(to.place), trail)?;
    trail.chain.pop();
    Ok(())
}

/// Follows the uses among these fields.
#[cycle(walk)]
fn follow_all(
    alloc: Global,
    index: &Index<'_>,
    depth: usize,
    fields: &[Field],
    trail: &mut Trail,
) -> Result<(), ResolveFault>
    ensures walk { Gives (λ _. trail.new.entered.items) result
        (follow_uses (enter depth index.now.raws.now trail.old.chain.items) index.now.raws.now trail.old.chain.items
        (uses_in fields.now) trail.old.entered.items) }
    ensures chain { OnOk result (trail.new.chain.items ≡ trail.old.chain.items) }
    ensures failed { (root user : ℕ) (front : List ℕ) → trail.old.chain.items ≡ front ++ user ∷ []
        → Reaches index.now.raws.now root user
        → AllByRecursion (Includes index.now.raws.now user) (uses_in fields.now)
        → IfErr result (EndsBy index.now.raws.now root trail.new.chain.items) }
{
    for field in fields {
        follow_field(alloc, index, depth, field, trail)?;
    }
    Ok(())
}

/// Follows the use that a field makes, if it makes one.
#[cycle(walk)]
fn follow_field(
    alloc: Global,
    index: &Index<'_>,
    depth: usize,
    field: &Field,
    trail: &mut Trail,
) -> Result<(), ResolveFault>
    ensures walk { Gives (λ _. trail.new.entered.items) result
        (follow_field (enter depth index.now.raws.now trail.old.chain.items) index.now.raws.now trail.old.chain.items
        field.now trail.old.entered.items) }
    ensures chain { OnOk result (trail.new.chain.items ≡ trail.old.chain.items) }
    ensures failed { (root user : ℕ) (front : List ℕ) → trail.old.chain.items ≡ front ++ user ∷ []
        → Reaches index.now.raws.now root user
        → AllByRecursion (Includes index.now.raws.now user) (uses_in (field.now ∷ []))
        → IfErr result (EndsBy index.now.raws.now root trail.new.chain.items) }
{
    match field {
        Field::Set(_, _) | Field::Cancel(_) => Ok(()),
        Field::Include(name) => follow(alloc, index, depth, name.as_slice(), trail),
    }
}

/// Follows the use of `name`.
#[cycle(walk)]
fn follow(
    alloc: Global,
    index: &Index<'_>,
    depth: usize,
    name: &[u8],
    trail: &mut Trail,
) -> Result<(), ResolveFault>
    ensures walk { Gives (λ _. trail.new.entered.items) result
        (and_then (target (place_named index.now.raws.now name.now) name.now trail.old.chain.items
        trail.old.entered.items)
        (go_to (enter depth index.now.raws.now trail.old.chain.items name.now) trail.old.entered.items)) }
    ensures chain { OnOk result (trail.new.chain.items ≡ trail.old.chain.items) }
    ensures failed { (root user : ℕ) (front : List ℕ) → trail.old.chain.items ≡ front ++ user ∷ []
        → Reaches index.now.raws.now root user → Includes index.now.raws.now user name.now
        → IfErr result (EndsBy index.now.raws.now root trail.new.chain.items) }
{
    match lead(
        alloc,
        index,
        name,
        trail.chain.as_slice(),
        trail.entered.as_slice(),
    )? {
        None => Ok(()),
        Some(place) => enter(alloc, index, depth, Destination { name, place }, trail),
    }
}
