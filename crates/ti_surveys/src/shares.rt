//! Which faults of fields are the same, and which entries share each.

ghost use Rattle.std.specs.Prelude.{◌≡◌, ◌<◌, ◌+◌, IfOk, OnOk, map, option_map};
ghost use Rattle.ti_surveys.specs.Shares as spec;
ghost use Rattle.ti_verdicts.specs.Locations.{placed_in};

use std::alloc::{AllocError, Global};
use std::collections::BTreeMap;
use ti_verdicts::{Added, PlacedFault};

/// The place and the text of a fault: faults that have both in common are the same.
type Key<'f> = (&'f [u8], &'f [u8]);

/// A fault of a field, at the first of the entries that have it.
#[derive(Drop)]
pub(crate) struct Share {
    /// The number of the first fault.
    pub(crate) first: usize,
    /// The names of the other entries that have it, each behind a comma.
    pub(crate) names: Vec<u8>,
}

/// The share of a fault with this `number` and `name`, behind an `earlier` one that is the same.
fn shared(
    alloc: Global,
    earlier: Option<Share>,
    number: usize,
    name: &[u8],
) -> Result<Share, AllocError>
    ensures { IfOk result (λ share. spec.shared_in share
        ≡ spec.with_name number name.now (option_map spec.shared_in earlier)) }
{
    let Some(mut share) = earlier else {
        return Ok(Share {
            first: number,
            names: Vec::new(alloc),
        });
    };
    share.names.extend_from_slice(b", ")?;
    share.names.extend_from_slice(name)?;
    Ok(share)
}

/// Adds a `fault`, which has this `number`, to those that were `found` before.
fn add<'f>(
    alloc: Global,
    found: &mut BTreeMap<Key<'f>, Share>,
    number: usize,
    fault: &'f PlacedFault,
) -> Added
    ensures { OnOk result (spec.AddsFault found.old found.new number (placed_in fault.now)) }
{
    let key = (fault.place.as_slice(), fault.fault.as_slice());
    let earlier = found.remove(&key);
    let share = shared(alloc, earlier, number, fault.name.as_slice())?;
    found.insert(key, share)?;
    Ok(())
}

/// The faults of a survey, each with the entries that share it.
///
/// It takes N log N comparisons to make, for N faults, and log N to look one up.
#[derive(Drop)]
pub(crate) struct Shares<'f> {
    faults: &'f [PlacedFault],
    found: BTreeMap<Key<'f>, Share>,
    ghost indexed: { spec.HasShares (map placed_in faults.now) found },
}

/// The index of these `faults`.
fn index_of(alloc: Global, faults: &[PlacedFault]) -> Result<BTreeMap<Key<'_>, Share>, AllocError>
    ensures { IfOk result (λ found. spec.HasShares (map placed_in faults.now) found) }
{
    let mut found = BTreeMap::new(alloc);
    for number in 0..faults.len() {
        add(alloc, &mut found, number, &faults[number])?;
    }
    Ok(found)
}

impl<'f> Shares<'f> {
    ghost use Rattle.std.specs.Prelude.{◌≡◌, ◌<◌, ◌+◌, IfOk, length, map, option_copied};
    ghost use Rattle.ti_surveys.specs.Shares as spec;
    ghost use Rattle.ti_verdicts.specs.Locations.{placed_in};

    /// The shares of these `faults`.
    ///
    /// # Errors
    /// Out of memory.
    pub(crate) fn new(alloc: Global, faults: &'f [PlacedFault]) -> Result<Shares<'f>, AllocError>
        ensures { IfOk result (λ shares. shares.faults.now ≡ faults.now) }
    {
        let found = index_of(alloc, faults)?;
        Ok(Shares { faults, found })
    }

    /// The names of the entries behind the one of the fault with this `number` that have the same, each behind a comma;
    /// `None` if an earlier fault is the same.
    pub(crate) fn names_behind(&self, number: usize) -> Option<&[u8]>
        requires { number < length self.now.faults.now }
        ensures { spec.AreNamesAt self.now.faults.now number (option_copied result) }
    {
        let fault = &self.faults[number];
        let key = (fault.place.as_slice(), fault.fault.as_slice());
        match self.found.get(&key) {
            Some(share) if share.first == number => Some(share.names.as_slice()),
            Some(_) | None => None,
        }
    }
}
