//! The entries of a source text that an entry of it uses.

use std::alloc::{AllocError, Global};
use ti_source::{Field, RawEntry};
use ti_sources::place_named;

/// The place `entry` among `raws` and those of the entries that the one there uses, in order; none if there is no entry.
///
/// # Errors
/// Out of memory.
pub fn used_places(
    alloc: Global,
    raws: &[RawEntry],
    entry: usize,
) -> Result<Vec<usize>, AllocError> {
    let mut places = Vec::new(alloc);
    if entry < raws.len() {
        places.push(entry)?;
    }
    for step in 0..raws.len() {
        let Some(raw) = places
            .as_slice()
            .get(step)
            .and_then(|place| raws.get(*place))
        else {
            break;
        };
        add_uses(raws, raw, &mut places)?;
    }
    places.sort()?;
    Ok(places)
}

/// Adds to `places` the places of the entries that `raw` itself uses, if they aren't there yet.
fn add_uses(raws: &[RawEntry], raw: &RawEntry, places: &mut Vec<usize>) -> Result<(), AllocError> {
    for field in raw.fields.as_slice() {
        if let Field::Include(used) = field {
            if let Some(place) = place_named(raws, used.as_slice()) {
                if !places.as_slice().contains(&place) {
                    places.push(place)?;
                }
            }
        }
    }
    Ok(())
}
