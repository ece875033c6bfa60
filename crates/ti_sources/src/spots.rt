//! The file of an entry, by its place among the entries of several files put together.

ghost use Rattle.std.specs.Prelude.{◌≡◌, ◌<◌, IfSome, length};
ghost use Rattle.ti_sources.specs.Spots as spec;

/// The number of a file, and a place among its entries; both count from 0.
#[derive(Clone, Copy, Debug, PartialEq, Eq)]
pub struct Spot {
    /// The number of the file.
    pub file: usize,
    /// The place of the entry in that file.
    pub place: usize,
}

/// The file of the entry at `place` among those put together, and the entry's place there, by the `counts` of entries
/// of each file; `None` past the last entry.
#[tactic(auto, unfolding(crate::specs::Spots::spot_of))]
pub fn spot_of(counts: &[usize], place: usize) -> Option<Spot>
    ensures spot { result ≡ spec.spot_of counts.now place }
    ensures range { IfSome result (λ spot. spot.file < length counts.now) }
{
    let mut rest = place;
    for (file, count) in counts.iter().enumerate() {
        if rest < *count {
            return Some(Spot { file, place: rest });
        }
        rest -= *count;
    }
    None
}
