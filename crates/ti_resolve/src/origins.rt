//! The field that gives a capability its value.

ghost use Rattle.std.specs.{Prelude.{◌≡◌}, List.{position}};
ghost use Rattle.ti_resolve.specs.{Origins.{field_there, first_of, giving, is_set, origin_in}, Uses.{is_about}};

use crate::search::fields_of;
use ti_caps::Cap;
use ti_source::{Field, RawEntry};

/// A field of an entry of a source text; both places count from 0.
#[derive(Clone, Copy, Debug, PartialEq, Eq)]
pub struct Origin {
    /// The entry's place among all.
    pub entry: usize,
    /// The field's place in the entry.
    pub field: usize,
}

fn is_about(field: &Field, cap: Cap) -> bool
    ensures { result ≡ is_about cap field.now }
{
    match field {
        Field::Set(other, _) => other.place() == cap.place(),
        Field::Cancel(other) => other.place() == cap.place(),
        Field::Include(_) => false,
    }
}

/// The place of the first field about the capability `cap`.
fn first_about(fields: &[Field], cap: Cap) -> Option<usize>
    ensures { result ≡ position (is_about cap) fields.now }
{
    fields.iter().position(|field| is_about(field, cap))
}

/// The first field about the capability `cap` in the entry at `place`.
#[tactic(auto, unfolding(crate::specs::Origins::origin_in))]
fn origin_in(raws: &[RawEntry], cap: Cap, place: usize) -> Option<Origin>
    ensures { result ≡ origin_in raws.now cap place }
{
    match first_about(fields_of(raws, place), cap) {
        None => None,
        Some(field) => Some(Origin {
            entry: place,
            field,
        }),
    }
}

/// The first field about the capability `cap` in the entries at these `places`.
#[tactic(auto, using(crate::proofs::OriginFacts::first_more, crate::proofs::OriginFacts::first_found))]
fn first_origin(raws: &[RawEntry], cap: Cap, places: &[usize]) -> Option<Origin>
    ensures { result ≡ first_of (origin_in raws.now cap) places.now }
{
    for place in places {
        if let Some(origin) = origin_in(raws, cap, *place) {
            return Some(origin);
        }
    }
    None
}

/// Whether the field at `origin` sets a capability.
#[tactic(auto, unfolding(crate::specs::Origins::field_there))]
fn sets(raws: &[RawEntry], origin: Origin) -> bool
    ensures { result ≡ is_set (field_there raws.now origin) }
{
    match fields_of(raws, origin.entry).get(origin.field) {
        Some(Field::Set(_, _)) => true,
        Some(Field::Cancel(_)) => false,
        Some(Field::Include(_)) => false,
        None => false,
    }
}

/// The first field about the capability `cap` in the entries at these `places`; `None` if it gives no value.
pub(crate) fn giving(raws: &[RawEntry], cap: Cap, places: &[usize]) -> Option<Origin>
    ensures { result ≡ giving raws.now (first_of (origin_in raws.now cap) places.now) }
{
    let origin = first_origin(raws, cap, places)?;
    if sets(raws, origin) {
        Some(origin)
    } else {
        None
    }
}
