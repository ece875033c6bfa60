//! The entry of a compiled file as an entry of a source.

ghost use Rattle.std.specs.Prelude.{◌≡◌, ◌++◌, ◌<◌, IfOk, OnOk, Some};
ghost use Rattle.ti_caps.specs.Entry.{value_at};
ghost use Rattle.ti_source.specs.Raw.{IsRaw};
ghost use Rattle.ti_sources.specs.Compiled as spec;

use std::alloc::{AllocError, Global};
use ti_caps::{Bytes, CAPABILITIES, Cap, Entry, FLAGS, Kind, NUMBERS, at};
use ti_source::{Field, Items, RawEntry};

/// The capability at `place` of the table.
#[tactic(auto, unfolding(ti_caps::specs::Table::place_from))]
fn cap_at(place: usize) -> Option<Cap>
    requires { place < 497 }
    ensures { result ≡ Some place }
{
    if place < FLAGS {
        at(Kind::Flag, place)
    } else if place < FLAGS + NUMBERS {
        at(Kind::Number, place - FLAGS)
    } else {
        at(Kind::String, place - FLAGS - NUMBERS)
    }
}

/// Adds the field of `cap`, if `entry` has a value for it.
fn push_field(fields: &mut Items<Field>, entry: &Entry, cap: Cap) -> Result<(), AllocError>
    ensures { OnOk result (fields.new ≡ fields.old ++ spec.field_for cap (value_at entry.now cap)) }
{
    match entry.value(cap) {
        Some(value) => fields.push(Field::Set(cap, value.try_copy()?)),
        None => Ok(()),
    }
}

/// Adds the field of the capability at `place` of the table, if `entry` has a value for it.
fn push_place(fields: &mut Items<Field>, entry: &Entry, place: usize) -> Result<(), AllocError>
    requires { place < 497 }
    ensures { OnOk result (fields.new ≡ fields.old ++ spec.field_for place (value_at entry.now place)) }
{
    match cap_at(place) {
        Some(cap) => push_field(fields, entry, cap),
        None => Ok(()),
    }
}

/// A field for each value of `entry`, in the order of the table.
fn fields_of(alloc: Global, entry: &Entry) -> Result<Items<Field>, AllocError>
    ensures { IfOk result (λ fields. fields ≡ spec.fields_below entry.now 497) }
{
    let mut fields = Items::new(alloc);
    for place in 0..CAPABILITIES {
        push_place(&mut fields, entry, place)?;
    }
    Ok(fields)
}

/// The `entry` as one of a source, which gives each value itself and uses no other. It stands on no line, and has no
/// notes.
///
/// # Errors
/// Out of memory.
#[tactic(auto, using(crate::proofs::Packed::raw_fits))]
pub fn raw_of(alloc: Global, entry: &Entry) -> Result<RawEntry, AllocError>
    ensures value { IfOk result (λ raw. raw ≡ spec.raw_of entry.now) }
    ensures fits { IfOk result (λ raw. IsRaw raw) }
{
    Ok(RawEntry {
        line: 0,
        names: Bytes::from_slice(alloc, entry.names())?,
        fields: fields_of(alloc, entry)?,
        notes: Items::new(alloc),
    })
}
