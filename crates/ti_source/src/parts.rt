//! The meaning of a field.

ghost use Rattle.std.specs.Prelude.{◌≡◌, ◌++◌, ◌∷◌, [], IfOk, option_map, Some};
ghost use Rattle.ti_source.specs.Fields.{is_use, flag_reading, number_reading, string_reading, known_reading};
ghost use Rattle.ti_source.specs.Fields.{named_reading, marked_reading, split_reading, is_skipped, trimmed_reading};
ghost use Rattle.ti_source.specs.{Fields.{reading_of, is_long, bounded_reading, ended_reading}, Layout.{marked_in}};
ghost use Rattle.ti_source.specs.declared.parts.Reading.TheVariants.{Says};
ghost use Rattle.ti_source.specs.{declared.types.Field.TheVariants.{Include}, Source.{Gives}};

use crate::escapes::{Decoded, decode};
use crate::layout::{Mark, marked, skip_white, trim_end};
use crate::numbers::number_of;
use crate::types::{FaultKind, Field};
use std::alloc::{AllocError, Global};
use ti_caps::{Bytes, Cap, Kind, LONGEST, Value, by_name, is_kind};

/// The meaning of the text between two commas.
#[derive(Drop)]
pub(crate) enum Reading {
    /// Nothing, or a field that is commented out.
    Skipped,
    /// A field whose name isn't that of a capability.
    Unknown,
    /// A field, and the number of odd escapes in its string.
    Says(Field, usize),
}

pub(crate) fn is_use(name: &[u8]) -> bool
    ensures { result ≡ is_use name.now }
{
    match name {
        [a, b, c] => *a == b'u' && *b == b's' && *c == b'e',
        _ => false,
    }
}

fn flag_reading(found: Option<Cap>) -> Result<Reading, FaultKind>
    ensures { Gives (λ r. r) result (flag_reading found) }
{
    match found {
        None => Ok(Reading::Unknown),
        Some(cap) if is_kind(cap, Kind::Flag) => Ok(Reading::Says(Field::Set(cap, Value::Flag), 0)),
        Some(_) => Err(FaultKind::WrongKind),
    }
}

#[tactic(auto, unfolding(crate::specs::Fields::number_reading))]
fn number_reading(cap: Cap, value: &[u8]) -> Result<Reading, FaultKind>
    ensures { Gives (λ r. r) result (number_reading cap value.now) }
{
    if !is_kind(cap, Kind::Number) {
        return Err(FaultKind::WrongKind);
    }
    let number = number_of(value)?;
    Ok(Reading::Says(Field::Set(cap, Value::Number(number)), 0))
}

#[tactic(auto, unfolding(crate::specs::Fields::string_reading))]
fn string_reading(alloc: Global, cap: Cap, value: &[u8]) -> Result<Reading, FaultKind>
    ensures { Gives (λ r. r) result (string_reading cap value.now) }
{
    if !is_kind(cap, Kind::String) {
        return Err(FaultKind::WrongKind);
    }
    match decode(alloc, value) {
        Err(_) => Err(FaultKind::NoMemory),
        Ok(None) => Err(FaultKind::BadEscape),
        Ok(Some(Decoded { bytes, odd })) => {
            let string = Value::String(Bytes::from_vec(bytes));
            Ok(Reading::Says(Field::Set(cap, string), odd))
        }
    }
}

fn known_reading(alloc: Global, cap: Cap, mark: Mark, value: &[u8]) -> Result<Reading, FaultKind>
    ensures { Gives (λ r. r) result (known_reading cap mark value.now) }
{
    match mark {
        Mark::At => Ok(Reading::Says(Field::Cancel(cap), 0)),
        Mark::Hash => number_reading(cap, value),
        Mark::Equals => string_reading(alloc, cap, value),
    }
}

fn named_reading(
    alloc: Global,
    found: Option<Cap>,
    mark: Mark,
    value: &[u8],
) -> Result<Reading, FaultKind>
    ensures { Gives (λ r. r) result (named_reading found mark value.now) }
{
    match found {
        None => Ok(Reading::Unknown),
        Some(cap) => known_reading(alloc, cap, mark, value),
    }
}

/// The field `use=name`.
fn use_reading(alloc: Global, name: &[u8]) -> Result<Reading, AllocError>
    ensures { IfOk result (λ r. r ≡ Says (Include name.now) 0) }
{
    Ok(Reading::Says(Field::Include(Bytes::from_slice(alloc, name)?), 0))
}

fn marked_reading(
    alloc: Global,
    mark: Mark,
    name: &[u8],
    value: &[u8],
) -> Result<Reading, FaultKind>
    ensures { Gives (λ r. r) result (marked_reading mark name.now value.now) }
{
    if mark == Mark::Equals && is_use(name) {
        return use_reading(alloc, value).map_err(|_| FaultKind::NoMemory);
    }
    named_reading(alloc, by_name(name), mark, value)
}

fn split_reading(alloc: Global, field: &[u8]) -> Result<Reading, FaultKind>
    ensures { Gives (λ r. r) result (split_reading field.now (marked_in field.now)) }
{
    match marked(field) {
        None => flag_reading(by_name(trim_end(field))),
        Some((name, mark, value)) => marked_reading(alloc, mark, name, value),
    }
}

/// Whether `field` is empty or begins with a period, so that it isn't read.
pub fn is_skipped(field: &[u8]) -> bool
    ensures { result ≡ is_skipped field.now }
{
    match field {
        [] => true,
        [first, ..] => *first == b'.',
    }
}

/// The meaning of the text between two commas.
#[tactic(auto, unfolding(crate::specs::Fields::reading_of))]
pub(crate) fn reading_of(alloc: Global, part: &[u8]) -> Result<Reading, FaultKind>
    ensures { Gives (λ r. r) result (reading_of part.now) }
{
    let field = skip_white(part);
    if is_skipped(field) {
        return Ok(Reading::Skipped);
    }
    split_reading(alloc, field)
}

fn is_long(reading: &Reading) -> bool
    ensures { result ≡ is_long reading.now }
{
    match reading {
        Reading::Says(Field::Set(_, Value::String(bytes)), _) => bytes.as_slice().len() > LONGEST,
        _ => false,
    }
}

/// The meaning of a field that a comma ends.
#[tactic(auto, unfolding(crate::specs::Fields::ended_reading))]
pub(crate) fn ended_reading(alloc: Global, part: &[u8]) -> Result<Reading, FaultKind>
    ensures { Gives (λ r. r) result (ended_reading part.now) }
{
    let reading = reading_of(alloc, part)?;
    if is_long(&reading) {
        return Err(FaultKind::TooLong);
    }
    Ok(reading)
}
