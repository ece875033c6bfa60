//! Comparing the entries of a text with those that the changes of another text were to give.

ghost use Rattle.std.specs.Prelude.{◌≡◌, ◌≤◌, None, IfOk, length, true};
ghost use Rattle.std.specs.List.{list_all};
ghost use Rattle.ti_caps.specs.declared.value.Value.TheVariants as values;
ghost use Rattle.ti_fixes.specs.Given.{is_use, own_count, with_given, with_own};
ghost use Rattle.ti_fixes.specs.Changes as spec;
ghost use Rattle.ti_resolve.specs.Uses.{is_about};
ghost use Rattle.ti_source.specs.declared.types.Field.TheVariants as fields;

use crate::changes::Change;
use crate::comparisons::{is_about, same_bytes, same_fields};
use crate::copies::{copied_field, push_copied};
use std::alloc::{AllocError, Global};
use ti_caps::{Bytes, Cap, Value};
use ti_source::{Field, RawEntry};

/// The field that sets the capability to the string.
fn string_field(alloc: Global, cap: Cap, string: &[u8]) -> Result<Field, AllocError>
    ensures { IfOk result (λ field. field ≡ fields.Set cap (values.String string.now)) }
{
    let bytes = Bytes::from_slice(alloc, string)?;
    Ok(Field::Set(cap, Value::String(bytes)))
}

/// Whether the field is a use of another entry.
fn is_use(field: &Field) -> bool
    ensures { result ≡ is_use field.now }
{
    match field {
        Field::Set(_, _) => false,
        Field::Cancel(_) => false,
        Field::Include(_) => true,
    }
}

/// Whether all of these fields are uses.
fn are_uses(fields: &[Field]) -> bool
    ensures { result ≡ list_all is_use fields.now }
{
    fields.iter().all(|field| is_use(field))
}

/// How many fields there are up to the last one that is no use.
fn own_count(fields: &[Field]) -> usize
    ensures count { result ≡ own_count fields.now }
    ensures range { result ≤ length fields.now }
{
    for at in 0..fields.len() {
        if are_uses(&fields[at..]) {
            return at;
        }
    }
    fields.len()
}

/// The fields with the first one about the capability given the string, or with one more behind them.
fn with_own(
    alloc: Global,
    fields: &[Field],
    cap: Cap,
    string: &[u8],
) -> Result<Vec<Field>, AllocError>
    ensures { IfOk result (λ given. given.items ≡ with_own cap string.now fields.now) }
{
    let mut given = Vec::new(alloc);
    let mut rest = fields;
    while let [first, behind @ ..] = rest {
        if is_about(first, cap) {
            let own = string_field(alloc, cap, string)?;
            given.push(own)?;
            push_copied(&mut given, behind)?;
            return Ok(given);
        }
        let copy = copied_field(first)?;
        given.push(copy)?;
        rest = behind;
    }
    let last = string_field(alloc, cap, string)?;
    given.push(last)?;
    Ok(given)
}

/// The fields with the first one about the capability given the string, or with one more before the uses at the end.
fn with_string(
    alloc: Global,
    fields: &[Field],
    cap: Cap,
    string: &[u8],
) -> Result<Vec<Field>, AllocError>
    ensures { IfOk result (λ given. given.items ≡ with_given cap string.now fields.now) }
{
    let (own, uses) = fields.split_at(own_count(fields));
    let mut given = with_own(alloc, own, cap, string)?;
    push_copied(&mut given, uses)?;
    Ok(given)
}

/// The fields of the entry at `place`, after a change of some entry.
fn changed(
    alloc: Global,
    fields: Vec<Field>,
    place: usize,
    change: &Change,
) -> Result<Vec<Field>, AllocError>
    ensures { IfOk result (λ after. after.items ≡ spec.changed place fields.items change.now) }
{
    if change.place == place {
        with_string(
            alloc,
            fields.as_slice(),
            change.cap,
            change.string.as_slice(),
        )
    } else {
        Ok(fields)
    }
}

/// The fields of the entry at `place`, after all changes.
fn changed_by(
    alloc: Global,
    fields: &[Field],
    place: usize,
    changes: &[Change],
) -> Result<Vec<Field>, AllocError>
    ensures { IfOk result (λ after. after.items ≡ spec.changed_by changes.now place fields.now) }
{
    let mut after = Vec::new(alloc);
    push_copied(&mut after, fields)?;
    for change in changes {
        after = changed(alloc, after, place, change)?;
    }
    Ok(after)
}

/// Whether the entry has the changes for its `place`, and is otherwise as it was.
fn is_changed_by(
    alloc: Global,
    old: &RawEntry,
    new: &RawEntry,
    place: usize,
    changes: &[Change],
) -> Result<bool, AllocError>
    ensures { IfOk result (λ is. is ≡ true → spec.IsChangedBy changes.now place old.now new.now) }
{
    let wanted = changed_by(alloc, old.fields.as_slice(), place, changes)?;
    Ok(
        old.line == new.line
            && same_bytes(old.names.as_slice(), new.names.as_slice())
            && same_fields(wanted.as_slice(), new.fields.as_slice()),
    )
}

/// The place of the first entry that doesn't have the changes for its place; none if all have them.
pub fn first_difference(
    alloc: Global,
    olds: &[RawEntry],
    news: &[RawEntry],
    changes: &[Change],
) -> Result<Option<usize>, AllocError>
    ensures { IfOk result (λ found. found ≡ None → spec.AreChangedBy changes.now olds.now news.now) }
{
    if olds.len() != news.len() {
        return Ok(Some(olds.len()));
    }
    for place in 0..olds.len() {
        if !is_changed_by(alloc, &olds[place], &news[place], place, changes)? {
            return Ok(Some(place));
        }
    }
    Ok(None)
}
