//! Copies of entries.

ghost use Rattle.std.specs.Prelude.{◌≡◌, ◌++◌, OnOk, IfOk};

use std::alloc::{AllocError, Global};
use ti_source::{Field, Items, RawEntry};

/// A copy of the field.
pub fn copied_field(field: &Field) -> Result<Field, AllocError>
    ensures { IfOk result (λ copy. copy ≡ field.now) }
{
    match field {
        Field::Set(cap, value) => Ok(Field::Set(*cap, value.try_copy()?)),
        Field::Cancel(cap) => Ok(Field::Cancel(*cap)),
        Field::Include(name) => Ok(Field::Include(name.try_copy()?)),
    }
}

/// Appends copies of the fields.
pub fn push_copied(copy: &mut Vec<Field>, fields: &[Field]) -> Result<(), AllocError>
    ensures { OnOk result (copy.new.items ≡ copy.old.items ++ fields.now) }
{
    for field in fields {
        let own = copied_field(field)?;
        copy.push(own)?;
    }
    Ok(())
}

/// A copy of the entry.
fn copied_entry(alloc: Global, raw: &RawEntry) -> Result<RawEntry, AllocError>
    ensures { IfOk result (λ copy. copy ≡ raw.now) }
{
    let mut fields = Vec::new(alloc);
    push_copied(&mut fields, raw.fields.as_slice())?;
    let notes = Vec::from_slice(alloc, raw.notes.as_slice())?;
    Ok(RawEntry {
        line: raw.line,
        names: raw.names.try_copy()?,
        fields: Items::from_vec(fields),
        notes: Items::from_vec(notes),
    })
}

/// Appends copies of the entries `raws`.
///
/// # Errors
/// Out of memory.
pub fn push_entries(
    alloc: Global,
    copy: &mut Vec<RawEntry>,
    raws: &[RawEntry],
) -> Result<(), AllocError>
    ensures { OnOk result (copy.new.items ≡ copy.old.items ++ raws.now) }
{
    for raw in raws {
        let own = copied_entry(alloc, raw)?;
        copy.push(own)?;
    }
    Ok(())
}
