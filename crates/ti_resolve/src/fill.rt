//! Copying fields into an entry; the first field about a capability decides.

ghost use Rattle.std.specs.Prelude.{◌≡◌, ◌<◌, Bool, false, List, ℕ, Some, IfOk, OnOk, length, replicate};
ghost use Rattle.std.specs.{Prelude.{slice_index_or, slice_set, true, IsTrue}, List.{All, AllByRecursion}};
ghost use Rattle.ti_caps.specs.{Entry.{FitsPlace, with_value}, Fits.{names_fit}};
ghost use Rattle.ti_source.specs.{Fitting.{FieldsFit}, Raw.{FitsField}};
ghost use Rattle.ti_resolve.specs.Fills.{Filled, fields_of_all, take_fields, take_field, start};

use crate::search::fields_of;
use std::alloc::{AllocError, Global};
use ti_caps::{CAPABILITIES, Cap, Entry, Value};
use ti_source::{Field, RawEntry};

/// Sets the capability `cap` of the entry to a copy of `value`, which must fit.
fn set_value(entry: &mut Entry, cap: Cap, value: &Value) -> Result<(), AllocError>
    requires { FitsPlace cap (Some value.now) }
    ensures { OnOk result (entry.new ≡ with_value entry.old cap (Some value.now)) }
{
    match value {
        Value::Flag => entry.set_flag(cap),
        Value::Number(number) => entry.set_number(cap, *number),
        Value::String(bytes) => entry.set_string(cap, bytes.as_slice())?,
    }
    Ok(())
}

/// Whether an earlier field was about the capability `cap`.
fn is_decided(decided: &[bool], cap: Cap) -> bool
    requires { length decided.now ≡ 497 }
    ensures { result ≡ slice_index_or decided.now cap false }
{
    decided[cap.place()]
}

/// Records that a field was about the capability `cap`.
fn decide(decided: &mut [bool], cap: Cap)
    requires { length decided.old ≡ 497 }
    ensures { decided.new ≡ slice_set decided.old cap true }
{
    decided[cap.place()] = true;
}

/// Copies a field into the entry, unless an earlier one was about its capability.
#[tactic(auto, unfolding(crate::specs::Fills::take_field))]
fn take_field(entry: &mut Entry, decided: &mut [bool], field: &Field) -> Result<(), AllocError>
    requires sized { length decided.old ≡ 497 }
    requires fits { FitsField field.now }
    ensures { OnOk result (record { entry = entry.new; decided = decided.new } ≡
        take_field (record { entry = entry.old; decided = decided.old }) field.now) }
{
    match field {
        Field::Include(_) => {}
        Field::Cancel(cap) => decide(decided, *cap),
        Field::Set(cap, value) => {
            if !is_decided(decided, *cap) {
                set_value(entry, *cap, value)?;
                decide(decided, *cap);
            }
        }
    }
    Ok(())
}

/// Copies these fields into the entry, one after another, except those about whose capability an earlier one was.
fn take_each(entry: &mut Entry, decided: &mut [bool], fields: &[Field]) -> Result<(), AllocError>
    requires sized { length decided.old ≡ 497 }
    requires fits { AllByRecursion FitsField fields.now }
    ensures { OnOk result (record { entry = entry.new; decided = decided.new } ≡
        take_fields (record { entry = entry.old; decided = decided.old }) fields.now) }
{
    for field in fields {
        take_field(entry, decided, field)?;
    }
    Ok(())
}

/// Copies the fields of the entries at these `places`, one entry after another.
#[tactic(auto, using(crate::proofs::Taken::fields_fit))]
fn take_entries(
    entry: &mut Entry,
    decided: &mut [bool],
    raws: &[RawEntry],
    places: &[usize],
) -> Result<(), AllocError>
    requires sized { length decided.old ≡ 497 }
    requires fit { AllByRecursion FieldsFit raws.now }
    ensures { OnOk result (record { entry = entry.new; decided = decided.new } ≡
        take_fields (record { entry = entry.old; decided = decided.old }) (fields_of_all raws.now places.now)) }
{
    for place in places {
        take_each(entry, decided, fields_of(raws, *place))?;
    }
    Ok(())
}

/// The entry with these `names`, and with the fields of the entries at these `places`.
pub(crate) fn filled(
    alloc: Global,
    raws: &[RawEntry],
    names: &[u8],
    places: &[usize],
) -> Result<Entry, AllocError>
    requires names { IsTrue (names_fit names.now) }
    requires fit { AllByRecursion FieldsFit raws.now }
    ensures { IfOk result (λ entry. entry ≡ (take_fields (start names.now) (fields_of_all raws.now places.now)).entry) }
{
    let mut entry = Entry::new(alloc, names)?;
    let mut decided = vec![in alloc; false; CAPABILITIES]?;
    take_entries(&mut entry, decided.as_mut_slice(), raws, places)?;
    Ok(entry)
}
