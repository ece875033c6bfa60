//! An entry that owns its bytes, from a compiled file.

ghost use Rattle.std.specs.Prelude.{◌≡◌, ◌+◌, ◌<◌, ◌≤◌, ℕ, Bool, true, false, None, OnOk, slice_index_or, length};
ghost use Rattle.std.specs.{Prelude.{IsTrue, IfOk}, List.{list_any}};
ghost use Rattle.ti_caps.specs.Entry.{bare_entry};
ghost use Rattle.ti_caps.specs.declared.types.Kind.TheVariants as kinds;
ghost use Rattle.ti_caps.specs.{Table.{kind_of, count_of, first_of}, Fits.{names_fit}};
ghost use Rattle.ti_compiled.specs.Readings.{parts_view};
ghost use Rattle.ti_compiled.specs.Contents.{before_nul, entry_of, value_of, fit_of, filled, string_values, is_long};
ghost use Rattle.ti_compiled.specs.Contents.{is_long_string, with_row, partly, Gives};

use crate::packed::{before_nul, flag_in, number_in, string_in};
use crate::sections::Sections;
use crate::types::PackFault;
use std::alloc::{AllocError, Global};
use ti_caps::{Cap, Entry, FLAGS, Kind, LONGEST, NUMBERS, STRINGS, at, names_fit};

/// The capability of the kind `kind` at `position`, which must be one of that kind.
#[tactic(auto, unfolding(ti_caps::specs::Table::place_from))]
pub(crate) fn cap_at(kind: Kind, position: usize) -> Cap
    requires { position < count_of kind }
    ensures kind { kind_of result ≡ kind }
    ensures place { result ≡ first_of kind + position }
{
    at(kind, position).unwrap()
}

/// Sets the flag at `position` in the entry, if the file has it.
fn put_flag(parts: &Sections<'_>, position: usize, entry: &mut Entry)
    requires { position < 44 }
    ensures { entry.new ≡ with_row entry.old position (value_of (parts_view parts.now) kinds.Flag position) }
{
    let cap = cap_at(Kind::Flag, position);
    if flag_in(parts, position) {
        entry.set_flag(cap);
    }
}

fn put_flags(parts: &Sections<'_>, entry: &mut Entry)
    requires { entry.old ≡ partly (entry_of (parts_view parts.now)) 0 }
    ensures { entry.new ≡ partly (entry_of (parts_view parts.now)) 44 }
{
    for position in 0..FLAGS {
        put_flag(parts, position, entry);
    }
}

/// Sets the number at `position` in the entry, if the file has it.
fn put_number(parts: &Sections<'_>, position: usize, entry: &mut Entry)
    requires { position < 39 }
    ensures { entry.new ≡ with_row entry.old (44 + position) (value_of (parts_view parts.now) kinds.Number position) }
{
    let cap = cap_at(Kind::Number, position);
    if let Some(number) = number_in(parts, position) {
        entry.set_number(cap, number);
    }
}

fn put_numbers(parts: &Sections<'_>, entry: &mut Entry)
    requires { entry.old ≡ partly (entry_of (parts_view parts.now)) 44 }
    ensures { entry.new ≡ partly (entry_of (parts_view parts.now)) 83 }
{
    for position in 0..NUMBERS {
        put_number(parts, position, entry);
    }
}

/// Whether the string at `position` is longer than an entry can hold.
fn is_long_at(parts: &Sections<'_>, position: usize) -> bool
    requires { position < 414 }
    ensures { result ≡ is_long_string (value_of (parts_view parts.now) kinds.String position) }
{
    match string_in(parts, position) {
        Some(string) => LONGEST < string.len(),
        None => false,
    }
}

fn has_long_string(parts: &Sections<'_>) -> bool
    ensures { result ≡ list_any is_long_string (filled 414 (string_values (parts_view parts.now))) }
{
    for position in 0..STRINGS {
        if is_long_at(parts, position) {
            return true;
        }
    }
    false
}

/// Sets the string at `position` in the entry, if the file has it.
fn put_string(parts: &Sections<'_>, position: usize, entry: &mut Entry) -> Result<(), AllocError>
    requires place { position < 414 }
    requires short { is_long_string (value_of (parts_view parts.now) kinds.String position) ≡ false }
    ensures { OnOk result (entry.new ≡
        with_row entry.old (83 + position) (value_of (parts_view parts.now) kinds.String position)) }
{
    let cap = cap_at(Kind::String, position);
    match string_in(parts, position) {
        Some(string) => entry.set_string(cap, string),
        None => Ok(()),
    }
}

fn put_strings(parts: &Sections<'_>, entry: &mut Entry) -> Result<(), AllocError>
    requires rows { entry.old ≡ partly (entry_of (parts_view parts.now)) 83 }
    requires short { list_any is_long_string (filled 414 (string_values (parts_view parts.now))) ≡ false }
    ensures { OnOk result (entry.new ≡ entry_of (parts_view parts.now)) }
{
    for position in 0..STRINGS {
        put_string(parts, position, entry)?;
    }
    Ok(())
}

/// The entry of these sections, whose names must fit and whose strings must not be too long.
fn fitting_entry(alloc: Global, names: &[u8], parts: &Sections<'_>) -> Result<Entry, AllocError>
    requires fit { IsTrue (names_fit names.now) }
    requires names { names.now ≡ before_nul parts.now.names.now }
    requires short { list_any is_long_string (filled 414 (string_values (parts_view parts.now))) ≡ false }
    ensures { IfOk result (λ entry. entry ≡ entry_of (parts_view parts.now)) }
{
    let mut entry = Entry::new(alloc, names)?;
    put_flags(parts, &mut entry);
    put_numbers(parts, &mut entry);
    put_strings(parts, &mut entry)?;
    Ok(entry)
}

/// The entry of these sections, or the fault if an entry can't hold it.
#[tactic(auto, unfolding(crate::specs::Contents::fit_of))]
pub(crate) fn entry_from(alloc: Global, parts: &Sections<'_>) -> Result<Entry, PackFault>
    ensures { Gives (λ entry. entry) result (fit_of (entry_of (parts_view parts.now))) }
{
    let names = before_nul(parts.names);
    if !names_fit(names) {
        return Err(PackFault::BadNames);
    }
    if has_long_string(parts) {
        return Err(PackFault::TooLarge);
    }
    match fitting_entry(alloc, names, parts) {
        Ok(entry) => Ok(entry),
        Err(_) => Err(PackFault::NoMemory),
    }
}
