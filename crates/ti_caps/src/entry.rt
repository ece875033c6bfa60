//! An entry: a terminal's names, and the values of its capabilities.

ghost use Rattle.std.specs.Prelude.{◌≡◌, ◌<◌, ◌^◌, ℕ, IsTrue, Some, None, IfOk, OnOk, OnErr, replicate};
ghost use Rattle.std.specs.Option.{option_copied};
ghost use Rattle.ti_caps.specs.declared.types.Kind.TheVariants as kinds;
ghost use Rattle.ti_caps.specs.declared.value.Value.TheVariants as values;
ghost use Rattle.ti_caps.specs.{Table.{kind_of}, Fits.{names_fit, string_fits}};
ghost use Rattle.ti_caps.specs.Entry.{value_at, with_value, bare_entry, flag_at, number_at, string_at, FitsPlace};
ghost use Rattle.ti_caps.specs.Entry.{HasBytes, IsEntry, SetsOnly};

use crate::types::{CAPABILITIES, Cap};
use crate::value::{Bytes, Value, are_bytes};
use std::alloc::{AllocError, Global};
use std::marker::Model;

/// An entry of terminfo(5). Contracts see the bytes of its names field, and a finite map from the places of
/// capabilities to their values.
#[derive(Debug, Drop)]
pub struct Entry {
    names: Bytes,
    values: Vec<Option<Value>>,
}

impl Model for Entry {
    ghost use Rattle.ti_caps.specs.Entry.{Content, IsEntry};

    ghost Value = { Content };

    ghost view = { λ e. record { names = e.names; values = e.values.items } };

    ghost invariant = { λ e. IsEntry (record { names = e.names; values = e.values.items }) };
}

/// Rows without a value, one for each capability.
fn empty_rows(alloc: Global) -> Result<Vec<Option<Value>>, AllocError>
    ensures { IfOk result (λ rows. rows.items ≡ replicate 497 None) }
{
    let mut rows = Vec::with_capacity(alloc, CAPABILITIES)?;
    for _ in 0..CAPABILITIES {
        rows.push(None)?;
    }
    Ok(rows)
}

/// A copy of the rows.
fn copied_rows(rows: &Vec<Option<Value>>) -> Result<Vec<Option<Value>>, AllocError>
    ensures { IfOk result (λ copy. copy.items ≡ rows.now.items) }
{
    let mut copy = Vec::with_capacity(*rows.allocator(), rows.len())?;
    for row in rows {
        copy.push(copied_row(row)?)?;
    }
    Ok(copy)
}

/// A copy of a row.
fn copied_row(row: &Option<Value>) -> Result<Option<Value>, AllocError>
    ensures { IfOk result (λ copy. copy ≡ row.now) }
{
    match row {
        None => Ok(None),
        Some(value) => Ok(Some(value.try_copy()?)),
    }
}

impl Entry {
    /// The entry with these `names`, separated by `|`, and no capabilities. The names must fit (`names_fit`). Fails
    /// only when out of memory.
    pub fn new(alloc: Global, names: &[u8]) -> Result<Entry, AllocError>
        requires { IsTrue (names_fit names.now) }
        ensures value { IfOk result (λ entry. entry ≡ bare_entry names.now) }
        ensures names { IfOk result (λ entry. entry.names ≡ names.now) }
        ensures empty { IfOk result (λ entry. (place : ℕ) → value_at entry place ≡ None) }
    {
        Ok(Entry {
            names: Bytes::from_slice(alloc, names)?,
            values: empty_rows(alloc)?,
        })
    }

    /// The names field; `|` separates the names.
    pub fn names(&self) -> &[u8]
        ensures value { result.now ≡ self.now.names }
        ensures entry { IsEntry self.now }
    {
        self.names.as_slice()
    }

    /// The value of the capability `cap`, if the entry has it.
    #[tactic(auto, unfolding(crate::specs::Entry::value_at))]
    pub fn value(&self, cap: Cap) -> Option<&Value>
        ensures value { option_copied result ≡ value_at self.now cap }
    {
        self.values[cap.place()].as_ref()
    }

    /// Whether the entry has the flag `cap`.
    pub fn get_flag(&self, cap: Cap) -> bool
        ensures { result ≡ flag_at self.now cap }
    {
        match self.value(cap) {
            Some(Value::Flag) => true,
            _ => false,
        }
    }

    /// The number of the capability `cap`, if the entry has it.
    pub fn get_number(&self, cap: Cap) -> Option<u32>
        ensures { result ≡ number_at self.now cap }
    {
        match self.value(cap) {
            Some(Value::Number(number)) => Some(*number),
            _ => None,
        }
    }

    /// The string of the capability `cap`, if the entry has it.
    pub fn get_string(&self, cap: Cap) -> Option<&[u8]>
        ensures { option_copied result ≡ string_at self.now cap }
    {
        match self.value(cap) {
            Some(Value::String(bytes)) => Some(bytes.as_slice()),
            _ => None,
        }
    }

    /// Sets the row of the capability `cap`.
    #[tactic(auto, using(crate::proofs::Entries::with_value_fits, crate::proofs::Entries::with_value_sets), unfolding(crate::specs::Entry::with_value))]
    fn put(&mut self, cap: Cap, value: Option<Value>)
        requires fits { FitsPlace cap value }
        requires bytes { HasBytes value }
        ensures value { self.new ≡ with_value self.old cap value }
        ensures only { SetsOnly self.old self.new cap value }
    {
        self.values[cap.place()] = value;
    }

    /// Sets the capability `cap`, which must be a flag.
    pub fn set_flag(&mut self, cap: Cap)
        requires { kind_of cap ≡ kinds.Flag }
        ensures value { self.new ≡ with_value self.old cap (Some values.Flag) }
        ensures only { SetsOnly self.old self.new cap (Some values.Flag) }
    {
        self.put(cap, Some(Value::Flag));
    }

    /// Sets the capability `cap`, which must be a number, to `number`, which must be below 2^31.
    pub fn set_number(&mut self, cap: Cap, number: u32)
        requires kind { kind_of cap ≡ kinds.Number }
        requires range { number < 2 ^ 31 }
        ensures value { self.new ≡ with_value self.old cap (Some (values.Number number)) }
        ensures only { SetsOnly self.old self.new cap (Some (values.Number number)) }
    {
        self.put(cap, Some(Value::Number(number)));
    }

    /// Sets the capability `cap`, which must be a string, to a copy of `bytes`, which must fit (`string_fits`). Fails
    /// only when out of memory, and then nothing has changed.
    pub fn set_string(&mut self, cap: Cap, bytes: &[u8]) -> Result<(), AllocError>
        requires kind { kind_of cap ≡ kinds.String }
        requires fits { IsTrue (string_fits bytes.now) }
        ensures value { OnOk result (self.new ≡ with_value self.old cap (Some (values.String bytes.now))) }
        ensures only { OnOk result (SetsOnly self.old self.new cap (Some (values.String bytes.now))) }
        ensures err { OnErr result (self.new ≡ self.old) }
    {
        are_bytes(bytes);
        let copy = Bytes::from_slice(*self.values.allocator(), bytes)?;
        self.put(cap, Some(Value::String(copy)));
        Ok(())
    }

    /// The entry without the capability `cap`.
    pub fn without(mut self, cap: Cap) -> Entry
        ensures value { result ≡ with_value self cap None }
        ensures only { SetsOnly self result cap None }
    {
        self.put(cap, None);
        self
    }

    /// A copy of the entry. Fails only when out of memory.
    pub fn try_copy(&self) -> Result<Entry, AllocError>
        ensures { IfOk result (λ copy. copy ≡ self.now) }
    {
        Ok(Entry {
            names: self.names.try_copy()?,
            values: copied_rows(&self.values)?,
        })
    }
}
