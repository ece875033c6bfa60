//! A compiled file that was read, and its entry.

ghost use Rattle.std.specs.Prelude.{List, IfSome, ◌^◌, IfOk, IsOkAnd, ◌≡◌, ◌+◌, ◌<◌, ◌≤◌, ℕ, Some, None, Ok, Err};
ghost use Rattle.std.specs.{Prelude.{slice_get, length, drop}, Option.{option_copied}};
ghost use Rattle.ti_caps.specs.declared.types.Kind.TheVariants as kinds;
ghost use Rattle.ti_caps.specs.Entry.{Content, flag_at, number_at, string_at, has_flag, number_in, string_in};
ghost use Rattle.ti_compiled.specs.{Layout.{words, longs, numbers_in}, Readings.{Is, parts_view}};
ghost use Rattle.ti_compiled.specs.Contents.{before_nul, entry_of, value_of, read_of, fit_of, Gives};
ghost use Rattle.ti_compiled.specs.Packed.{IsPacked};

use crate::sections::{Sections, long_of, parts_of};
use crate::types::{Form, PackFault};
use crate::unpack::entry_from;
use std::alloc::Global;
use std::marker::Model;
use ti_caps::{Cap, Entry, Kind, kind, position};

/// A compiled file. Contracts see the entry that it contains. Its names and strings are slices of the file.
#[derive(Drop)]
pub struct Packed<'a> {
    parts: Sections<'a>,
}

impl<'a> Model for Packed<'a> {
    ghost use Rattle.ti_caps.specs.Entry.{Content};
    ghost use Rattle.ti_compiled.specs.{Readings.{parts_view}, Contents.{entry_of}};

    ghost Value = { Content };

    ghost view = { λ p. entry_of (parts_view p.parts) };
}

/// The bytes before the first NUL, or all of them.
#[tactic(auto, using(crate::proofs::Ends::before_nul_at, crate::proofs::Ends::before_nul_all))]
pub(crate) fn before_nul(bytes: &[u8]) -> &[u8]
    ensures { result.now ≡ before_nul bytes.now }
{
    for (at, byte) in bytes.iter().enumerate() {
        if *byte == 0 {
            return &bytes[..at];
        }
    }
    bytes
}

/// The number of 16 bits at a position.
#[tactic(auto, using(crate::proofs::Words::words_at, crate::proofs::Words::words_past))]
fn word_at(bytes: &[u8], position: usize) -> Option<u16>
    requires { position < 500 }
    ensures { result ≡ slice_get (words bytes.now) position }
{
    let at = 2 * position;
    if at + 1 < bytes.len() {
        Some(u16::from_le_bytes([bytes[at], bytes[at + 1]]))
    } else {
        None
    }
}

/// The number of 32 bits at a position.
#[tactic(auto, using(crate::proofs::Words::longs_at, crate::proofs::Words::longs_past))]
fn long_at(bytes: &[u8], position: usize) -> Option<u32>
    requires { position < 500 }
    ensures { result ≡ slice_get (longs bytes.now) position }
{
    let at = 4 * position;
    if at + 3 < bytes.len() {
        Some(long_of(bytes[at], bytes[at + 1], bytes[at + 2], bytes[at + 3]))
    } else {
        None
    }
}

/// Whether the flag at `position` is set.
pub(crate) fn flag_in(parts: &Sections<'_>, position: usize) -> bool
    ensures { result ≡ has_flag (value_of (parts_view parts.now) kinds.Flag position) }
{
    position < parts.flags.len() && parts.flags[position] == 1
}

/// The number at `position`, if there is one.
pub(crate) fn number_in(parts: &Sections<'_>, position: usize) -> Option<u32>
    requires { position < 500 }
    ensures value { result ≡ number_in (value_of (parts_view parts.now) kinds.Number position) }
    ensures range { IfSome result (λ number. number < 2 ^ 31) }
{
    match parts.form {
        Form::Legacy => match word_at(parts.numbers, position) {
            Some(number) if number < 32768 => Some(u32::from(number)),
            _ => None,
        },
        Form::Wide => match long_at(parts.numbers, position) {
            Some(number) if number < 2147483648 => Some(number),
            _ => None,
        },
    }
}

/// The string at an offset of the table.
fn string_from(table: &[u8], offset: u16) -> &[u8]
    ensures { result.now ≡ before_nul (drop offset table.now) }
{
    let offset = usize::from(offset);
    if offset <= table.len() {
        before_nul(&table[offset..])
    } else {
        before_nul(&[])
    }
}

/// The string at `position`, if there is one.
pub(crate) fn string_in<'a>(parts: &Sections<'a>, position: usize) -> Option<&'a [u8]>
    requires { position < 500 }
    ensures { option_copied result ≡ string_in (value_of (parts_view parts.now) kinds.String position) }
{
    match word_at(parts.offsets, position) {
        Some(offset) if offset < 32768 => Some(string_from(parts.table, offset)),
        _ => None,
    }
}

/// Reads a compiled file of either form, in the layout of term(5). Bytes after its sections are ignored. Allocates no
/// memory.
///
/// Fails with the first fault: `Short` (under two bytes), `BadMagic`, `Short` (under twelve), `BadCount`, `Short`
/// (the sections), `NoNul` (the names), and then in the order of the file `BadFlag`, `BadNumber`, and for each string
/// `BadOffset` or `NoNul`.
pub fn decode(file: &[u8]) -> Result<Packed<'_>, PackFault>
    ensures exact { Is (λ packed. packed) result (read_of file.now) }
    // A file that is read has its entry in the layout.
    ensures packed { IfOk result (λ packed. (rest : List ℕ) × IsPacked file.now packed rest) }
    // An entry that the file has in the layout is read.
    ensures only { (entry : Content) → (rest : List ℕ) → IsPacked file.now entry rest →
        IsOkAnd result (λ packed. packed ≡ entry) }
{
    read_file(file)
}

#[tactic(auto, unfolding(crate::specs::Contents::read_of))]
fn read_file(file: &[u8]) -> Result<Packed<'_>, PackFault>
    ensures { Is (λ packed. packed) result (read_of file.now) }
{
    let parts = parts_of(file)?;
    Ok(Packed { parts })
}

impl<'a> Packed<'a> {
    /// The names, as in the file.
    #[tactic(auto, unfolding(crate::specs::Contents::entry_of))]
    pub fn names(&self) -> &'a [u8]
        ensures { result.now ≡ self.now.names }
    {
        before_nul(self.parts.names)
    }

    /// Whether the entry has the flag `cap`.
    pub fn get_flag(&self, cap: Cap) -> bool
        ensures { result ≡ flag_at self.now cap }
    {
        match kind(cap) {
            Kind::Flag => flag_in(&self.parts, position(cap)),
            _ => false,
        }
    }

    /// The number of the capability `cap`, if the entry has it.
    pub fn get_number(&self, cap: Cap) -> Option<u32>
        ensures { result ≡ number_at self.now cap }
    {
        match kind(cap) {
            Kind::Number => number_in(&self.parts, position(cap)),
            _ => None,
        }
    }

    /// The string of the capability `cap`, if the entry has it: a slice of the file.
    pub fn get_string(&self, cap: Cap) -> Option<&'a [u8]>
        ensures { option_copied result ≡ string_at self.now cap }
    {
        match kind(cap) {
            Kind::String => string_in(&self.parts, position(cap)),
            _ => None,
        }
    }

    /// The entry, with copies of its names and strings.
    ///
    /// Fails with `BadNames` if a source text can't have these names; with `TooLarge` if a string has more than 4095
    /// bytes; with `NoMemory` when out of memory; in this order.
    pub fn to_entry(&self, alloc: Global) -> Result<Entry, PackFault>
        ensures { Gives (λ entry. entry) result (fit_of self.now) }
    {
        entry_from(alloc, &self.parts)
    }
}
