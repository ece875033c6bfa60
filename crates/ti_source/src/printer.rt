//! Printing an entry.

ghost use Rattle.std.specs.Prelude.{◌≡◌, ◌<◌, ◌/◌, ◌%◌, ◌+◌, ◌++◌, ◌∷◌, [], Ok, IfOk, IsTrue, OnOk, decimal, ◌&&◌};
ghost use Rattle.std.specs.{Prelude.{nat_le}, List.{AllByRecursion}};
ghost use Rattle.ti_caps.specs.Fits.{string_fits};
ghost use Rattle.ti_caps.specs.declared.types.Kind.TheVariants as kinds;
ghost use Rattle.ti_caps.specs.{Entry.{IsEntry, value_at}, Table.{name_at, place_of_rank}};
ghost use Rattle.ti_source.specs.{Escapes.{unescaped}, Printed.{PrintsJust, ReadsBack, raw_of}, Source.{source_of}};
ghost use Rattle.ti_source.specs.Prints.{letter_for, octal, spelled_with, spelled, string_text, value_text, field_text};
ghost use Rattle.ti_source.specs.Prints.{place_text, rank_text, ranks_text, kind_text, text_of};

use itoa::Buffer;
use std::alloc::{AllocError, Global};
use ti_caps::{CAPABILITIES, Cap, Entry, Kind, Value, at_rank, is_kind, name};

/// The letter that, after a backslash, means `byte`; `None` if there is no such letter.
pub fn letter_for(byte: u8) -> Option<u8>
    ensures { result ≡ letter_for byte }
{
    match byte {
        27 => Some(b'E'),
        b'\n' => Some(b'n'),
        b'\r' => Some(b'r'),
        b'\t' => Some(b't'),
        8 => Some(b'b'),
        12 => Some(b'f'),
        b' ' => Some(b's'),
        b',' | b'\\' | b'^' | b':' => Some(byte),
        _ => None,
    }
}

fn is_plain(byte: u8) -> bool
    ensures { result ≡ (nat_le 33 byte && nat_le byte 126) }
{
    33 <= byte && byte <= 126
}

/// A backslash and the three octal digits of `byte`.
pub fn octal(byte: u8) -> [u8; 4]
    ensures { result ≡ octal byte }
{
    [
        b'\\',
        b'0' + byte / 64,
        b'0' + byte / 8 % 8,
        b'0' + byte % 8,
    ]
}

#[tactic(auto, unfolding(crate::specs::Prints::spelled))]
fn push_byte(text: &mut Vec<u8>, byte: u8) -> Result<(), AllocError>
    ensures { OnOk result (text.new.items ≡ text.old.items ++ spelled byte) }
{
    match letter_for(byte) {
        Some(letter) => text.extend_from_slice(&[b'\\', letter]),
        None => {
            if is_plain(byte) {
                text.extend_from_slice(&[byte])
            } else {
                text.extend_from_slice(&octal(byte))
            }
        }
    }
}

#[tactic(auto, unfolding(crate::specs::Prints::string_text))]
fn push_string(text: &mut Vec<u8>, bytes: &[u8]) -> Result<(), AllocError>
    ensures { OnOk result (text.new.items ≡ text.old.items ++ string_text bytes.now) }
{
    for byte in bytes {
        push_byte(text, *byte)?;
    }
    Ok(())
}

/// Proves that each byte is below 256; the compiled program has nothing of the loop.
fn are_bytes(bytes: &[u8])
    ensures { AllByRecursion (λ b. b < 256) bytes.now }
{
    for byte in bytes {
        let _byte = *byte;
    }
}

/// The value of a string with these `bytes`, as `print` writes it: `unescape` gives them back. They must fit
/// (`string_fits`).
///
/// Fails only when out of memory.
#[tactic(auto, using(crate::proofs::StringBack::string_back))]
pub fn escape(alloc: Global, bytes: &[u8]) -> Result<Vec<u8>, AllocError>
    requires { IsTrue (string_fits bytes.now) }
    ensures text { IfOk result (λ text. text.items ≡ string_text bytes.now) }
    ensures reads_back { IfOk result (λ text. unescaped text.items ≡ Ok bytes.now) }
{
    are_bytes(bytes);
    let mut text = Vec::new(alloc);
    push_string(&mut text, bytes)?;
    Ok(text)
}

fn push_number(text: &mut Vec<u8>, number: u32) -> Result<(), AllocError>
    ensures { OnOk result (text.new.items ≡ text.old.items ++ decimal number) }
{
    let mut digits = Buffer::new();
    text.extend_from_slice(digits.format(number).as_bytes())
}

/// Appends a mark and a value, which follow the name.
fn push_value(text: &mut Vec<u8>, value: &Value) -> Result<(), AllocError>
    ensures { OnOk result (text.new.items ≡ text.old.items ++ value_text value.now) }
{
    match value {
        Value::Flag => Ok(()),
        Value::Number(number) => {
            text.push(b'#')?;
            push_number(text, *number)
        }
        Value::String(bytes) => {
            text.push(b'=')?;
            push_string(text, bytes.as_slice())
        }
    }
}

/// Appends a field on its line.
#[tactic(auto, unfolding(crate::specs::Prints::field_text))]
fn push_field(text: &mut Vec<u8>, cap: Cap, value: &Value) -> Result<(), AllocError>
    ensures { OnOk result (text.new.items ≡ text.old.items ++ field_text cap value.now) }
{
    text.push(b'\t')?;
    text.extend_from_slice(name(cap))?;
    push_value(text, value)?;
    text.extend_from_slice(b",\n")
}

/// Appends the field of the capability `cap`, if the entry has it.
fn push_place(text: &mut Vec<u8>, entry: &Entry, cap: Cap) -> Result<(), AllocError>
    ensures { OnOk result (text.new.items ≡ text.old.items ++ place_text cap (value_at entry.now cap)) }
{
    match entry.value(cap) {
        None => Ok(()),
        Some(value) => push_field(text, cap, value),
    }
}

/// Appends the field of the capability whose name has this rank, if it is of this kind.
#[tactic(auto, unfolding(crate::specs::Prints::rank_text, ti_caps::specs::Table::place_ranked))]
fn push_rank(text: &mut Vec<u8>, entry: &Entry, kind: Kind, rank: usize) -> Result<(), AllocError>
    requires { rank < 497 }
    ensures { OnOk result (text.new.items ≡ text.old.items ++ rank_text entry.now kind rank) }
{
    match at_rank(rank) {
        Some(cap) if is_kind(cap, kind) => push_place(text, entry, cap),
        _ => Ok(()),
    }
}

/// Appends the fields of a kind in the order of their names.
#[tactic(auto, unfolding(crate::specs::Prints::kind_text))]
fn push_kind(text: &mut Vec<u8>, entry: &Entry, kind: Kind) -> Result<(), AllocError>
    ensures { OnOk result (text.new.items ≡ text.old.items ++ kind_text entry.now kind) }
{
    for rank in 0..CAPABILITIES {
        push_rank(text, entry, kind, rank)?;
    }
    Ok(())
}

/// The names on a line, followed by flags, numbers and strings.
#[tactic(auto, unfolding(crate::specs::Prints::text_of))]
fn text(alloc: Global, entry: &Entry) -> Result<Vec<u8>, AllocError>
    ensures value { IfOk result (λ v. v.items ≡ text_of entry.now) }
    ensures entry { IsEntry entry.now }
{
    let mut text = Vec::from_slice(alloc, entry.names())?;
    text.extend_from_slice(b",\n")?;
    push_kind(&mut text, entry, Kind::Flag)?;
    push_kind(&mut text, entry, Kind::Number)?;
    push_kind(&mut text, entry, Kind::String)?;
    Ok(text)
}

/// A source text of terminfo(5) for `entry`: its names on a line, then a line for each capability, flags, numbers and
/// strings, each kind in the byte order of the names. Reading it gives the entry back.
///
/// Fails only when out of memory.
#[tactic(auto, using(crate::proofs::Lengths::reads_back))]
pub fn print(alloc: Global, entry: &Entry) -> Result<Vec<u8>, AllocError>
    ensures text { IfOk result (λ v. v.items ≡ text_of entry.now) }
    ensures reads_back { IfOk result (λ v. source_of v.items ≡ Ok (raw_of entry.now ∷ [])) }
{
    text(alloc, entry)
}

/// Law: the printed text of an entry is read as one raw entry with the entry's names and exactly its fields.
pub fn printing_reads_back()
    ensures read { ReadsBack }
    ensures just { PrintsJust }
{}
