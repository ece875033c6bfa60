//! Writing an entry as a compiled file.

ghost use Rattle.std.specs.Prelude.{◌≡◌, ◌+◌, ◌*◌, ◌++◌, ◌<◌, ◌≤◌, ℕ, [], ◌∷◌, Bool, true, false, None, Some, IfOk};
ghost use Rattle.std.specs.Prelude.{IfSome, OnOk, slice_index_or, length, ◌==◌, is_some, flat_map, take, replicate};
ghost use Rattle.std.specs.{Prelude.{if◌then◌else◌}, Int.{from_bool}, List.{list_any}, Option.{option_copied}};
ghost use Rattle.ti_caps.specs.{Entry.{IsEntry}, Table.{count_of}};
ghost use Rattle.ti_caps.specs.declared.types.Kind.TheVariants as kinds;
ghost use Rattle.ti_compiled.specs.{Layout.{half, width}, Contents.{Gives}, Packed.{word, long, magic, number_bytes}};
ghost use Rattle.ti_compiled.specs.Written.{flags_of, numbers_of, strings_of, trimmed, itself, number_cell};
ghost use Rattle.ti_compiled.specs.Written.{offsets_from, table_of, string_cell, is_wide, form_for, limit, IsPlan};
ghost use Rattle.ti_compiled.specs.Written.{count_for, has_at, written, packing_of};

use crate::sections::width;
use crate::types::{Form, PackFault};
use crate::unpack::cap_at;
use std::alloc::{AllocError, Global};
use ti_caps::{Entry, FLAGS, Kind, NUMBERS, STRINGS};

/// The form, counts and sizes of an entry's file, found before it is written.
#[derive(Clone, Copy)]
pub(crate) struct Plan {
    pub(crate) form: Form,
    /// The numbers of flags, numbers and strings in the file.
    pub(crate) flags: usize,
    pub(crate) numbers: usize,
    pub(crate) strings: usize,
    /// The size of the table in bytes.
    pub(crate) table: usize,
}

fn flag_there(entry: &Entry, position: usize) -> bool
    requires { position < 44 }
    ensures { result ≡ slice_index_or (flags_of entry.now) position false }
{
    entry.get_flag(cap_at(Kind::Flag, position))
}

fn number_there(entry: &Entry, position: usize) -> Option<u32>
    requires { position < 39 }
    ensures { result ≡ slice_index_or (numbers_of entry.now) position None }
{
    entry.get_number(cap_at(Kind::Number, position))
}

fn string_there(entry: &Entry, position: usize) -> Option<&[u8]>
    requires entry { IsEntry entry.now }
    requires place { position < 414 }
    ensures value { option_copied result ≡ slice_index_or (strings_of entry.now) position None }
    ensures short { IfSome result (λ string. length string.now ≤ 4095) }
{
    entry.get_string(cap_at(Kind::String, position))
}

/// Whether the entry has the capability at `position` among those of its kind.
fn is_there(entry: &Entry, kind: Kind, position: usize) -> bool
    requires entry { IsEntry entry.now }
    requires place { position < count_of kind }
    ensures { result ≡ has_at kind entry.now position }
{
    match kind {
        Kind::Flag => flag_there(entry, position),
        Kind::Number => number_there(entry, position).is_some(),
        Kind::String => string_there(entry, position).is_some(),
    }
}

/// How many capabilities of this kind there are.
fn total(kind: Kind) -> usize
    ensures { result ≡ count_of kind }
{
    match kind {
        Kind::Flag => FLAGS,
        Kind::Number => NUMBERS,
        Kind::String => STRINGS,
    }
}

/// How many capabilities of this kind the file has: those up to the last one that the entry has.
fn count(entry: &Entry, kind: Kind) -> usize
    requires { IsEntry entry.now }
    ensures value { result ≡ count_for kind entry.now }
    ensures range { result ≤ count_of kind }
{
    let mut count = 0;
    for position in 0..total(kind) {
        if is_there(entry, kind, position) {
            count = position + 1;
        }
    }
    count
}

fn is_wide(number: Option<u32>) -> bool
    ensures { result ≡ is_wide number }
{
    match number {
        Some(number) => 32767 < number,
        None => false,
    }
}

#[tactic(auto, unfolding(crate::specs::Written::form_for))]
fn form_for(entry: &Entry) -> Form
    requires { IsEntry entry.now }
    ensures { result ≡ form_for entry.now }
{
    for position in 0..NUMBERS {
        if is_wide(number_there(entry, position)) {
            return Form::Wide;
        }
    }
    Form::Legacy
}

/// The number of bytes that the string at `position` takes in the table.
fn string_size(entry: &Entry, position: usize) -> usize
    requires entry { IsEntry entry.now }
    requires place { position < 414 }
    ensures value { result ≡ length (string_cell (slice_index_or (strings_of entry.now) position None)) }
    ensures range { result ≤ 4096 }
{
    match string_there(entry, position) {
        Some(string) => string.len() + 1,
        None => 0,
    }
}

fn table_size(entry: &Entry, count: usize) -> usize
    requires entry { IsEntry entry.now }
    requires count { count ≡ length (trimmed is_some (strings_of entry.now)) }
    requires few { count ≤ 414 }
    ensures value { result ≡ length (table_of (trimmed is_some (strings_of entry.now))) }
    ensures range { result ≤ 414 * 4096 }
{
    let mut size = 0;
    for position in 0..count {
        size += string_size(entry, position);
    }
    size
}

fn plan_of(entry: &Entry) -> Plan
    requires { IsEntry entry.now }
    ensures { IsPlan entry.now result }
{
    let strings = count(entry, Kind::String);
    Plan {
        form: form_for(entry),
        flags: count(entry, Kind::Flag),
        numbers: count(entry, Kind::Number),
        strings,
        table: table_size(entry, strings),
    }
}

/// The size of the file in bytes.
fn file_size(entry: &Entry, names: &[u8], plan: &Plan) -> usize
    requires plan { IsPlan entry.now plan.now }
    requires names { names.now ≡ entry.now.names }
    requires short { length names.now ≤ 4095 }
    ensures value { result ≡ length (written entry.now) }
    ensures table { plan.now.table ≤ result }
{
    let names = names.len() + 1;
    let padding = (names + plan.flags) % 2;
    12 + names
        + plan.flags
        + padding
        + width(plan.form) * plan.numbers
        + 2 * plan.strings
        + plan.table
}

fn limit(form: Form) -> usize
    ensures { result ≡ limit form }
{
    match form {
        Form::Legacy => 4096,
        Form::Wide => 32768,
    }
}

/// Writes a number of 16 bits, low byte first.
#[tactic(auto, unfolding(crate::specs::Packed::word))]
fn put_word(out: &mut Vec<u8>, number: usize) -> Result<(), AllocError>
    requires { number < 65536 }
    ensures { OnOk result (out.new.items ≡ out.old.items ++ word number) }
{
    out.extend_from_slice(&(number as u16).to_le_bytes())
}

/// Writes a number of 32 bits, low byte first.
#[tactic(auto, unfolding(crate::specs::Packed::long))]
fn put_long(out: &mut Vec<u8>, number: u32) -> Result<(), AllocError>
    ensures { OnOk result (out.new.items ≡ out.old.items ++ long number) }
{
    out.extend_from_slice(&number.to_le_bytes())
}

fn put_flags(out: &mut Vec<u8>, entry: &Entry, count: usize) -> Result<(), AllocError>
    requires entry { IsEntry entry.now }
    requires count { count ≡ length (trimmed itself (flags_of entry.now)) }
    requires few { count ≤ 44 }
    ensures { OnOk result (out.new.items ≡
        out.old.items ++ flat_map (λ flag. from_bool flag ∷ []) (trimmed itself (flags_of entry.now))) }
{
    for position in 0..count {
        out.push(u8::from(flag_there(entry, position)))?;
    }
    Ok(())
}

/// Writes a number, or -1 if there is none.
fn put_number(out: &mut Vec<u8>, form: Form, number: Option<u32>) -> Result<(), AllocError>
    requires { number_cell form number < 2 * half form }
    ensures { OnOk result (out.new.items ≡ out.old.items ++ number_bytes form (number_cell form number)) }
{
    match form {
        Form::Legacy => put_word(out, number.unwrap_or(65535) as usize),
        Form::Wide => put_long(out, number.unwrap_or(4294967295)),
    }
}

fn put_numbers(out: &mut Vec<u8>, entry: &Entry, form: Form, count: usize) -> Result<(), AllocError>
    requires entry { IsEntry entry.now }
    requires form { form ≡ form_for entry.now }
    requires count { count ≡ length (trimmed is_some (numbers_of entry.now)) }
    requires few { count ≤ 39 }
    ensures { OnOk result (out.new.items ≡
        out.old.items
        ++ flat_map (λ number. number_bytes form (number_cell form number)) (trimmed is_some (numbers_of entry.now))) }
{
    for position in 0..count {
        put_number(out, form, number_there(entry, position))?;
    }
    Ok(())
}

/// The offset of a string that takes `size` bytes with its NUL, at the place `place` of the table, or -1 if there is
/// none.
fn offset_at(place: usize, size: usize) -> usize
    ensures { result ≡ (if size == 0 then 65535 else place) }
{
    if size == 0 { 65535 } else { place }
}

fn put_offsets(out: &mut Vec<u8>, entry: &Entry, count: usize) -> Result<(), AllocError>
    requires entry { IsEntry entry.now }
    requires count { count ≡ length (trimmed is_some (strings_of entry.now)) }
    requires few { count ≤ 414 }
    requires small { length (table_of (trimmed is_some (strings_of entry.now))) < 65536 }
    ensures { OnOk result (out.new.items ≡
        out.old.items ++ flat_map word (offsets_from 0 (trimmed is_some (strings_of entry.now)))) }
{
    let mut place = 0;
    for position in 0..count {
        let size = string_size(entry, position);
        put_word(out, offset_at(place, size))?;
        place += size;
    }
    Ok(())
}

/// Writes a string with its NUL, if there is one.
fn put_string(out: &mut Vec<u8>, string: Option<&[u8]>) -> Result<(), AllocError>
    ensures { OnOk result (out.new.items ≡ out.old.items ++ string_cell (option_copied string.entry)) }
{
    if let Some(string) = string {
        out.extend_from_slice(string)?;
        out.push(0)?;
    }
    Ok(())
}

fn put_table(out: &mut Vec<u8>, entry: &Entry, count: usize) -> Result<(), AllocError>
    requires entry { IsEntry entry.now }
    requires count { count ≡ length (trimmed is_some (strings_of entry.now)) }
    requires few { count ≤ 414 }
    ensures { OnOk result (out.new.items ≡ out.old.items ++ table_of (trimmed is_some (strings_of entry.now))) }
{
    for position in 0..count {
        put_string(out, string_there(entry, position))?;
    }
    Ok(())
}

fn magic(form: Form) -> usize
    ensures value { result ≡ magic form }
    ensures range { result < 65536 }
{
    match form {
        Form::Legacy => 282,
        Form::Wide => 542,
    }
}

/// Writes the header of a file whose names section has `names` bytes.
fn put_header(out: &mut Vec<u8>, names: usize, plan: &Plan) -> Result<(), AllocError>
    requires names { names < 65536 }
    requires flags { plan.now.flags < 65536 }
    requires numbers { plan.now.numbers < 65536 }
    requires strings { plan.now.strings < 65536 }
    requires table { plan.now.table < 65536 }
    ensures { OnOk result (out.new.items ≡
        out.old.items ++ word (magic plan.now.form) ++ word names ++ word plan.now.flags ++ word plan.now.numbers
        ++ word plan.now.strings ++ word plan.now.table) }
{
    put_word(out, magic(plan.form))?;
    put_word(out, names)?;
    put_word(out, plan.flags)?;
    put_word(out, plan.numbers)?;
    put_word(out, plan.strings)?;
    put_word(out, plan.table)?;
    Ok(())
}

/// Writes the byte of padding, if there is one.
fn put_padding(out: &mut Vec<u8>, count: usize) -> Result<(), AllocError>
    requires { count < 2 }
    ensures { OnOk result (out.new.items ≡ out.old.items ++ replicate count 0) }
{
    if count == 1 {
        out.push(0)?;
    }
    Ok(())
}

/// Writes the whole file.
fn write_file(
    alloc: Global,
    entry: &Entry,
    names: &[u8],
    plan: &Plan,
    size: usize,
) -> Result<Vec<u8>, AllocError>
    requires entry { IsEntry entry.now }
    requires plan { IsPlan entry.now plan.now }
    requires names { names.now ≡ entry.now.names }
    requires short { length names.now ≤ 4095 }
    requires table { plan.now.table < 65536 }
    ensures { IfOk result (λ file. file.items ≡ written entry.now) }
{
    let mut out = Vec::with_capacity(alloc, size)?;
    put_header(&mut out, names.len() + 1, plan)?;
    out.extend_from_slice(names)?;
    out.push(0)?;
    put_flags(&mut out, entry, plan.flags)?;
    put_padding(&mut out, (names.len() + 1 + plan.flags) % 2)?;
    put_numbers(&mut out, entry, plan.form, plan.numbers)?;
    put_offsets(&mut out, entry, plan.strings)?;
    put_table(&mut out, entry, plan.strings)?;
    Ok(out)
}

/// The compiled file of `entry`, in the layout of term(5). Its numbers have 32 bits only if one is above 32767.
/// Trailing absent capabilities of each kind aren't written, and no strings share bytes.
///
/// Fails with `TooLarge` if the file would have more than 4096 bytes, or more than 32768 with numbers of 32 bits;
/// with `NoMemory` when out of memory.
pub fn encode(alloc: Global, entry: &Entry) -> Result<Vec<u8>, PackFault>
    ensures { Gives (λ file. file.items) result (packing_of entry.now) }
{
    let names = entry.names();
    let plan = plan_of(entry);
    let size = file_size(entry, names, &plan);
    if limit(plan.form) < size {
        return Err(PackFault::TooLarge);
    }
    match write_file(alloc, entry, names, &plan, size) {
        Ok(file) => Ok(file),
        Err(_) => Err(PackFault::NoMemory),
    }
}
