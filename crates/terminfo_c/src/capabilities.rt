//! The capabilities of an entry, by name and by position.
ghost use Rattle.std.specs.Prelude.{◌≡◌, Option, Result, List, ℕ};
ghost use Rattle.std.specs.Option.{option_copied};
ghost use Rattle.ti_caps.specs.Entry.{number_at, string_at};
ghost use Rattle.ti_caps.specs.Table.{place_from};
ghost use Rattle.ti_caps.specs.declared.types.Kind.TheVariants as kinds;
ghost use Rattle.terminfo_c.specs.Answers.{Delivers, Tells, asked};
ghost use Rattle.terminfo_c.specs.Capabilities as spec;

use crate::answers::deliver;
use crate::codes::{Failure, OK, failure_code};
use crate::handles::Handle;
use std::alloc::Global;
use ti_caps::{Cap, Entry, Kind, at, by_name, is_kind};

/// Writes the string of the capability that terminfo names `cap` to the start of `room`. `needed` is its length, or 0
/// if there is none. Returns 0, or the number of `Closed`, of `BadName` if no string capability is named `cap`, of
/// `NoCap` if the entry lacks the string, or of `NoRoom` if `room` is too short.
#[unsafe(no_mangle)]
pub extern "C" fn ticurses_raw_terminfo_string(
    alloc: Global,
    handle: &mut Handle,
    cap: &[u8],
    room: &mut [u8],
    needed: &mut usize,
) -> i32
    ensures held { (handle.new).slot.held ≡ (handle.old).slot.held }
    ensures answer { Delivers (asked (λ h. spec.value_in string_at (spec.named kinds.String cap.now) h.entry)
        (handle.old).slot.held) room.old room.new needed.new result }
{
    deliver_string(alloc, handle, named(Kind::String, cap), room, needed)
}

/// Writes the string at `position`, in the order of term(5), to the start of `room`. `needed` is its length, or 0 if
/// there is none. Returns 0, or the number of `Closed`, of `BadName` if no string has the position, of `NoCap` if the
/// entry lacks the string, or of `NoRoom` if `room` is too short.
#[unsafe(no_mangle)]
pub extern "C" fn ticurses_raw_terminfo_string_at(
    alloc: Global,
    handle: &mut Handle,
    position: usize,
    room: &mut [u8],
    needed: &mut usize,
) -> i32
    ensures held { (handle.new).slot.held ≡ (handle.old).slot.held }
    ensures answer { Delivers (asked (λ h. spec.value_in string_at (place_from kinds.String position) h.entry)
        (handle.old).slot.held) room.old room.new needed.new result }
{
    deliver_string(alloc, handle, at(Kind::String, position), room, needed)
}

/// Writes to `number` the number of the capability that terminfo names `cap`. Returns 0, or the number of `Closed`, of
/// `BadName` if no number capability is named `cap`, or of `NoCap` if the entry lacks the number; `number` stays as it
/// is then.
#[unsafe(no_mangle)]
pub extern "C" fn ticurses_raw_terminfo_number(
    alloc: Global,
    handle: &mut Handle,
    cap: &[u8],
    number: &mut u32,
) -> i32
    ensures held { (handle.new).slot.held ≡ (handle.old).slot.held }
    ensures answer { Tells (asked (λ h. spec.value_in number_at (spec.named kinds.Number cap.now) h.entry)
        (handle.old).slot.held) number.old number.new result }
{
    tell_number(alloc, handle, named(Kind::Number, cap), number)
}

/// Writes to `number` the number at `position`, in the order of term(5). Returns 0, or the number of `Closed`, of
/// `BadName` if no number has the position, or of `NoCap` if the entry lacks the number; `number` stays as it is then.
#[unsafe(no_mangle)]
pub extern "C" fn ticurses_raw_terminfo_number_at(
    alloc: Global,
    handle: &mut Handle,
    position: usize,
    number: &mut u32,
) -> i32
    ensures held { (handle.new).slot.held ≡ (handle.old).slot.held }
    ensures answer { Tells (asked (λ h. spec.value_in number_at (place_from kinds.Number position) h.entry)
        (handle.old).slot.held) number.old number.new result }
{
    tell_number(alloc, handle, at(Kind::Number, position), number)
}

/// Writes to `flag` whether the entry has the flag that terminfo names `cap`. Returns 0, or the number of `Closed`, or
/// of `BadName` if no flag is named `cap`; `flag` stays as it is then.
#[unsafe(no_mangle)]
pub extern "C" fn ticurses_raw_terminfo_flag(
    alloc: Global,
    handle: &mut Handle,
    cap: &[u8],
    flag: &mut bool,
) -> i32
    ensures held { (handle.new).slot.held ≡ (handle.old).slot.held }
    ensures answer { Tells (asked (λ h. spec.value_in spec.flag_of (spec.named kinds.Flag cap.now) h.entry)
        (handle.old).slot.held) flag.old flag.new result }
{
    tell_flag(alloc, handle, named(Kind::Flag, cap), flag)
}

/// Writes to `flag` whether the entry has the flag at `position`, in the order of term(5). Returns 0, or the number of
/// `Closed`, or of `BadName` if no flag has the position; `flag` stays as it is then.
#[unsafe(no_mangle)]
pub extern "C" fn ticurses_raw_terminfo_flag_at(
    alloc: Global,
    handle: &mut Handle,
    position: usize,
    flag: &mut bool,
) -> i32
    ensures held { (handle.new).slot.held ≡ (handle.old).slot.held }
    ensures answer { Tells (asked (λ h. spec.value_in spec.flag_of (place_from kinds.Flag position) h.entry)
        (handle.old).slot.held) flag.old flag.new result }
{
    tell_flag(alloc, handle, at(Kind::Flag, position), flag)
}

/// The capability of `kind` that `text` names, if there is one.
fn named(kind: Kind, text: &[u8]) -> Option<Cap>
    ensures { result ≡ spec.named kind text.now }
{
    by_name(text).filter(|cap| is_kind(*cap, kind))
}

/// Writes the string of the capability `cap` to the start of `room`, if `room` is long enough. `needed` gets the
/// string's length, or 0 if there is none.
fn deliver_string(
    alloc: Global,
    handle: &mut Handle,
    cap: Option<Cap>,
    room: &mut [u8],
    needed: &mut usize,
) -> i32
    ensures held { (handle.new).slot.held ≡ (handle.old).slot.held }
    ensures answer { Delivers (asked (λ h. spec.value_in string_at cap h.entry) (handle.old).slot.held)
        room.old room.new needed.new result }
{
    let Some(held) = handle.take(alloc) else {
        return deliver(Err(Failure::Closed), room, needed);
    };
    let code = deliver(string_of(&held.entry, cap), room, needed);
    handle.put(held);
    code
}

/// The string of the capability `cap`. Fails with `BadName` if there is no such capability, and with `NoCap` if the
/// entry lacks the string.
fn string_of(entry: &Entry, cap: Option<Cap>) -> Result<&[u8], Failure>
    ensures { spec.IsValue (λ text. text.now) result (spec.value_in string_at cap entry.now) }
{
    let cap = cap.ok_or(Failure::BadName)?;
    entry.get_string(cap).ok_or(Failure::NoCap)
}

/// Writes the number of the capability `cap` to `number`, if there is one.
fn tell_number(alloc: Global, handle: &mut Handle, cap: Option<Cap>, number: &mut u32) -> i32
    ensures held { (handle.new).slot.held ≡ (handle.old).slot.held }
    ensures answer { Tells (asked (λ h. spec.value_in number_at cap h.entry) (handle.old).slot.held)
        number.old number.new result }
{
    let Some(held) = handle.take(alloc) else {
        return failure_code(Failure::Closed);
    };
    let answer = number_of(&held.entry, cap);
    handle.put(held);
    match answer {
        Ok(found) => {
            *number = found;
            OK
        }
        Err(failure) => failure_code(failure),
    }
}

/// The number of the capability `cap`. Fails with `BadName` if there is no such capability, and with `NoCap` if the
/// entry lacks the number.
fn number_of(entry: &Entry, cap: Option<Cap>) -> Result<u32, Failure>
    ensures { result ≡ spec.value_in number_at cap entry.now }
{
    let cap = cap.ok_or(Failure::BadName)?;
    entry.get_number(cap).ok_or(Failure::NoCap)
}

/// Writes to `flag` whether the entry has the flag `cap`, if there is such a flag.
fn tell_flag(alloc: Global, handle: &mut Handle, cap: Option<Cap>, flag: &mut bool) -> i32
    ensures held { (handle.new).slot.held ≡ (handle.old).slot.held }
    ensures answer { Tells (asked (λ h. spec.value_in spec.flag_of cap h.entry) (handle.old).slot.held)
        flag.old flag.new result }
{
    let Some(held) = handle.take(alloc) else {
        return failure_code(Failure::Closed);
    };
    let answer = flag_of(&held.entry, cap);
    handle.put(held);
    match answer {
        Ok(found) => {
            *flag = found;
            OK
        }
        Err(failure) => failure_code(failure),
    }
}

/// Whether the entry has the flag `cap`. Fails with `BadName` if there is no such flag.
fn flag_of(entry: &Entry, cap: Option<Cap>) -> Result<bool, Failure>
    ensures { result ≡ spec.value_in spec.flag_of cap entry.now }
{
    let cap = cap.ok_or(Failure::BadName)?;
    Ok(entry.get_flag(cap))
}
