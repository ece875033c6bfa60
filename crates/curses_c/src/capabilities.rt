//! The capabilities of an entry, by name.
ghost use Rattle.std.specs.Prelude.{◌≡◌, None, Some, IfErr, IfOk};
ghost use Rattle.ti_caps.specs.Entry.{number_at, string_at, flag_at};
ghost use Rattle.ti_caps.specs.declared.types.Kind.TheVariants as kinds;
ghost use Rattle.curses_c.specs.Verdicts.{Answers, Delivers};
ghost use Rattle.curses_c.specs.Capabilities as spec;

use crate::codes::{Failure, OK, failure_code};
use crate::entries::source_entry;
use crate::verdicts::fill;
use std::alloc::Global;
use ti_caps::{Cap, Entry, Kind, by_name, is_kind};
use ti_compiled::{Packed, decode};

/// The entry that a program asks about: a compiled file as it is, or an entry of a source text.
#[derive(Drop)]
enum Asked<'a> {
    File(Packed<'a>),
    Text(Entry),
}

/// Writes the string of an entry's capability `cap` to the start of `room`: of the compiled file `entry`, or of the
/// entry of `name` in the source text `entry`. `needed` is its length, or 0 if there is none. Returns 0, or the number
/// of `BadName` if no string capability is named `cap`, of `BadEntry` if the entry can't be read, of `NoCap` if it
/// lacks the string, of `NoRoom` if `room` is too short, or of `NoMemory`.
#[unsafe(no_mangle)]
pub extern "C" fn ticurses_raw_string(
    alloc: Global,
    entry: &[u8],
    name: &[u8],
    cap: &[u8],
    room: &mut [u8],
    needed: &mut usize,
) -> i32
    ensures { Answers (spec.Tells string_at kinds.String entry.now name.now cap.now)
        (spec.TellsNone string_at kinds.String entry.now name.now cap.now) room.old room.new needed.new result }
{
    let place = match named(Kind::String, cap) {
        Ok(place) => place,
        Err(failure) => return deliver(Err(failure), room, needed),
    };
    match ask(alloc, entry, name) {
        Ok(asked) => deliver_string(&asked, place, room, needed),
        Err(failure) => deliver(Err(failure), room, needed),
    }
}

/// Writes the number of an entry's capability `cap` to `number`: of the compiled file `entry`, or of the entry of
/// `name` in the source text `entry`. Returns 0, or the number of `BadName` if no number capability is named `cap`, of
/// `BadEntry` if the entry can't be read, of `NoCap` if it lacks the number, or of `NoMemory`; `number` stays as it is
/// then.
#[unsafe(no_mangle)]
pub extern "C" fn ticurses_raw_number(
    alloc: Global,
    entry: &[u8],
    name: &[u8],
    cap: &[u8],
    number: &mut u32,
) -> i32
    ensures { spec.Answers (spec.Tells number_at kinds.Number entry.now name.now cap.now)
        (spec.TellsNone number_at kinds.Number entry.now name.now cap.now) number.old number.new result }
{
    match number_of(alloc, entry, name, cap) {
        Ok(found) => {
            *number = found;
            OK
        }
        Err(failure) => failure_code(failure),
    }
}

fn number_of(alloc: Global, entry: &[u8], name: &[u8], cap: &[u8]) -> Result<u32, Failure>
    ensures tells { IfOk result (spec.Tells number_at kinds.Number entry.now name.now cap.now) }
    ensures none { IfErr result (spec.TellsNone number_at kinds.Number entry.now name.now cap.now) }
{
    let place = named(Kind::Number, cap)?;
    ask(alloc, entry, name)?.number(place)
}

/// Writes to `flag` whether an entry has the flag `cap`: that of the compiled file `entry`, or of `name` in the source
/// text `entry`. Returns 0, or the number of `BadName` if no flag is named `cap`, of `BadEntry` if the entry can't be
/// read, or of `NoMemory`; `flag` stays as it is then.
#[unsafe(no_mangle)]
pub extern "C" fn ticurses_raw_flag(
    alloc: Global,
    entry: &[u8],
    name: &[u8],
    cap: &[u8],
    flag: &mut bool,
) -> i32
    ensures { spec.Answers (spec.Tells spec.flag_of kinds.Flag entry.now name.now cap.now)
        (spec.TellsNone spec.flag_of kinds.Flag entry.now name.now cap.now) flag.old flag.new result }
{
    match flag_of(alloc, entry, name, cap) {
        Ok(found) => {
            *flag = found;
            OK
        }
        Err(failure) => failure_code(failure),
    }
}

fn flag_of(alloc: Global, entry: &[u8], name: &[u8], cap: &[u8]) -> Result<bool, Failure>
    ensures tells { IfOk result (spec.Tells spec.flag_of kinds.Flag entry.now name.now cap.now) }
    ensures none { IfErr result (spec.TellsNone spec.flag_of kinds.Flag entry.now name.now cap.now) }
{
    let place = named(Kind::Flag, cap)?;
    Ok(ask(alloc, entry, name)?.flag(place))
}

/// The capability of `kind` that `text` names. Fails with `BadName` if there is none.
fn named(kind: Kind, text: &[u8]) -> Result<Cap, Failure>
    ensures found { IfOk result (λ cap. spec.named kind text.now ≡ Some cap) }
    ensures none { IfErr result (λ e. (spec.named kind text.now ≡ None) × (e ≡ Failure.BadName)) }
{
    let Some(cap) = by_name(text) else {
        return Err(Failure::BadName);
    };
    if is_kind(cap, kind) {
        Ok(cap)
    } else {
        Err(Failure::BadName)
    }
}

/// The entry of the compiled file `bytes`, or, if there is a `name`, of that name in the source text `bytes`. Fails
/// with `BadEntry` if it can't be read, or with `NoMemory`.
fn ask<'a>(alloc: Global, bytes: &'a [u8], name: &[u8]) -> Result<Asked<'a>, Failure>
    ensures holds { IfOk result (λ asked. spec.Holds bytes.now name.now (spec.content asked)) }
    ensures none { IfErr result (spec.HoldsNone bytes.now name.now) }
{
    match name {
        [] => match decode(bytes) {
            Ok(packed) => Ok(Asked::File(packed)),
            Err(_) => Err(Failure::BadEntry),
        },
        _ => Ok(Asked::Text(source_entry(alloc, bytes, name)?)),
    }
}

impl<'a> Asked<'a> {
    /// The string of the capability `cap`. Fails with `NoCap` if the entry has none.
    fn string(&self, cap: Cap) -> Result<&[u8], Failure>
        ensures has { IfOk result (λ text. string_at (spec.content self.now) cap ≡ Some text.now) }
        ensures lacks { IfErr result (λ e. (string_at (spec.content self.now) cap ≡ None) × (e ≡ Failure.NoCap)) }
    {
        let found = match self {
            Asked::File(packed) => packed.get_string(cap),
            Asked::Text(entry) => entry.get_string(cap),
        };
        found.ok_or(Failure::NoCap)
    }

    /// The number of the capability `cap`. Fails with `NoCap` if the entry has none.
    fn number(&self, cap: Cap) -> Result<u32, Failure>
        ensures has { IfOk result (λ number. number_at (spec.content self.now) cap ≡ Some number) }
        ensures lacks { IfErr result (λ e. (number_at (spec.content self.now) cap ≡ None) × (e ≡ Failure.NoCap)) }
    {
        let found = match self {
            Asked::File(packed) => packed.get_number(cap),
            Asked::Text(entry) => entry.get_number(cap),
        };
        found.ok_or(Failure::NoCap)
    }

    /// Whether the entry has the flag `cap`.
    fn flag(&self, cap: Cap) -> bool
        ensures { result ≡ flag_at (spec.content self.now) cap }
    {
        match self {
            Asked::File(packed) => packed.get_flag(cap),
            Asked::Text(entry) => entry.get_flag(cap),
        }
    }
}

/// Writes the string of the capability `cap` to the start of `room`, if `room` is long enough. `needed` gets the
/// string's length, or 0 if there is none.
fn deliver_string(asked: &Asked<'_>, cap: Cap, room: &mut [u8], needed: &mut usize) -> i32
    ensures { Answers (spec.IsString (spec.content asked.now) cap) (spec.LacksString (spec.content asked.now) cap)
        room.old room.new needed.new result }
{
    deliver(asked.string(cap), room, needed)
}

/// Writes the string that was found to the start of `room`, if `room` is long enough. `needed` gets the string's
/// length, or 0 if none was found.
fn deliver(answer: Result<&[u8], Failure>, room: &mut [u8], needed: &mut usize) -> i32
    ensures { Delivers (λ text. text.now) answer.entry room.old room.new needed.new result }
{
    match answer {
        Ok(text) => {
            *needed = text.len();
            fill(text, room)
        }
        Err(failure) => {
            *needed = 0;
            failure_code(failure)
        }
    }
}
