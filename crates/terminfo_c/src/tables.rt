//! All values of a compiled file at once, for a program that keeps the file's bytes.
ghost use Rattle.std.specs.Prelude.{◌≡◌, List, Some, IfOk, ℕ};
ghost use Rattle.ti_compiled.specs.{Contents.{read_of}, Packed.{IsPacked}};
ghost use Rattle.terminfo_c.specs.Tables as spec;

use crate::codes::{OK, file_code};
use ti_caps::{Kind, at};
use ti_compiled::{Packed, decode};

/// A string, as C reads it: bytes of the file, if the string is there.
#[repr(C)]
#[derive(Clone, Copy)]
pub struct Text<'a> {
    /// The bytes of the string; none if it is absent.
    pub bytes: &'a [u8],
    pub is_there: bool,
}

/// A number, as C reads it.
#[repr(C)]
#[derive(Clone, Copy)]
pub struct Number {
    /// The number; 0 if it is absent.
    pub number: u32,
    pub is_there: bool,
}

/// Reads the compiled file `file`. Each element of `flags`, `numbers` and `strings` becomes the value at its position,
/// in the order of term(5): a flag that the file lacks is off, a number or string that it lacks isn't there, and so are
/// all past the last capability. `names` becomes the entry's names. No bytes are copied: strings and names are parts of
/// `file`. Allocates no memory.
///
/// Returns 0, or the number of the file's first fault, and then nothing was written. Names that no source text can have
/// and strings of any length are no faults.
#[unsafe(no_mangle)]
pub extern "C" fn ticurses_raw_terminfo_read<'a>(
    file: &'a [u8],
    names: &mut Text<'a>,
    flags: &mut [bool],
    numbers: &mut [Number],
    strings: &mut [Text<'a>],
) -> i32
    ensures code { result ≡ spec.read_code (read_of file.now) }
    // A file that is read has its entry in the layout of term(5): a zero byte comes after the names and each string.
    ensures packed { IfOk (read_of file.now) (λ entry. (rest : List ℕ) × IsPacked file.now entry rest) }
    ensures names { spec.Writes (read_of file.now) (λ entry. spec.text_of names.new ≡ Some entry.names)
        (names.new ≡ names.old) }
    ensures flags { spec.Writes (read_of file.now)
        (λ entry. spec.IsTable (λ flag. flag) (spec.flag_value entry) flags.old flags.new) (flags.new ≡ flags.old) }
    ensures numbers { spec.Writes (read_of file.now)
        (λ entry. spec.IsTable spec.number_of (spec.number_value entry) numbers.old numbers.new)
        (numbers.new ≡ numbers.old) }
    ensures strings { spec.Writes (read_of file.now)
        (λ entry. spec.IsTable spec.text_of (spec.string_value entry) strings.old strings.new)
        (strings.new ≡ strings.old) }
{
    match decode(file) {
        Ok(packed) => {
            *names = Text {
                bytes: packed.names(),
                is_there: true,
            };
            put_flags(&packed, flags);
            put_numbers(&packed, numbers);
            put_strings(&packed, strings);
            OK
        }
        Err(fault) => file_code(fault),
    }
}

/// Whether the file has the flag at `position`; false past the last flag.
fn flag_value(packed: &Packed<'_>, position: usize) -> bool
    ensures { result ≡ spec.flag_value packed.now position }
{
    match at(Kind::Flag, position) {
        Some(cap) => packed.get_flag(cap),
        None => false,
    }
}

/// The number at `position`, if the file has it.
fn number_value(packed: &Packed<'_>, position: usize) -> Number
    ensures { spec.number_of result ≡ spec.number_value packed.now position }
{
    const ABSENT: Number = Number {
        number: 0,
        is_there: false,
    };
    let Some(cap) = at(Kind::Number, position) else {
        return ABSENT;
    };
    match packed.get_number(cap) {
        Some(number) => Number {
            number,
            is_there: true,
        },
        None => ABSENT,
    }
}

/// The string at `position`, if the file has it.
fn string_value<'a>(packed: &Packed<'a>, position: usize) -> Text<'a>
    ensures { spec.text_of result ≡ spec.string_value packed.now position }
{
    let absent = Text {
        bytes: &[],
        is_there: false,
    };
    let Some(cap) = at(Kind::String, position) else {
        return absent;
    };
    match packed.get_string(cap) {
        Some(bytes) => Text {
            bytes,
            is_there: true,
        },
        None => absent,
    }
}

fn put_flags(packed: &Packed<'_>, flags: &mut [bool])
    ensures { spec.IsTable (λ flag. flag) (spec.flag_value packed.now) flags.old flags.new }
{
    for position in 0..flags.len() {
        flags[position] = flag_value(packed, position);
    }
}

fn put_numbers(packed: &Packed<'_>, numbers: &mut [Number])
    ensures { spec.IsTable spec.number_of (spec.number_value packed.now) numbers.old numbers.new }
{
    for position in 0..numbers.len() {
        numbers[position] = number_value(packed, position);
    }
}

fn put_strings<'a>(packed: &Packed<'a>, strings: &mut [Text<'a>])
    ensures { spec.IsTable spec.text_of (spec.string_value packed.now) strings.old strings.new }
{
    for position in 0..strings.len() {
        strings[position] = string_value(packed, position);
    }
}
