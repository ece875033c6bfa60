//! JSON whose bytes can all be printed.

ghost use Rattle.std.specs.{Prelude.{◌≡◌, ◌<◌, ◌++◌, IfOk, OnOk}, List.{flat_map}};
ghost use Rattle.ti_printers.specs.Escapes as spec;

use std::alloc::{AllocError, Global};

/// The JSON `text` with each character outside 32 to 126 as an escape.
pub(crate) fn printable_json(alloc: Global, text: &str) -> Result<Vec<u8>, AllocError>
    ensures { IfOk result (λ line. line.items ≡ spec.printable_json text.now) }
{
    let letters: Vec<char> = text.chars().collect(alloc)?;
    escaped(alloc, letters.as_slice())
}

/// The `letters`, each outside 32 to 126 as an escape.
fn escaped(alloc: Global, letters: &[char]) -> Result<Vec<u8>, AllocError>
    ensures { IfOk result (λ line. line.items ≡ flat_map spec.json_char letters.now) }
{
    let mut line = Vec::new(alloc);
    for letter in letters {
        push_char(*letter, &mut line)?;
    }
    Ok(line)
}

fn push_char(letter: char, line: &mut Vec<u8>) -> Result<(), AllocError>
    ensures { OnOk result (line.new.items ≡ line.old.items ++ spec.json_char letter) }
{
    let code = u32::from(letter);
    if 32 <= code && code <= 126 {
        line.extend_from_slice(&[code as u8])
    } else {
        push_escaped(code, line)
    }
}

/// Appends the escape of the character with this `code`.
fn push_escaped(code: u32, line: &mut Vec<u8>) -> Result<(), AllocError>
    requires { code < 1114112 }
    ensures { OnOk result (line.new.items ≡ line.old.items ++ spec.escaped_char code) }
{
    if code < 65536 {
        line.extend_from_slice(&unit(code as u16))
    } else {
        push_pair(code - 65536, line)
    }
}

/// Appends the pair of surrogates for the character whose code is 65536 + `above`.
fn push_pair(above: u32, line: &mut Vec<u8>) -> Result<(), AllocError>
    requires { above < 1048576 }
    ensures { OnOk result (line.new.items ≡ line.old.items ++ spec.pair_text above) }
{
    let front = unit((55296 + above / 1024) as u16);
    let back = unit((56320 + above % 1024) as u16);
    line.extend_from_slice(&front)?;
    line.extend_from_slice(&back)
}

/// A unit of UTF-16 as JSON escapes it.
fn unit(number: u16) -> [u8; 6]
    ensures { result ≡ spec.unit_text number }
{
    [
        b'\\',
        b'u',
        hex_digit((number / 0x1000) as u8),
        hex_digit((number / 0x100 % 16) as u8),
        hex_digit((number / 16 % 16) as u8),
        hex_digit((number % 16) as u8),
    ]
}

fn hex_digit(number: u8) -> u8
    requires { number < 16 }
    ensures { result ≡ spec.hex_digit number }
{
    if number < 10 {
        b'0' + number
    } else {
        b'a' - 10 + number
    }
}
