//! Showing values in a format.
ghost use Rattle.std.specs.Prelude.{◌≡◌, ◌≤◌, ◌++◌, OnOk, drop, length, replicate};
ghost use Rattle.ti_parm.specs.Fault.{Extends};
ghost use Rattle.ti_parm.specs.Formats.{base_of, begins_with_zero, cut, digits_shown, is_upper, laid_out, least_digits};
ghost use Rattle.ti_parm.specs.Formats.{magnitude, number_shown, padded, prefix_of, sign_of, text_shown, zeros_shown};

use crate::digits::{PLACES, digits_at_end};
use crate::formats::{Conversion, Format};
use std::alloc::AllocError;

/// Writes a byte `count` times.
fn write_many(out: &mut Vec<u8>, byte: u8, count: usize) -> Result<(), AllocError>
    ensures ok { OnOk result (out.new.items ≡ out.old.items ++ replicate count byte) }
    ensures grows { Extends out.old.items out.new.items }
{
    for _ in 0..count {
        out.push(byte)?;
    }
    Ok(())
}

/// Writes spaces, a prefix, zeros, a text and spaces.
fn write_parts(
    out: &mut Vec<u8>,
    before: usize,
    prefix: &[u8],
    zeros: usize,
    text: &[u8],
    behind: usize,
) -> Result<(), AllocError>
    ensures ok { OnOk result (out.new.items ≡ out.old.items ++ laid_out before prefix.now zeros text.now behind) }
    ensures grows { Extends out.old.items out.new.items }
{
    write_many(out, b' ', before)?;
    out.extend_from_slice(prefix)?;
    write_many(out, b'0', zeros)?;
    out.extend_from_slice(text)?;
    write_many(out, b' ', behind)
}

/// Writes a prefix, zeros and digits, padded to the format's width.
fn write_padded(
    format: &Format,
    prefix: &[u8],
    zeros: usize,
    digits: &[u8],
    out: &mut Vec<u8>,
) -> Result<(), AllocError>
    requires { (length prefix.now ≤ 2) × (zeros ≤ 255) × (length digits.now ≤ 12) }
    ensures ok { OnOk result (out.new.items ≡ out.old.items ++ padded format.now prefix.now zeros digits.now) }
    ensures grows { Extends out.old.items out.new.items }
{
    let shown = prefix.len() + zeros + digits.len();
    let room = usize::from(format.width).saturating_sub(shown);
    if format.flags.left {
        write_parts(out, 0, prefix, zeros, digits, room)
    } else if format.flags.zero && format.precision.is_none() {
        write_parts(out, 0, prefix, zeros + room, digits, 0)
    } else {
        write_parts(out, room, prefix, zeros, digits, 0)
    }
}

/// The sign shown before a number.
fn sign_of(format: &Format, number: i32) -> &'static [u8]
    ensures sign { result.now ≡ sign_of format.now number }
    ensures short { length result.now ≤ 2 }
{
    if number < 0 {
        b"-"
    } else if format.flags.plus {
        b"+"
    } else if format.flags.space {
        b" "
    } else {
        b""
    }
}

/// The base of the digits.
fn base_of(conversion: Conversion) -> u32
    ensures base { result ≡ base_of conversion }
    ensures within { (8 ≤ result) × (result ≤ 16) }
{
    match conversion {
        Conversion::Decimal | Conversion::Text => 10,
        Conversion::Octal => 8,
        Conversion::LowerHex | Conversion::UpperHex => 16,
    }
}

/// Whether digits from ten on are capital letters.
fn is_upper(conversion: Conversion) -> bool
    ensures { result ≡ is_upper conversion }
{
    match conversion {
        Conversion::UpperHex => true,
        _ => false,
    }
}

/// The number whose digits are shown.
fn magnitude(conversion: Conversion, number: i32) -> u32
    ensures { result ≡ magnitude conversion number }
{
    match conversion {
        Conversion::Decimal | Conversion::Text => number.unsigned_abs(),
        Conversion::Octal | Conversion::LowerHex | Conversion::UpperHex => number.cast_unsigned(),
    }
}

/// The least number of digits.
fn least_digits(format: &Format) -> usize
    ensures least { result ≡ least_digits format.now.precision }
    ensures small { result ≤ 255 }
{
    match format.precision {
        Some(least) => usize::from(least),
        None => 1,
    }
}

/// Writes the digits that a format shows of a number at the end of the buffer, and returns the place where they
/// begin.
fn put_digits(format: &Format, magnitude: u32, buffer: &mut [u8; PLACES]) -> usize
    ensures within { result ≤ 12 }
    ensures digits { drop result buffer.new ≡ digits_shown format.now magnitude }
{
    if magnitude == 0 && least_digits(format) == 0 {
        PLACES
    } else {
        digits_at_end(
            magnitude,
            base_of(format.conversion),
            is_upper(format.conversion),
            buffer,
        )
    }
}

/// The bytes before the digits of a number.
fn prefix_of(format: &Format, number: i32, zeros: usize, digits: &[u8]) -> &'static [u8]
    requires fill { zeros ≡ zeros_shown format.now (magnitude format.now.conversion number) }
    requires text { digits.now ≡ digits_shown format.now (magnitude format.now.conversion number) }
    ensures prefix { result.now ≡ prefix_of format.now.conversion format.now number }
    ensures short { length result.now ≤ 2 }
{
    match format.conversion {
        Conversion::Decimal => sign_of(format, number),
        Conversion::Octal if format.flags.alternate && !begins_with_zero(zeros, digits) => b"0",
        Conversion::LowerHex if format.flags.alternate && number != 0 => b"0x",
        Conversion::UpperHex if format.flags.alternate && number != 0 => b"0X",
        _ => b"",
    }
}

/// Whether zeros and digits begin with a zero.
fn begins_with_zero(zeros: usize, digits: &[u8]) -> bool
    ensures { result ≡ begins_with_zero (replicate zeros 48 ++ digits.now) }
{
    match digits {
        _ if zeros > 0 => true,
        [b'0', ..] => true,
        _ => false,
    }
}

/// Appends a number to `out` in a format. If memory runs out, some bytes may have been appended.
#[tactic(auto, unfolding(crate::specs::Formats::number_shown))]
pub fn write_number(format: &Format, number: i32, out: &mut Vec<u8>) -> Result<(), AllocError>
    ensures ok { OnOk result (out.new.items ≡ out.old.items ++ number_shown format.now number) }
    ensures grows { Extends out.old.items out.new.items }
{
    let mut buffer = [0; PLACES];
    let start = put_digits(format, magnitude(format.conversion, number), &mut buffer);
    let digits = &buffer[start..];
    let zeros = least_digits(format).saturating_sub(digits.len());
    let prefix = prefix_of(format, number, zeros, digits);
    write_padded(format, prefix, zeros, digits, out)
}

/// Appends a text to `out` in a format. If memory runs out, some bytes may have been appended.
#[tactic(auto, unfolding(crate::specs::Formats::text_shown))]
pub fn write_text(format: &Format, text: &[u8], out: &mut Vec<u8>) -> Result<(), AllocError>
    ensures ok { OnOk result (out.new.items ≡ out.old.items ++ text_shown format.now text.now) }
    ensures grows { Extends out.old.items out.new.items }
{
    let shown = cut(format, text);
    let room = usize::from(format.width).saturating_sub(shown.len());
    if format.flags.left {
        write_parts(out, 0, &[], 0, shown, room)
    } else {
        write_parts(out, room, &[], 0, shown, 0)
    }
}

/// The part of a text that the precision leaves.
fn cut<'t>(format: &Format, text: &'t [u8]) -> &'t [u8]
    ensures { result.now ≡ cut format.now.precision text.now }
{
    match format.precision {
        Some(most) if usize::from(most) < text.len() => &text[..usize::from(most)],
        _ => text,
    }
}
