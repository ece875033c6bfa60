//! Numbers in decimal, hexadecimal and octal.

ghost use Rattle.std.specs.Prelude.{◌≡◌, ◌<◌, ◌≤◌, option_map, IfSome, IfOk};
ghost use Rattle.ti_source.specs.Numbers.{digit_value, digit_in, digits_from, digits_of, behind_zero, spelled_number};
ghost use Rattle.ti_source.specs.{Numbers.{capped, ranged, number_of}, Source.{Gives}};

use crate::layout::trim_end;
use crate::types::FaultKind;
use ti_caps::GREATEST;

fn digit_value(byte: u8) -> Option<u8>
    ensures { result ≡ digit_value byte }
{
    if b'0' <= byte && byte <= b'9' {
        Some(byte - b'0')
    } else if b'a' <= byte && byte <= b'f' {
        Some(byte - b'a' + 10)
    } else if b'A' <= byte && byte <= b'F' {
        Some(byte - b'A' + 10)
    } else {
        None
    }
}

/// The value of a digit in this base.
#[tactic(auto, unfolding(crate::specs::Numbers::digit_in))]
fn digit_in(base: u32, byte: u8) -> Option<u32>
    ensures value { result ≡ digit_in base byte }
    ensures range { IfSome result (λ digit. digit < base) }
{
    match digit_value(byte) {
        Some(digit) if u32::from(digit) < base => Some(u32::from(digit)),
        _ => None,
    }
}

fn capped(number: u64) -> u32
    ensures value { result ≡ capped number }
    ensures range { result ≤ 2147483648 }
{
    if number <= u64::from(GREATEST) {
        number as u32
    } else {
        GREATEST + 1
    }
}

/// The number that these digits spell, at most one above the greatest number.
fn digits(base: u32, text: &[u8]) -> Option<u32>
    requires least { 1 ≤ base }
    requires most { base ≤ 16 }
    ensures { result ≡ option_map capped (digits_from base 0 text.now) }
{
    let mut number = 0;
    for byte in text {
        let digit = digit_in(base, *byte)?;
        number = capped(u64::from(number) * u64::from(base) + u64::from(digit));
    }
    Some(number)
}

fn digits_of(base: u32, text: &[u8]) -> Option<u32>
    requires least { 1 ≤ base }
    requires most { base ≤ 16 }
    ensures { result ≡ option_map capped (digits_of base text.now) }
{
    match text {
        [] => None,
        _ => digits(base, text),
    }
}

fn behind_zero(rest: &[u8]) -> Option<u32>
    ensures { result ≡ option_map capped (behind_zero rest.now) }
{
    match rest {
        [] => Some(0),
        [b'x', behind @ ..] => digits_of(16, behind),
        _ => digits(8, rest),
    }
}

#[tactic(auto, unfolding(crate::specs::Numbers::spelled_number))]
fn spelled_number(text: &[u8]) -> Option<u32>
    ensures { result ≡ option_map capped (spelled_number text.now) }
{
    match text {
        [] => None,
        [b'0', behind @ ..] => behind_zero(behind),
        _ => digits_of(10, text),
    }
}

/// The number after a `#`.
#[tactic(auto, unfolding(crate::specs::Numbers::number_of))]
pub(crate) fn number_of(value: &[u8]) -> Result<u32, FaultKind>
    ensures given { Gives (λ n. n) result (number_of value.now) }
    ensures range { IfOk result (λ n. n ≤ 2147483647) }
{
    match spelled_number(trim_end(value)) {
        None => Err(FaultKind::BadNumber),
        Some(number) if number <= GREATEST => Ok(number),
        Some(_) => Err(FaultKind::NumberRange),
    }
}
