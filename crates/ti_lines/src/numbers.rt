//! Decimal numbers of 16 bits, without leading zeros.

ghost use Rattle.std.specs.{Prelude.{◌≡◌, ◌++◌, OnOk}, Fmt.{decimal}};
ghost use Rattle.ti_lines.specs.EffectReader as spec;

use itoa::Buffer;
use std::alloc::AllocError;

/// The number with one more digit, if it has 16 bits.
fn with_digit(number: u16, digit: u8) -> Option<u16>
    ensures { result ≡ spec.with_digit number digit }
{
    if b'0' <= digit && digit <= b'9' {
        let longer = 10 * u32::from(number) + u32::from(digit - b'0');
        if longer <= 65535 {
            return Some(longer as u16);
        }
    }
    None
}

fn digits_value(digits: &[u8]) -> Option<u16>
    ensures { result ≡ spec.digits_from 0 digits.now }
{
    let mut number = 0;
    for digit in digits {
        number = with_digit(number, *digit)?;
    }
    Some(number)
}

/// The number that these decimal digits spell. `None` if there are none, for a leading zero, a
/// number above 65535, or any other byte.
#[tactic(auto, unfolding(crate::specs::EffectReader::number_at))]
pub fn number_at(digits: &[u8]) -> Option<u16>
    ensures { result ≡ spec.number_at digits.now }
{
    match digits {
        [] => None,
        [b'0'] => Some(0),
        [b'0', ..] => None,
        _ => digits_value(digits),
    }
}

/// The number that `digits` spell, if it is above 0.
pub(crate) fn positive_at(digits: &[u8]) -> Option<u16>
    ensures { result ≡ spec.positive (spec.number_at digits.now) }
{
    match number_at(digits) {
        Some(number) if number > 0 => Some(number),
        _ => None,
    }
}

/// Appends the number in decimal. Fails if memory runs out.
pub fn push_number(number: u16, text: &mut Vec<u8>) -> Result<(), AllocError>
    ensures { OnOk result (text.new.items ≡ text.old.items ++ decimal number) }
{
    let mut digits = Buffer::new();
    text.extend_from_slice(digits.format(number).as_bytes())
}
