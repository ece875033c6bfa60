//! The digits of numbers.
ghost use Rattle.std.specs.{Prelude.{◌≡◌, ◌<◌, ◌≤◌, drop}, Fmt.{digit_glyph, digits}};

/// Room for the digits of a number of 32 bits, in base 8 or more.
pub const PLACES: usize = 12;

/// The digit for a value, which must be below 16.
fn glyph(value: u32, upper: bool) -> u8
    requires { value < 16 }
    ensures { result ≡ digit_glyph upper value }
{
    let value = value as u8;
    if value < 10 {
        b'0' + value
    } else if upper {
        b'A' - 10 + value
    } else {
        b'a' - 10 + value
    }
}

/// Writes the digits of `number` at the end of the buffer, and returns the place where they begin. The base must be
/// from 8 to 16.
pub fn digits_at_end(number: u32, base: u32, upper: bool, buffer: &mut [u8; PLACES]) -> usize
    requires { (8 ≤ base) × (base ≤ 16) }
    ensures within { result ≤ 12 }
    ensures digits { drop result buffer.new ≡ digits base upper number }
{
    let mut left = number;
    let mut start = PLACES;
    loop {
        start -= 1;
        buffer[start] = glyph(left % base, upper);
        left /= base;
        if left == 0 {
            return start;
        }
    }
}
