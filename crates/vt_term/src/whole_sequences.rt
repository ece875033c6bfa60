//! Reading a whole control sequence at once, if it has only parameters.

ghost use Rattle.std.specs.Prelude.{◌≡◌, ◌+◌, ◌<◌, ◌≤◌, length, take, IfSome};
ghost use Rattle.vt_term.specs.{ParserStates.{ReadsTo}, Text.{sequence_limit}};

use crate::parser::{SEQUENCE_LIMIT, with_digit};

/// A final byte, its place after the introducer, and the count of numbers before it.
#[derive(Clone, Copy)]
pub(crate) struct Found {
    pub at: usize,
    pub last: u8,
    pub count: usize,
}

/// Reads digits and semicolons up to a final byte into `numbers`; `None` if there is no final byte, another byte
/// comes before it, the sequence is too long, or there is no room for all numbers.
pub(crate) fn read_parameters(bytes: &[u8], numbers: &mut [Option<u16>]) -> Option<Found>
    requires { 0 < length numbers.old }
    ensures len { length numbers.new ≡ length numbers.old }
    ensures count { IfSome result (λ found. found.count ≤ length numbers.new) }
    ensures short { IfSome result (λ found. found.at + 4 ≤ sequence_limit) }
    ensures read { IfSome result (λ found. ReadsTo bytes.now (take found.count numbers.new) found.at found.last) }
{
    let mut count = 0;
    let mut number = None;
    for at in 0..bytes.len().min(SEQUENCE_LIMIT - 3) {
        let byte = bytes[at];
        match byte {
            b'0'..=b'9' => number = Some(with_digit(number, byte)),
            b';' if count + 1 < numbers.len() => {
                numbers[count] = number;
                count += 1;
                number = None;
            }
            0x40..=0x7e => {
                numbers[count] = number;
                return Some(Found {
                    at,
                    last: byte,
                    count: count + 1,
                });
            }
            _ => return None,
        }
    }
    None
}
