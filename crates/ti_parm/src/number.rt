//! Numbers in a parameter string.
ghost use Rattle.std.specs.Prelude.{◌≡◌, ◌<◌, ◌≤◌, IfSome, MatchOption, None, Some, length, min};
ghost use Rattle.ti_parm.specs.Codes.{behind_digits, digit_at, number_on};

/// The greatest number that `%{..}` may hold.
pub const LARGEST: u64 = 2_147_483_647;

/// The value of the digit that `text` begins with, and the rest.
fn digit_ahead(text: &[u8]) -> Option<(u8, &[u8])>
    ensures digit { MatchOption result (digit_at text.now ≡ None) (λ x. digit_at text.now ≡ Some (x.0, x.1.now)) }
    ensures small { IfSome result (λ x. x.0 < 10) }
    ensures shorter { IfSome result (λ x. length x.1.now < length text.now) }
{
    match text {
        [digit @ b'0'..=b'9', rest @ ..] => Some((*digit - b'0', rest)),
        _ => None,
    }
}

/// The number that `text` begins with, at most one above the greatest, and the rest after its digits.
pub fn number(text: &[u8]) -> (u64, &[u8])
    ensures value { result.0 ≡ min 2147483648 (number_on 0 text.now) }
    ensures rest { result.1.now ≡ behind_digits text.now }
    ensures within { length result.1.now ≤ length text.now }
{
    let mut value = 0;
    let mut rest = text;
    while let Some((digit, more)) = digit_ahead(rest) {
        value = (10 * value + u64::from(digit)).min(LARGEST + 1);
        rest = more;
    }
    (value, rest)
}
