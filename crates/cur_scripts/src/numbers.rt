//! Numbers in decimal.
ghost use Rattle.std.specs.Prelude.{◌≡◌, ◌<◌, ◌≤◌, length, option_map, IfSome, Some};
ghost use Rattle.cur_scripts.specs.{Words.{front_word, past_front_word}, Numbers.{window_in}};
ghost use Rattle.cur_scripts.specs.Numbers as spec;

// The least number of nine digits: with one more digit, a number from here on may be out of range.
const NINE_DIGITS: u32 = 100_000_000;

// The greatest value of a word, whatever its sign.
const GREATEST: u64 = 2_147_483_648;

fn digit_in(byte: u8) -> Option<u32>
    ensures value { result ≡ spec.digit_in byte }
    ensures range { IfSome result (λ digit. digit < 10) }
{
    if b'0' <= byte && byte <= b'9' {
        Some((byte - b'0') as u32)
    } else {
        None
    }
}

/// The number below 1,000,000,000 that the first word of `text` spells without a sign, and the text
/// after that word.
#[tactic(auto, using(crate::proofs::WordsLeft::divided, std::proofs::lemmas::List::take_rest))]
pub(crate) fn short_number(text: &[u8]) -> Option<(u32, &[u8])>
    ensures value { IfSome result (λ x. window_in (front_word text.now) ≡ Some x.0) }
    ensures rest { IfSome result (λ x. x.1.now ≡ past_front_word text.now) }
    ensures range { IfSome result (λ x. x.0 ≤ 2147483647) }
{
    let (number, count) = short_digits(text)?;
    Some((number, &text[count..]))
}

// The number below 1,000,000,000 that the first word of `text` spells without a sign, and the
// number of its digits.
fn short_digits(text: &[u8]) -> Option<(u32, usize)>
    ensures value { IfSome result (λ x. window_in (front_word text.now) ≡ Some x.0) }
    ensures digits { IfSome result (λ x. length (front_word text.now) ≡ x.1) }
    ensures range { IfSome result (λ x. x.0 ≤ 2147483647) }
{
    let mut number = 0;
    let mut at = 0;
    while at < text.len() && text[at] != b' ' {
        if number >= NINE_DIGITS {
            return None;
        }
        number = number * 10 + digit_in(text[at])?;
        at += 1;
    }
    if at == 0 {
        return None;
    }
    Some((number, at))
}

fn capped(number: u64) -> u32
    ensures value { result ≡ spec.capped number }
    ensures range { result ≤ 2147483649 }
{
    if number <= GREATEST {
        number as u32
    } else {
        GREATEST as u32 + 1
    }
}

// The number that these digits spell, or one more than the greatest allowed.
fn digits(text: &[u8]) -> Option<u32>
    ensures { result ≡ option_map spec.capped (spec.spelled_after 0 text.now) }
{
    let mut number = 0;
    for byte in text {
        let digit = digit_in(*byte)?;
        number = capped(number as u64 * 10 + digit as u64);
    }
    Some(number)
}

fn spelled(text: &[u8]) -> Option<u32>
    ensures { result ≡ option_map spec.capped (spec.spelled text.now) }
{
    match text {
        [] => None,
        _ => digits(text),
    }
}

/// The number that `word` spells without a sign, if it is at most `limit`, which must be at most 2147483648.
#[tactic(auto, using(crate::proofs::Caps::limited))]
pub(crate) fn natural(limit: u32, word: &[u8]) -> Option<u32>
    requires { limit ≤ 2147483648 }
    ensures value { result ≡ spec.natural limit word.now }
    ensures range { IfSome result (λ n. n ≤ limit) }
{
    at_most(limit, spelled(word)?)
}

fn at_most(limit: u32, number: u32) -> Option<u32>
    ensures value { result ≡ spec.at_most limit number }
    ensures range { IfSome result (λ n. n ≤ limit) }
{
    if number <= limit { Some(number) } else { None }
}

/// The number that `word` spells, with or without a minus sign.
pub(crate) fn number_in(word: &[u8]) -> Option<i32>
    ensures { result ≡ spec.number_in word.now }
{
    match word {
        [] => None,
        [b'-', digits @ ..] => Some(negated(natural(2_147_483_648, digits)?)),
        _ => Some(natural(2_147_483_647, word)? as i32),
    }
}

fn negated(number: u32) -> i32
    requires { number ≤ 2147483648 }
    ensures { result ≡ spec.negated number }
{
    (0 - number as i64) as i32
}

/// The number of a window.
pub(crate) fn window_in(word: &[u8]) -> Option<usize>
    ensures { result ≡ spec.window_in word.now }
{
    Some(natural(2_147_483_647, word)? as usize)
}

/// A flag: 0 or 1.
pub(crate) fn flag_in(word: &[u8]) -> Option<bool>
    ensures { result ≡ spec.flag_in word.now }
{
    match number_in(word)? {
        0 => Some(false),
        1 => Some(true),
        _ => None,
    }
}

/// Whether the word is 0.
pub(crate) fn zero_in(word: &[u8]) -> Option<()>
    ensures { result ≡ spec.zero_in word.now }
{
    match number_in(word)? {
        0 => Some(()),
        _ => None,
    }
}
