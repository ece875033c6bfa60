//! Cutting a text at the first byte of a kind.
ghost use Rattle.std.specs.List.{position};
ghost use Rattle.std.specs.Prelude.{◌≡◌, ◌==◌, ◌<◌, ◌≤◌, ◌+◌, ◌∷◌, length, take, drop, option_map, IfSome};
ghost use Rattle.cur_scripts.specs.Cuts.{cut_at, parts_of, parts_left, left_size};

use memchr::memchr;

/// The bytes of `text` before and after its first `byte`, if it has one.
#[inline(always)]
#[tactic(auto, using(crate::proofs::CutFacts::cut_found))]
pub(crate) fn cut(byte: u8, text: &[u8]) -> Option<(&[u8], &[u8])>
    ensures value { option_map (λ x. (x.0.now, x.1.now)) result ≡ cut_at byte text.now }
    ensures shorter { IfSome result (λ x. length x.1.now < length text.now) }
{
    match place_of(byte, text) {
        None => None,
        Some(at) => Some(before_and_behind(text, at)),
    }
}

/// The first of the parts of `text` between the bytes `byte`, and the text after that part, if any.
#[tactic(auto, using(crate::proofs::CutFacts::part_first, crate::proofs::CutFacts::part_alone))]
pub(crate) fn first_part(byte: u8, text: &[u8]) -> (&[u8], Option<&[u8]>)
    ensures parts { parts_of byte text.now ≡ result.0.now ∷ parts_left byte (option_map (λ rest. rest.now) result.1) }
    ensures shorter { left_size (option_map (λ rest. rest.now) result.1) ≤ length text.now }
{
    match cut(byte, text) {
        Some((part, rest)) => (part, Some(rest)),
        None => (text, None),
    }
}

// The place of the first `byte` in `text`.
fn place_of(byte: u8, text: &[u8]) -> Option<usize>
    ensures value { result ≡ position (λ b. b == byte) text.now }
    ensures range { IfSome result (λ at. at < length text.now) }
{
    memchr(byte, text)
}

#[tactic(auto, using(std::proofs::lemmas::List::take_rest))]
fn before_and_behind(bytes: &[u8], at: usize) -> (&[u8], &[u8])
    requires { at < length bytes.now }
    ensures before { result.0.now ≡ take at bytes.now }
    ensures behind { result.1.now ≡ drop (at + 1) bytes.now }
{
    (&bytes[..at], &bytes[at + 1..])
}
