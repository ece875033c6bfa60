//! Cutting a text at the first byte of a kind.
ghost use Rattle.std.specs.List.{position};
ghost use Rattle.std.specs.Prelude.{◌≡◌, ◌==◌, ◌<◌, ◌+◌, ◌∷◌, [], length, take, drop, option_map, IfNone, IfSome};
ghost use Rattle.ti_lines.specs.{Cut.{cut_at}, EffectReader.{parts_of}};

/// The bytes before and after the first `byte` of `text`, if it has one. The first part of `text` is then
/// the bytes before it, and the other parts are those of the bytes after it; otherwise `text` is one part.
#[tactic(auto, using(std::proofs::lemmas::List::take_rest, crate::proofs::CutFacts::cut_found, crate::proofs::TextCuts::cut_found, crate::proofs::TextCuts::cut_none))]
pub(crate) fn cut(byte: u8, text: &[u8]) -> Option<(&[u8], &[u8])>
    ensures value { option_map (λ x. (x.0.now, x.1.now)) result ≡ cut_at byte text.now }
    ensures found { IfSome result (λ x. parts_of byte text.now ≡ x.0.now ∷ parts_of byte x.1.now) }
    ensures shorter { IfSome result (λ x. length x.1.now < length text.now) }
    ensures none { IfNone result (parts_of byte text.now ≡ text.now ∷ []) }
{
    match place_of(byte, text) {
        None => None,
        Some(at) => Some((&text[..at], &text[at + 1..])),
    }
}

/// The place of the first `byte` of `text`.
fn place_of(byte: u8, text: &[u8]) -> Option<usize>
    ensures value { result ≡ position (λ b. b == byte) text.now }
    ensures range { IfSome result (λ at. at < length text.now) }
{
    text.iter().position(|other| *other == byte)
}
