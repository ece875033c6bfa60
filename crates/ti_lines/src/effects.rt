//! Reading an effect's text.
ghost use Rattle.std.specs.Prelude.{◌≡◌, ◌<◌, Some, IfSome, option_map};
ghost use Rattle.vt_effects.specs.declared.effects.Effect as declared;
ghost use Rattle.ti_lines.specs.EffectText.{spelled, IsPlain};
ghost use Rattle.ti_lines.specs.EffectReader as spec;

use crate::cuts::cut;
use crate::letters::{are_dots, ink_at, switch_at};
use crate::numbers::{number_at, positive_at};
use crate::words::{Found, Marks, Word};
use vt_effects::{Effect, Erasure, Ink, Move, Region, Rendering, Scroll, Sets, Switch};

/// The effect whose text this is. `None` if no effect has it in its one form: for unknown words, or words
/// out of order or twice; for a move by zero or the erasure of zero cells; for leading zeros and numbers
/// above 65535; for letters that all say "kept", and for spaces other than the one between two words.
#[tactic(auto, using(crate::proofs::EffectTexts::reads_spelled, crate::proofs::EffectTexts::reads_plain, crate::proofs::EffectTexts::spelled_reads))]
pub fn read_effect(text: &[u8]) -> Option<Effect>
    ensures value { result ≡ spec.effect_in text.now }
    ensures spelled { IfSome result (λ effect. spelled effect ≡ text.now) }
    ensures plain { IfSome result (λ effect. IsPlain effect) }
    ensures each { (effect : declared.Effect) → IsPlain effect → spelled effect ≡ text.now → result ≡ Some effect }
{
    effect_in(text)
}

#[tactic(auto, unfolding(crate::specs::EffectReader::effect_in))]
fn effect_in(text: &[u8]) -> Option<Effect>
    ensures { result ≡ spec.effect_in text.now }
{
    if is_all(b"-", text) {
        return Some(Effect::unchanged());
    }
    let none_yet = Found {
        effect: Effect::unchanged(),
        next: 0,
    };
    Some(read_behind(none_yet, text)?.effect)
}

/// The effect `found`, changed by all words of `text`, if they follow in order.
#[tactic(auto, unfolding(crate::specs::EffectReader::read_behind))]
fn read_behind(found: Found, text: &[u8]) -> Option<Found>
    ensures { result ≡ spec.read_behind found text.now }
{
    let mut found = found;
    let mut rest = text;
    while let Some((word, behind)) = cut(b' ', rest) {
        found = with_word(found, word)?;
        rest = behind;
    }
    with_word(found, rest)
}

/// The effect `found`, changed by one more word.
#[tactic(auto, unfolding(crate::specs::EffectReader::with_word))]
fn with_word(found: Found, word: &[u8]) -> Option<Found>
    ensures { result ≡ spec.with_word found word.now }
{
    let word = word_at(word)?;
    let place = rank(word);
    if place < found.next {
        return None;
    }
    Some(Found {
        effect: put(word, found.effect),
        next: place + 1,
    })
}

/// The place of a word among all kinds.
fn rank(word: Word) -> u8
    ensures value { result ≡ spec.rank word }
    ensures range { result < 10 }
{
    match word {
        Word::Row(_) => 0,
        Word::Col(_) => 1,
        Word::EndsPending => 2,
        Word::Erases(_) => 3,
        Word::Scrolls(_) => 4,
        Word::Looks(_) => 5,
        Word::Inks(_, _) => 6,
        Word::Chooses(_) => 7,
        Word::Rows(_) => 8,
        Word::Shows(_) => 9,
    }
}

/// The effect with the change that a word says.
fn put(word: Word, effect: Effect) -> Effect
    ensures { result ≡ spec.put word effect }
{
    match word {
        Word::Row(row) => Effect { row, ..effect },
        Word::Col(col) => Effect { col, ..effect },
        Word::EndsPending => Effect {
            ends_pending: true,
            ..effect
        },
        Word::Erases(erasure) => Effect { erasure, ..effect },
        Word::Scrolls(scroll) => Effect { scroll, ..effect },
        Word::Looks(marks) => Effect {
            rendition: marked(marks, effect.rendition),
            ..effect
        },
        Word::Inks(foreground, background) => Effect {
            rendition: Rendering {
                foreground,
                background,
                ..effect.rendition
            },
            ..effect
        },
        Word::Chooses(charset) => Effect { charset, ..effect },
        Word::Rows(region) => Effect {
            margins: Some(region),
            ..effect
        },
        Word::Shows(visible) => Effect { visible, ..effect },
    }
}

fn marked(marks: Marks, rendition: Rendering) -> Rendering
    ensures { result ≡ spec.with_marks marks rendition }
{
    Rendering {
        bold: marks.bold,
        faint: marks.faint,
        underline: marks.underline,
        blink: marks.blink,
        negative: marks.negative,
        concealed: marks.concealed,
        ..rendition
    }
}

#[tactic(auto, unfolding(crate::specs::EffectReader::word_at))]
fn word_at(word: &[u8]) -> Option<Word>
    ensures { result ≡ spec.word_at word.now }
{
    fixed_at(word).or(numbered_at(word)).or(lettered_at(word))
}

/// The words without parts.
fn fixed_at(word: &[u8]) -> Option<Word>
    ensures { result ≡ spec.fixed_at word.now }
{
    if is_all(b"nopend", word) {
        Some(Word::EndsPending)
    } else if is_all(b"all", word) {
        Some(Word::Erases(Erasure::Screen))
    } else if is_all(b"tail", word) {
        Some(Word::Erases(Erasure::Tail))
    } else if is_all(b"head", word) {
        Some(Word::Erases(Erasure::Head))
    } else if is_all(b"rest", word) {
        Some(Word::Erases(Erasure::Rest))
    } else if is_all(b"up", word) {
        Some(Word::Scrolls(Scroll::Up))
    } else if is_all(b"down", word) {
        Some(Word::Scrolls(Scroll::Down))
    } else if is_all(b"show", word) {
        Some(Word::Shows(Switch::On))
    } else if is_all(b"hide", word) {
        Some(Word::Shows(Switch::Off))
    } else {
        None
    }
}

/// The words with numbers.
fn numbered_at(word: &[u8]) -> Option<Word>
    ensures { result ≡ spec.numbered_at word.now }
{
    if let Some(row) = move_at(b"row", word) {
        Some(Word::Row(row))
    } else if let Some(col) = move_at(b"col", word) {
        Some(Word::Col(col))
    } else if let Some(count) = next_at(word) {
        Some(Word::Erases(Erasure::Next(count)))
    } else if let Some(region) = region_at(word) {
        Some(Word::Rows(region))
    } else {
        None
    }
}

/// The words with letters for marks, colors or character sets.
fn lettered_at(word: &[u8]) -> Option<Word>
    ensures { result ≡ spec.lettered_at word.now }
{
    if let Some(marks) = marks_at(word) {
        Some(Word::Looks(marks))
    } else if let Some((foreground, background)) = inks_at(word) {
        Some(Word::Inks(foreground, background))
    } else if let Some(sets) = sets_at(word) {
        Some(Word::Chooses(sets))
    } else {
        None
    }
}

/// The rest of `word` after the prefix `front`.
#[tactic(auto, using(crate::proofs::Glyphs::stripped))]
fn behind<'a>(front: &[u8], word: &'a [u8]) -> Option<&'a [u8]>
    ensures { option_map (λ rest. rest.now) result ≡ spec.behind front.now word.now }
{
    word.strip_prefix(front)
}

fn is_all(whole: &[u8], word: &[u8]) -> bool
    ensures { result ≡ spec.is_all whole.now word.now }
{
    word == whole
}

fn move_at(name: &[u8], word: &[u8]) -> Option<Move>
    ensures { result ≡ spec.move_at name.now word.now }
{
    match behind(name, word)? {
        [b'=', digits @ ..] => Some(Move::To(number_at(digits)?)),
        [b'-', digits @ ..] => Some(Move::Back(positive_at(digits)?)),
        [b'+', digits @ ..] => Some(Move::Forward(positive_at(digits)?)),
        _ => None,
    }
}

fn next_at(word: &[u8]) -> Option<u16>
    ensures { result ≡ spec.next_at word.now }
{
    positive_at(behind(b"next=", word)?)
}

fn region_at(word: &[u8]) -> Option<Region>
    ensures { result ≡ spec.region_at word.now }
{
    region_of(behind(b"rows:", word)?)
}

/// Two numbers with a comma between them.
#[tactic(auto, using(crate::proofs::Forms::three_parts))]
fn region_of(lines: &[u8]) -> Option<Region>
    ensures { result ≡ spec.region_of (spec.parts_of 44 lines.now) }
{
    let (top, rest) = cut(b',', lines)?;
    match cut(b',', rest) {
        None => Some(Region {
            top: number_at(top)?,
            bottom: number_at(rest)?,
        }),
        Some(_) => None,
    }
}

/// The letters after a name, unless each of them is a dot.
fn letters_at<'a>(name: &[u8], word: &'a [u8]) -> Option<&'a [u8]>
    ensures { option_map (λ letters. letters.now) result ≡ spec.letters_at name.now word.now }
{
    let letters = behind(name, word)?;
    if are_dots(letters) {
        None
    } else {
        Some(letters)
    }
}

fn marks_at(word: &[u8]) -> Option<Marks>
    ensures { result ≡ spec.marks_at word.now }
{
    match letters_at(b"look:", word)? {
        [bold, faint, underline, blink, negative, concealed] => Some(Marks {
            bold: switch_at(b'1', b'0', *bold)?,
            faint: switch_at(b'1', b'0', *faint)?,
            underline: switch_at(b'1', b'0', *underline)?,
            blink: switch_at(b'1', b'0', *blink)?,
            negative: switch_at(b'1', b'0', *negative)?,
            concealed: switch_at(b'1', b'0', *concealed)?,
        }),
        _ => None,
    }
}

fn inks_at(word: &[u8]) -> Option<(Ink, Ink)>
    ensures { result ≡ spec.inks_at word.now }
{
    match letters_at(b"ink:", word)? {
        [foreground, background] => Some((ink_at(*foreground)?, ink_at(*background)?)),
        _ => None,
    }
}

fn sets_at(word: &[u8]) -> Option<Sets>
    ensures { result ≡ spec.sets_at word.now }
{
    match letters_at(b"set:", word)? {
        [g0, g1, shift] => Some(Sets {
            g0_graphic: switch_at(b'0', b'B', *g0)?,
            g1_graphic: switch_at(b'0', b'B', *g1)?,
            shifted_out: switch_at(b'O', b'I', *shift)?,
        }),
        _ => None,
    }
}
