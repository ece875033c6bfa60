//! Cells and attributes as words.
ghost use Rattle.std.specs.Prelude.{◌≡◌, ◌<◌, IfSome, option_map};
ghost use Rattle.cur_scripts.specs.Cells as spec;

use crate::cuts::cut;
use crate::numbers::natural;
use cur_drawing::{Attrs, Put};

/// A cell: its byte in hexadecimal, its attributes after a slash, its pair after a colon.
pub(crate) fn cell_in(word: &[u8]) -> Option<Put>
    ensures { result ≡ spec.cell_in word.now }
{
    match word {
        [high, low] => Some(Put {
            byte: byte_in(*high, *low)?,
            attrs: Attrs::none(),
            pair: 0,
        }),
        [high, low, rest @ ..] => styled_in(byte_in(*high, *low)?, rest),
        _ => None,
    }
}

/// A cell, or a dash for `default`.
pub(crate) fn cell_or(default: Put, word: &[u8]) -> Option<Put>
    ensures { result ≡ spec.cell_or default word.now }
{
    if word == b"-".as_slice() {
        Some(default)
    } else {
        cell_in(word)
    }
}

/// The letters of a set of attributes, or a dash for none.
pub(crate) fn attrs_in(word: &[u8]) -> Option<Attrs>
    ensures { result ≡ spec.attrs_in word.now }
{
    if word == b"-".as_slice() {
        Some(Attrs::none())
    } else {
        letters_in(word)
    }
}

fn byte_in(high: u8, low: u8) -> Option<u8>
    ensures { result ≡ spec.byte_in high low }
{
    Some(hex_digit(high)? * 16 + hex_digit(low)?)
}

fn hex_digit(byte: u8) -> Option<u8>
    ensures value { result ≡ spec.hex_digit byte }
    ensures range { IfSome result (λ digit. digit < 16) }
{
    if b'0' <= byte && byte <= b'9' {
        Some(byte - b'0')
    } else if b'a' <= byte && byte <= b'f' {
        Some(byte - b'a' + 10)
    } else {
        None
    }
}

// A cell of this byte, followed by its attributes and its pair.
#[inline(never)]
fn styled_in(byte: u8, text: &[u8]) -> Option<Put>
    ensures { result ≡ spec.styled_in byte text.now }
{
    match cut(b':', text) {
        None => Some(Put {
            byte,
            attrs: marks_in(text)?,
            pair: 0,
        }),
        Some((marks, pair)) => Some(Put {
            byte,
            attrs: marks_in(marks)?,
            pair: natural(63, pair)? as u8,
        }),
    }
}

// Attributes: a slash and letters, or nothing.
fn marks_in(text: &[u8]) -> Option<Attrs>
    ensures { result ≡ spec.marks_in text.now }
{
    match text {
        [] => Some(Attrs::none()),
        [b'/', letters @ ..] => letters_in(letters),
        _ => None,
    }
}

fn letters_in(text: &[u8]) -> Option<Attrs>
    ensures { result ≡ spec.letters_in text.now }
{
    match text {
        [] => None,
        _ => all_letters(text),
    }
}

fn all_letters(text: &[u8]) -> Option<Attrs>
    ensures { result ≡ spec.letters_after 0 text.now }
{
    let mut attrs = Attrs::none();
    for byte in text {
        attrs = attrs.with(letter_in(*byte)?);
    }
    Some(attrs)
}

fn letter_in(byte: u8) -> Option<Attrs>
    ensures { result ≡ spec.letter_in byte }
{
    match byte {
        b'S' => Some(Attrs::STANDOUT),
        b'U' => Some(Attrs::UNDERLINE),
        b'R' => Some(Attrs::REVERSE),
        b'K' => Some(Attrs::BLINK),
        b'D' => Some(Attrs::DIM),
        b'B' => Some(Attrs::BOLD),
        b'I' => Some(Attrs::INVISIBLE),
        b'A' => Some(Attrs::ALTCHARSET),
        _ => None,
    }
}
