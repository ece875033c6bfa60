//! The escapes in the value of a string.

ghost use Rattle.std.specs.Prelude.{◌≡◌, ℕ, ◌+◌, ◌*◌, ◌-◌, ◌<◌, ◌≤◌, ◌==◌, nat_le, length, drop, map, Some, option_map};
ghost use Rattle.std.specs.Prelude.{IfOk, IfErr, IfSome, OnOk, List};
ghost use Rattle.ti_source.specs.Escapes.{stored, plain, is_octal, letter_value, letter_piece, third_at, second_at};
ghost use Rattle.ti_source.specs.Escapes.{escape_at, control_of, control_at, piece_at, decoding_of, unescaped, FailsBy};
ghost use Rattle.ti_source.specs.Escapes.{decoding_view};

use std::alloc::{AllocError, Global};
use thiserror::Error;
use ti_caps::LONGEST;

/// The reason why the value of a string can't be decoded.
#[derive(Clone, Copy, Debug, PartialEq, Eq, Error)]
pub enum EscapeFault {
    /// A backslash at the end, or a caret at the end or before a comma.
    #[error("BadEscape")]
    BadEscape,
    /// The string would have more than 4095 bytes.
    #[error("TooLong")]
    TooLong,
    /// Out of memory.
    #[error("NoMemory")]
    NoMemory,
}

/// An escape, or one byte that means itself.
#[derive(Clone, Copy)]
pub(crate) struct Piece {
    /// The byte that it means.
    pub(crate) byte: u8,
    /// The number of bytes of the text that it takes.
    pub(crate) used: usize,
    /// Whether it is a backslash before a byte that has no meaning there.
    pub(crate) odd: bool,
}

/// A decoded string.
#[derive(Drop)]
pub(crate) struct Decoded {
    pub(crate) bytes: Vec<u8>,
    /// The number of odd escapes.
    pub(crate) odd: usize,
}

fn stored(byte: u8) -> u8
    ensures { result ≡ stored byte }
{
    if byte == 0 { 128 } else { byte }
}

fn plain(byte: u8, used: usize) -> Piece
    ensures { result ≡ plain byte used }
{
    Piece {
        byte: stored(byte),
        used,
        odd: false,
    }
}

fn is_octal(byte: u8) -> bool
    ensures { result ≡ is_octal byte }
{
    48 <= byte && byte <= 55
}

fn letter_value(letter: u8) -> Option<u8>
    ensures { result ≡ letter_value letter }
{
    match letter {
        b'E' | b'e' => Some(27),
        b'n' | b'l' => Some(10),
        b'r' => Some(13),
        b't' => Some(9),
        b'b' => Some(8),
        b'f' => Some(12),
        b'a' => Some(7),
        b's' => Some(32),
        b'^' | b'\\' | b',' | b':' => Some(letter),
        _ => None,
    }
}

#[tactic(auto, unfolding(crate::specs::Escapes::letter_piece))]
fn letter_piece(letter: u8) -> Piece
    ensures { result ≡ letter_piece letter }
{
    match letter_value(letter) {
        Some(value) => plain(value, 2),
        None => Piece {
            byte: stored(letter),
            used: 2,
            odd: true,
        },
    }
}

fn third_at(value: u8, rest: &[u8]) -> Piece
    requires { value < 64 }
    ensures { result ≡ third_at value rest.now }
{
    if let [digit, ..] = rest
        && is_octal(*digit)
    {
        let longer = u16::from(value) * 8 + u16::from(*digit - 48);
        if longer <= 255 {
            return plain(longer as u8, 4);
        }
    }
    plain(value, 3)
}

fn second_at(value: u8, rest: &[u8]) -> Piece
    requires { value < 8 }
    ensures { result ≡ second_at value rest.now }
{
    match rest {
        [digit, behind @ ..] if is_octal(*digit) => third_at(value * 8 + (*digit - 48), behind),
        _ => plain(value, 2),
    }
}

#[tactic(auto, unfolding(crate::specs::Escapes::escape_at))]
fn escape_at(rest: &[u8]) -> Option<Piece>
    ensures { result ≡ escape_at rest.now }
{
    let [first, behind @ ..] = rest else {
        return None;
    };
    if is_octal(*first) {
        Some(second_at(*first - 48, behind))
    } else {
        Some(letter_piece(*first))
    }
}

fn control_of(byte: u8) -> u8
    ensures { result ≡ control_of byte }
{
    if byte == 63 { 127 } else { byte & 31 }
}

#[tactic(auto, unfolding(crate::specs::Escapes::control_at))]
fn control_at(rest: &[u8]) -> Option<Piece>
    ensures { result ≡ control_at rest.now }
{
    match rest {
        [] | [b',', ..] => None,
        [byte, ..] => Some(plain(control_of(*byte), 2)),
    }
}

/// The first piece of `text`; `None` if an escape has no end.
#[tactic(auto, unfolding(crate::specs::Escapes::piece_at))]
fn piece_at(text: &[u8]) -> Option<Piece>
    ensures { result ≡ piece_at text.now }
{
    let [first, rest @ ..] = text else {
        return None;
    };
    match *first {
        b'\\' => escape_at(rest),
        b'^' => control_at(rest),
        byte => Some(plain(byte, 1)),
    }
}

/// The bytes of a string's value; `None` if an escape in it has no end.
pub(crate) fn decode(alloc: Global, text: &[u8]) -> Result<Option<Decoded>, AllocError>
    ensures { IfOk result (λ found. option_map decoding_view found ≡ decoding_of text.now) }
{
    let mut bytes = Vec::new(alloc);
    let mut odd = 0;
    let mut rest = text;
    while !rest.is_empty() {
        let Some(piece) = piece_at(rest) else {
            return Ok(None);
        };
        bytes.push(piece.byte)?;
        odd += usize::from(piece.odd);
        rest = rest.split_at(piece.used).1;
    }
    Ok(Some(Decoded { bytes, odd }))
}

/// Decodes the value `text` of a string, by the escapes of terminfo(5). A comma means itself.
///
/// Fails with `BadEscape` if an escape has no end; otherwise with `TooLong` if the string has more than 4095 bytes;
/// or when out of memory.
#[tactic(auto, unfolding(crate::specs::Escapes::unescaped))]
pub fn unescape(alloc: Global, text: &[u8]) -> Result<Vec<u8>, EscapeFault>
    ensures bytes { IfOk result (λ v. unescaped text.now ≡ Ok v.items) }
    ensures fault { IfErr result (λ e. FailsBy e (unescaped text.now)) }
{
    let Some(decoded) = decode(alloc, text).map_err(|_| EscapeFault::NoMemory)? else {
        return Err(EscapeFault::BadEscape);
    };
    if decoded.bytes.len() > LONGEST {
        return Err(EscapeFault::TooLong);
    }
    let Decoded { bytes, odd: _ } = decoded;
    Ok(bytes)
}
