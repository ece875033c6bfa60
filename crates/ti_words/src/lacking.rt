//! Sequences that T lacks, in words.

use crate::function_names::function_name;
use std::alloc::{AllocError, Global};
use ti_files::Pushed;

/// The end of the words about a function that T lacks.
const NOTHING_KNOWN: &[u8] = b"; nothing is known of this string";

/// Whether T has the function that a `sequence` without its numbers names, so that only its numbers are unknown.
pub fn has_other_numbers(sequence: &[u8]) -> bool {
    match sequence {
        [27, b'[', last] => matches!(
            *last,
            b'@'..=b'D' | b'G'..=b'H' | b'J'..=b'M' | b'P' | b'S'..=b'T' | b'X' | b'd' | b'f' | b'r'
        ),
        _ => false,
    }
}

/// Adds a `sequence` as manuals spell it: `CSI ? 25 h`, `ESC 7`.
pub fn push_sequence(sequence: &[u8], line: &mut Vec<u8>) -> Pushed {
    match sequence {
        [27, b'[', body @ ..] => {
            line.extend_from_slice(b"CSI")?;
            push_apart(body, line)
        }
        [27, behind @ ..] => {
            line.extend_from_slice(b"ESC")?;
            push_apart(behind, line)
        }
        _ => Ok(()),
    }
}

/// Adds bytes with a space before each, but within numbers.
fn push_apart(bytes: &[u8], line: &mut Vec<u8>) -> Pushed {
    let mut in_number = false;
    for byte in bytes {
        if !(in_number && byte.is_ascii_digit()) {
            line.push(b' ')?;
        }
        in_number = byte.is_ascii_digit();
        if *byte == b' ' {
            line.extend_from_slice(b"SP")?;
        } else {
            line.push(*byte)?;
        }
    }
    Ok(())
}

/// The words about a string that sends this `sequence`, which T lacks: its numbers are left out, but for the first one
/// that is unknown.
pub fn lacking_words(alloc: Global, sequence: &[u8]) -> Result<Vec<u8>, AllocError> {
    let mut words = Vec::from_slice(alloc, b"T has no ")?;
    match function_name(sequence) {
        Some(function) => {
            words.extend_from_slice(without_article(function.name.as_bytes()))?;
            words.extend_from_slice(b" (")?;
            push_sequence(sequence, &mut words)?;
            words.extend_from_slice(b", ")?;
            words.extend_from_slice(function.section.as_bytes())?;
            words.push(b')')?;
        }
        None => {
            words.extend_from_slice(b"function ")?;
            push_sequence(sequence, &mut words)?;
        }
    }
    if has_other_numbers(sequence) {
        words.extend_from_slice(b" with such numbers")?;
    }
    words.extend_from_slice(NOTHING_KNOWN)?;
    Ok(words)
}

/// The `name` as it stands behind "no".
fn without_article(name: &[u8]) -> &[u8] {
    match name {
        [b'a', b' ', rest @ ..] => rest,
        [b't', b'h', b'e', b' ', rest @ ..] => rest,
        [..] => name,
    }
}

/// The words about a string that sends this `byte`, a control of eight bits.
pub fn eight_bit_words(alloc: Global, byte: u8) -> Result<Vec<u8>, AllocError> {
    let text = format!(in alloc; "T has no 8-bit controls (byte {byte}, ECMA-48 5.3)")?;
    let mut words = Vec::from_slice(alloc, text.as_bytes())?;
    words.extend_from_slice(NOTHING_KNOWN)?;
    Ok(words)
}

/// The words about line graphics that `smacs` takes from code page 437.
pub fn code_page_words(alloc: Global) -> Result<Vec<u8>, AllocError> {
    let mut words = Vec::from_slice(
        alloc,
        b"T has no code page 437 (CSI 11 m, console_codes(4))",
    )?;
    words.extend_from_slice(NOTHING_KNOWN)?;
    Ok(words)
}

/// The words about an entry all of whose faults are such.
pub const ALL_LACKING: &[u8] =
    b"each fault of this entry is a function that T lacks: nothing is known against it on its own terminal";
