//! Bytes that are sent: where a control sequence goes wrong (ECMA-48 5.4), and the sets that they designate (ECMA-35
//! 14.3).

ghost use Rattle.std.specs.{Prelude.{◌≡◌, IfOk, drop}, List.{list_all}};
ghost use Rattle.ti_grades.specs.Sequences as spec;

use std::alloc::{AllocError, Global};
use vt_term::{TokenFault, TokenFaultKind, tokens};

/// The first fault of `bytes`, if they aren't whole tokens.
pub(crate) fn token_fault(alloc: Global, bytes: &[u8]) -> Result<Option<TokenFault>, AllocError>
    ensures { IfOk result (spec.IsTokenFault bytes.now) }
{
    match tokens(alloc, bytes) {
        Ok(_) => Ok(None),
        Err(fault) => match fault.kind {
            TokenFaultKind::NoMemory => Err(AllocError),
            TokenFaultKind::Unfinished | TokenFaultKind::Stuck => Ok(Some(fault)),
        },
    }
}

/// The byte at a `place`, 0 past the end.
fn byte_at(bytes: &[u8], place: usize) -> u8
    ensures { result ≡ spec.byte_at bytes.now place }
{
    bytes.get(place).copied().unwrap_or(0)
}

fn is_padding(byte: u8) -> bool
    ensures { result ≡ spec.is_padding byte }
{
    byte == b' ' || byte == b'+' || byte == b'-'
}

fn is_parameter(byte: u8) -> bool
    ensures { result ≡ spec.is_parameter byte }
{
    matches!(byte, 0x30..=0x3f)
}

/// Whether the byte at the `fault` is one of a parameter, right behind a blank or a sign.
pub(crate) fn is_padded(bytes: &[u8], fault: Option<TokenFault>) -> bool
    ensures { result ≡ spec.is_padded bytes.now fault }
{
    match fault {
        Some(fault) => {
            is_padding(byte_at(bytes, fault.at.saturating_sub(1)))
                && is_parameter(byte_at(bytes, fault.at))
        }
        None => false,
    }
}

/// Whether the second of `bytes` is that of a control sequence.
fn is_control(bytes: &[u8]) -> bool
    ensures { result ≡ spec.is_control bytes.now }
{
    match bytes {
        [] | [_] => false,
        [_, second, ..] => *second == b'[',
    }
}

/// Whether the sequence that begins at the `fault` is a control sequence.
pub(crate) fn is_open_control(bytes: &[u8], fault: Option<TokenFault>) -> bool
    ensures { result ≡ spec.is_open_control bytes.now fault }
{
    match fault {
        Some(fault) => is_control(from_place(bytes, fault.at)),
        None => false,
    }
}

/// The bytes from `place` on, none past the end.
fn from_place(bytes: &[u8], place: usize) -> &[u8]
    ensures { result.now ≡ drop place bytes.now }
{
    if place < bytes.len() {
        &bytes[place..]
    } else {
        &[]
    }
}

fn is_shift(byte: u8) -> bool
    ensures { result ≡ spec.is_shift byte }
{
    byte == 14 || byte == 15
}

/// Whether there are `bytes`, and each is SO or SI.
pub(crate) fn are_shifts(bytes: &[u8]) -> bool
    ensures { result ≡ spec.are_shifts bytes.now }
{
    match bytes {
        [] => false,
        [..] => all_shifts(bytes),
    }
}

fn all_shifts(bytes: &[u8]) -> bool
    ensures { result ≡ list_all spec.is_shift bytes.now }
{
    bytes.iter().all(|byte| is_shift(*byte))
}

fn is_set_of_terminal(last: u8) -> bool
    ensures { result ≡ spec.is_set_of_terminal last }
{
    last == b'0' || last == b'B'
}

/// Whether `bytes` begin with the designation to G1 of a set that the terminal hasn't.
fn begins_other_set(bytes: &[u8]) -> bool
    ensures { result ≡ spec.begins_other_set bytes.now }
{
    match bytes {
        [] | [_] | [_, _] => false,
        [first, second, last, ..] => {
            *first == 27 && *second == b')' && *last >= b'0' && !is_set_of_terminal(*last)
        }
    }
}

/// Whether some of `bytes` designate to G1 a set that the terminal hasn't.
#[tactic(auto, using(crate::proofs::Sets::first_has_it))]
pub(crate) fn has_other_set(bytes: &[u8]) -> bool
    ensures { result ≡ spec.has_other_set bytes.now }
{
    let mut text = bytes;
    while let [_, behind @ ..] = text {
        if begins_other_set(text) {
            return true;
        }
        text = behind;
    }
    false
}
