//! The sequences of a stream that the terminal ignores, and how often each came.

ghost use Rattle.std.specs.Prelude.{◌≡◌, ◌<◌, ◌≤◌, ◌++◌, ◌∷◌, [], IfOk, List, length, OnOk, ℕ};
ghost use Rattle.vt_term.specs.Text.{Splits};
ghost use Rattle.vt_states.specs.Kinds.{Count, CountsIgnored, total};
ghost use Rattle.vt_states.specs.Sequences as spec;

use crate::counts::Counts;
use crate::ignored::{control_lack, escape_lack};
use crate::kinds::control_kind;
use crate::recordings::{byte_at, is_between};
use memchr::memchr;
use std::alloc::{AllocError, Global};

const ESCAPE: u8 = 27;

/// The sequences of `text` that T ignores, wholly or in one of their numbers, counted by kinds in the order of first
/// appearance. Fails only when out of memory.
pub fn ignored_in(alloc: Global, text: &[u8]) -> Result<Counts, AllocError>
    ensures { IfOk result (λ counts. (tokens : List (List ℕ)) (rest : List ℕ) → Splits text.now tokens rest →
        CountsIgnored tokens counts) }
{
    let mut counts = Counts::new(alloc);
    let mut at = 0;
    loop {
        match memchr(ESCAPE, &text[at..]) {
            Some(escape) => {
                at += escape + 1;
                count_behind(alloc, &text[at..], &mut counts)?;
            }
            None => return Ok(counts),
        }
    }
}

/// Counts the sequence with these bytes after ESC, if it is whole and ignored.
fn count_behind(alloc: Global, behind: &[u8], counts: &mut Counts) -> Result<(), AllocError>
    requires { total counts.old < 18446744073709551615 }
    ensures { OnOk result ((came : List (List ℕ)) → Count came counts.old →
        Count (came ++ spec.kinds_behind behind.now) counts.new) }
{
    match behind {
        [] => Ok(()),
        [b'[', body @ ..] => {
            let length = inside_length(63, body);
            count_control(alloc, &body[..length], byte_at(body, length), counts)
        }
        _ => {
            let length = inside_length(47, behind);
            count_escape(alloc, &behind[..length], byte_at(behind, length), counts)
        }
    }
}

/// Counts the control sequence with these bytes between ESC `[` and its final byte, if `last` is one.
fn count_control(
    alloc: Global,
    front: &[u8],
    last: u8,
    counts: &mut Counts,
) -> Result<(), AllocError>
    requires { total counts.old < 18446744073709551615 }
    ensures { OnOk result ((came : List (List ℕ)) → Count came counts.old →
        Count (came ++ spec.kinds_of_control front.now last) counts.new) }
{
    if !is_between(0x40, 0x7e, last) {
        return Ok(());
    }
    match control_lack(front, last) {
        Some(lack) => counts.add(control_kind(alloc, lack, front, last)?),
        None => Ok(()),
    }
}

/// Counts the escape sequence with these bytes between ESC and its final byte, if `last` is one.
fn count_escape(
    alloc: Global,
    front: &[u8],
    last: u8,
    counts: &mut Counts,
) -> Result<(), AllocError>
    requires { total counts.old < 18446744073709551615 }
    ensures { OnOk result ((came : List (List ℕ)) → Count came counts.old →
        Count (came ++ spec.kinds_of_escape front.now last) counts.new) }
{
    if !is_between(0x30, 0x7e, last) {
        return Ok(());
    }
    match escape_lack(front, last) {
        Some(_) => counts.add(escape_kind(alloc, front, last)?),
        None => Ok(()),
    }
}

/// The kind of the escape sequence with these bytes between ESC and its final byte: the sequence as it is.
fn escape_kind(alloc: Global, front: &[u8], last: u8) -> Result<Vec<u8>, AllocError>
    ensures { IfOk result (λ kind. kind.items ≡ 27 ∷ (front.now ++ last ∷ [])) }
{
    let mut kind = Vec::from_slice(alloc, &[ESCAPE])?;
    kind.extend_from_slice(front)?;
    kind.push(last)?;
    Ok(kind)
}

/// The number of bytes up to the first below 32 or above `high`.
fn inside_length(high: u8, bytes: &[u8]) -> usize
    ensures value { result ≡ spec.inside_length high bytes.now }
    ensures within { result ≤ length bytes.now }
{
    for (count, byte) in bytes.iter().enumerate() {
        if !is_between(32, high, *byte) {
            return count;
        }
    }
    bytes.len()
}
