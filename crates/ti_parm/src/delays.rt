//! Delays in the bytes sent (terminfo(5), "Delays and Padding").
ghost use Rattle.std.specs.Prelude.{◌≡◌, ◌<◌, ◌≤◌, ◌++◌, IfNone, IfOk, IfSome, MatchOption, None, Some, drop, length};
ghost use Rattle.std.specs.Prelude.{take};
ghost use Rattle.ti_parm.specs.Delays.{behind_delay, behind_mark, behind_marks, behind_number, behind_opening};
ghost use Rattle.ti_parm.specs.Delays.{behind_tenth, strip};

use crate::number::number;
use std::alloc::{AllocError, Global};

/// The rest of `text` after a `*` or a `/`.
fn behind_mark(text: &[u8]) -> Option<&[u8]>
    ensures mark { MatchOption result (behind_mark text.now ≡ None) (λ r. behind_mark text.now ≡ Some r.now) }
    ensures shorter { IfSome result (λ r. length r.now < length text.now) }
{
    match text {
        [b'*' | b'/', rest @ ..] => Some(rest),
        _ => None,
    }
}

/// The rest of `text` after marks and a `>`.
fn behind_marks(text: &[u8]) -> Option<&[u8]>
    ensures marks { MatchOption result (behind_marks text.now ≡ None) (λ r. behind_marks text.now ≡ Some r.now) }
    ensures shorter { IfSome result (λ r. length r.now < length text.now) }
{
    let mut rest = text;
    while let Some(behind) = behind_mark(rest) {
        rest = behind;
    }
    match rest {
        [b'>', behind @ ..] => Some(behind),
        _ => None,
    }
}

/// The rest of `text` after the delay whose `.` comes before it.
fn behind_tenth(text: &[u8]) -> Option<&[u8]>
    ensures tenth { MatchOption result (behind_tenth text.now ≡ None) (λ r. behind_tenth text.now ≡ Some r.now) }
    ensures shorter { IfSome result (λ r. length r.now < length text.now) }
{
    match text {
        [b'0'..=b'9', rest @ ..] => behind_marks(rest),
        _ => None,
    }
}

/// The rest of `text` after the delay whose first digits come before it.
fn behind_number(text: &[u8]) -> Option<&[u8]>
    ensures number { MatchOption result (behind_number text.now ≡ None) (λ r. behind_number text.now ≡ Some r.now) }
    ensures shorter { IfSome result (λ r. length r.now < length text.now) }
{
    match text {
        [b'.', rest @ ..] => behind_tenth(rest),
        [] => None,
        _ => behind_marks(text),
    }
}

/// The rest of `text` after the delay whose `$<` comes before it.
fn behind_opening(text: &[u8]) -> Option<&[u8]>
    ensures opening { MatchOption result (behind_opening text.now ≡ None) (λ r. behind_opening text.now ≡ Some r.now) }
    ensures shorter { IfSome result (λ r. length r.now < length text.now) }
{
    match text {
        [b'0'..=b'9', rest @ ..] => {
            let (_, point) = number(rest);
            behind_number(point)
        }
        _ => None,
    }
}

/// The rest of `text` after the delay that it begins with, if it begins with one.
fn behind_delay(text: &[u8]) -> Option<&[u8]>
    ensures delay { MatchOption result (behind_delay text.now ≡ None) (λ r. behind_delay text.now ≡ Some r.now) }
    ensures shorter { IfSome result (λ r. length r.now < length text.now) }
{
    match text {
        [b'$', b'<', rest @ ..] => behind_opening(rest),
        _ => None,
    }
}

/// The place after the delay that begins at the place `at`, if one begins there.
fn after_delay(bytes: &[u8], at: usize) -> Option<usize>
    requires { at ≤ length bytes.now }
    ensures none { IfNone result (behind_delay (drop at bytes.now) ≡ None) }
    ensures delay { IfSome result (λ after. behind_delay (drop at bytes.now) ≡ Some (drop after bytes.now)) }
    ensures within { IfSome result (λ after. (at < after) × (after ≤ length bytes.now)) }
{
    match behind_delay(&bytes[at..]) {
        Some(rest) => Some(bytes.len() - rest.len()),
        None => None,
    }
}

/// Removes the delays from `bytes` from the place `start` on, which must not be past the end. Allocates no memory.
pub fn strip_from(bytes: &mut Vec<u8>, start: usize)
    requires { start ≤ length bytes.old.items }
    ensures { bytes.new.items ≡ take start bytes.old.items ++ strip (drop start bytes.old.items) }
{
    let mut kept = start;
    let mut read = start;
    while read < bytes.len() {
        match after_delay(bytes.as_slice(), read) {
            Some(after) => read = after,
            None => {
                bytes[kept] = bytes[read];
                kept += 1;
                read += 1;
            }
        }
    }
    bytes.truncate(kept);
}

/// A copy of `bytes` without their delays. A delay is `$<`, one digit or more, perhaps `.` and one digit, any number
/// of `*` and `/`, and `>`; delays are removed from left to right. Text that only looks like one stays.
///
/// Fails only when out of memory. terminfo(5), "Delays and Padding".
pub fn strip_delays(alloc: Global, bytes: &[u8]) -> Result<Vec<u8>, AllocError>
    ensures { IfOk result (λ sent. sent.items ≡ strip bytes.now) }
{
    let mut sent = Vec::from_slice(alloc, bytes)?;
    strip_from(&mut sent, 0);
    Ok(sent)
}
