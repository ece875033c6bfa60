//! Recordings of today's programs, reduced to characters and sequences that T has.

ghost use Rattle.std.specs.{Prelude.{◌≡◌, ℕ, ◌+◌, ◌<◌, ◌≤◌, ◌++◌, ◌==◌, length, take, IfOk, OnOk}, List.{flat_map}};
ghost use Rattle.vt_states.specs.Recordings as spec;

use std::alloc::{AllocError, Global};

/// A recording without the characters and strings that T doesn't have.
#[derive(Debug, Drop)]
pub struct Recording {
    /// The bytes for T.
    pub text: Vec<u8>,
    /// The number of bytes of dropped strings.
    pub dropped: usize,
    /// The number of characters above 127, which are question marks now.
    pub replaced: usize,
}

/// The recording `bytes` with a question mark for each character above 127, and without strings (DCS, SOS, OSC, PM,
/// APC). Fails only when out of memory.
pub fn plain_recording(alloc: Global, bytes: &[u8]) -> Result<Recording, AllocError>
    ensures text { IfOk result (λ r. r.text.items ≡ spec.plain_text bytes.now) }
    ensures dropped { IfOk result (λ r. r.dropped ≡ spec.total spec.dropped (spec.all_parts bytes.now)) }
    ensures replaced { IfOk result (λ r. r.replaced ≡ spec.total spec.replaced (spec.all_parts bytes.now)) }
{
    let mut recording = Recording {
        text: Vec::new(alloc),
        dropped: 0,
        replaced: 0,
    };
    let mut at = 0;
    while at < bytes.len() {
        let end = at + part_length(&bytes[at..]);
        recording.add(&bytes[at..end])?;
        at = end;
    }
    Ok(recording)
}

impl Recording {
    /// Adds one part, as T gets it.
    fn add(&mut self, part: &[u8]) -> Result<(), AllocError>
        requires dropped { self.old.dropped + length part.now ≤ 18446744073709551615 }
        requires replaced { self.old.replaced < 18446744073709551615 }
        ensures text { OnOk result (self.new.text.items ≡ self.old.text.items ++ spec.shown part.now) }
        ensures dropped { self.new.dropped ≡ self.old.dropped + spec.dropped part.now }
        ensures replaced { self.new.replaced ≡ self.old.replaced + spec.replaced part.now }
    {
        self.dropped += dropped_of(part);
        self.replaced += replaced_of(part);
        push_shown(&mut self.text, part)
    }
}

fn push_shown(text: &mut Vec<u8>, part: &[u8]) -> Result<(), AllocError>
    ensures { OnOk result (text.new.items ≡ text.old.items ++ spec.shown part.now) }
{
    if begins_string(part) {
        Ok(())
    } else if is_character(part) {
        text.extend_from_slice(b"?")
    } else {
        text.extend_from_slice(part)
    }
}

fn dropped_of(part: &[u8]) -> usize
    ensures { result ≡ spec.dropped part.now }
{
    if begins_string(part) { part.len() } else { 0 }
}

fn replaced_of(part: &[u8]) -> usize
    ensures { result ≡ spec.replaced part.now }
{
    if begins_string(part) {
        0
    } else if is_character(part) {
        1
    } else {
        0
    }
}

/// The length of the first part of `bytes`, which must not be empty.
fn part_length(bytes: &[u8]) -> usize
    requires { 0 < length bytes.now }
    ensures value { result ≡ spec.part_length bytes.now }
    ensures some { 0 < result }
    ensures within { result ≤ length bytes.now }
{
    if begins_string(bytes) {
        string_length(bytes)
    } else if is_character(bytes) {
        character_length(bytes)
    } else {
        1
    }
}

/// The length of the string that `bytes` begins with.
fn string_length(bytes: &[u8]) -> usize
    requires { 2 ≤ length bytes.now }
    ensures value { result ≡ spec.string_length bytes.now }
    ensures within { result ≤ length bytes.now }
{
    2 + up_to_end(byte_at(bytes, 1) == b']', &bytes[2..])
}

/// The number of bytes of a string up to its end; BEL is the last byte of an OSC.
fn up_to_end(osc: bool, bytes: &[u8]) -> usize
    ensures value { result ≡ spec.up_to_end osc bytes.now }
    ensures within { result ≤ length bytes.now }
{
    for (count, byte) in bytes.iter().enumerate() {
        if cuts(*byte) {
            return count;
        }
        if osc && *byte == 7 {
            return count + 1;
        }
    }
    bytes.len()
}

fn cuts(byte: u8) -> bool
    ensures { result ≡ spec.cuts byte }
{
    byte == 27 || byte == 24 || byte == 26
}

fn begins_string(bytes: &[u8]) -> bool
    ensures { result ≡ spec.begins_string bytes.now }
{
    byte_at(bytes, 0) == 27 && introduces(byte_at(bytes, 1))
}

fn introduces(byte: u8) -> bool
    ensures { result ≡ spec.introduces byte }
{
    byte == b'P' || byte == b'X' || is_between(b']', b'_', byte)
}

fn is_character(bytes: &[u8]) -> bool
    ensures { result ≡ spec.is_character bytes.now }
{
    128 <= byte_at(bytes, 0)
}

/// The length of the UTF-8 character that `bytes` begins with, 1 if it isn't valid.
fn character_length(bytes: &[u8]) -> usize
    ensures { result ≡ spec.character_length bytes.now }
{
    let (a, b) = (byte_at(bytes, 0), byte_at(bytes, 1));
    let (c, d) = (byte_at(bytes, 2), byte_at(bytes, 3));
    if begins_two(a, b) {
        2
    } else if begins_three(a, b) && continues(c) {
        3
    } else if begins_four(a, b) && continues(c) && continues(d) {
        4
    } else {
        1
    }
}

fn begins_two(a: u8, b: u8) -> bool
    ensures { result ≡ spec.begins_two a b }
{
    is_between(194, 223, a) && continues(b)
}

fn begins_three(a: u8, b: u8) -> bool
    ensures { result ≡ spec.begins_three a b }
{
    (a == 224 && is_between(160, 191, b))
        || (a == 237 && is_between(128, 159, b))
        || ((is_between(225, 236, a) || is_between(238, 239, a)) && continues(b))
}

fn begins_four(a: u8, b: u8) -> bool
    ensures { result ≡ spec.begins_four a b }
{
    (a == 240 && is_between(144, 191, b))
        || (a == 244 && is_between(128, 143, b))
        || (is_between(241, 243, a) && continues(b))
}

fn continues(byte: u8) -> bool
    ensures { result ≡ spec.continues byte }
{
    is_between(128, 191, byte)
}

pub(crate) fn is_between(low: u8, high: u8, byte: u8) -> bool
    ensures { result ≡ spec.is_between low high byte }
{
    low <= byte && byte <= high
}

/// The byte at a place, 0 after the end.
pub(crate) fn byte_at(bytes: &[u8], at: usize) -> u8
    ensures { result ≡ spec.at bytes.now at }
{
    bytes.get(at).copied().unwrap_or(0)
}
