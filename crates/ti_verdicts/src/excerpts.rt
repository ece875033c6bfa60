//! A field of a source text, and below it marks under its value, or under the part of it that is at fault.

ghost use Rattle.std.specs.Prelude.{◌≡◌, ◌≤◌, ◌++◌, IfOk, OnOk, length, option_map, replicate};
ghost use Rattle.ti_verdicts.specs.Excerpts as spec;
ghost use Rattle.ti_files.specs.Shown.{shown};

use std::alloc::Global;
use ti_blames::Stretch;
use ti_caps::{Cap, name};
use ti_files::{Made, Pushed, push_shown};

/// Whether `byte`, which is behind the name of a capability, begins a value.
fn begins_value(byte: Option<&u8>) -> bool
    ensures { result ≡ spec.begins_value (option_map (λ b. b.now) byte.entry) }
{
    match byte {
        None => false,
        Some(byte) => *byte == b'=' || *byte == b'#',
    }
}

/// How many bytes of `field`, which is about `cap`, come before its value; 0 if it has none.
#[tactic(auto, unfolding(crate::specs::Excerpts::before_value))]
fn before_value(cap: Cap, field: &[u8]) -> usize
    ensures count { result ≡ spec.before_value cap field.now }
    ensures range { result ≤ length field.now }
{
    let end = name(cap).len();
    if begins_value(field.get(end)) {
        end + 1
    } else {
        0
    }
}

/// Appends `byte` to `text` as often as `count` says.
fn push_repeated(text: &mut Vec<u8>, byte: u8, count: usize) -> Pushed
    ensures { OnOk result (text.new.items ≡ text.old.items ++ replicate count byte) }
{
    for _ in 0..count {
        text.push(byte)?;
    }
    Ok(())
}

/// The `bytes`, as far as they can be shown.
pub(crate) fn shown_bytes(alloc: Global, bytes: &[u8]) -> Made
    ensures { IfOk result (λ text. text.items ≡ shown bytes.now) }
{
    let mut text = Vec::new(alloc);
    push_shown(&mut text, bytes)?;
    Ok(text)
}

/// The value of `field`, which is about `cap`; the whole field if it has none.
pub(crate) fn value_in(cap: Cap, field: &[u8]) -> &[u8]
    ensures { result.now ≡ spec.value_in cap field.now }
{
    field.split_at(before_value(cap, field)).1
}

/// The bytes before the `part` of `value` that is at fault; none if no part is known.
fn front_of(value: &[u8], part: Option<Stretch>) -> &[u8]
    requires { spec.IsFaulty value.now part }
    ensures { result.now ≡ spec.front_of part value.now }
{
    match part {
        None => &[],
        Some(part) => &value[..part.from],
    }
}

/// The `part` of `value` that is at fault; all of it if no part is known.
fn part_of(value: &[u8], part: Option<Stretch>) -> &[u8]
    requires { spec.IsFaulty value.now part }
    ensures { result.now ≡ spec.part_of part value.now }
{
    match part {
        None => value,
        Some(part) => &value[part.from..part.to],
    }
}

/// The `line`, and below it the line of the marks under the bytes `marked`, which come after those `before`.
#[tactic(auto, unfolding(crate::specs::Excerpts::underlined))]
pub(crate) fn underlined(alloc: Global, line: &[u8], before: &[u8], marked: &[u8]) -> Made
    ensures { IfOk result (λ text. text.items ≡ spec.underlined line.now before.now marked.now) }
{
    let mut text = Vec::from_slice(alloc, b"    ")?;
    text.extend_from_slice(line)?;
    text.extend_from_slice(b"\n    ")?;
    push_repeated(&mut text, b' ', before.len())?;
    text.push(b'^')?;
    push_repeated(&mut text, b'~', marked.len().saturating_sub(1))?;
    text.push(b'\n')?;
    Ok(text)
}

/// The bytes of both parts, one after the other, as far as they can be shown.
fn shown_both(alloc: Global, front: &[u8], back: &[u8]) -> Made
    ensures { IfOk result (λ text. text.items ≡ shown (front.now ++ back.now)) }
{
    let mut bytes = Vec::from_slice(alloc, front)?;
    bytes.extend_from_slice(back)?;
    shown_bytes(alloc, bytes.as_slice())
}

/// The line of `field`, which is about `cap`, as far as it can be shown, and below it the marks under the `part` of its
/// value that is at fault, or under all of it if no part is known.
#[tactic(auto, unfolding(crate::specs::Excerpts::excerpt))]
pub(crate) fn excerpt(alloc: Global, cap: Cap, field: &[u8], part: Option<Stretch>) -> Made
    requires { spec.IsFaulty (spec.value_in cap field.now) part }
    ensures { IfOk result (λ text. text.items ≡ spec.excerpt cap part field.now) }
{
    let line = shown_bytes(alloc, field)?;
    let name = field.split_at(before_value(cap, field)).0;
    let value = value_in(cap, field);
    let before = shown_both(alloc, name, front_of(value, part))?;
    let marked = shown_bytes(alloc, part_of(value, part))?;
    underlined(alloc, line.as_slice(), before.as_slice(), marked.as_slice())
}
