//! Keys that send one string.

ghost use Rattle.std.specs.Prelude.{◌≡◌, IfOk};
ghost use Rattle.std.specs.List.{position};
ghost use Rattle.ti_advice.specs.Keys as spec;

use crate::advice::{Advice, AdviceKind};
use crate::deeds::push_found;
use crate::strings::string_named;
use std::alloc::{AllocError, Global};
use ti_caps::{Entry, by_name};

/// A key.
#[derive(Clone, Copy, Debug, PartialEq, Eq)]
pub enum Key {
    Up,
    Down,
    Left,
    Right,
    F1,
    F2,
    F3,
    F4,
    F5,
    F6,
    F7,
    F8,
    F9,
    F10,
    F11,
    F12,
}

impl Key {
    /// The arrow keys.
    fn arrows() -> [Key; 4]
        ensures { result ≡ spec.arrows }
    {
        [Key::Up, Key::Down, Key::Left, Key::Right]
    }

    /// The first twelve function keys.
    fn functions() -> [Key; 12]
        ensures { result ≡ spec.functions }
    {
        [
            Key::F1,
            Key::F2,
            Key::F3,
            Key::F4,
            Key::F5,
            Key::F6,
            Key::F7,
            Key::F8,
            Key::F9,
            Key::F10,
            Key::F11,
            Key::F12,
        ]
    }

    /// The name of the key's string.
    pub fn name(self) -> &'static [u8]
        ensures { result.now ≡ spec.name self }
    {
        match self {
            Key::Up => b"kcuu1",
            Key::Down => b"kcud1",
            Key::Left => b"kcub1",
            Key::Right => b"kcuf1",
            Key::F1 => b"kf1",
            Key::F2 => b"kf2",
            Key::F3 => b"kf3",
            Key::F4 => b"kf4",
            Key::F5 => b"kf5",
            Key::F6 => b"kf6",
            Key::F7 => b"kf7",
            Key::F8 => b"kf8",
            Key::F9 => b"kf9",
            Key::F10 => b"kf10",
            Key::F11 => b"kf11",
            Key::F12 => b"kf12",
        }
    }
}

/// The place of `key` in its group, after those of the arrow keys.
fn number(key: Key) -> u8
    ensures { result ≡ spec.number key }
{
    match key {
        Key::Up => 0,
        Key::Down => 1,
        Key::Left => 2,
        Key::Right => 3,
        Key::F1 => 4,
        Key::F2 => 5,
        Key::F3 => 6,
        Key::F4 => 7,
        Key::F5 => 8,
        Key::F6 => 9,
        Key::F7 => 10,
        Key::F8 => 11,
        Key::F9 => 12,
        Key::F10 => 13,
        Key::F11 => 14,
        Key::F12 => 15,
    }
}

/// Whether `entry` gives both keys one string.
fn is_twin(entry: &Entry, key: Key, other: Key) -> bool
    ensures { result ≡ spec.is_twin entry.now key other }
{
    match string_named(entry, key.name()) {
        Some(own) => match string_named(entry, other.name()) {
            Some(string) => own == string,
            None => false,
        },
        None => false,
    }
}

/// Whether `other` comes before `key`, and `entry` gives both one string.
fn is_earlier_twin(entry: &Entry, key: Key, other: Key) -> bool
    ensures { result ≡ spec.is_earlier_twin entry.now key other }
{
    number(other) < number(key) && is_twin(entry, key, other)
}

/// The place of the first key of the `group` that comes before `key` and sends the same string.
fn twin_place(entry: &Entry, group: &[Key], key: Key) -> Option<usize>
    ensures { result ≡ position (spec.is_earlier_twin entry.now key) group.now }
{
    group
        .iter()
        .position(|other| is_earlier_twin(entry, key, *other))
}

/// The first key of the `group` that comes before `key` and sends the same string.
fn twin(entry: &Entry, group: &[Key], key: Key) -> Option<Key>
    ensures { result ≡ spec.twin_of entry.now group.now key }
{
    match twin_place(entry, group, key) {
        Some(place) => group.get(place).copied(),
        None => None,
    }
}

/// The advice that `key` sends what `other` sends.
fn advice_of(key: Key, other: Key) -> Option<Advice>
    ensures { spec.IsAdviceOf key other result }
{
    match by_name(key.name()) {
        Some(cap) => Some(Advice {
            cap,
            kind: AdviceKind::Key(other),
            run: None,
        }),
        None => None,
    }
}

/// The advice on `key` beside the keys of its `group`.
fn key_advice(entry: &Entry, group: &[Key], key: Key) -> Option<Advice>
    ensures { spec.IsKeyAdvice entry.now group.now key result }
{
    match twin(entry, group, key) {
        Some(other) => advice_of(key, other),
        None => None,
    }
}

/// The advice on the keys of a `group`.
fn group_advice(alloc: Global, entry: &Entry, group: &[Key]) -> Result<Vec<Advice>, AllocError>
    ensures { IfOk result (λ list. spec.AreOfGroup entry.now group.now list.items) }
{
    let mut list = Vec::new(alloc);
    for key in group {
        push_found(&mut list, key_advice(entry, group, *key))?;
    }
    Ok(list)
}

/// The advice on the keys of `entry`.
pub(crate) fn keys(alloc: Global, entry: &Entry) -> Result<Vec<Advice>, AllocError>
    ensures { IfOk result (λ list. spec.AreKeys entry.now list.items) }
{
    let mut list = group_advice(alloc, entry, &Key::arrows())?;
    let mut functions = group_advice(alloc, entry, &Key::functions())?;
    list.append(&mut functions)?;
    Ok(list)
}
