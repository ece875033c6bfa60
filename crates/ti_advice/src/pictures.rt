//! Letters of the VT100's set that `acsc` gives the picture of another one.

ghost use Rattle.std.specs.Prelude.{◌≡◌, ◌<◌, ◌≤◌, ℕ, IfOk, IfNone, IfSome, option_copied, true, false};
ghost use Rattle.ti_advice.specs.Pictures as spec;

use crate::advice::{Advice, AdviceKind};
use crate::deeds::push_found;
use crate::strings::{has_string, string_named};
use std::alloc::{AllocError, Global};
use ti_caps::{Entry, by_name};
use ti_conforms::partner;

/// Whether `shown`, which is listed for `letter`, is another character.
fn differs(shown: Option<u8>, letter: u8) -> bool
    ensures { result ≡ spec.differs shown letter }
{
    match shown {
        Some(shown) => shown != letter,
        None => false,
    }
}

/// Whether `acsc` lists `letter`, one of the VT100's set, with the picture of another character.
fn is_other(acsc: &[u8], letter: u8) -> bool
    ensures { result ≡ spec.is_other acsc.now letter }
{
    96 <= letter && differs(partner(acsc, letter), letter)
}

/// The first letter of the VT100's set that `acsc` lists with the picture of another character.
fn first_other(acsc: &[u8]) -> Option<u8>
    ensures some { IfSome result (spec.IsFirstOther acsc.now) }
    ensures none { IfNone result (spec.NoneBelow acsc.now 127) }
{
    for letter in 0..127u8 {
        if is_other(acsc, letter) {
            return Some(letter);
        }
    }
    None
}

/// The advice that `acsc` gives `letter` the picture of another character.
fn advice_of(letter: u8) -> Option<Advice>
    ensures { spec.IsAdviceOf letter result }
{
    match by_name(b"acsc") {
        Some(cap) => Some(Advice {
            cap,
            kind: AdviceKind::Picture(letter),
            run: None,
        }),
        None => None,
    }
}

/// The advice on these pairs.
fn pairs_advice(acsc: &[u8]) -> Option<Advice>
    ensures { spec.IsPairsAdvice acsc.now result }
{
    match first_other(acsc) {
        Some(letter) => advice_of(letter),
        None => None,
    }
}

/// Whether `entry` can make the graphic set active and plain.
fn switches(entry: &Entry) -> bool
    ensures { result ≡ spec.switches entry.now }
{
    has_string(entry, b"smacs") && has_string(entry, b"rmacs")
}

/// The advice on `acsc` of an entry that has both other strings.
fn acsc_advice(acsc: Option<&[u8]>) -> Option<Advice>
    ensures { spec.IsAcscAdvice (option_copied acsc.entry) result }
{
    match acsc {
        Some(acsc) => pairs_advice(acsc),
        None => None,
    }
}

/// The advice on `acsc` of `entry`.
pub(crate) fn pictures(alloc: Global, entry: &Entry) -> Result<Vec<Advice>, AllocError>
    ensures { IfOk result (λ list. spec.ArePictures entry.now list.items) }
{
    let mut list = Vec::new(alloc);
    if switches(entry) {
        push_found(&mut list, acsc_advice(string_named(entry, b"acsc")))?;
    }
    Ok(list)
}
