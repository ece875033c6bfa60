//! The part of a value in a source text that means a stretch of the string.

ghost use Rattle.std.specs.Prelude.{◌≡◌, ◌≤◌, ℕ, IfNone, IfOk, IfSome, Ok, false, length, true};
ghost use Rattle.ti_source.specs.Escapes.{unescaped};
ghost use Rattle.ti_blames.specs.Stretches.{IsWithin};
ghost use Rattle.ti_blames.specs.Values as spec;

use crate::stretches::{Found, Stretch};
use std::alloc::{AllocError, Global};
use ti_source::{EscapeFault, unescape};

/// Whether the value `text` means `bytes`.
fn means(alloc: Global, text: &[u8], bytes: &[u8]) -> Result<bool, AllocError>
    ensures same { IfOk result (λ so. so ≡ true → unescaped text.now ≡ Ok bytes.now) }
    ensures other { IfOk result (λ so. so ≡ false → unescaped text.now ≡ Ok bytes.now → ⊥) }
{
    match unescape(alloc, text) {
        Ok(found) => Ok(found.as_slice() == bytes),
        Err(EscapeFault::BadEscape | EscapeFault::TooLong) => Ok(false),
        Err(EscapeFault::NoMemory) => Err(AllocError),
    }
}

/// Whether the first `count` of `bytes` are meant by what stands before `place` of `text`, and the others by what
/// stands behind it.
fn is_cut(
    alloc: Global,
    text: &[u8],
    bytes: &[u8],
    count: usize,
    place: usize,
) -> Result<bool, AllocError>
    requires text { place ≤ length text.now }
    requires bytes { count ≤ length bytes.now }
    ensures cut { IfOk result (λ so. so ≡ true → spec.IsCut text.now bytes.now count place) }
    ensures none { IfOk result (λ so. so ≡ false → spec.IsCut text.now bytes.now count place → ⊥) }
{
    let (before, behind) = text.split_at(place);
    let (first, others) = bytes.split_at(count);
    Ok(means(alloc, before, first)? && means(alloc, behind, others)?)
}

/// The first position from `first` on that splits `text` so that the part before it means `bytes[..count]`, and the
/// rest means `bytes[count..]`.
fn cut_from(
    alloc: Global,
    text: &[u8],
    bytes: &[u8],
    count: usize,
    first: usize,
) -> Result<Option<usize>, AllocError>
    requires { count ≤ length bytes.now }
    ensures cut { IfOk result (λ found. IfSome found (spec.IsFirstCut text.now bytes.now count first)) }
    ensures none { IfOk result (λ found. IfNone found ((place : ℕ) → first ≤ place → place ≤ length text.now
        → spec.IsCut text.now bytes.now count place → ⊥)) }
{
    for place in first..text.len() + 1 {
        if is_cut(alloc, text, bytes, count, place)? {
            return Ok(Some(place));
        }
    }
    Ok(None)
}

/// The part of the value `text` that means `stretch` of the string `bytes`. `None` if no part of the value does, as
/// where the value means another string or an escape goes over an end of the stretch, or if the string has no such
/// stretch.
///
/// # Errors
/// Out of memory.
pub fn meant_stretch(alloc: Global, text: &[u8], bytes: &[u8], stretch: Stretch) -> Found
    ensures part { IfOk result (λ found. IfSome found (spec.IsMeaning text.now bytes.now stretch)) }
    ensures none { IfOk result (λ found. IfNone found ((part : Stretch) → IsWithin bytes.now stretch
        → spec.IsMeaning text.now bytes.now stretch part → ⊥)) }
{
    if stretch.from > bytes.len() || stretch.to > bytes.len() {
        return Ok(None);
    }
    let Some(from) = cut_from(alloc, text, bytes, stretch.from, 0)? else {
        return Ok(None);
    };
    match cut_from(alloc, text, bytes, stretch.to, from + 1)? {
        Some(to) => Ok(Some(Stretch { from, to })),
        None => Ok(None),
    }
}
