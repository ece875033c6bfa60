//! Writing a field into a text.

ghost use Rattle.std.specs.{Prelude.{◌≡◌, ◌==◌, ◌++◌, [], ◌∷◌, IfOk, IfSome, IsTrue, not}, List.{list_all}};
ghost use Rattle.ti_caps.specs.Fits.{string_fits};
ghost use Rattle.ti_fixes.specs.Texts.{IsWritten, field_text};

use crate::places::Piece;
use std::alloc::{AllocError, Global};
use ti_caps::{Cap, is_one_field, name};
use ti_source::escape;

/// A text in three parts.
#[derive(Clone, Copy)]
struct Parts<'a> {
    /// The text before a field.
    front: &'a [u8],
    /// The field, or the text in its place.
    own: &'a [u8],
    /// The text after it.
    back: &'a [u8],
}

/// `NAME=STRING`, as a source text has it.
pub fn field_text(alloc: Global, cap: Cap, string: &[u8]) -> Result<Vec<u8>, AllocError>
    requires { IsTrue (string_fits string.now) }
    ensures { IfOk result (λ text. text.items ≡ field_text cap string.now) }
{
    let spelled = escape(alloc, string)?;
    let mut text = Vec::from_slice(alloc, name(cap))?;
    text.push(b'=')?;
    text.extend_from_slice(spelled.as_slice())?;
    Ok(text)
}

/// The parts, one after another.
fn joined(alloc: Global, parts: Parts<'_>) -> Result<Vec<u8>, AllocError>
    ensures { IfOk result (λ text. text.items ≡
        parts.entry.front.now ++ (parts.entry.own.now ++ parts.entry.back.now)) }
{
    let mut text = Vec::from_slice(alloc, parts.front)?;
    text.extend_from_slice(parts.own)?;
    text.extend_from_slice(parts.back)?;
    Ok(text)
}

/// Whether no line ends among the bytes.
fn has_no_feed(bytes: &[u8]) -> bool
    ensures { result ≡ list_all (λ b. not (b == 10)) bytes.now }
{
    bytes.iter().all(|byte| *byte != b'\n')
}

/// The field with a space before it and a comma after it.
fn spaced_field(alloc: Global, cap: Cap, string: &[u8]) -> Result<Vec<u8>, AllocError>
    requires { IsTrue (string_fits string.now) }
    ensures { IfOk result (λ text. text.items ≡ 32 ∷ (field_text cap string.now ++ 44 ∷ [])) }
{
    let field = field_text(alloc, cap, string)?;
    let mut text = Vec::from_slice(alloc, b" ")?;
    text.extend_from_slice(field.as_slice())?;
    text.push(b',')?;
    Ok(text)
}

/// The text with the field between its two parts.
#[tactic(auto, using(crate::proofs::Written::added_so))]
fn added(
    alloc: Global,
    front: &[u8],
    back: &[u8],
    cap: Cap,
    string: &[u8],
) -> Result<Vec<u8>, AllocError>
    requires { IsTrue (string_fits string.now) }
    ensures { IfOk result (λ text. IsWritten cap string.now (front.now ++ back.now) text.items) }
{
    let own = spaced_field(alloc, cap, string)?;
    let own = own.as_slice();
    joined(alloc, Parts { front, own, back })
}

/// The text with the field in place of its own part; `None` if that is more than one field.
#[tactic(auto, using(crate::proofs::Written::replaced_so))]
fn replaced(
    alloc: Global,
    parts: Parts<'_>,
    cap: Cap,
    string: &[u8],
) -> Result<Option<Vec<u8>>, AllocError>
    requires { IsTrue (string_fits string.now) }
    ensures { IfOk result (λ found. IfSome found
        (λ text. IsWritten cap string.now
        (parts.entry.front.now ++ (parts.entry.own.now ++ parts.entry.back.now)) text.items)) }
{
    if !has_no_feed(parts.own) || !is_one_field(parts.own) {
        return Ok(None);
    }
    let field = field_text(alloc, cap, string)?;
    let own = field.as_slice();
    let text = joined(alloc, Parts { own, ..parts })?;
    Ok(Some(text))
}

/// The text with the field in place of the piece, or there if the piece is empty; `None` if the text has no such piece.
#[tactic(auto, using(crate::proofs::Written::parts_of))]
pub fn written(
    alloc: Global,
    text: &[u8],
    piece: Piece,
    cap: Cap,
    string: &[u8],
) -> Result<Option<Vec<u8>>, AllocError>
    requires { IsTrue (string_fits string.now) }
    ensures { IfOk result (λ found. IfSome found (λ after. IsWritten cap string.now text.now after.items)) }
{
    if piece.start > text.len() {
        return Ok(None);
    }
    let (front, rest) = text.split_at(piece.start);
    if piece.length > rest.len() {
        return Ok(None);
    }
    if piece.length == 0 {
        let after = added(alloc, front, rest, cap, string)?;
        return Ok(Some(after));
    }
    let (own, back) = rest.split_at(piece.length);
    replaced(alloc, Parts { front, own, back }, cap, string)
}
