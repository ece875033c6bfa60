//! The lines of a certificate about no capability: the first, that of alternate characters, and the last.
ghost use Rattle.std.specs.Prelude.{◌≡◌, ℕ, List, Some, IfOk, IfSome, option_map};
ghost use Rattle.ti_lines.specs.Heads as spec;

use crate::cuts::cut;
use crate::hexes::hex_at;
use crate::numbers::number_at;
use std::alloc::{AllocError, Global};

/// The rows and columns of a certificate's first line, `ticert 2 R C`, given without its LF. `None` for
/// any other text.
#[tactic(auto, using(crate::proofs::HeadsRead::size_read))]
pub fn read_size_line(text: &[u8]) -> Option<(u16, u16)>
    ensures found { IfSome result (λ size. spec.IsSizeText text.now size.0 size.1) }
    ensures each { (rows cols : ℕ) → spec.IsSizeText text.now rows cols → result ≡ Some (rows, cols) }
{
    size_in(text)
}

fn size_in(text: &[u8]) -> Option<(u16, u16)>
    ensures { result ≡ spec.size_in text.now }
{
    let rest = behind_word(b"ticert", text)?;
    let numbers = behind_word(b"2", rest)?;
    two_numbers_in(numbers)
}

fn two_numbers_in(text: &[u8]) -> Option<(u16, u16)>
    ensures { result ≡ spec.two_numbers_in text.now }
{
    let (first, second) = cut(b' ', text)?;
    Some((number_at(first)?, number_at(second)?))
}

/// The bytes of a certificate's line of alternate characters, `acsc HEX`, given without its LF.
/// `None` for any other text. Fails with `AllocError` if there is no memory for the bytes.
pub fn read_acsc_line(alloc: Global, text: &[u8]) -> Result<Option<Vec<u8>>, AllocError>
    ensures found { IfOk result (λ found. IfSome found (λ bytes. spec.IsAcscText text.now bytes.items)) }
    ensures each { IfOk result (λ found. (bytes : List ℕ)
        → spec.IsAcscText text.now bytes → option_map (λ b. b.items) found ≡ Some bytes) }
{
    acsc_in(alloc, text)
}

fn acsc_in(alloc: Global, text: &[u8]) -> Result<Option<Vec<u8>>, AllocError>
    ensures { IfOk result (λ found. option_map (λ bytes. bytes.items) found ≡ spec.acsc_in text.now) }
{
    match behind_word(b"acsc", text) {
        None => Ok(None),
        Some(rest) => hex_at(rest, Vec::new(alloc)),
    }
}

/// The rest of `text` after `word` and a space.
fn behind_word<'a>(word: &[u8], text: &'a [u8]) -> Option<&'a [u8]>
    ensures { option_map (λ rest. rest.now) result ≡ spec.behind_word word.now text.now }
{
    let (first, rest) = cut(b' ', text)?;
    if first == word { Some(rest) } else { None }
}

/// Whether a line, given without its LF, is a certificate's last.
pub fn is_end_line(text: &[u8]) -> bool
    ensures { result ≡ spec.is_end text.now }
{
    text == b"end".as_slice()
}
