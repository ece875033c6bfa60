//! The text that the bytes of a file are read as.

ghost use Rattle.std.specs.{Prelude.{◌≡◌, IfOk}, Bool.{OnTrue}};
ghost use Rattle.ti_files.specs.Wrapped as spec;

use crate::{LONGEST_FILE, NewFile};
use std::alloc::{AllocError, Global};
use ti_sources::{is_joined, joined};

/// Whether the file begins as a compiled one.
fn is_compiled(bytes: &[u8]) -> bool
    ensures { result ≡ spec.is_compiled bytes.now }
{
    match bytes {
        [first, second, ..] => (*first == 26 && *second == 1) || (*first == 30 && *second == 2),
        [] | [_] => false,
    }
}

/// Whether the file begins as a certificate.
fn is_certificate(bytes: &[u8]) -> bool
    ensures { result ≡ spec.is_certificate bytes.now }
{
    bytes.starts_with(b"ticert ")
}

/// Whether the file is taken as a source.
fn is_source(bytes: &[u8]) -> bool
    ensures { result ≡ spec.is_source bytes.now }
{
    bytes.len() <= LONGEST_FILE as usize && !is_compiled(bytes) && !is_certificate(bytes)
}

/// Whether the file is a source of which a field continues on the next line.
fn is_wrapped(bytes: &[u8]) -> bool
    ensures { result ≡ spec.is_wrapped bytes.now }
{
    is_source(bytes) && !is_joined(bytes)
}

/// The text that the `bytes` of a file are read as: a source of which fields continue on further lines is joined. Any
/// other file stays as it is, so that a source of the greatest length needs no LF at its end.
#[tactic(auto, unfolding(crate::specs::Wrapped::read_as))]
pub fn read_as(alloc: Global, bytes: Vec<u8>) -> Result<Vec<u8>, AllocError>
    ensures { IfOk result (λ text. text.items ≡ spec.read_as bytes.items) }
{
    if is_wrapped(bytes.as_slice()) {
        joined(alloc, bytes.as_slice())
    } else {
        Ok(bytes)
    }
}

/// Whether a file with these `bytes` is read as just them.
#[tactic(auto, unfolding(crate::specs::Wrapped::read_as))]
pub fn reads_as_is(alloc: Global, bytes: &[u8]) -> Result<bool, AllocError>
    ensures { IfOk result (λ same. OnTrue same (spec.read_as bytes.now ≡ bytes.now)) }
{
    if !is_wrapped(bytes) {
        return Ok(true);
    }
    let text = joined(alloc, bytes)?;
    Ok(text.as_slice() == bytes)
}

/// Whether a file is read as just its bytes.
fn is_read_as_is(alloc: Global, file: &NewFile) -> Result<bool, AllocError>
    ensures { IfOk result (λ same. OnTrue same (spec.read_as file.now.bytes.items ≡ file.now.bytes.items)) }
{
    reads_as_is(alloc, file.bytes.as_slice())
}

/// Whether each of these files is read as just its bytes.
pub fn are_read_as_is(alloc: Global, files: &[NewFile]) -> Result<bool, AllocError>
    ensures { IfOk result (λ same. OnTrue same (spec.AreReadSo files.now)) }
{
    for file in files {
        let same = is_read_as_is(alloc, file)?;
        if !same {
            return Ok(false);
        }
    }
    Ok(true)
}
