//! The reference of a path.

ghost use Rattle.std.specs.Prelude.{◌≡◌, IfOk, IsAscii, string_bytes};
ghost use Rattle.percent_encoding.specs.Percent.{percent_encode};

use percent_encoding::{AsciiSet, NON_ALPHANUMERIC, utf8_percent_encode};
use std::alloc::{AllocError, Global};

/// The bytes of a path that are escaped in a reference.
fn escaped_in_paths() -> AsciiSet {
    NON_ALPHANUMERIC
        .remove(b'-')
        .remove(b'.')
        .remove(b'/')
        .remove(b'_')
        .remove(b'~')
}

/// The bytes of `path`, each of `set` escaped.
#[tactic(auto, using(crate::proofs::AsciiFacts::ascii_escaped))]
fn escaped(alloc: Global, set: AsciiSet, path: &str) -> Result<String, AllocError>
    ensures text { IfOk result (λ text. string_bytes text ≡ percent_encode set path.now) }
    ensures ascii { IfOk result (λ text. IsAscii (string_bytes text)) }
{
    let mut text = String::new(alloc);
    utf8_percent_encode(path, set).append_to(&mut text)?;
    Ok(text)
}

/// The reference of the file at `path`.
pub(crate) fn uri_of(alloc: Global, path: &str) -> Result<String, AllocError>
    ensures { IfOk result (λ text. IsAscii (string_bytes text)) }
{
    escaped(alloc, escaped_in_paths(), path)
}
