//! The text of bytes in a report.

ghost use Rattle.std.specs.{Prelude.{◌≡◌, ◌<◌, IfOk, string_bytes}, List.{AllByRecursion}};
ghost use Rattle.ti_files.specs.Shown.{shown};
ghost use Rattle.ti_reports.specs.Texts as spec;

use std::alloc::{AllocError, Global};
use ti_files::push_shown;

/// The text of `bytes`: the bytes themselves if they are UTF-8, else as `push_shown` appends them.
pub fn text_of(alloc: Global, bytes: &[u8]) -> Result<String, AllocError>
    ensures { IfOk result (λ text. spec.IsShownAs bytes.now (string_bytes text)) }
{
    match str::from_utf8(bytes) {
        Ok(text) => String::from_str(alloc, text),
        Err(_) => shown(alloc, bytes),
    }
}

/// The bytes, each outside 32 to 126 as a backslash and three octal digits.
fn shown(alloc: Global, bytes: &[u8]) -> Result<String, AllocError>
    ensures { IfOk result (λ text. string_bytes text ≡ shown bytes.now) }
{
    are_bytes(bytes);
    let mut text = Vec::new(alloc);
    push_shown(&mut text, bytes)?;
    String::from_utf8_lossy(alloc, text.as_slice())
}

/// The range of a byte's type, read at each: nothing of the loop is left in the program.
pub fn are_bytes(bytes: &[u8])
    ensures { AllByRecursion (λ b. b < 256) bytes.now }
{
    for byte in bytes {
        let _byte = *byte;
    }
}
