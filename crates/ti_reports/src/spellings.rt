//! A string of an entry in two forms.

ghost use Rattle.std.specs.{Prelude.{◌≡◌, IfOk, IfSome, IsTrue, Ok, string_bytes}, Option.{option_copied}};
ghost use Rattle.ti_caps.specs.{Entry.{string_at}, Fits.{string_fits}};
ghost use Rattle.ti_source.specs.{Escapes.{unescaped}, Prints.{string_text}};
ghost use Rattle.ti_reports.specs.Spellings as spec;

use crate::texts::are_bytes;
use crate::written::Written;
use std::alloc::{AllocError, Global};
use ti_caps::{Cap, Entry};
use ti_source::escape;

/// The string that `entry` has for `cap`; `None` if there is none.
pub fn own_string(alloc: Global, entry: &Entry, cap: Cap) -> Result<Option<Written>, AllocError>
    ensures { IfOk result (λ found. spec.IsSpelling (string_at entry.now cap) found) }
{
    let found = written_if(alloc, string_of(entry, cap))?;
    Ok(found)
}

/// The string that `entry` has for `cap`.
fn string_of(entry: &Entry, cap: Cap) -> Option<&[u8]>
    ensures value { option_copied result ≡ string_at entry.now cap }
    ensures fits { IfSome result (λ string. IsTrue (string_fits string.now)) }
{
    let _names = entry.names();
    entry.get_string(cap)
}

/// The `string`, if there is one. It must be one that an entry can have (`string_fits`).
pub fn written_if(alloc: Global, string: Option<&[u8]>) -> Result<Option<Written>, AllocError>
    requires { IfSome string (λ bytes. IsTrue (string_fits bytes.now)) }
    ensures { IfOk result (λ found. spec.IsSpelling (option_copied string.entry) found) }
{
    match string {
        Some(string) => Ok(Some(forms_of(alloc, string)?)),
        None => Ok(None),
    }
}

/// The `string`, which must be one that an entry can have (`string_fits`).
fn forms_of(alloc: Global, string: &[u8]) -> Result<Written, AllocError>
    requires { IsTrue (string_fits string.now) }
    ensures { IfOk result (λ it. spec.Spells string.now it) }
{
    let text = source_form(alloc, string)?;
    let hex = hex::encode(alloc, string)?;
    Ok(Written { text, hex })
}

/// The `string` as a source text has it; it must be one that an entry can have (`string_fits`).
pub fn source_form(alloc: Global, string: &[u8]) -> Result<String, AllocError>
    requires { IsTrue (string_fits string.now) }
    ensures printed { IfOk result (λ text. string_bytes text ≡ string_text string.now) }
    ensures reads { IfOk result (λ text. unescaped (string_bytes text) ≡ Ok string.now) }
{
    are_bytes(string);
    let text = escape(alloc, string)?;
    String::from_utf8_lossy(alloc, text.as_slice())
}
