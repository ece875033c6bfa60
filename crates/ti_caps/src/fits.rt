//! Tests, for callers, of whether an entry can hold given names or a given string.

ghost use Rattle.std.specs.{Prelude.{◌≡◌, ◌&&◌, ◌==◌, not, false, nat_le}, List.{list_all}};
ghost use Rattle.ti_caps.specs.Fits as Fits;

use crate::types::LONGEST;

/// The byte, if any, that takes the next byte of a source text's field with it.
#[derive(Clone, Copy, Debug, PartialEq, Eq)]
pub enum Opener {
    Nothing,
    Backslash,
    Caret,
}

impl Opener {
    /// The opener after a byte.
    pub fn after(self, byte: u8) -> Opener
        ensures { result ≡ Fits.opener_after self byte }
    {
        match (self, byte) {
            (Opener::Nothing, b'\\') => Opener::Backslash,
            (Opener::Nothing, b'^') => Opener::Caret,
            _ => Opener::Nothing,
        }
    }

    /// Whether a comma as the next byte ends the field: it does except after a backslash.
    pub fn ends_at_comma(self) -> bool
        ensures { result ≡ Fits.ends_at_comma self }
    {
        match self {
            Opener::Backslash => false,
            Opener::Nothing | Opener::Caret => true,
        }
    }

    /// Whether `byte` is a comma that ends the field.
    pub fn ends_field(self, byte: u8) -> bool
        ensures { result ≡ (Fits.ends_at_comma self && (byte == 44)) }
    {
        self.ends_at_comma() && byte == b','
    }
}

/// Whether `field`, in a source text, is one field: no comma within it ends it, and a comma after it does.
pub fn is_one_field(field: &[u8]) -> bool
    ensures { result ≡ Fits.is_one_field Opener.Nothing field.now }
{
    let mut opener = Opener::Nothing;
    for byte in field {
        if opener.ends_field(*byte) {
            return false;
        }
        opener = opener.after(*byte);
    }
    opener.ends_at_comma()
}

/// Whether these bytes begin like a names field.
fn begins_names(names: &[u8]) -> bool
    ensures { result ≡ Fits.begins_names names.now }
{
    match names {
        [] => false,
        [first, ..] => *first != b' ' && *first != b'#' && *first != b'|',
    }
}

/// Whether no byte is a control character below 32.
fn has_no_controls(bytes: &[u8]) -> bool
    ensures { result ≡ list_all (λ b. nat_le 32 b) bytes.now }
{
    bytes.iter().all(|byte| *byte >= 32)
}

/// Whether no byte is 0.
fn has_no_zero(bytes: &[u8]) -> bool
    ensures { result ≡ list_all (λ b. not (b == 0)) bytes.now }
{
    bytes.iter().all(|byte| *byte != 0)
}

/// Whether `names` can be the names field of an entry: a source text of terminfo(5) that has it in column one,
/// followed by a comma, gives an entry with just these names.
pub fn names_fit(names: &[u8]) -> bool
    ensures { result ≡ Fits.names_fit names.now }
{
    names.len() <= LONGEST && begins_names(names) && has_no_controls(names) && is_one_field(names)
}

/// Whether these bytes can be the value of a string: none is 0, and there are at most 4095.
pub fn string_fits(bytes: &[u8]) -> bool
    ensures { result ≡ Fits.string_fits bytes.now }
{
    bytes.len() <= LONGEST && has_no_zero(bytes)
}
