//! Bytes as hexadecimal words.
ghost use Rattle.std.specs.Prelude.{◌≡◌, ◌/◌, ◌&&◌, if◌then◌else◌, Some, None, length, nat_le, IfOk, option_map};
ghost use Rattle.hex.specs.Hex.{decode_of};
ghost use Rattle.ti_lines.specs.Hex as spec;

use std::alloc::AllocError;

/// The bytes of a word of lower case hexadecimal digits, or none for a dash. `None` for any other
/// word. The bytes are put into `room`, in place of its content. Fails if memory runs out.
pub(crate) fn hex_at(text: &[u8], room: Vec<u8>) -> Result<Option<Vec<u8>>, AllocError>
    ensures { IfOk result (λ found. option_map (λ bytes. bytes.items) found ≡ spec.hex_in text.now) }
{
    if text == b"-".as_slice() {
        let mut bytes = room;
        bytes.clear();
        Ok(Some(bytes))
    } else if has_lower_digits(text) {
        decoded(text, room)
    } else {
        Ok(None)
    }
}

fn decoded(text: &[u8], room: Vec<u8>) -> Result<Option<Vec<u8>>, AllocError>
    ensures { IfOk result (λ found. option_map (λ bytes. bytes.items) found ≡ spec.decoded (decode_of text.now)) }
{
    let mut bytes = room;
    bytes.clear();
    bytes.resize(text.len() / 2, 0)?;
    if decode_into(text, bytes.as_mut_slice()) {
        Ok(Some(bytes))
    } else {
        Ok(None)
    }
}

/// Decodes `text` into `bytes`, which must be half as long as `text`. Returns whether `text`
/// consists of pairs of hexadecimal digits.
fn decode_into(text: &[u8], bytes: &mut [u8]) -> bool
    requires { length bytes.old ≡ length text.now / 2 }
    ensures { (if result then Some bytes.new else None) ≡ spec.decoded (decode_of text.now) }
{
    hex::decode_to_slice(text, bytes).is_ok()
}

fn has_lower_digits(text: &[u8]) -> bool
    ensures { result ≡ spec.has_lower_digits text.now }
{
    !text.is_empty() && lacks_upper(text)
}

fn lacks_upper(text: &[u8]) -> bool
    ensures { result ≡ spec.lacks_upper text.now }
{
    text.iter().all(|digit| !is_upper(*digit))
}

fn is_upper(digit: u8) -> bool
    ensures { result ≡ spec.is_upper digit }
{
    65 <= digit && digit <= 70
}
