//! Bytes in the escapes of terminfo source.

use ti_files::Pushed;
use ti_source::letter_for;

/// The most bytes of a string that are shown.
const SHOWN: usize = 300;

/// Appends `bytes` to `text` as a source text writes them in a string. A byte without an escape letter is left as it
/// is, and `Remarks` shows it in octal if it can't be printed.
pub fn push_spelled(text: &mut Vec<u8>, bytes: &[u8]) -> Pushed {
    for byte in bytes.iter().take(SHOWN) {
        push_byte(text, *byte)?;
    }
    if bytes.len() > SHOWN {
        text.extend_from_slice(b" ..")?;
    }
    Ok(())
}

/// Appends `byte`. A space and a colon are legible as they are.
fn push_byte(text: &mut Vec<u8>, byte: u8) -> Pushed {
    match letter_for(byte) {
        Some(letter) if byte != b' ' && byte != b':' => text.extend_from_slice(&[b'\\', letter]),
        _ => text.extend_from_slice(&[byte]),
    }
}
