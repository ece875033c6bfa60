//! The text of a line about a checked capability.
ghost use Rattle.std.specs.{Prelude.{◌≡◌, ◌++◌, ◌∷◌, [], OnOk}, Fmt.{decimal}};
ghost use Rattle.hex.specs.Hex.{encode_lower};
ghost use Rattle.ti_lines.specs.Hex.{hex_text};
ghost use Rattle.ti_lines.specs.RowLines as spec;

use crate::effect_texts::push_effect;
use crate::numbers::push_number;
use std::alloc::AllocError;
use ti_rows::Row;
use vt_effects::Effect;

/// Appends to `text` the line, without its LF, that says: the string of `row` is `bytes`, and their
/// effect is `effect`. `words` is room for the effect's text. Memory is requested only where one of
/// the two vectors has to grow; fails if it runs out.
pub fn push_row_line(
    row: Row,
    bytes: &[u8],
    effect: &Effect,
    words: &mut Vec<u8>,
    text: &mut Vec<u8>,
) -> Result<(), AllocError>
    ensures { OnOk result (text.new.items ≡ text.old.items
        ++ spec.line_text (record { row = row; bytes = bytes.now; effect = effect.now })) }
{
    text.extend_from_slice(row.name())?;
    text.push(b' ')?;
    push_numbers(row.params().as_slice(), text)?;
    push_hex(bytes, text)?;
    text.push(b' ')?;
    push_effect(effect, words)?;
    text.extend_from_slice(words.as_slice())
}

/// Appends each number in decimal, with a space after it.
fn push_numbers(numbers: &[u16], text: &mut Vec<u8>) -> Result<(), AllocError>
    ensures { OnOk result (text.new.items ≡ text.old.items ++ spec.numbers_text numbers.now) }
{
    for number in numbers {
        push_spaced(*number, text)?;
    }
    Ok(())
}

fn push_spaced(number: u16, text: &mut Vec<u8>) -> Result<(), AllocError>
    ensures { OnOk result (text.new.items ≡ text.old.items ++ (decimal number ++ 32 ∷ [])) }
{
    push_number(number, text)?;
    text.push(b' ')?;
    Ok(())
}

/// Appends `bytes` in hexadecimal, or a dash for none. Fails if memory runs out.
pub fn push_hex(bytes: &[u8], text: &mut Vec<u8>) -> Result<(), AllocError>
    ensures { OnOk result (text.new.items ≡ text.old.items ++ hex_text bytes.now) }
{
    if bytes.is_empty() {
        text.push(b'-')?;
        return Ok(());
    }
    push_digits(bytes, text)
}

fn push_digits(bytes: &[u8], text: &mut Vec<u8>) -> Result<(), AllocError>
    ensures { OnOk result (text.new.items ≡ text.old.items ++ encode_lower bytes.now) }
{
    for byte in bytes {
        push_byte(*byte, text)?;
    }
    Ok(())
}

/// Appends the two digits of a byte.
fn push_byte(byte: u8, text: &mut Vec<u8>) -> Result<(), AllocError>
    ensures { OnOk result (text.new.items ≡ text.old.items ++ encode_lower (byte ∷ [])) }
{
    let mut digits = [0; 2];
    hex::encode_to_slice([byte], &mut digits).unwrap();
    text.extend_from_slice(&digits)
}
