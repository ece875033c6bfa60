//! Reading a line about a checked capability.
ghost use Rattle.std.specs.Prelude.{◌≡◌, ◌≤◌, [], Some, length, IfOk, IfSome, IfNone, option_map};
ghost use Rattle.ti_lines.specs.declared.row_lines.RowLine as declared;
ghost use Rattle.ti_lines.specs.RowLines as spec;

use crate::cuts::cut;
use crate::effects::read_effect;
use crate::hexes::hex_at;
use crate::numbers::number_at;
use crate::row_lines::RowLine;
use std::alloc::AllocError;
use ti_caps::Bytes;
use ti_rows::{Params, Row};

/// The line about a checked capability whose text this is, without its LF. `None` if there is none:
/// for a name that isn't a checked capability's, another number of parameters than it has, numbers
/// with leading zeros or above 65535, hexadecimal digits in upper case, and an effect that isn't in
/// its one form. Whether a size allows the parameters isn't checked. The line's bytes are put into
/// `room`, in place of its content; `AllocError` if it has to grow and there is no memory.
pub fn read_row_line(text: &[u8], room: Vec<u8>) -> Result<Option<RowLine>, AllocError>
    ensures found { IfOk result (λ found. IfSome found (λ line. spec.IsTextOf text.now line)) }
    ensures each { IfOk result (λ found. (line : declared.RowLine) → spec.IsTextOf text.now line → found ≡ Some line) }
{
    match cut(b' ', text) {
        None => Ok(None),
        Some((name, rest)) => match Row::named(name) {
            None => Ok(None),
            Some(first) => line_of(first, rest, room),
        },
    }
}

/// The line of the capability of `first` with the parameters, bytes and effect of `text`.
fn line_of(first: Row, text: &[u8], room: Vec<u8>) -> Result<Option<RowLine>, AllocError>
    ensures { IfOk result (λ found. found ≡ spec.line_of first text.now) }
{
    match row_before(first, text) {
        None => Ok(None),
        Some((row, rest)) => line_behind(row, rest, room),
    }
}

/// The row of the capability of `first` with the parameters at the start of `text`, and the rest.
fn row_before(first: Row, text: &[u8]) -> Option<(Row, &[u8])>
    ensures { option_map (λ x. (x.0, x.1.now)) result ≡ spec.row_before first text.now }
{
    let mut numbers = Params::new();
    let rest = numbers_before(first.param_count(), text, &mut numbers)?;
    let row = first.with_params(numbers.as_slice())?;
    Some((row, rest))
}

/// Pushes the `count` numbers at the start of `text`, and returns the rest after the space that
/// follows the last. `numbers` must be empty.
fn numbers_before<'a>(count: usize, text: &'a [u8], numbers: &mut Params) -> Option<&'a [u8]>
    requires empty { numbers.old.items ≡ [] }
    requires room { count ≤ 9 }
    ensures { option_map (λ rest. (numbers.new.items, rest.now)) result ≡ spec.numbers_before count [] text.now }
{
    let mut rest = text;
    for _ in 0..count {
        let (word, behind) = cut(b' ', rest)?;
        numbers.push(number_at(word)?);
        rest = behind;
    }
    Some(rest)
}

/// The line of `row` with the bytes and the effect of `text`.
fn line_behind(row: Row, text: &[u8], room: Vec<u8>) -> Result<Option<RowLine>, AllocError>
    ensures { IfOk result (λ found. found ≡ spec.line_behind row text.now) }
{
    match cut(b' ', text) {
        None => Ok(None),
        Some((word, rest)) => match read_effect(rest) {
            None => Ok(None),
            Some(effect) => match hex_at(word, room)? {
                None => Ok(None),
                Some(bytes) => Ok(Some(RowLine {
                    row,
                    bytes: Bytes::from_vec(bytes),
                    effect,
                })),
            },
        },
    }
}
