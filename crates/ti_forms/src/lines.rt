//! Lines of a certificate about rows with a standard string, written and read as they are spelled.

ghost use Rattle.std.specs.Prelude.{◌≡◌, ◌++◌, ◌<◌, IfOk, IfSome, IsTrue, OnOk, Some};
ghost use Rattle.ti_forms.specs.Forms as forms;
ghost use Rattle.ti_lines.specs.RowLines as spec;
ghost use Rattle.ti_lines.specs.declared.row_lines.RowLine as declared;

use crate::effects::standard_effect;
use crate::forms::{Form, form_of, is_of_form, is_standard};
use crate::numbers::ROOM;
use crate::sends::form_into;
use crate::texts::line_of;
use arrayvec::ArrayVec;
use std::alloc::AllocError;
use ti_caps::Bytes;
use ti_lines::RowLine;
use ti_rows::Row;
use vt_effects::Effect;

/// Whether the row has a standard string, `bytes` are those that it sends, and `effect` is their effect.
fn is_whole_form(row: Row, bytes: &[u8], effect: &Effect) -> bool
    ensures { IsTrue result → forms.IsWholeForm row bytes.now effect.now }
{
    is_of_form(row, bytes) && effect.equals(&standard_effect(row))
}

/// The line, without its LF, that says: the string of `row` is `bytes`, and their effect is `effect`, where these are
/// those of the standard's string.
fn form_line(row: Row, bytes: &[u8], effect: &Effect) -> Option<ArrayVec<u8, ROOM>>
    ensures { IfSome result (λ text. text.items
        ≡ spec.line_text (record { row = row; bytes = bytes.now; effect = effect.now })) }
{
    match line_of(row) {
        Some(line) if is_whole_form(row, bytes, effect) => Some(line),
        _ => None,
    }
}

/// Appends to `text` the line, without its LF, that says: the string of `row` is `bytes`, and their effect is `effect`.
/// It is the text of `push_row_line` of `ti_lines`, which needs `words` as room.
pub fn push_row_line(
    row: Row,
    bytes: &[u8],
    effect: &Effect,
    words: &mut Vec<u8>,
    text: &mut Vec<u8>,
) -> Result<(), AllocError>
    ensures { OnOk result (text.new.items ≡ text.old.items
        ++ spec.line_text (record { row = row; bytes = bytes.now; effect = effect.now })) }
{
    match form_line(row, bytes, effect) {
        Some(line) => text.extend_from_slice(line.as_slice()),
        None => ti_lines::push_row_line(row, bytes, effect, words, text),
    }
}

/// The text of the line, without its LF, about `row` and what `string` sends for it, if `string` is the standard's for
/// the row's capability. Nothing of it has to be run or judged.
pub fn standard_text(string: &[u8], row: Row) -> Option<ArrayVec<u8, ROOM>>
    ensures { IfSome result (λ text. forms.IsStandardText row string.now text.items) }
{
    if is_standard(string, row) {
        line_of(row)
    } else {
        None
    }
}

/// Whether `text` is the line.
fn is_text(line: &ArrayVec<u8, ROOM>, text: &[u8]) -> bool
    ensures { IsTrue result → text.now ≡ line.now.items }
{
    text == line.as_slice()
}

/// Whether `text` is the line about `row` that has the standard's string.
fn is_line(row: Row, text: &[u8]) -> bool
    ensures { IsTrue result → forms.IsStandardLine row text.now }
{
    match line_of(row) {
        Some(line) => is_text(&line, text),
        None => false,
    }
}

/// The line about `row`, whose control sequence is `form`. Its bytes are put into `room`, in place of its content.
fn read_form(row: Row, form: Form, room: Vec<u8>) -> Result<RowLine, AllocError>
    requires bytes { forms.bytes_of form ≡ forms.standard_bytes row }
    requires first { form.first < 1000 }
    requires second { IfSome form.second (λ number. number < 1000) }
    ensures { IfOk result (λ line. line ≡ forms.standard_line row) }
{
    let mut bytes = room;
    form_into(form, &mut bytes)?;
    Ok(RowLine {
        row,
        bytes: Bytes::from_vec(bytes),
        effect: standard_effect(row),
    })
}

/// The line whose text this is, which may be that of `row`: as `read_row_line`.
fn read_expected(text: &[u8], room: Vec<u8>, row: Row) -> Result<Option<RowLine>, AllocError>
    ensures found { IfOk result (λ found. IfSome found (λ line. spec.IsTextOf text.now line)) }
    ensures each { IfOk result (λ found. (line : declared.RowLine) → spec.IsTextOf text.now line → found ≡ Some line) }
{
    match form_of(row) {
        Some(form) if is_line(row, text) => match read_form(row, form, room) {
            Ok(found) => Ok(Some(found)),
            Err(fault) => Err(fault),
        },
        _ => ti_lines::read_row_line(text, room),
    }
}

/// The line about a checked capability whose text this is, without its LF: the result of `read_row_line` of `ti_lines`.
/// A line about the row `expected` isn't read where it is that of a standard string. The line's bytes are put into
/// `room`, in place of its content; `AllocError` if it has to grow and there is no memory.
pub fn read_row_line(
    text: &[u8],
    room: Vec<u8>,
    expected: Option<Row>,
) -> Result<Option<RowLine>, AllocError>
    ensures found { IfOk result (λ found. IfSome found (λ line. spec.IsTextOf text.now line)) }
    ensures each { IfOk result (λ found. (line : declared.RowLine) → spec.IsTextOf text.now line → found ≡ Some line) }
{
    match expected {
        Some(row) => read_expected(text, room, row),
        None => ti_lines::read_row_line(text, room),
    }
}
