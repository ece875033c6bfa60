//! Hints about fields of a source text as further lines of a message.

use crate::carets::percent_carets;
use crate::hints::{FieldHint, caret_words, entry_hints};
use crate::uses::used_places;
use std::alloc::{AllocError, Global};
use ti_caps::name;
use ti_files::Remarks;
use ti_source::RawEntry;
use ti_sources::{place_named, text_lines};

/// Adds the hints of `entry_hints`, as far as there is memory, for the entry named `entry` among `raws`, and for the
/// entries that it uses. `raws` are the entries of the source text `text`.
pub fn hint_entry(
    alloc: Global,
    text: &[u8],
    raws: &[RawEntry],
    entry: &[u8],
    remarks: &mut Remarks,
) {
    let Some(own) = place_named(raws, entry) else {
        return;
    };
    if let (Ok(lines), Ok(places)) = (text_lines(alloc, text), used_places(alloc, raws, own)) {
        let lines = lines.as_slice();
        for place in &places {
            let _ = add_hints(alloc, Text { lines, raws }, *place, None, remarks);
        }
    }
}

/// Adds the hints of `entry_hints` for all entries `raws` of the source text `text`, each with the path of its file.
pub fn hint_entries(
    alloc: Global,
    path: &str,
    text: &[u8],
    raws: &[RawEntry],
    remarks: &mut Remarks,
) {
    if let Ok(lines) = text_lines(alloc, text) {
        let lines = lines.as_slice();
        for place in 0..raws.len() {
            let _ = add_hints(alloc, Text { lines, raws }, place, Some(path), remarks);
        }
    }
}

/// Adds a hint for each `%^` in a string of the source text `text`, as far as there is memory.
pub fn hint_carets(alloc: Global, text: &[u8], remarks: &mut Remarks) {
    if let Ok(carets) = percent_carets(alloc, text) {
        for caret in &carets {
            if let Ok(words) = caret_words(alloc, name(caret.cap)) {
                let _ = add_line(alloc, caret.line, words.as_slice(), None, remarks);
            }
        }
    }
}

/// The lines of a source text and its entries.
#[derive(Clone, Copy)]
struct Text<'a, 'b, 'c> {
    lines: &'a [&'b [u8]],
    raws: &'c [RawEntry],
}

/// Adds the hints for the entry at `place` among `raws`, each with the `path` of its file if there is one.
fn add_hints(
    alloc: Global,
    text: Text<'_, '_, '_>,
    place: usize,
    path: Option<&str>,
    remarks: &mut Remarks,
) -> Result<(), AllocError> {
    for hint in &entry_hints(alloc, text.lines, text.raws, place)? {
        add_line(alloc, hint.line, hint.words.as_slice(), path, remarks)?;
    }
    Ok(())
}

/// Adds the hint with these `words` about the line `number`.
fn add_line(
    alloc: Global,
    number: usize,
    words: &[u8],
    path: Option<&str>,
    remarks: &mut Remarks,
) -> Result<(), AllocError> {
    let mut line = format!(in alloc; "hint line {number}: ")?.into_bytes();
    line.extend_from_slice(words)?;
    if let Some(path) = path {
        line.extend_from_slice(b", in ")?;
        line.extend_from_slice(path.as_bytes())?;
    }
    remarks.add_words(line.as_slice());
    Ok(())
}
