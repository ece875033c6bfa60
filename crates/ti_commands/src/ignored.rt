//! The lines of `feed` about sequences that had no effect.

use std::alloc::{AllocError, Global};
use ti_files::{Pushed, Remarks};
use ti_words::{function_name, has_other_numbers, push_sequence};
use vt_states::{Counts, Kind, ignored_in};

/// Adds a line to `remarks` for each kind of sequence in `bytes` that T ignores, wholly or in one of its numbers, and
/// one for all kinds past the first 50. Fails only when out of memory.
pub fn remark_ignored(alloc: Global, bytes: &[u8], remarks: &mut Remarks) -> Pushed {
    let counts = ignored_in(alloc, bytes)?;
    for kind in counts.kinds() {
        let mut line = Vec::from_slice(alloc, b"no effect: ")?;
        push_named(kind.sequence(), &mut line)?;
        line.push(b' ')?;
        push_times(alloc, kind.times(), &mut line)?;
        remarks.add_words(line.as_slice());
    }
    if counts.others() > 0 {
        let mut line = Vec::from_slice(alloc, b"no effect: sequences of further kinds ")?;
        push_times(alloc, counts.others(), &mut line)?;
        remarks.add_words(line.as_slice());
    }
    Ok(())
}

/// The lines that `--state` adds for the sequences in `bytes` that T ignores.
pub fn ignored_lines(alloc: Global, bytes: &[u8]) -> Result<Vec<u8>, AllocError> {
    let counts = ignored_in(alloc, bytes)?;
    let mut text = Vec::new(alloc);
    for kind in counts.kinds() {
        push_start(alloc, kind.times(), &mut text)?;
        push_named(kind.sequence(), &mut text)?;
        text.push(b'\n')?;
    }
    if counts.others() > 0 {
        push_start(alloc, counts.others(), &mut text)?;
        text.extend_from_slice(b"others\n")?;
    }
    Ok(text)
}

fn push_start(alloc: Global, times: usize, text: &mut Vec<u8>) -> Pushed {
    let start = format!(in alloc; "no-effect {times} ")?;
    text.extend_from_slice(start.as_bytes())
}

/// The items of the member `no_effect` of `--json`, for the sequences in `bytes` that T ignores.
pub fn ignored_items(alloc: Global, bytes: &[u8]) -> Result<Vec<u8>, AllocError> {
    let counts = ignored_in(alloc, bytes)?;
    let mut text = Vec::new(alloc);
    for kind in counts.kinds() {
        if !text.is_empty() {
            text.push(b',')?;
        }
        push_item(alloc, kind, &mut text)?;
    }
    if counts.others() > 0 {
        let others = counts.others();
        let item = format!(in alloc; "\"times\":{others}")?;
        text.extend_from_slice(b",{")?;
        text.extend_from_slice(item.as_bytes())?;
        text.push(b'}')?;
    }
    Ok(text)
}

fn push_item(alloc: Global, kind: &Kind, text: &mut Vec<u8>) -> Pushed {
    let times = kind.times();
    text.extend_from_slice(b"{\"name\":\"")?;
    if let Some(function) = function_name(kind.sequence()) {
        text.extend_from_slice(function.name.as_bytes())?;
    }
    text.extend_from_slice(b"\",\"sequence\":\"")?;
    push_quoted(alloc, kind.sequence(), text)?;
    let end = format!(in alloc; "\",\"times\":{times}")?;
    text.extend_from_slice(end.as_bytes())?;
    text.push(b'}')?;
    Ok(())
}

/// Adds the sequence as a JSON string has it.
fn push_quoted(alloc: Global, sequence: &[u8], text: &mut Vec<u8>) -> Pushed {
    let mut spelled = Vec::new(alloc);
    push_sequence(sequence, &mut spelled)?;
    for byte in &spelled {
        if *byte == b'"' || *byte == b'\\' {
            text.push(b'\\')?;
        }
        text.push(*byte)?;
    }
    Ok(())
}

/// Adds the name of a sequence, if it has one, and the sequence.
fn push_named(sequence: &[u8], line: &mut Vec<u8>) -> Pushed {
    match function_name(sequence) {
        Some(function) => {
            line.extend_from_slice(function.name.as_bytes())?;
            line.extend_from_slice(b" (")?;
            push_sequence(sequence, line)?;
            line.push(b')')?;
        }
        None => push_sequence(sequence, line)?,
    }
    if has_other_numbers(sequence) {
        line.extend_from_slice(b" with numbers that T does not take")?;
    }
    Ok(())
}

fn push_times(alloc: Global, times: usize, line: &mut Vec<u8>) -> Pushed {
    if times == 1 {
        return line.extend_from_slice(b"once");
    }
    let words = format!(in alloc; "{times} times")?;
    line.extend_from_slice(words.as_bytes())
}
