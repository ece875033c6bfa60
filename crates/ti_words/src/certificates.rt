//! Explanations of a certificate's refusal: its line, and the text that it should have.

use crate::checked_strings::{explain_absent, explain_flag, explain_pairs};
use crate::numbers::push_numbers;
use crate::seen::{SHOWN, Seen};
use std::alloc::Global;
use ti_caps::{Cap, Entry, name};
use ti_conforms::{Unfit, first_unfit};
use ti_files::{Made, Pushed, Remarks};
use ti_rows::Params;
use vt_term::Size;

/// Explains the line `number` of the certificate at `path` by `wanted`, which says what it should have. The line is
/// shown if `seen` still has it.
pub fn explain_line(
    alloc: Global,
    path: &str,
    number: u64,
    seen: &Seen,
    wanted: &[u8],
    remarks: &mut Remarks,
) -> Pushed {
    match seen.line(number) {
        Some(line) => {
            let cut = cut_words(line);
            let place = format!(in alloc; "{cut} in line {number} of {path}: ")?;
            remarks.add(
                front(line),
                joined(alloc, place.as_bytes(), wanted)?.as_slice(),
            );
        }
        None => {
            let place = format!(in alloc; ", line {number}: ")?;
            remarks.add(
                path.as_bytes(),
                joined(alloc, place.as_bytes(), wanted)?.as_slice(),
            );
        }
    }
    Ok(())
}

/// Explains why the certificate at `path` isn't one of `entry`: either no certificate can be one of it, because of a
/// flag, a number or a missing string; or else what a disagreement about `cap` means.
pub fn explain_disagreement(
    alloc: Global,
    path: &str,
    entry: &Entry,
    cap: Cap,
    remarks: &mut Remarks,
) {
    match first_unfit(entry) {
        Some(why) => explain_unfit(alloc, entry, why, remarks),
        None => remarks.add(path.as_bytes(), other_words(cap)),
    }
}

/// Explains why no certificate can be one of `entry`.
fn explain_unfit(alloc: Global, entry: &Entry, why: Unfit, remarks: &mut Remarks) {
    match why {
        Unfit::FlagOut(_) => explain_flag(why.cap(), remarks),
        Unfit::Absent(_) => explain_absent(why.cap(), remarks),
        Unfit::AcsByte => {
            let _ = explain_pairs(alloc, entry.get_string(why.cap()), remarks);
        }
    }
}

/// Words for the difference between an entry and a certificate: the alternate characters, or the string of a line.
fn other_words(cap: Cap) -> &'static [u8] {
    match name(cap) {
        b"acsc" =>
            b": the entry does not have the alternate characters that the certificate has, or only one of the two has \
              some",
        _ =>
            b": for this string and these parameters the entry does not send what the certificate's line has, or \
              only one of the two has it",
    }
}

/// The part of `line` that is shown.
fn front(line: &[u8]) -> &[u8] {
    &line[..line.len().min(SHOWN)]
}

/// The words after the shown part of `line`: two dots if the line is longer.
fn cut_words(line: &[u8]) -> &'static str {
    if line.len() > SHOWN { " .." } else { "" }
}

fn joined(alloc: Global, one: &[u8], other: &[u8]) -> Made {
    let mut all = Vec::new(alloc);
    all.extend_from_slice(one)?;
    all.extend_from_slice(other)?;
    Ok(all)
}

/// The first line of a certificate for `size`.
pub fn first_line_words(alloc: Global, size: Size) -> Made {
    let rows = size.rows;
    let cols = size.cols;
    let words = format!(in alloc;
        "the first line of a certificate for this size is `ticert 2 {rows} {cols}`"
    )?;
    Ok(words.into_bytes())
}

/// The words that the line of `cap` with `params` must come here.
pub fn missing_line_words(alloc: Global, cap: Cap, params: &Params) -> Made {
    let mut words = Vec::from_slice(alloc, b"the line of `")?;
    words.extend_from_slice(name(cap))?;
    push_numbers(alloc, params.as_slice(), &mut words)?;
    words.extend_from_slice(b"` has to stand here")?;
    Ok(words)
}
