//! Two texts of one file, and what differs between them.

use crate::hunks::{Hunks, Lines};
use crate::pieces::pieces_of;
use std::alloc::{AllocError, Global};

/// Two texts of one file.
#[derive(Clone, Copy)]
pub struct Compared<'a> {
    /// The path that the diff names.
    pub path: &'a str,
    /// The text that the file has.
    pub old: &'a [u8],
    /// The text that it is to have.
    pub new: &'a [u8],
}

/// Appends to `diff` what has to change in the old text so that it is the new one, as `diff -u` prints it and patch(1)
/// reads it: nothing if nothing has.
///
/// # Errors
/// Out of memory.
pub fn push_unified(
    alloc: Global,
    diff: &mut Vec<u8>,
    compared: &Compared<'_>,
) -> Result<(), AllocError> {
    if compared.old == compared.new {
        return Ok(());
    }
    let old = lines_in(alloc, compared.old)?;
    let new = lines_in(alloc, compared.new)?;
    let lines = Lines {
        old: old.as_slice(),
        new: new.as_slice(),
    };
    let mut hunks = Hunks::new(alloc, lines);
    for piece in &pieces_of(alloc, lines.old, lines.new)? {
        hunks.add(*piece)?;
    }
    let path = compared.path;
    let head = format!(in alloc; "--- {path}\n+++ {path}\n")?;
    diff.extend_from_slice(head.as_bytes())?;
    diff.extend_from_slice(hunks.finish()?.as_slice())
}

/// The lines of `text`, each with its LF.
fn lines_in<'a>(alloc: Global, text: &'a [u8]) -> Result<Vec<&'a [u8]>, AllocError> {
    let mut lines = Vec::new(alloc);
    for line in text.split_inclusive(|byte| *byte == b'\n') {
        lines.push(line)?;
    }
    Ok(lines)
}
