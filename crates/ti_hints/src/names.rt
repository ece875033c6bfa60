//! The names in a source text that no capability has, counted by name.

use crate::fields::{next_field, without_cr};
use std::alloc::{AllocError, Global};

/// The most names that are listed one by one.
const LISTED: usize = 20;

/// A name, and the number of fields that have it.
#[derive(Drop)]
struct Counted<'a> {
    name: &'a [u8],
    count: usize,
}

/// A line that counts the unknown names of the source text `text` by name, in the order in which they first occur;
/// empty if there are none.
pub fn unknown_names(alloc: Global, text: &[u8]) -> Result<Vec<u8>, AllocError> {
    let mut listed = Vec::new(alloc);
    let mut others: usize = 0;
    let mut rest = text;
    for _ in 0..=text.len() {
        let end = rest
            .iter()
            .position(|byte| *byte == b'\n')
            .unwrap_or(rest.len());
        if end >= rest.len() {
            others = others.saturating_add(count_line(rest, &mut listed)?);
            break;
        }
        others = others.saturating_add(count_line(without_cr(&rest[..end]), &mut listed)?);
        rest = &rest[end + 1..];
    }
    spell(alloc, listed.as_slice(), others)
}

/// Counts the unknown names of `line` in `listed`; returns the number of its fields whose name isn't listed.
fn count_line<'a>(line: &'a [u8], listed: &mut Vec<Counted<'a>>) -> Result<usize, AllocError> {
    let mut rest = match line.first() {
        None | Some(b'#') => return Ok(0),
        Some(b' ' | b'\t') => line,
        // the names of an entry
        Some(_) => next_field(line).1,
    };
    let mut others: usize = 0;
    for _ in 0..line.len() {
        if rest.is_empty() {
            break;
        }
        let (field, after) = next_field(rest);
        if field.is_unknown() && !count_name(field.name, listed)? {
            others = others.saturating_add(1);
        }
        rest = after;
    }
    Ok(others)
}

/// Counts `name` in `listed`, and returns whether it is there.
fn count_name<'a>(name: &'a [u8], listed: &mut Vec<Counted<'a>>) -> Result<bool, AllocError> {
    for counted in listed.iter_mut() {
        if counted.name == name {
            counted.count = counted.count.saturating_add(1);
            return Ok(true);
        }
    }
    if listed.len() >= LISTED {
        return Ok(false);
    }
    listed.push(Counted { name, count: 1 })?;
    Ok(true)
}

/// The line for the names `listed`, and for `others` fields with other names.
fn spell(alloc: Global, listed: &[Counted<'_>], others: usize) -> Result<Vec<u8>, AllocError> {
    let mut line = Vec::new(alloc);
    for counted in listed {
        let front: &[u8] = if line.is_empty() {
            b"unknown names: "
        } else {
            b", "
        };
        line.extend_from_slice(front)?;
        line.extend_from_slice(counted.name)?;
        let count = counted.count;
        line.extend_from_slice(format!(in alloc; " ({count})")?.as_bytes())?;
    }
    if others > 0 {
        line.extend_from_slice(format!(in alloc;
            ", and {others} fields with other names"
        )?.as_bytes())?;
    }
    Ok(line)
}
