//! A text whose fields are each on one line, with the line breaks of the source from which it was joined.

ghost use Rattle.std.specs.Prelude.{◌≡◌, IfOk, IfSome, MatchOption};
ghost use Rattle.ti_sources.specs.Joins as joins;

use crate::joiner::joined;
use crate::scan::Scan;
use std::alloc::{AllocError, Global};
use ti_source::{cut_line, is_comment, is_further, is_white, skip_white};

/// A line of a source.
#[derive(Clone, Copy)]
struct Line<'a> {
    /// Its bytes, without its end.
    bytes: &'a [u8],
    /// Its end.
    end: &'a [u8],
}

/// A break within a line that was joined.
#[derive(Clone, Copy)]
struct Break<'a> {
    /// How many bytes of the joined line are before it.
    at: usize,
    /// The end of the line before it.
    end: &'a [u8],
    /// The white space behind it, at the start of the next line.
    white: &'a [u8],
}

/// Lines that are joined to one.
#[derive(Drop)]
struct Group<'a> {
    /// The line that they are joined to.
    line: Vec<u8>,
    breaks: Vec<Break<'a>>,
    /// The end of the last of them.
    end: &'a [u8],
}

/// The first line of the text, and the text behind it.
fn first_line(text: &[u8]) -> Option<(Line<'_>, &[u8])> {
    match cut_line(text) {
        Some((bytes, behind)) => {
            let whole = text.len().saturating_sub(behind.len());
            Some((
                Line {
                    bytes,
                    end: part_of(text, bytes.len(), whole),
                },
                behind,
            ))
        }
        None => None,
    }
}

/// The bytes from `start` up to `end`; none if there are no such bytes.
fn part_of(bytes: &[u8], start: usize, end: usize) -> &[u8] {
    if end > bytes.len() || start > end {
        return &[];
    }
    let (front, _behind) = bytes.split_at(end);
    let (_before, own) = front.split_at(start);
    own
}

/// The lines of a text.
fn lines_in(alloc: Global, text: &[u8]) -> Result<Vec<Line<'_>>, AllocError> {
    let mut lines = Vec::new(alloc);
    let mut rest = text;
    for _turn in 0..text.len() {
        match first_line(rest) {
            Some((line, behind)) => {
                lines.push(line)?;
                rest = behind;
            }
            None => return Ok(lines),
        }
    }
    Ok(lines)
}

/// The lines from the one at `place` on that are joined to one; none if there is no such line.
fn group_at<'a>(
    alloc: Global,
    lines: &[Line<'a>],
    place: usize,
) -> Result<Option<Group<'a>>, AllocError> {
    let Some(first) = lines.get(place).copied() else {
        return Ok(None);
    };
    let mut line = Vec::from_slice(alloc, first.bytes)?;
    let mut breaks = Vec::new(alloc);
    let mut end = first.end;
    let mut scan = Scan::start().over(first.bytes);
    for at in place + 1..lines.len() {
        let next = lines[at];
        if is_comment(first.bytes) || scan.is_blank || !is_further(next.bytes) {
            return Ok(Some(Group { line, breaks, end }));
        }
        let more = skip_white(next.bytes);
        let white = next.bytes.len().saturating_sub(more.len());
        breaks.push(Break {
            at: line.len(),
            end,
            white: part_of(next.bytes, 0, white),
        })?;
        line.extend_from_slice(more)?;
        end = next.end;
        scan = scan.over(more);
    }
    Ok(Some(Group { line, breaks, end }))
}

/// How many bytes are the same at the start of both.
fn common_front(one: &[u8], other: &[u8]) -> usize {
    let mut count: usize = 0;
    for (own, its) in one.iter().zip(other.iter()) {
        if *own != *its {
            return count;
        }
        count = count.saturating_add(1);
    }
    count
}

/// How many bytes are the same at the end of both.
fn common_back(one: &[u8], other: &[u8]) -> usize {
    let mut count: usize = 0;
    for (own, its) in one.iter().rev().zip(other.iter().rev()) {
        if *own != *its {
            return count;
        }
        count = count.saturating_add(1);
    }
    count
}

/// The place in the new line of a break of the old one: as far from the line's start, or from its end if it is in the
/// part there that is the same.
fn moved(at: usize, old: &[u8], new: &[u8]) -> usize {
    let front = common_front(old, new);
    if at <= front {
        return at;
    }
    let back = common_back(old, new)
        .min(old.len().saturating_sub(front))
        .min(new.len().saturating_sub(front));
    let behind = old.len().saturating_sub(at);
    if behind <= back {
        new.len().saturating_sub(behind)
    } else {
        at.min(new.len().saturating_sub(back))
    }
}

/// Whether the line can be broken at a place: a field isn't ended before it, and no white space is behind it.
fn is_cut(line: &[u8], place: usize) -> bool {
    match line.get(place) {
        Some(byte) => { !is_white(*byte) && !Scan::start().over(part_of(line, 0, place)).is_blank }
        None => false,
    }
}

/// The last place up to `place`, but behind `start`, at which the line can be broken.
fn cut_before(line: &[u8], start: usize, place: usize) -> Option<usize> {
    for back in 0..place.saturating_sub(start) {
        let at = place.saturating_sub(back);
        if is_cut(line, at) {
            return Some(at);
        }
    }
    None
}

/// Where a break of the group goes in the line, behind `start`: where it was, if the line `is_same` as the group's.
fn place_of(
    own: Break<'_>,
    group: &[u8],
    line: &[u8],
    is_same: bool,
    start: usize,
) -> Option<usize> {
    if is_same {
        Some(own.at)
    } else {
        cut_before(line, start, moved(own.at, group, line))
    }
}

/// Appends the line with the breaks of the group, and a blank line for each break that it has no place for.
fn push_broken(text: &mut Vec<u8>, group: &Group<'_>, line: &[u8]) -> Result<(), AllocError> {
    let is_same = group.line.as_slice() == line;
    let mut start: usize = 0;
    let mut lost: usize = 0;
    for own in &group.breaks {
        match place_of(*own, group.line.as_slice(), line, is_same, start) {
            Some(at) => {
                text.extend_from_slice(part_of(line, start, at))?;
                text.extend_from_slice(own.end)?;
                text.extend_from_slice(own.white)?;
                start = at;
            }
            None => lost = lost.saturating_add(1),
        }
    }
    text.extend_from_slice(part_of(line, start, line.len()))?;
    text.extend_from_slice(group.end)?;
    for _turn in 0..lost {
        text.extend_from_slice(b"\n")?;
    }
    Ok(())
}

/// The bytes of the line at `place`; none if there is no such line.
fn bytes_at<'a>(lines: &[Line<'a>], place: usize) -> &'a [u8] {
    match lines.get(place) {
        Some(line) => line.bytes,
        None => &[],
    }
}

/// The `text` with the breaks of the `original`. Both have as many lines, of which those that are joined to another one
/// are blank in the text.
fn with_breaks(alloc: Global, original: &[u8], text: &[u8]) -> Result<Vec<u8>, AllocError> {
    let olds = lines_in(alloc, original)?;
    let news = lines_in(alloc, text)?;
    let mut broken = Vec::new(alloc);
    let mut passed: usize = 0;
    for place in 0..olds.len() {
        if passed > 0 {
            passed -= 1;
        } else if let Some(group) = group_at(alloc, olds.as_slice(), place)? {
            push_broken(&mut broken, &group, bytes_at(news.as_slice(), place))?;
            passed = group.breaks.len();
        }
    }
    Ok(broken)
}

/// The `text`, whose fields are each on one line, with the line breaks of the `original` from which it was joined:
/// where a line is still the same, each break is where it was; in another line, each break is as far from the line's
/// start or end, or before that place. The original itself if the text is what it is joined to; `None` if it has other
/// lines.
///
/// # Errors
/// Out of memory.
pub fn rewrapped(alloc: Global, original: &[u8], text: &[u8]) -> Result<Option<Vec<u8>>, AllocError>
    ensures joins { IfOk result (λ found. IfSome found (λ wrapped. joins.joined_text wrapped.items ≡ text.now)) }
    ensures same { IfOk result (λ found. joins.joined_text original.now ≡ text.now
        → MatchOption found ⊥ (λ wrapped. wrapped.items ≡ original.now)) }
{
    let own = joined(alloc, original)?;
    if own.as_slice() == text {
        return Ok(Some(Vec::from_slice(alloc, original)?));
    }
    let wrapped = with_breaks(alloc, original, text)?;
    let again = joined(alloc, wrapped.as_slice())?;
    if again.as_slice() == text {
        Ok(Some(wrapped))
    } else {
        Ok(None)
    }
}
