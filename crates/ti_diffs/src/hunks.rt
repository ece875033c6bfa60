//! The hunks of a unified diff: changes with some of the lines around them.

use crate::pieces::Piece;
use std::alloc::{AllocError, Global};

/// How many lines around a change are shown.
const CONTEXT: usize = 3;

/// The lines of both texts, each with its LF; a last line may have none.
#[derive(Clone, Copy)]
pub(crate) struct Lines<'a> {
    pub(crate) old: &'a [&'a [u8]],
    pub(crate) new: &'a [&'a [u8]],
}

/// A hunk that further pieces may belong to.
#[derive(Drop)]
struct Hunk {
    /// How many lines of each text are before it.
    old_start: usize,
    new_start: usize,
    /// How many lines of each text it has.
    old_count: usize,
    new_count: usize,
    /// Its lines, each behind a blank, `-` or `+`.
    body: Vec<u8>,
}

/// The hunks so far.
#[derive(Drop)]
pub(crate) struct Hunks<'a> {
    alloc: Global,
    lines: Lines<'a>,
    /// How many lines of each text were passed.
    old_at: usize,
    new_at: usize,
    open: Option<Hunk>,
    /// The text of the hunks that are closed.
    text: Vec<u8>,
}

impl<'a> Hunks<'a> {
    /// No hunks of these `lines` yet.
    pub(crate) fn new(alloc: Global, lines: Lines<'a>) -> Hunks<'a> {
        Hunks {
            alloc,
            lines,
            old_at: 0,
            new_at: 0,
            open: None,
            text: Vec::new(alloc),
        }
    }

    /// Adds the next `piece`.
    pub(crate) fn add(&mut self, piece: Piece) -> Result<(), AllocError> {
        match piece {
            Piece::Kept(count) => self.add_kept(count)?,
            Piece::Changed { removed, added } => self.add_changed(removed, added)?,
        }
        self.old_at = self.old_at.saturating_add(piece.old_lines());
        self.new_at = self.new_at.saturating_add(piece.new_lines());
        Ok(())
    }

    /// The text of all hunks.
    pub(crate) fn finish(mut self) -> Result<Vec<u8>, AllocError> {
        self.close()?;
        Ok(self.text)
    }

    /// Adds lines that both texts have: few of them join two changes in one hunk, more of them end it.
    fn add_kept(&mut self, count: usize) -> Result<(), AllocError> {
        let Some(mut hunk) = self.open.take() else {
            return Ok(());
        };
        let is_last = self.old_at.saturating_add(count) >= self.lines.old.len();
        let joins = count <= CONTEXT.saturating_mul(2) && !is_last;
        let shown = if joins { count } else { count.min(CONTEXT) };
        push_lines(&mut hunk.body, b' ', self.lines.old, self.old_at, shown)?;
        hunk.old_count = hunk.old_count.saturating_add(shown);
        hunk.new_count = hunk.new_count.saturating_add(shown);
        self.open = Some(hunk);
        if joins { Ok(()) } else { self.close() }
    }

    /// Adds lines in which the texts differ.
    fn add_changed(&mut self, removed: usize, added: usize) -> Result<(), AllocError> {
        let mut hunk = match self.open.take() {
            Some(hunk) => hunk,
            None => self.begun()?,
        };
        push_lines(&mut hunk.body, b'-', self.lines.old, self.old_at, removed)?;
        push_lines(&mut hunk.body, b'+', self.lines.new, self.new_at, added)?;
        hunk.old_count = hunk.old_count.saturating_add(removed);
        hunk.new_count = hunk.new_count.saturating_add(added);
        self.open = Some(hunk);
        Ok(())
    }

    /// A hunk that begins with the lines before this place.
    fn begun(&self) -> Result<Hunk, AllocError> {
        let before = self.old_at.min(CONTEXT);
        let old_start = self.old_at.saturating_sub(before);
        let mut body = Vec::new(self.alloc);
        push_lines(&mut body, b' ', self.lines.old, old_start, before)?;
        Ok(Hunk {
            old_start,
            new_start: self.new_at.saturating_sub(before),
            old_count: before,
            new_count: before,
            body,
        })
    }

    /// Adds the text of the open hunk, if there is one.
    fn close(&mut self) -> Result<(), AllocError> {
        let Some(hunk) = self.open.take() else {
            return Ok(());
        };
        let old = range_words(self.alloc, hunk.old_start, hunk.old_count)?;
        let new = range_words(self.alloc, hunk.new_start, hunk.new_count)?;
        let head = format!(in self.alloc; "@@ -{old} +{new} @@\n")?;
        self.text.extend_from_slice(head.as_bytes())?;
        self.text.extend_from_slice(hunk.body.as_slice())
    }
}

/// The words about this `count` of lines behind the first `start`: the number of the first one, and their count unless
/// it is one. Of no lines, the number is that of the line before.
fn range_words(alloc: Global, start: usize, count: usize) -> Result<String, AllocError> {
    let first = start.saturating_add(1);
    match count {
        0 => format!(in alloc; "{start},0"),
        1 => format!(in alloc; "{first}"),
        _ => format!(in alloc; "{first},{count}"),
    }
}

/// Appends this `count` of `lines` from `start` on, each behind `mark`.
fn push_lines(
    body: &mut Vec<u8>,
    mark: u8,
    lines: &[&[u8]],
    start: usize,
    count: usize,
) -> Result<(), AllocError> {
    for line in lines.iter().skip(start).take(count) {
        body.push(mark)?;
        body.extend_from_slice(line)?;
        if line.last() != Some(&b'\n') {
            body.extend_from_slice(b"\n\\ No newline at end of file\n")?;
        }
    }
    Ok(())
}
