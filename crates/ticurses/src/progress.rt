//! The lines of a survey as they become known, and the line that shows how far it has got.

ghost use Rattle.std.specs.Prelude.{◌≡◌, Bool, List, Option, ℕ};

use std::alloc::{AllocError, Global};
use std::io::{IsTerminal, Write};
use ti_files::{Failure, Output, Reply};
use ti_surveys::Watcher;

/// The most bytes of the line, so that it is one row of all but the narrowest terminals.
const WIDTH: usize = 60;

/// A line on standard error that is overwritten again and again, if that is a terminal.
#[derive(Drop)]
struct ProgressLine<'a, E> {
    alloc: Global,
    err: &'a mut E,
    is_seen: bool,
    /// The number of bytes that the line has now.
    len: usize,
}

impl<E: Write> ProgressLine<'_, E> {
    /// Shows that `done` of `all` files or entries are done, and that the one named `name` is next.
    fn tell(&mut self, done: usize, all: usize, name: &[u8]) {
        if self.is_seen {
            if let Ok(text) = text_of(self.alloc, done, all, name) {
                let _ = self.show(text.as_slice());
            }
        }
    }

    /// Blanks the line, if something is on it.
    fn clear(&mut self) {
        if self.len > 0 {
            let _ = self.show(b"");
            let _ = self.err.write_all(b"\r");
        }
    }

    /// Writes `text` over the line, unless memory runs out, and blanks the rest of the line.
    fn show(&mut self, text: &[u8]) -> Result<(), AllocError> {
        let mut row = Vec::from_slice(self.alloc, b"\r")?;
        row.extend_from_slice(text)?;
        for _ in text.len()..self.len {
            row.push(b' ')?;
        }
        let _ = self.err.write_all(row.as_slice());
        self.len = text.len();
        Ok(())
    }
}

/// Writes the lines of a survey to an output as soon as they are known. Between them a line on standard error shows how
/// far the survey has got, if that is a terminal.
#[derive(Drop)]
pub struct SurveyLines<'a, O, E> {
    out: &'a mut O,
    /// Whether the output has failed. Nothing more is then written to it.
    has_failed: bool,
    progress: ProgressLine<'a, E>,
}

impl<'a, O, E: IsTerminal> SurveyLines<'a, O, E> {
    /// The lines of a survey on `out`, with its progress on `err`. Nothing has been written yet.
    pub fn new(alloc: Global, out: &'a mut O, err: &'a mut E) -> SurveyLines<'a, O, E> {
        let is_seen = err.is_terminal();
        SurveyLines {
            out,
            has_failed: false,
            progress: ProgressLine {
                alloc,
                err,
                is_seen,
                len: 0,
            },
        }
    }
}

impl<O, E> SurveyLines<'_, O, E> {
    /// The `reply` of the survey. If its output has failed, it fails too, and nothing more is to be written.
    pub fn end(&self, alloc: Global, reply: Reply) -> Reply {
        if !self.has_failed {
            return reply;
        }
        let Reply {
            notes,
            text: _text,
            failure,
        } = reply;
        Reply {
            notes,
            text: Vec::new(alloc),
            failure: Some(unwritten(failure)),
        }
    }
}

/// The failure of a reply that couldn't be written: its own `failure` comes first.
fn unwritten(failure: Option<Failure>) -> Failure {
    match failure {
        None => Failure::Output,
        Some(Failure::Refused(refusal)) => Failure::RefusedUnwritten(refusal),
        Some(other) => other,
    }
}

impl<O: Output, E: Write> Watcher for SurveyLines<'_, O, E> {
    ghost heard = { λ lines. O.contents lines.out.now };

    ghost has_failed = { λ lines. lines.has_failed };

    fn begins(&mut self, done: usize, all: usize, name: &[u8]) {
        self.progress.tell(done, all, name);
    }

    fn hears(&mut self, lines: &[u8]) {
        if self.has_failed {
            return;
        }
        self.progress.clear();
        if self.out.put(lines).is_err() {
            self.has_failed = true;
        }
    }

    fn ends(&mut self) {
        self.progress.clear();
    }
}

/// The numbers `done` and `all` and the `name`, cut at the width of the line. A byte that a
/// terminal might take for a part of a sequence becomes a question mark.
fn text_of(alloc: Global, done: usize, all: usize, name: &[u8]) -> Result<Vec<u8>, AllocError> {
    let mut text = format!(in alloc; "{done} of {all}: ")?.into_bytes();
    for byte in name {
        text.push(if matches!(byte, 32..=126) {
            *byte
        } else {
            b'?'
        })?;
    }
    text.truncate(WIDTH);
    Ok(text)
}
