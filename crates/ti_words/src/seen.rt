//! The part of a file that was read last, so that a message can show the line that it is about.

ghost use Rattle.std.specs.Prelude.{◌≤◌, length, IfSome};

use std::alloc::Global;
use ti_files::Pushed;

/// The most bytes of a line that are shown.
pub const SHOWN: usize = 200;

/// The line that was open before the last piece, and that piece.
#[derive(Drop)]
pub struct Seen {
    tail: Vec<u8>,
    /// The number of lines that end before the tail; `None` if memory ran out for it.
    lines_before: Option<u64>,
}

impl Seen {
    /// Nothing read yet.
    pub fn new(alloc: Global) -> Seen {
        Seen {
            tail: Vec::new(alloc),
            lines_before: Some(0),
        }
    }

    /// Adds the next `piece`. Only the part that can be shown is kept of the line that it continues.
    pub fn add(&mut self, piece: &[u8]) {
        if self.pass_lines().is_none() || self.push(piece).is_err() {
            self.lines_before = None;
        }
    }

    /// Leaves out the lines of the tail that have ended.
    fn pass_lines(&mut self) -> Option<()> {
        let ended = self.tail.iter().filter(|byte| **byte == b'\n').count();
        self.lines_before = Some(self.lines_before?.saturating_add(ended as u64));
        let open = open_line(self.tail.as_slice());
        self.tail.rotate_left(open);
        self.tail.truncate(self.tail.len() - open);
        self.tail.truncate(SHOWN + 1);
        Some(())
    }

    fn push(&mut self, piece: &[u8]) -> Pushed {
        self.tail.extend_from_slice(piece)
    }

    /// The line `number`, counted from 1, if it begins in the tail.
    pub fn line(&self, number: u64) -> Option<&[u8]> {
        let mut skipped = number.checked_sub(1)?.checked_sub(self.lines_before?)?;
        let mut rest = self.tail.as_slice();
        for _ in 0..self.tail.len() {
            if skipped == 0 {
                break;
            }
            rest = &rest[line_end(rest)?..];
            skipped -= 1;
        }
        match line_end(rest) {
            Some(end) => Some(&rest[..end - 1]),
            None => Some(rest),
        }
    }
}

/// The end of the first line of `bytes`, its LF included.
fn line_end(bytes: &[u8]) -> Option<usize>
    ensures { IfSome result (λ end. 1 ≤ end × end ≤ length bytes.now) }
{
    let at = bytes.iter().position(|byte| *byte == b'\n')?;
    Some(at + 1)
}

/// The start of the last line of `bytes`.
fn open_line(bytes: &[u8]) -> usize
    ensures { result ≤ length bytes.now }
{
    match bytes.iter().rposition(|byte| *byte == b'\n') {
        Some(at) => at + 1,
        None => 0,
    }
}
