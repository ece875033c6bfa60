//! Further lines for standard error.

ghost use Rattle.std.specs.Prelude.{◌≡◌, ◌++◌, ◌&&◌, ◌==◌, [], IfOk, List, map, nat_le, OnOk, ℕ};
ghost use Rattle.std.specs.List.{AllByRecursion, ends_with};
ghost use Rattle.ti_files.specs.Remarks.{IsPrintable, IsRemark, MayAdd, quoted, suggestion_end};
ghost use Rattle.ti_files.specs.Shown.{shown, shown_byte};

use crate::results::{Made, Pushed};
use std::alloc::Global;
use std::io;
use std::io::Write;
use std::marker::Model;
use ti_source::octal;

/// The end of each line with a suggestion, and of no remark.
pub const SUGGESTION_END: &[u8] = b" would be right on T";

/// Lines that explain a failure. One for which there is no memory is left out. Contracts see the list of them, without
/// the ends of the lines.
#[derive(Drop)]
pub struct Remarks {
    alloc: Global,
    lines: Vec<Vec<u8>>,
}

impl Model for Remarks {
    ghost use Rattle.std.specs.{Prelude.{List, map, ℕ}, List.{AllByRecursion}};
    ghost use Rattle.ti_files.specs.Remarks.{IsRemark};

    ghost Value = { List (List ℕ) };

    ghost view = { λ r. map (λ line. line.items) r.lines.items };

    ghost invariant = { λ r. AllByRecursion IsRemark (map (λ line. line.items) r.lines.items) };
}

impl Remarks {
    /// No line yet.
    pub fn new(alloc: Global) -> Remarks
        ensures { result ≡ [] }
    {
        Remarks {
            alloc,
            lines: Vec::new(alloc),
        }
    }

    /// The lines so far.
    pub fn lines(&self) -> &[Vec<u8>]
        ensures lines { map (λ line. line.items) result.now ≡ self.now }
        ensures remarks { AllByRecursion IsRemark self.now }
    {
        self.lines.as_slice()
    }

    /// Adds a line: `subject` in quotes, and the `words` about it. The line is left out if memory runs out, or if it
    /// could be taken for a suggestion.
    pub fn add(&mut self, subject: &[u8], words: &[u8])
        ensures { MayAdd (quoted (shown subject.now) (shown words.now)) self.old self.new }
    {
        if let Ok(line) = quoted_line(self.alloc, subject, words) {
            self.push(line);
        }
    }

    /// Adds a line of these `words`, if there are any. The line is left out if memory runs out, or if it could be taken
    /// for a suggestion.
    pub fn add_words(&mut self, words: &[u8])
        ensures { MayAdd (shown words.now) self.old self.new }
    {
        if words.is_empty() {
            return;
        }
        if let Ok(line) = shown_line(self.alloc, words) {
            self.push(line);
        }
    }

    /// Adds `line`. It is left out if memory runs out, or if it could be taken for a suggestion.
    fn push(&mut self, line: Vec<u8>)
        requires { AllByRecursion IsPrintable line.items }
        ensures { MayAdd line.items self.old self.new }
    {
        if !ends_as_suggestion(line.as_slice()) {
            let _ = self.lines.push(line);
        }
    }

    /// Writes the lines to `out`.
    ///
    /// # Errors
    /// The error of `out`.
    pub fn write<W: Write>(&self, out: &mut W) -> io::Result<()> {
        for line in &self.lines {
            out.write_all(line.as_slice())?;
            out.write_all(b"\n")?;
        }
        Ok(())
    }
}

fn ends_as_suggestion(line: &[u8]) -> bool
    ensures { result ≡ ends_with (λ a b. a == b) line.now suggestion_end }
{
    line.ends_with(SUGGESTION_END)
}

/// The line of these `words`.
fn shown_line(alloc: Global, words: &[u8]) -> Made
    ensures words { IfOk result (λ line. line.items ≡ shown words.now) }
    ensures printable { IfOk result (λ line. AllByRecursion IsPrintable line.items) }
{
    let mut line = Vec::new(alloc);
    push_shown(&mut line, words)?;
    Ok(line)
}

/// The line of `subject` in quotes and the `words` about it.
fn quoted_line(alloc: Global, subject: &[u8], words: &[u8]) -> Made
    ensures words { IfOk result (λ line. line.items ≡ quoted (shown subject.now) (shown words.now)) }
    ensures printable { IfOk result (λ line. AllByRecursion IsPrintable line.items) }
{
    let mut line = Vec::from_slice(alloc, b"'")?;
    push_shown(&mut line, subject)?;
    line.push(b'\'')?;
    push_shown(&mut line, words)?;
    Ok(line)
}

/// Appends `bytes` to `text` so that no terminal takes them for a sequence: each byte outside 32 to 126 as a backslash
/// and three octal digits.
pub fn push_shown(text: &mut Vec<u8>, bytes: &[u8]) -> Pushed
    ensures shown { OnOk result (text.new.items ≡ text.old.items ++ shown bytes.now) }
    ensures printable { OnOk result (AllByRecursion IsPrintable (shown bytes.now)) }
{
    for byte in bytes {
        push_byte(text, *byte)?;
    }
    Ok(())
}

fn push_byte(text: &mut Vec<u8>, byte: u8) -> Pushed
    ensures shown { OnOk result (text.new.items ≡ text.old.items ++ shown_byte byte) }
    ensures printable { AllByRecursion IsPrintable (shown_byte byte) }
{
    if is_printable(byte) {
        text.extend_from_slice(&[byte])
    } else {
        text.extend_from_slice(&octal(byte))
    }
}

/// Writes `bytes` to `out` as `push_shown` appends them.
pub fn write_shown<W: Write>(out: &mut W, bytes: &[u8]) -> io::Result<()> {
    for byte in bytes {
        if is_printable(*byte) {
            out.write_all(&[*byte])?;
        } else {
            out.write_all(&octal(*byte))?;
        }
    }
    Ok(())
}

fn is_printable(byte: u8) -> bool
    ensures { result ≡ (nat_le 32 byte && nat_le byte 126) }
{
    32 <= byte && byte <= 126
}
