//! The judgement of a text line by line, as a reader gives it.

ghost use Rattle.std.specs.Prelude.{◌≡◌, ◌<◌, ◌≤◌, ◌+◌, ◌-◌, ℕ, List, length, take, drop, IfOk, IfErr, OnErr, OnOk};
ghost use Rattle.ti_lines.specs.Judgements.{Rules, Refuses, FailsBy, Closes, Gives, GivesOr, Reports, AtLine, Judged};
ghost use Rattle.ti_lines.specs.Reader.{Rose};
ghost use Rattle.ti_lines.specs.Judgements as spec;

use crate::lines::{Halt, Lines, Next};
use crate::readers::Reader;
use std::alloc::Global;

/// A fault of a text, at one of its lines.
#[derive(Clone, Copy, Debug, PartialEq, Eq)]
pub struct LineFault<F> {
    /// The line's number, counted from 1.
    pub line: u64,
    pub kind: F,
}

/// A judge of texts: it judges line by line and keeps the values that the lines lead to.
pub trait Judge {
    /// The kinds of fault.
    type Fault;

    /// How lines and ends are judged.
    ghost rules: { Rules Self Self.Fault };

    /// Judges one more line, `line`, given without its LF.
    ///
    /// # Errors
    /// The line's fault, or out of memory. The judge's content is then unspecified.
    fn judge(&mut self, alloc: Global, line: &[u8]) -> Result<(), Self::Fault>
        ensures ok { OnOk result (rules.line self.old line.now (Ok self.new)) }
        ensures err { IfErr result (λ e. Refuses rules e (rules.line self.old line.now)) };

    /// Judges the end of the text.
    ///
    /// # Errors
    /// The fault of the end, or out of memory.
    fn finish(&mut self, alloc: Global) -> Result<(), Self::Fault>
        ensures ok { OnOk result (rules.end self.old (Ok self.new)) }
        ensures err { IfErr result (λ e. Refuses rules e (rules.end self.old)) };

    /// The fault of a line without LF, or with its LF past the limit.
    fn no_line() -> Self::Fault
        ensures { result ≡ rules.no_line };

    /// Out of memory.
    fn no_memory() -> Self::Fault
        ensures { result ≡ rules.no_memory };

    /// The fault of a failed reader.
    fn read_failed() -> Self::Fault
        ensures { result ≡ rules.read_failed };
}

fn halted<J: Judge>(line: u64, halt: Halt) -> LineFault<J::Fault>
    ensures { result ≡ spec.halted J.rules line halt }
{
    let kind = match halt {
        Halt::ReadFailed => J::read_failed(),
        Halt::NoMemory => J::no_memory(),
    };
    LineFault { line, kind }
}

/// The first `count` of `bytes`, which must have at least `count`.
fn front(bytes: &[u8], count: usize) -> &[u8]
    requires { count ≤ length bytes.now }
    ensures { result.now ≡ take count bytes.now }
{
    &bytes[..count]
}

/// Judges the next line, of `count` bytes, and passes it.
fn judge_line<J: Judge>(
    alloc: Global,
    judge: &mut J,
    lines: &mut Lines,
    line: u64,
    count: usize,
) -> Result<(), LineFault<J::Fault>>
    requires taken { count < length lines.old.unread }
    requires allowed { count < lines.old.budget }
    ensures judges { OnOk result (J.rules.line judge.old (take count lines.old.unread) (Ok judge.new)) }
    ensures passes { OnOk result
        (lines.new ≡ record { unread = drop (count + 1) lines.old.unread; budget = lines.old.budget - (count + 1) }) }
    ensures fails { IfErr result (λ e.
        FailsBy J.rules e (AtLine line (J.rules.line judge.old (take count lines.old.unread)))) }
    ensures number { IfErr result (λ e. e.line ≡ line) }
{
    match judge.judge(alloc, front(lines.unread(), count)) {
        Ok(()) => {
            lines.pass(count);
            Ok(())
        }
        Err(kind) => Err(LineFault { line, kind }),
    }
}

fn finished<J: Judge>(alloc: Global, judge: &mut J, line: u64) -> Result<(), LineFault<J::Fault>>
    ensures gives { Gives J.rules judge.new result (AtLine line (J.rules.end judge.old)) }
    ensures number { IfErr result (λ e. e.line ≡ line) }
{
    match judge.finish(alloc) {
        Ok(()) => Ok(()),
        Err(kind) => Err(LineFault { line, kind }),
    }
}

/// Judges the end, or answers `no_line` if no whole line is next.
fn close<J: Judge>(
    alloc: Global,
    judge: &mut J,
    next: Next,
    line: u64,
) -> Result<(), LineFault<J::Fault>>
    ensures closes { Closes J.rules next line judge.old judge.new result }
    ensures number { IfErr result (λ e. e.line ≡ line) }
{
    match next {
        Next::End => finished(alloc, judge, line),
        _ => Err(LineFault {
            line,
            kind: J::no_line(),
        }),
    }
}

/// Judges the lines that a reader gives, one by one.
fn judge_all<R: Reader, J: Judge>(
    alloc: Global,
    limit: u32,
    reader: &mut R,
    judge: &mut J,
) -> Result<(), LineFault<J::Fault>>
    ensures { Reports J.rules limit judge.old judge.new R.left R.failures reader.old reader.new result }
{
    let mut lines = Lines::new(alloc, limit);
    let mut line = 1u64;
    loop {
        let next = match lines.next(reader) {
            Ok(next) => next,
            Err(halt) => return Err(halted::<J>(line, halt)),
        };
        match next {
            Next::Line(count) => judge_line(alloc, judge, &mut lines, line, count)?,
            _ => return close(alloc, judge, next, line),
        }
        line += 1;
    }
}

/// Judges the text that a reader has left, line by line as it arrives. A line is kept only while it
/// is judged. All lines together may have `limit` bytes, LFs included.
///
/// The answer is one that the text has by the rules, and `judge` then holds what its lines lead to;
/// or the reader failed in this call. At most one byte past the limit is read, and the reader isn't
/// called once the line with the fault is whole. If the reader's bytes are unspecified, the answer
/// is the one for whatever it gave.
///
/// # Errors
/// The first fault of the text with its line, by the rules of `judge`: the fault of a line, the
/// fault of the end, or `no_line` for a line without LF or with its LF past the limit. `no_memory`
/// may come in any line. `read_failed` comes only if the reader failed, with the line being read.
#[tactic(auto, using(crate::proofs::Answers::of_left))]
pub fn judge_lines<R: Reader, J: Judge>(
    alloc: Global,
    limit: u32,
    reader: &mut R,
    judge: &mut J,
) -> Result<(), LineFault<J::Fault>>
    ensures text { (text : List ℕ) → R.left reader.old text
        → GivesOr J.rules (Rose (R.failures reader.old) (R.failures reader.new)) judge.new result
        (Judged J.rules limit judge.old text) }
    ensures reports { Reports J.rules limit judge.old judge.new R.left R.failures reader.old reader.new result }
{
    judge_all(alloc, limit, reader, judge)
}
