//! Lines over a buffer that is refilled from a reader, within a budget of bytes.

ghost use Rattle.std.specs.Prelude.{◌≡◌, ◌<◌, ◌≤◌, ◌+◌, ◌-◌, ◌++◌, [], None, Some, length, take, drop, IfOk, IfErr};
ghost use Rattle.std.specs.{Prelude.{OnErr, OnOk, IfSome}, List.{position}};
ghost use Rattle.ti_lines.specs.{Reader.{AtEnd, Gave, Rose}, Text.{is_feed, line_end}};
ghost use Rattle.ti_lines.specs.Lines.{Takes, IsNext, HaltsBy, next_line, next_end};

use crate::readers::{ReadFault, Reader};
use std::alloc::{AllocError, Global};
use std::marker::Model;

/// Why the next line could not be read.
#[derive(Clone, Copy, Debug, PartialEq, Eq)]
pub enum Halt {
    /// The reader failed in this call.
    ReadFailed,
    /// Out of memory.
    NoMemory,
}

impl From<AllocError> for Halt {
    fn from(_: AllocError) -> Halt
        ensures { result ≡ Halt.NoMemory }
    {
        Halt::NoMemory
    }
}

impl From<ReadFault> for Halt {
    fn from(_: ReadFault) -> Halt
        ensures { result ≡ Halt.ReadFailed }
    {
        Halt::ReadFailed
    }
}

/// The next part of a text.
#[derive(Clone, Copy, Debug, PartialEq, Eq)]
pub enum Next {
    /// A line of this many bytes, followed by LF.
    Line(usize),
    /// The end of the text.
    End,
    /// Bytes without an LF, up to the end of the text.
    Unended,
    /// A line whose LF isn't within the budget.
    Long,
}

/// The lines of a reader, up to a limit of bytes. At most one byte past the limit is read.
#[derive(Drop)]
pub struct Lines {
    buffer: Vec<u8>,
    /// Where the bytes begin that haven't been passed.
    from: usize,
    /// How many more bytes may be passed.
    budget: u32,
}

impl Model for Lines {
    ghost use Rattle.std.specs.Prelude.{◌≤◌, ◌+◌, length, drop};
    ghost use Rattle.ti_lines.specs.Lines.{Reading};

    ghost Value = { Reading };

    ghost view = { λ l. record { unread = drop l.from l.buffer.items; budget = l.budget } };

    ghost invariant = { λ l. (l.from ≤ length l.buffer.items) × (length l.buffer.items ≤ l.from + l.budget + 1) };
}

fn first_feed(bytes: &[u8]) -> Option<usize>
    ensures value { result ≡ position is_feed bytes.now }
    ensures within { IfSome result (λ at. at < length bytes.now) }
{
    bytes.iter().position(|byte| *byte == b'\n')
}

/// The place of the first LF.
#[tactic(auto, using(crate::proofs::Ends::end_found))]
fn feed_in(bytes: &[u8]) -> Option<usize>
    ensures value { result ≡ line_end bytes.now }
    ensures within { IfSome result (λ at. at < length bytes.now) }
{
    first_feed(bytes)
}

fn tail(bytes: &[u8], at: usize) -> &[u8]
    requires { at ≤ length bytes.now }
    ensures { result.now ≡ drop at bytes.now }
{
    &bytes[at..]
}

/// How many bytes to ask for while `unread` bytes, at most `budget` of them, are taken and not passed.
fn wanted(unread: usize, budget: u32) -> usize
    requires { unread ≤ budget }
    ensures some { 0 < result }
    ensures few { result ≤ 4096 }
    ensures within { unread + result ≤ budget + 1 }
{
    4096.min(budget as usize - unread + 1)
}

/// Takes at most `want` bytes.
fn take_front<R: Reader>(reader: &mut R, into: &mut [u8], want: usize) -> Result<usize, ReadFault>
    requires some { 0 < want }
    requires room { want ≤ length into.old }
    ensures within { IfOk result (λ n. n ≤ want) }
    ensures gave { IfOk result (λ n. Gave R.left R.failures reader.old reader.new (take n into.new)) }
    ensures end { IfOk result (λ n. n ≡ 0 → AtEnd R.left reader.new) }
    ensures none { OnErr result (Gave R.left R.failures reader.old reader.new []) }
    ensures failed { OnErr result (Rose (R.failures reader.old) (R.failures reader.new)) }
{
    reader.take(&mut into[..want])
}

/// The place of the first LF of `bytes`, whose first `seen` bytes must have none.
#[tactic(auto, using(crate::proofs::Ends::end_some, crate::proofs::Ends::end_none))]
fn feed_after(bytes: &[u8], seen: usize) -> Option<usize>
    requires within { seen ≤ length bytes.now }
    requires none { line_end (take seen bytes.now) ≡ None }
    ensures value { result ≡ line_end bytes.now }
    ensures within { IfSome result (λ at. at < length bytes.now) }
{
    match feed_in(tail(bytes, seen)) {
        None => None,
        Some(at) => Some(seen + at),
    }
}

/// The line whose LF is at the place `at`, or `Long` if that isn't within `budget`.
fn line_to(at: usize, budget: u32) -> Next
    ensures { result ≡ next_line at budget }
{
    if at < budget as usize {
        Next::Line(at)
    } else {
        Next::Long
    }
}

/// The answer if the text ends after `count` bytes without LF.
fn end_after(count: usize) -> Next
    ensures { result ≡ next_end count }
{
    if count == 0 { Next::End } else { Next::Unended }
}

impl Lines {
    /// Lines with no bytes taken, and a budget of `limit` bytes for all lines with their LFs.
    pub fn new(alloc: Global, limit: u32) -> Lines
        ensures { result ≡ record { unread = []; budget = limit } }
    {
        Lines {
            buffer: Vec::new(alloc),
            from: 0,
            budget: limit,
        }
    }

    /// The bytes that are taken and not passed.
    pub fn unread(&self) -> &[u8]
        ensures value { result.now ≡ self.now.unread }
        ensures bound { length result.now ≤ self.now.budget + 1 }
    {
        &self.buffer[self.from..]
    }

    /// Passes a line of `count` bytes and its LF, which must have been taken and be within the budget.
    pub fn pass(&mut self, count: usize)
        requires taken { count < length self.old.unread }
        requires allowed { count < self.old.budget }
        ensures { self.new
            ≡ record { unread = drop (count + 1) self.old.unread; budget = self.old.budget - (count + 1) } }
    {
        // reading a field brings in the invariant: the buffer's bounds and the budget
        let _ = &self.budget;
        let passed = count as u32 + 1;
        self.budget -= passed;
        self.from += passed as usize;
    }

    /// Moves the bytes that haven't been passed to the start of the buffer.
    fn drop_passed(&mut self)
        ensures { self.new ≡ self.old }
    {
        if self.from > 0 {
            self.buffer.rotate_left(self.from);
            self.buffer.truncate(self.buffer.len() - self.from);
            self.from = 0;
        }
    }

    /// Takes more bytes and returns how many, 0 at the end. The last one is at most one past the budget.
    #[tactic(auto, using(crate::proofs::Gaves::filled))]
    fn fill<R: Reader>(&mut self, reader: &mut R) -> Result<usize, Halt>
        requires allowed { length self.old.unread ≤ self.old.budget }
        requires unended { line_end self.old.unread ≡ None }
        ensures takes { Takes R.left R.failures self.old reader.old self.new reader.new }
        ensures same { OnErr result (self.new ≡ self.old) }
        ensures count { IfOk result (λ n. length self.new.unread ≡ length self.old.unread + n) }
        ensures end { IfOk result (λ n. n ≡ 0 → AtEnd R.left reader.new) }
        ensures halts { IfErr result (HaltsBy (R.failures reader.old) (R.failures reader.new)) }
    {
        self.drop_passed();
        let mut chunk = [0u8; 4096];
        let want = wanted(self.unread().len(), self.budget);
        if self.buffer.reserve(want).is_err() {
            return Err(Halt::NoMemory);
        }
        let count = take_front(reader, &mut chunk, want)?;
        self.buffer.extend_from_slice(&chunk[..count]).unwrap();
        Ok(count)
    }

    /// Finds what comes next, and takes the bytes needed for that. It doesn't pass a line.
    ///
    /// # Errors
    /// `ReadFailed` if the reader failed in this call, and `NoMemory` if the buffer could not grow.
    /// No byte that was taken is lost in either case.
    pub fn next<R: Reader>(&mut self, reader: &mut R) -> Result<Next, Halt>
        requires { length self.old.unread ≤ self.old.budget + 1 }
        ensures takes { Takes R.left R.failures self.old reader.old self.new reader.new }
        ensures next { IfOk result (IsNext R.left self.new reader.new) }
        ensures within { OnErr result (line_end self.new.unread ≡ None) }
        ensures halts { IfErr result (HaltsBy (R.failures reader.old) (R.failures reader.new)) }
    {
        let mut seen = 0;
        loop {
            let budget = self.budget();
            match feed_after(self.unread(), seen) {
                Some(at) => return Ok(line_to(at, budget)),
                None => {}
            }
            seen = self.unread().len();
            if seen > budget as usize {
                return Ok(Next::Long);
            }
            if self.fill(reader)? == 0 {
                return Ok(end_after(seen));
            }
        }
    }

    /// How many more bytes may be passed.
    fn budget(&self) -> u32
        ensures value { result ≡ self.now.budget }
        ensures bound { length self.now.unread ≤ self.now.budget + 1 }
    {
        self.budget
    }
}
