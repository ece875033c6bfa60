//! A command's reply, why it may stop, and the exit status for that.

ghost use Rattle.std.specs.Prelude.{◌≡◌, [], None};
ghost use Rattle.ti_files.specs.{Status.{status_of}, Failures.{IsFileFailure, IsUsageError}};
ghost use Rattle.ti_files.specs.declared.failure.Failure.TheVariants.{NoMemory};

use crate::{Remarks, write_shown};
use std::alloc::{AllocError, AllocFailed, Global};
use std::io;
use std::io::Write;
use thiserror::Error;
use ti_compiled::PackFault;
use ti_parm::ParmFault;
use ti_resolve::ResolveFault;
use ti_source::{EscapeFault, SourceFault};
use vt_term::{Stuck, TokenFault};

/// A command's reply, and why it stopped if it did.
#[derive(Debug, Drop)]
pub struct Reply {
    /// The lines for standard error, which are written first.
    pub notes: Vec<u8>,
    /// The text for standard output.
    pub text: Vec<u8>,
    /// Why the reply ends here.
    pub failure: Option<Failure>,
}

impl Reply {
    /// A reply of `text` alone, for standard output.
    pub fn of_text(alloc: Global, text: Vec<u8>) -> Reply
        ensures notes { result.notes.items ≡ [] }
        ensures text { result.text ≡ text }
        ensures failure { result.failure ≡ None }
    {
        Reply {
            notes: Vec::new(alloc),
            text,
            failure: None,
        }
    }
}

/// The result of a command: its reply, or why it has none.
pub type Replied = Result<Reply, Failure>;

/// A request that was understood but can't be met.
#[derive(Debug, Drop, Error)]
pub enum CommandRefusal {
    /// Rows are 2 to 200, columns 2 to 500.
    #[error("BadSize")]
    Size,
    /// The string's escapes can't be read.
    #[error("{0}")]
    Escape(EscapeFault),
    /// The string can't be expanded with these parameters.
    #[error("{0}")]
    Parm(ParmFault),
    /// The expanded bytes aren't a whole text of the terminal.
    #[error("{0}")]
    Token(TokenFault),
    /// The run of a stream gets stuck at a byte.
    #[error("{0}")]
    Stuck(Stuck),
    /// The source text has a fault.
    #[error("{0}")]
    Source(SourceFault),
    /// The entry can't be resolved from its source; the name follows the kind.
    #[error("{0}")]
    Resolve(ResolveFault),
    /// The compiled file has a fault, or the entry can't be compiled.
    #[error("{0}")]
    Pack(PackFault),
    /// A certificate or a whole entry is refused; these words of the line say where and why.
    #[error("")]
    Verdict(Vec<u8>),
}

/// Why a command ends with a status other than 0.
#[derive(Debug, Drop)]
pub enum Failure {
    /// The command's own answer is no.
    Refused(CommandRefusal),
    /// The answer is no, and the text of the reply could not be written.
    RefusedUnwritten(CommandRefusal),
    /// A usage error with its message.
    Usage(String),
    /// The file of this path can't be read or written, or is too long.
    File(String),
    /// Standard output didn't take the answer.
    Output,
    /// Out of memory.
    NoMemory,
}

impl Failure {
    /// The program's exit status.
    pub fn status(&self) -> u8
        ensures { result ≡ status_of self.now }
    {
        match self {
            Failure::Refused(_) | Failure::RefusedUnwritten(_) => 1,
            Failure::Usage(_) => 2,
            Failure::File(_) | Failure::Output => 3,
            Failure::NoMemory => 4,
        }
    }
}

impl From<AllocError> for Failure {
    ghost from_gives = { λ _ e. e ≡ NoMemory };

    fn from(_refused: AllocError) -> Failure {
        Failure::NoMemory
    }
}

impl<T: Drop> From<AllocFailed<T>> for Failure {
    ghost from_gives = { λ _ e. e ≡ NoMemory };

    fn from(_refused: AllocFailed<T>) -> Failure {
        Failure::NoMemory
    }
}

/// The failure of the file at `path`.
pub fn file_failure(alloc: Global, path: &str) -> Failure
    ensures { IsFileFailure path.now result }
{
    match String::from_str(alloc, path) {
        Ok(path) => Failure::File(path),
        Err(_) => Failure::NoMemory,
    }
}

/// The failure of a line that can't be understood, with the message `text`.
pub fn usage_error(alloc: Global, text: &str) -> Failure
    ensures { IsUsageError text.now result }
{
    match String::from_str(alloc, text) {
        Ok(text) => Failure::Usage(text),
        Err(_) => Failure::NoMemory,
    }
}

/// Writes the line of `failure` and the lines of `remarks` to `err`, and returns the exit status,
/// also if `err` fails.
pub fn report<E: Write>(failure: &Failure, remarks: &Remarks, err: &mut E) -> u8
    ensures { result ≡ status_of failure.now }
{
    let _ = write_failure(failure, remarks, err);
    failure.status()
}

fn write_failure<E: Write>(failure: &Failure, remarks: &Remarks, err: &mut E) -> io::Result<()> {
    match failure {
        Failure::Refused(refusal) => write_refusal(refusal, err)?,
        Failure::RefusedUnwritten(refusal) => {
            write_refusal(refusal, err)?;
            err.write_all(OUTPUT)?;
        }
        Failure::Usage(text) => write_lines(text.as_bytes(), err)?,
        Failure::File(path) => {
            err.write_all(b"file: ")?;
            write_shown(err, path.as_bytes())?;
            err.write_all(b"\n")?;
        }
        Failure::Output => err.write_all(OUTPUT)?,
        Failure::NoMemory => err.write_all(b"no memory\n")?,
    }
    remarks.write(err)
}

/// The fixed line, and a line in plain words.
const OUTPUT: &[u8] =
    b"output\nstandard output is closed or full: the answer was not written, or only in part\n";

/// Writes the line of `refusal` to `err`. A name is written as in the source, except for bytes that
/// could begin a sequence.
fn write_refusal<E: Write>(refusal: &CommandRefusal, err: &mut E) -> io::Result<()> {
    write!(err, "refused: {refusal}")?;
    match refusal {
        CommandRefusal::Resolve(
            ResolveFault::NoSuchEntry(name)
            | ResolveFault::Cycle(name)
            | ResolveFault::TooMany(name),
        ) => {
            err.write_all(b" ")?;
            write_shown(err, name.as_slice())?;
        }
        CommandRefusal::Verdict(words) => write_shown(err, words.as_slice())?,
        CommandRefusal::Size
        | CommandRefusal::Escape(_)
        | CommandRefusal::Parm(_)
        | CommandRefusal::Token(_)
        | CommandRefusal::Stuck(_)
        | CommandRefusal::Source(_)
        | CommandRefusal::Resolve(ResolveFault::NoMemory)
        | CommandRefusal::Pack(_) => {}
    }
    err.write_all(b"\n")
}

/// Writes `text`, which may have several lines, to `err`.
fn write_lines<E: Write>(text: &[u8], err: &mut E) -> io::Result<()> {
    let mut rest = text;
    for _ in 0..=text.len() {
        match rest.iter().position(|byte| *byte == b'\n') {
            Some(end) => {
                write_shown(err, &rest[..end])?;
                err.write_all(b"\n")?;
                rest = &rest[end + 1..];
            }
            None => return write_shown(err, rest),
        }
    }
    Ok(())
}
