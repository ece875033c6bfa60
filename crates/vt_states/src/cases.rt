//! The answers to many cases in one run.

ghost use Rattle.std.specs.Prelude.{◌≡◌, ◌<◌, ◌≤◌, ◌==◌, ◌++◌, ◌∷◌, [], ℕ, List, length, nat_le, ◌&&◌, Some, None};
ghost use Rattle.std.specs.{Prelude.{option_map, IfErr, IfOk, IfSome, OnOk}, List.{position}};
ghost use Rattle.hex.specs.Hex.{decode_of};
ghost use Rattle.vt_states.specs.declared.cases.CaseFault.TheVariants.{NoMemory};
ghost use Rattle.vt_states.specs.Cases as spec;

use crate::json::case_members;
use crate::snapshots::Snapshot;
use hex::FromHexError;
use std::alloc::{AllocError, AllocFailed, Global};
use std::error::Error;
use std::fmt;
use vt_term::Size;

/// The reason why a file of cases has no answers.
#[derive(Clone, Copy, Debug, PartialEq, Eq)]
pub enum CaseFault {
    /// The line of this number, counted from 1, isn't a case: a name, a space, and bytes in hexadecimal or a dash.
    BadLine(usize),
    /// Out of memory.
    NoMemory,
}

impl fmt::Display for CaseFault {
    fn fmt<W: fmt::Write>(&self, f: &mut fmt::Formatter<W>) -> fmt::Result {
        match self {
            CaseFault::BadLine(line) => write!(f, "line {line}: BadLine"),
            CaseFault::NoMemory => write!(f, "NoMemory"),
        }
    }
}

impl Error for CaseFault {}

impl From<AllocError> for CaseFault {
    ghost from_gives = { λ _ e. e ≡ NoMemory };

    fn from(_refused: AllocError) -> CaseFault {
        CaseFault::NoMemory
    }
}

impl<T: Drop> From<AllocFailed<T>> for CaseFault {
    ghost from_gives = { λ _ e. e ≡ NoMemory };

    fn from(_refused: AllocFailed<T>) -> CaseFault {
        CaseFault::NoMemory
    }
}

/// The answers to the cases of `file`, a line for each: the state of a terminal of this `size` that was reset and fed
/// with the case's bytes, as a JSON object. It begins with the case's name and, if its bytes get stuck, the place.
///
/// # Errors
/// The first line that isn't a case, or out of memory.
pub fn case_answers(alloc: Global, size: Size, file: &[u8]) -> Result<Vec<u8>, CaseFault>
    ensures answers { IfOk result (λ text. spec.AreAnswers size.rows size.cols file.now text.items) }
    ensures fault { IfErr result (λ e. spec.IsCaseFault file.now e) }
{
    let mut text = Vec::new(alloc);
    let mut rest = file;
    let mut number = 0;
    while !rest.is_empty() {
        number += 1;
        match place_of(b'\n', rest) {
            None => return Err(CaseFault::BadLine(number)),
            Some(end) => {
                push_answer(alloc, size, &rest[..end], number, &mut text)?;
                rest = &rest[end + 1..];
            }
        }
    }
    Ok(text)
}

/// Adds the answer to the case of a line, and a LF.
fn push_answer(
    alloc: Global,
    size: Size,
    line: &[u8],
    number: usize,
    text: &mut Vec<u8>,
) -> Result<(), CaseFault>
    ensures answer { OnOk result ((answer : List ℕ) × (text.new.items ≡ text.old.items ++ spec.ended answer)
        × spec.Answers size.rows size.cols line.now answer) }
    ensures fault { IfErr result (λ e. spec.IsLineFault line.now number e) }
{
    match read_case(alloc, line)? {
        None => Err(CaseFault::BadLine(number)),
        Some(case) => {
            push_state(alloc, size, &case, text)?;
            text.push(b'\n')?;
            Ok(())
        }
    }
}

/// A name, and the bytes to feed to a terminal.
#[derive(Drop)]
struct Case<'a> {
    name: &'a [u8],
    bytes: Vec<u8>,
}

/// Adds the object of a case.
fn push_state(
    alloc: Global,
    size: Size,
    case: &Case<'_>,
    text: &mut Vec<u8>,
) -> Result<(), AllocError>
    ensures { OnOk result ((answer : List ℕ) × (text.new.items ≡ text.old.items ++ answer)
        × ((line : List ℕ)
        → spec.fed_in line ≡ Some (record { name = case.now.name.now; bytes = case.now.bytes.items }) →
        spec.Answers size.rows size.cols line answer)) }
{
    let (snapshot, stuck) = Snapshot::after(alloc, size, case.bytes.as_slice())?;
    let front = case_members(alloc, case.name, stuck.map(|stuck| stuck.at))?;
    snapshot.push_object(alloc, front.as_slice(), text)
}

/// The case of a line; `None` if the line isn't one.
fn read_case<'a>(alloc: Global, line: &'a [u8]) -> Result<Option<Case<'a>>, AllocError>
    ensures { IfOk result (λ found. option_map (λ c. record { name = c.name.now; bytes = c.bytes.items }) found
        ≡ spec.fed_in line.entry.now) }
{
    match place_of(b' ', line) {
        None => Ok(None),
        Some(end) => case_of(alloc, &line[..end], &line[end + 1..]),
    }
}

/// The case of a name and the hexadecimal after it; `None` if either is malformed.
fn case_of<'a>(alloc: Global, name: &'a [u8], digits: &[u8]) -> Result<Option<Case<'a>>, AllocError>
    ensures { IfOk result (λ found. option_map (λ c. record { name = c.name.now; bytes = c.bytes.items }) found
        ≡ spec.fed_of name.entry.now digits.now) }
{
    if !is_name(name) {
        return Ok(None);
    }
    match bytes_of(alloc, digits)? {
        None => Ok(None),
        Some(bytes) => Ok(Some(Case { name, bytes })),
    }
}

fn is_name(name: &[u8]) -> bool
    ensures { result ≡ spec.is_name name.now }
{
    !name.is_empty() && all_shown(name)
}

fn all_shown(name: &[u8]) -> bool
    ensures { result ≡ spec.all_shown name.now }
{
    name.iter().all(|byte| 33 <= *byte && *byte <= 126)
}

/// The first place of `byte` in `text`.
fn place_of(byte: u8, text: &[u8]) -> Option<usize>
    ensures value { result ≡ position (λ b. b == byte) text.now }
    ensures range { IfSome result (λ at. at < length text.now) }
{
    text.iter().position(|other| *other == byte)
}

/// The bytes of a word of hexadecimal digits, no bytes for a dash. `None` for any other word.
fn bytes_of(alloc: Global, digits: &[u8]) -> Result<Option<Vec<u8>>, AllocError>
    ensures { IfOk result (λ found. option_map (λ bytes. bytes.items) found ≡ spec.hex_in digits.now) }
{
    if digits == b"-".as_slice() {
        Ok(Some(Vec::new(alloc)))
    } else if digits.is_empty() {
        Ok(None)
    } else {
        decoded(alloc, digits)
    }
}

fn decoded(alloc: Global, digits: &[u8]) -> Result<Option<Vec<u8>>, AllocError>
    ensures { IfOk result (λ found. option_map (λ bytes. bytes.items) found ≡ spec.decoded (decode_of digits.now)) }
{
    match hex::decode(alloc, digits) {
        Ok(bytes) => Ok(Some(bytes)),
        Err(FromHexError::OutOfMemory) => Err(AllocError),
        Err(FromHexError::InvalidHexCharacter { .. })
        | Err(FromHexError::OddLength)
        | Err(FromHexError::InvalidStringLength) => Ok(None),
    }
}
