//! The part of a value that a fault is in.

ghost use Rattle.std.specs.Prelude.{IfOk};
ghost use Rattle.ti_blames.specs.BlamedStretches.{IsWithinIf};
ghost use Rattle.ti_verdicts.specs.Excerpts.{IsFaulty};

use std::alloc::{AllocError, Global};
use ti_blames::{Checked, CodeFault, Stretch, code_stretch, meant_stretch, pair_of, sent_stretch};
use ti_checker::{Cause, No};
use ti_conforms::misfit;
use ti_grades::row_of;
use ti_source::{EscapeFault, unescape};
use vt_term::Size;

/// A fault, and the size of the terminal on which it was found.
#[derive(Clone, Copy)]
pub struct Judged<'a> {
    /// The fault.
    pub no: &'a No,
    /// The size.
    pub size: Size,
}

/// The part of `value` that is at fault, where `fault` is about the string of this value; `None` if no smaller part is
/// known than the whole.
///
/// # Errors
/// Out of memory.
pub(crate) fn faulty_part(
    alloc: Global,
    value: &[u8],
    fault: &Judged<'_>,
) -> Result<Option<Stretch>, AllocError>
    ensures { IfOk result (IsFaulty value.now) }
{
    let string = match unescape(alloc, value) {
        Ok(string) => string,
        Err(EscapeFault::BadEscape | EscapeFault::TooLong) => return Ok(None),
        Err(EscapeFault::NoMemory) => return Err(AllocError),
    };
    match faulty_stretch(alloc, string.as_slice(), fault)? {
        Some(stretch) if stretch.to - stretch.from < string.len() => {
            meant_stretch(alloc, value, string.as_slice(), stretch)
        }
        Some(_) | None => Ok(None),
    }
}

/// The stretch of `string` that is at fault.
fn faulty_stretch(
    alloc: Global,
    string: &[u8],
    fault: &Judged<'_>,
) -> Result<Option<Stretch>, AllocError>
    ensures { IfOk result (IsWithinIf string.now) }
{
    if fault.no.cause == Cause::AcsByte {
        return Ok(bad_pair(string));
    }
    let Some(row) = row_of(fault.no) else {
        return Ok(None);
    };
    let checked = Checked {
        string,
        row,
        size: fault.size,
    };
    match fault.no.cause {
        Cause::Parm(fault) => code_stretch(alloc, &checked, CodeFault::Parm(fault)),
        Cause::StaticRead => code_stretch(alloc, &checked, CodeFault::StaticRead),
        Cause::Unfinished | Cause::Stuck | Cause::NotTame => sent_stretch(alloc, &checked),
        Cause::BadLook | Cause::WrongEffect(_) | Cause::NotShown => sent_stretch(alloc, &checked),
        Cause::FlagOut | Cause::Absent | Cause::AcsByte => Ok(None),
        Cause::TooLong | Cause::NoResync | Cause::NoMemory => Ok(None),
    }
}

/// The pair of `pairs`, a value of `acsc`, whose partner can't be printed.
fn bad_pair(pairs: &[u8]) -> Option<Stretch>
    ensures { IsWithinIf pairs.now result }
{
    match misfit(pairs) {
        Some(letter) => pair_of(pairs, letter),
        None => None,
    }
}
