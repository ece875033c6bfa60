//! The code of a parameter string that is at fault.

ghost use Rattle.std.specs.Prelude.{◌≡◌, ◌≤◌, IfOk, IfSome, length, true};
ghost use Rattle.ti_parm.specs.Value.{values_of};
ghost use Rattle.ti_blames.specs.{FaultyCodes.{HasFault, IsFaulty}, Stretches.{IsWithin}};

use crate::codes::codes;
use crate::prefixes::Open;
use crate::stretches::{Found, Stretch};
use std::alloc::{AllocError, Global};
use ti_parm::{Param, ParmFault, reads_unset};

/// The fault of a parameter string by itself.
#[derive(Clone, Copy, Debug, PartialEq, Eq)]
pub enum CodeFault {
    /// It can't be expanded.
    Parm(ParmFault),
    /// It reads a static variable before it sets it.
    StaticRead,
}

/// Whether `string` has this fault with `params`, with all static variables 0.
fn has_fault(
    alloc: Global,
    string: &[u8],
    params: &[Param<'_>],
    fault: CodeFault,
) -> Result<bool, AllocError>
    ensures { IfOk result (λ so. so ≡ true → HasFault fault string.now (values_of params.now)) }
{
    match (reads_unset(alloc, string, params), fault) {
        (Err(ParmFault::NoMemory), CodeFault::Parm(_) | CodeFault::StaticRead) => Err(AllocError),
        (Err(found), CodeFault::Parm(fault)) => Ok(found == fault),
        (Ok(reads), CodeFault::StaticRead) => Ok(reads),
        (Ok(_), CodeFault::Parm(_)) | (Err(_), CodeFault::StaticRead) => Ok(false),
    }
}

/// A string with its parameters.
#[derive(Clone, Copy)]
struct Given<'a> {
    string: &'a [u8],
    params: &'a [Param<'a>],
}

impl Given<'_> {
    ghost use Rattle.std.specs.Prelude.{All, IfOk, IfSome};
    ghost use Rattle.ti_parm.specs.Value.{values_of};
    ghost use Rattle.ti_blames.specs.{FaultyCodes.{IsFaulty}, Stretches.{IsWithin}};

    /// `code`, if the front of the string up to its end, where the conditionals `nest` are open, has this fault.
    fn if_faulty(&self, alloc: Global, fault: CodeFault, code: Stretch, nest: &Open) -> Found
        requires { IsWithin self.now.string.now code }
        ensures { IfOk result (λ found. IfSome found
            (IsFaulty fault self.now.string.now (values_of self.now.params.now))) }
    {
        let front = nest.closed_front(alloc, self.string, code.to)?;
        if has_fault(alloc, front.as_slice(), self.params, fault)? {
            Ok(Some(code))
        } else {
            Ok(None)
        }
    }

    /// The first of the `codes` of the string with which it has this fault.
    fn first_faulty(&self, alloc: Global, fault: CodeFault, codes: &[Stretch]) -> Found
        requires { All (IsWithin self.now.string.now) codes.now }
        ensures { IfOk result (λ found. IfSome found
            (IsFaulty fault self.now.string.now (values_of self.now.params.now))) }
    {
        let mut nest = Open::new(alloc);
        for code in codes {
            nest.pass(&self.string[code.from..code.to])?;
            let found = self.if_faulty(alloc, fault, *code, &nest)?;
            if found.is_some() {
                return Ok(found);
            }
        }
        Ok(None)
    }
}

/// The `%` behind the `codes` of `string`, where another code would begin, and the byte behind it; `None` if the string
/// ends there.
fn broken_code(string: &[u8], codes: &[Stretch]) -> Option<Stretch>
    ensures { IfSome result (IsWithin string.now) }
{
    let from = match codes {
        [.., last] => last.to,
        [] => 0,
    };
    if from < string.len() {
        let to = (string.len() - from).min(2) + from;
        Some(Stretch { from, to })
    } else {
        None
    }
}

/// The first code of `string` with which it has this fault, for `params` and with all static variables 0: its front up
/// to the code's end has it. Of a code that is none, at most the first two bytes. `None` if there is no such code, as
/// where a conditional has no end.
///
/// # Errors
/// Out of memory.
pub fn faulty_code(alloc: Global, string: &[u8], params: &[Param<'_>], fault: CodeFault) -> Found
    ensures { IfOk result (λ found. IfSome found (IsFaulty fault string.now (values_of params.now))) }
{
    let given = Given { string, params };
    let codes = codes(alloc, string)?;
    let found = given.first_faulty(alloc, fault, codes.as_slice())?;
    match (found, broken_code(string, codes.as_slice())) {
        (Some(code), Some(_) | None) => Ok(Some(code)),
        (None, Some(code)) => given.if_faulty(alloc, fault, code, &Open::new(alloc)),
        (None, None) => Ok(None),
    }
}
