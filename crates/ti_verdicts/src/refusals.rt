//! The fixed line that says why an entry has no certificate.

ghost use Rattle.std.specs.Prelude.{◌≡◌, ℕ, List, IfOk};
ghost use Rattle.ti_verdicts.specs.Refusals as spec;

use std::alloc::{AllocError, Global};
use ti_caps::name;
use ti_checker::{Cause, No};
use ti_files::{CommandRefusal, Failure, parm_name};
use ti_words::push_numbers;

/// `no CAP P..: CAUSE` of `no`.
pub fn no_words(alloc: Global, no: &No) -> Result<Vec<u8>, AllocError>
    ensures { IfOk result (λ words. words.items ≡ spec.no_text no.now) }
{
    let mut words = Vec::new(alloc);
    words.extend_from_slice(b"no ")?;
    words.extend_from_slice(name(no.cap))?;
    push_numbers(alloc, no.params.as_slice(), &mut words)?;
    words.extend_from_slice(b": ")?;
    words.extend_from_slice(cause_name(no.cause))?;
    Ok(words)
}

/// The failure to report for `no`.
pub fn no_failure(alloc: Global, no: &No) -> Failure
    ensures { spec.TellsNo no.now result }
{
    match no.cause {
        Cause::NoMemory => Failure::NoMemory,
        Cause::FlagOut | Cause::Absent | Cause::AcsByte | Cause::Parm(_) => no_verdict(alloc, no),
        Cause::StaticRead | Cause::Unfinished | Cause::Stuck => no_verdict(alloc, no),
        Cause::NotTame | Cause::BadLook | Cause::WrongEffect(_) => no_verdict(alloc, no),
        Cause::NotShown | Cause::TooLong | Cause::NoResync => no_verdict(alloc, no),
    }
}

/// The refusal in the words of `no`.
fn no_verdict(alloc: Global, no: &No) -> Failure
    ensures { spec.IsVerdict (spec.no_text no.now) result }
{
    verdict(no_words(alloc, no))
}

/// The refusal in `words`, or out of memory if there was no memory for them.
pub fn verdict(words: Result<Vec<u8>, AllocError>) -> Failure
    ensures { (text : List ℕ) → IfOk words (λ words. words.items ≡ text) → spec.IsVerdict text result }
{
    match words {
        Ok(words) => Failure::Refused(CommandRefusal::Verdict(words)),
        Err(_) => Failure::NoMemory,
    }
}

/// The name of `cause` in the line of a refusal.
pub fn cause_name(cause: Cause) -> &'static [u8]
    ensures { result.now ≡ spec.cause_name cause }
{
    match cause {
        Cause::FlagOut => b"FlagOut",
        Cause::Absent => b"Absent",
        Cause::AcsByte => b"AcsByte",
        Cause::Parm(fault) => parm_name(fault),
        Cause::StaticRead => b"StaticRead",
        Cause::Unfinished => b"Unfinished",
        Cause::Stuck => b"Stuck",
        Cause::NotTame => b"NotTame",
        Cause::BadLook => b"BadLook",
        Cause::WrongEffect(_) => b"WrongEffect",
        Cause::NotShown => b"NotShown",
        Cause::TooLong => b"TooLong",
        Cause::NoResync => b"NoResync",
        Cause::NoMemory => b"NoMemory",
    }
}
