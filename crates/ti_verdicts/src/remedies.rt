//! Strings that would be right in place of one at fault.

ghost use Rattle.std.specs.{Prelude.{◌≡◌, IfOk, IfSome, IsTrue, Some}, Option.{option_copied}};
ghost use Rattle.ti_caps.specs.Fits.{string_fits};
ghost use Rattle.ti_faults.specs.Remedies as remedies;
ghost use Rattle.ti_verdicts.specs.Parts.{HasParts};
ghost use Rattle.ti_verdicts.specs.Remedies as spec;

use std::alloc::{AllocError, Global};
use ti_caps::{Cap, Entry, name};
use ti_checker::{Cause, No};
use ti_faults::{Mended, is_of_another_kind, listed_with, suggestion};
use ti_files::Remarks;
use ti_source::escape;
use ti_words::{LEFT_OUT, OF_ANOTHER_KIND};

/// An entry, all its faults, and the entry with all of them mended, in which each suggested string is right beside the
/// others.
#[derive(Clone, Copy)]
pub struct Faulty<'a> {
    pub entry: &'a Entry,
    pub nos: &'a [No],
    pub mended: &'a Mended,
}

/// The string that is suggested for `cap`, if there is one.
fn suggested(faulty: &Faulty<'_>, cap: Cap) -> Option<&'static [u8]>
    ensures judged { spec.IsSuggestedBy (remedies.is_of_another_kind faulty.now.nos.now) faulty.now.entry.now
        faulty.now.mended.now cap (option_copied result) }
    ensures fits { IfSome result (λ bytes. IsTrue (string_fits bytes.now)) }
{
    if is_of_another_kind(faulty.nos) {
        None
    } else {
        suggestion(faulty.entry, faulty.mended, cap)
    }
}

/// The line with the string that would be right for `cap`, `spelled` as in a source.
fn spelled_line(alloc: Global, cap: Cap, spelled: &[u8]) -> Result<Vec<u8>, AllocError>
    ensures { IfOk result (λ line. line.items ≡ spec.remedy_line cap spelled.now) }
{
    let mut line = Vec::from_slice(alloc, b"  ")?;
    line.extend_from_slice(name(cap))?;
    line.extend_from_slice(b"=")?;
    line.extend_from_slice(spelled)?;
    line.extend_from_slice(b" would be right on T\n")?;
    Ok(line)
}

/// The line of a `string` that would be right for `cap`.
fn remedy_line(alloc: Global, cap: Cap, string: &[u8]) -> Result<Vec<u8>, AllocError>
    requires { IsTrue (string_fits string.now) }
    ensures { IfOk result (λ line. spec.TellsRemedy cap (Some string.now) line.items) }
{
    let spelled = escape(alloc, string)?;
    spelled_line(alloc, cap, spelled.as_slice())
}

/// The line with the string that would be right for `cap`; empty if there is no such string.
fn suggestion_line(alloc: Global, faulty: &Faulty<'_>, cap: Cap) -> Result<Vec<u8>, AllocError>
    ensures { IfOk result
        (λ line. spec.HasRemedy faulty.now.entry.now faulty.now.mended.now faulty.now.nos.now cap line.items) }
{
    match suggested(faulty, cap) {
        Some(string) => remedy_line(alloc, cap, string),
        None => Ok(Vec::new(alloc)),
    }
}

/// The lines with the strings that would be right for each of `caps`.
fn lines_of(alloc: Global, faulty: &Faulty<'_>, caps: &[Cap]) -> Result<Vec<u8>, AllocError>
    ensures { IfOk result (λ lines. HasParts
        (spec.HasRemedy faulty.now.entry.now faulty.now.mended.now faulty.now.nos.now) caps.now lines.items) }
{
    let mut lines = Vec::new(alloc);
    for cap in caps {
        lines.extend_from_slice(suggestion_line(alloc, faulty, *cap)?.as_slice())?;
    }
    Ok(lines)
}

/// The lines with the strings that would be right, for `cap` and, where strings are mended as one, for those with it;
/// none for a capability without such a string. If the faults show a terminal of another kind, nothing is suggested.
pub fn suggestion_lines(alloc: Global, faulty: &Faulty<'_>, cap: Cap) -> Result<Vec<u8>, AllocError>
    ensures { IfOk result
        (λ lines. spec.HasRemedies faulty.now.entry.now faulty.now.mended.now faulty.now.nos.now cap lines.items) }
{
    let caps = listed_with(alloc, faulty.nos, cap)?;
    lines_of(alloc, faulty, caps.as_slice())
}

/// Adds to `remarks` that the entry seems to be for a terminal of another kind, if its faults `nos` show that.
pub fn note_another_kind(nos: &[No], remarks: &mut Remarks) {
    if is_of_another_kind(nos) {
        remarks.add_words(OF_ANOTHER_KIND);
    }
}

/// Adds to `remarks` that a fault may go once others are mended, if the faults `nos` have one that may be about strings
/// judged together, and another one.
pub fn note_left_out(nos: &[No], remarks: &mut Remarks) {
    let count = nos.iter().filter(|no| may_be_together(no)).count();
    if count > 0 && count < nos.len() {
        remarks.add_words(LEFT_OUT);
    }
}

/// Whether `no` may be about strings that are right by themselves.
fn may_be_together(no: &No) -> bool {
    match no.cause {
        Cause::NoResync => true,
        Cause::BadLook => name(no.cap) == b"acsc".as_slice(),
        Cause::WrongEffect(_) => {
            name(no.cap) == b"smacs".as_slice() || name(no.cap) == b"rmacs".as_slice()
        }
        Cause::FlagOut | Cause::Absent | Cause::AcsByte | Cause::Parm(_) => false,
        Cause::StaticRead | Cause::Unfinished | Cause::Stuck | Cause::NotTame => false,
        Cause::NotShown | Cause::TooLong | Cause::NoMemory => false,
    }
}
