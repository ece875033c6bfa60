//! The grade of a fault.

ghost use Rattle.std.specs.Prelude.{◌≡◌, IfOk};
ghost use Rattle.ti_grades.specs.Grades as spec;

use crate::codes::{CodeKind, has_code, is_designation};
use crate::effects::runs_of;
use crate::fault_runs::{row_of, sent_for};
use crate::functions::is_beyond;
use crate::odds::{Witness, bytes_of, is_against, is_elsewhere, witness_for};
use crate::sequences::{is_open_control, is_padded, token_fault};
use std::alloc::{AllocError, Global};
use ti_caps::Entry;
use ti_checker::{Cause, No};
use ti_parm::ParmFault;
use ti_rows::{Params, Row};
use vt_term::{Size, TokenFault};

/// How much a fault says to people who keep entries.
#[derive(Clone, Copy, Debug, PartialEq, Eq)]
pub enum Grade {
    /// The string is wrong for any terminal.
    Broken,
    /// The string contradicts the entry's own other strings.
    Contradicts,
    /// The terminal hasn't the function, or the string wasn't judged.
    Unknown,
    /// The terminal shows that the string is wrong.
    Wrong,
}

impl Grade {
    /// Its word.
    pub fn name(self) -> &'static str
        ensures { result.now ≡ spec.word self }
    {
        match self {
            Grade::Broken => "broken",
            Grade::Contradicts => "contradicts",
            Grade::Unknown => "unknown",
            Grade::Wrong => "wrong",
        }
    }
}

/// Whether a string with this fault is none in the language of parameters.
fn is_no_code(fault: ParmFault, string: &[u8]) -> bool
    ensures { result ≡ spec.is_no_code fault string.now }
{
    match fault {
        ParmFault::Underflow | ParmFault::BadNest | ParmFault::WrongKind => true,
        ParmFault::Overflow | ParmFault::BadChar => true,
        ParmFault::BadCode => !has_code(string, CodeKind::Control),
        ParmFault::NoMemory => false,
    }
}

fn takes_none(params: &Params) -> bool
    ensures { result ≡ spec.takes_none params.now.items }
{
    match params.as_slice() {
        [] => true,
        [..] => false,
    }
}

/// Whether a program may send `string` as it is: the row has no parameters, and each `%` stands right behind ESC.
fn may_be_plain(row: Option<Row>, string: &[u8]) -> bool
    ensures { result ≡ spec.may_be_plain row string.now }
{
    match row {
        Some(row) => takes_none(&row.params()) && is_designation(string),
        None => false,
    }
}

/// Whether a string with this fault is none in the language of parameters, and each program expands it.
fn is_broken_code(fault: ParmFault, row: Option<Row>, string: &[u8]) -> bool
    ensures { result ≡ spec.is_broken_code fault row string.now }
{
    is_no_code(fault, string) && !may_be_plain(row, string)
}

/// Whether a string with this fault is none in the language of parameters, or sends no control sequence of ECMA-48.
fn is_broken_text(
    cause: Cause,
    row: Option<Row>,
    string: &[u8],
    sent: &[u8],
    end: Option<TokenFault>,
) -> bool
    ensures { result ≡ spec.is_broken_text cause row string.now sent.now end }
{
    match cause {
        Cause::Parm(fault) => is_broken_code(fault, row, string),
        Cause::Stuck => is_padded(sent, end),
        Cause::Unfinished => is_open_control(sent, end),
        Cause::FlagOut | Cause::Absent | Cause::AcsByte | Cause::StaticRead => false,
        Cause::NotTame | Cause::BadLook | Cause::WrongEffect(_) | Cause::NotShown => false,
        Cause::TooLong | Cause::NoResync | Cause::NoMemory => false,
    }
}

/// Whether codes of `string` read the parameters of a row with these, which are two at most.
fn reads_each(params: &Params, string: &[u8]) -> bool
    ensures { result ≡ spec.reads_each params.now.items string.now }
{
    match params.as_slice() {
        [] => true,
        [_] => has_code(string, CodeKind::Reads(b'1')),
        [_, _, ..] => {
            has_code(string, CodeKind::Reads(b'1')) && has_code(string, CodeKind::Reads(b'2'))
        }
    }
}

/// Whether no code of `string` reads one of the row's parameters.
fn is_unread(row: Option<Row>, string: &[u8]) -> bool
    ensures { result ≡ spec.is_unread row string.now }
{
    match row {
        None | Some(Row::Sgr(_)) => false,
        Some(row) => !reads_each(&row.params(), string),
    }
}

/// Whether the string is wrong for any terminal.
fn is_broken(
    cause: Cause,
    row: Option<Row>,
    string: &[u8],
    sent: &[u8],
    end: Option<TokenFault>,
) -> bool
    ensures { result ≡ spec.is_broken cause row string.now sent.now end }
{
    is_broken_text(cause, row, string, sent, end) || is_unread(row, string)
}

/// Whether T can't tell. The fault may be the entry's only one, and what the string sends may always be beyond T.
fn is_unknown(cause: Cause, alone: bool, beyond: bool) -> bool
    ensures { result ≡ spec.is_unknown cause alone beyond }
{
    match cause {
        Cause::NotTame | Cause::NotShown | Cause::Stuck | Cause::Unfinished => true,
        Cause::TooLong | Cause::StaticRead | Cause::FlagOut | Cause::AcsByte => true,
        Cause::NoMemory | Cause::Parm(_) => true,
        Cause::NoResync => !alone,
        Cause::WrongEffect(_) => beyond,
        Cause::BadLook | Cause::Absent => false,
    }
}

/// The grade by the first of these that is so.
fn first_grade(broken: bool, contradicts: bool, unknown: bool) -> Grade
    ensures { result ≡ spec.first_grade broken contradicts unknown }
{
    if broken {
        Grade::Broken
    } else if contradicts {
        Grade::Contradicts
    } else if unknown {
        Grade::Unknown
    } else {
        Grade::Wrong
    }
}

/// The grade by what is known of a fault: whether it is the entry's only one, whether its string is `broken`, what the
/// entry's other strings say, and whether all that it sends is beyond T.
fn graded(cause: Cause, alone: bool, broken: bool, witness: Witness, beyond: bool) -> Grade
    ensures { result ≡ spec.graded cause alone broken witness beyond }
{
    let unknown = is_unknown(cause, alone, beyond || is_elsewhere(witness));
    first_grade(broken, is_against(witness), unknown)
}

/// The grade of the fault `no` of `entry` on a terminal of `size`; `alone` tells whether it is the entry's only one.
///
/// # Errors
/// Out of memory.
pub fn grade_of(
    alloc: Global,
    entry: &Entry,
    size: Size,
    no: &No,
    alone: bool,
) -> Result<Grade, AllocError>
    ensures { IfOk result (spec.IsGrade entry.now size.rows size.cols no.now alone) }
{
    let row = row_of(no);
    let string = entry.get_string(no.cap);
    let sent = sent_for(alloc, row, string)?;
    let sent = bytes_of(sent.as_deref());
    let end = token_fault(alloc, sent)?;
    let runs = runs_of(alloc, size, entry, row, string)?;
    let beyond = is_beyond(alloc, size, no.cause, row, string)?;
    let string = bytes_of(string);
    let broken = is_broken(no.cause, row, string, sent, end);
    let witness = witness_for(entry, no.cause, row, string, sent, &runs);
    Ok(graded(no.cause, alone, broken, witness, beyond))
}
