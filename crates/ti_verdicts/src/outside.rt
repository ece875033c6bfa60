//! Faults that only say that T hasn't a function.

use std::alloc::{AllocError, Global};
use ti_caps::Entry;
use ti_checker::{Cause, No};
use ti_faults::faults;
use ti_files::Remarks;
use ti_grades::{Grade, grade_of, row_of, sent_for};
use ti_rows::Row;
use ti_words::{ALL_LACKING, code_page_words, eight_bit_words, lacking_words};
use vt_states::ignored_in;
use vt_term::{Size, tokens};

/// Words, if there are any; or that memory ran out.
type Found = Result<Option<Vec<u8>>, AllocError>;

/// The words about the function outside T for which `entry` has the fault `no`; `None` if it has it for another reason.
pub(crate) fn outside_words(alloc: Global, entry: &Entry, size: Size, no: &No) -> Found {
    match no.cause {
        Cause::WrongEffect(_) => function_words(alloc, entry, size, no),
        Cause::Stuck => control_words(alloc, entry, no),
        Cause::AcsByte => page_words(alloc, entry),
        Cause::FlagOut | Cause::Absent | Cause::Parm(_) | Cause::StaticRead => Ok(None),
        Cause::Unfinished | Cause::NotTame | Cause::BadLook | Cause::NotShown => Ok(None),
        Cause::TooLong | Cause::NoResync | Cause::NoMemory => Ok(None),
    }
}

/// The words about the first sequence that T lacks of what the string at fault sends, if T can't tell whether it is
/// right.
fn function_words(alloc: Global, entry: &Entry, size: Size, no: &No) -> Found {
    let Some(sent) = sent_for(alloc, row_of(no), entry.get_string(no.cap))? else {
        return Ok(None);
    };
    let counts = ignored_in(alloc, sent.as_slice())?;
    let Some(first) = counts.kinds().first() else {
        return Ok(None);
    };
    if grade_of(alloc, entry, size, no, false)? != Grade::Unknown {
        return Ok(None);
    }
    Ok(Some(lacking_words(alloc, first.sequence())?))
}

/// The words about the control of eight bits at which the string at fault is stuck.
fn control_words(alloc: Global, entry: &Entry, no: &No) -> Found {
    let Some(sent) = sent_for(alloc, row_of(no), entry.get_string(no.cap))? else {
        return Ok(None);
    };
    let at = match tokens(alloc, sent.as_slice()) {
        Ok(_) => return Ok(None),
        Err(fault) => fault.at,
    };
    match sent.as_slice().get(at) {
        Some(byte) if matches!(*byte, 0x80..=0x9f) => Ok(Some(eight_bit_words(alloc, *byte)?)),
        Some(_) | None => Ok(None),
    }
}

/// The words about the code page that the entry's `smacs` asks the Linux console or its like for.
fn page_words(alloc: Global, entry: &Entry) -> Found {
    match entry.get_string(Row::Smacs.cap()) {
        Some(b"\x1b[11m" | b"\x1b[12m") => Ok(Some(code_page_words(alloc)?)),
        Some(_) | None => Ok(None),
    }
}

/// Adds to `remarks` that each fault of `entry` is a function that T lacks, if it is so, as far as there is memory.
pub fn note_outside(alloc: Global, entry: &Entry, size: Size, remarks: &mut Remarks) {
    if let Ok(nos) = faults(alloc, entry, size) {
        note_all_outside(alloc, entry, size, nos.as_slice(), remarks);
    }
}

/// Adds this to `remarks` if it is so of the faults `nos`. The others may be why the entry can't bring a terminal back
/// from what was cut off.
pub(crate) fn note_all_outside(
    alloc: Global,
    entry: &Entry,
    size: Size,
    nos: &[No],
    remarks: &mut Remarks,
) {
    let mut found = false;
    for no in nos {
        if no.cause == Cause::NoResync {
            continue;
        }
        match outside_words(alloc, entry, size, no) {
            Ok(Some(_)) => found = true,
            Ok(None) | Err(_) => return,
        }
    }
    if found {
        remarks.add_words(ALL_LACKING);
    }
}
