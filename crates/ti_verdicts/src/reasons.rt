//! The explanation why an entry gets no certificate.

use crate::fault_runs::FaultRun;
use crate::faulty_parts::Judged;
use crate::outside::outside_words;
use std::alloc::{AllocError, Global};
use ti_caps::{Entry, name};
use ti_checker::{Cause, No};
use ti_files::Remarks;
use ti_grades::row_of;
use ti_rows::Row;
use ti_words::{
    Field, LED_THERE, NO_RESYNC, NOT_SHOWN, NOT_TAME, NOT_TOGETHER, STATIC_READ, STAYS_GRAPHIC,
    Sent, TOO_LONG, explain_absent, explain_field, explain_flag, explain_pairs, explain_whole,
    first_of_resync, has_own_effect, unsent_words,
};
use vt_term::Size;

/// A fault of an entry, and the run that shows it.
#[derive(Clone, Copy)]
pub struct Fault<'a> {
    /// The entry.
    pub entry: &'a Entry,
    /// The fault, for the size at which it was found.
    pub judged: Judged<'a>,
    /// The run that shows the fault (`FaultRun::new` of the same entry, size and fault).
    pub run: &'a FaultRun,
}

/// The end of an explanation, or that memory ran out.
type Explained = Result<(), AllocError>;

/// Adds to `remarks` the facts that a maintainer of `entry` needs about `no`, as far as there is memory.
pub fn explain_no(alloc: Global, entry: &Entry, size: Size, no: &No, remarks: &mut Remarks) {
    if let Ok(run) = FaultRun::new(alloc, entry, size, no) {
        let fault = Fault {
            entry,
            judged: Judged { no, size },
            run: &run,
        };
        explain_fault(alloc, &fault, remarks);
    }
}

/// Adds to `remarks` the facts that a maintainer needs about the `fault` of an entry, as far as there is memory.
pub fn explain_fault(alloc: Global, fault: &Fault<'_>, remarks: &mut Remarks) {
    let _ = explain_cause(alloc, fault, remarks);
}

fn explain_cause(alloc: Global, fault: &Fault<'_>, remarks: &mut Remarks) -> Explained {
    explain_itself(alloc, fault, remarks)?;
    let judged = &fault.judged;
    if let Some(words) = outside_words(alloc, fault.entry, judged.size, judged.no)? {
        remarks.add_words(words.as_slice());
    }
    Ok(())
}

/// Explains the cause of the `fault`, without a function that T lacks.
fn explain_itself(alloc: Global, fault: &Fault<'_>, remarks: &mut Remarks) -> Explained {
    let cap = fault.judged.no.cap;
    match fault.judged.no.cause {
        Cause::FlagOut => explain_flag(cap, remarks),
        Cause::Absent => explain_absent(cap, remarks),
        Cause::AcsByte => explain_pairs(alloc, fault.entry.get_string(cap), remarks)?,
        Cause::NoResync => explain_resync(alloc, fault.entry, fault.judged.size, remarks)?,
        Cause::BadLook if matches!(name(cap), b"acsc") => remarks.add_words(STAYS_GRAPHIC),
        Cause::Parm(_) | Cause::StaticRead | Cause::Unfinished | Cause::Stuck | Cause::NotTame => {
            explain_string(alloc, fault, remarks)?
        }
        Cause::BadLook | Cause::WrongEffect(_) | Cause::NotShown | Cause::TooLong => {
            explain_string(alloc, fault, remarks)?
        }
        Cause::NoMemory => {}
    }
    Ok(())
}

/// Explains how the string of `entry` must begin that is sent first in an unknown state.
fn explain_resync(alloc: Global, entry: &Entry, size: Size, remarks: &mut Remarks) -> Explained {
    let Some((row, bytes)) = first_of_resync(alloc, entry, size) else {
        return Ok(());
    };
    let sent = Some(bytes);
    if let Some(string) = entry.get_string(row.cap()) {
        let field = Field {
            names: entry.names(),
            row,
            string,
            sent: &sent,
        };
        explain_field(alloc, &field, UNSENT, remarks)?;
        remarks.add_words(NO_RESYNC);
    }
    Ok(())
}

/// Explains the bytes that the string at fault sends, and their fault.
fn explain_string(alloc: Global, fault: &Fault<'_>, remarks: &mut Remarks) -> Explained {
    let Some(row) = row_of(fault.judged.no) else {
        return Ok(());
    };
    if let Some(string) = fault.entry.get_string(row.cap()) {
        let field = Field {
            names: fault.entry.names(),
            row,
            string,
            sent: &fault.run.sent,
        };
        explain_field(alloc, &field, unsent_by(fault.judged.no.cause), remarks)?;
    }
    if let Some(bytes) = &fault.run.sent {
        let sent = Sent {
            size: fault.judged.size,
            row,
            bytes: bytes.as_slice(),
        };
        explain_sent(alloc, fault, sent, remarks)?;
    }
    Ok(())
}

/// The words about a string that sends nothing for this `cause`.
fn unsent_by(cause: Cause) -> &'static [u8] {
    match cause {
        Cause::StaticRead => STATIC_READ,
        Cause::Parm(fault) => unsent_words(fault),
        Cause::FlagOut | Cause::Absent | Cause::AcsByte | Cause::Unfinished => UNSENT,
        Cause::Stuck | Cause::NotTame | Cause::BadLook | Cause::WrongEffect(_) => UNSENT,
        Cause::NotShown | Cause::TooLong | Cause::NoResync | Cause::NoMemory => UNSENT,
    }
}

/// The words about a string that sends nothing, for no reason that its fault has.
const UNSENT: &[u8] = b" can't be expanded";

/// Explains the `fault` of the bytes that were `sent`.
fn explain_sent(
    alloc: Global,
    fault: &Fault<'_>,
    sent: Sent<'_>,
    remarks: &mut Remarks,
) -> Explained {
    match fault.judged.no.cause {
        Cause::Unfinished | Cause::Stuck => explain_whole(alloc, sent.bytes, remarks)?,
        Cause::BadLook => {
            add_labeled(alloc, b"wanted: ", &fault.run.wanted, remarks)?;
            add_labeled(alloc, b"seen: ", &fault.run.seen, remarks)?;
            remarks.add_words(OWN_RENDITION);
        }
        Cause::WrongEffect(_) => explain_run(alloc, fault, sent, remarks)?,
        Cause::NotTame => remarks.add_words(NOT_TAME),
        Cause::TooLong => remarks.add_words(TOO_LONG),
        Cause::NotShown => explain_unshown(alloc, fault, sent, remarks)?,
        // earlier functions explain these before they look at any bytes
        Cause::FlagOut | Cause::Absent | Cause::AcsByte | Cause::NoMemory => {}
        Cause::Parm(_) | Cause::StaticRead | Cause::NoResync => {}
    }
    Ok(())
}

/// The words about a string that has to turn on one attribute.
const OWN_RENDITION: &[u8] =
    b"an attribute other than standout is shown by its own rendition or by none";

/// Explains the wrong effect of the bytes that were `sent`, if a run shows it.
fn explain_run(
    alloc: Global,
    fault: &Fault<'_>,
    sent: Sent<'_>,
    remarks: &mut Remarks,
) -> Explained {
    if fault.run.seen.is_some() {
        add_labeled(alloc, b"start: ", &fault.run.start, remarks)?;
        if has_own_effect(alloc, sent) {
            remarks.add_words(LED_THERE);
        }
        add_labeled(alloc, b"wanted: ", &fault.run.wanted, remarks)?;
        add_labeled(alloc, b"seen: ", &fault.run.seen, remarks)?;
    }
    Ok(())
}

/// Explains that the bytes that were `sent` weren't judged right, though nothing wrong was found: because of their
/// string alone, or, at `clear`, because of all strings of the entry together.
fn explain_unshown(
    alloc: Global,
    fault: &Fault<'_>,
    sent: Sent<'_>,
    remarks: &mut Remarks,
) -> Explained {
    if sent.row == Row::Clear && has_own_effect(alloc, sent) {
        remarks.add_words(NOT_TOGETHER);
    } else {
        add_labeled(alloc, b"wanted: ", &fault.run.wanted, remarks)?;
        remarks.add_words(NOT_SHOWN);
    }
    Ok(())
}

/// Adds a line of these `words` with the `label` before them, if there are any.
fn add_labeled(
    alloc: Global,
    label: &[u8],
    words: &Option<Vec<u8>>,
    remarks: &mut Remarks,
) -> Explained {
    if let Some(words) = words {
        let mut line = Vec::from_slice(alloc, label)?;
        line.extend_from_slice(words.as_slice())?;
        remarks.add_words(line.as_slice());
    }
    Ok(())
}
