//! The run that shows a fault, in words.

ghost use Rattle.std.specs.Prelude.{◌≡◌, IfOk, option_map};
ghost use Rattle.ti_verdicts.specs.FaultRuns as spec;
ghost use Rattle.ti_words.specs.Wanted.{wanted_text};

use crate::looks::look_words;
use crate::starts::{probe_run_words, probe_words};
use std::alloc::{AllocError, Global};
use ti_caps::Entry;
use ti_checker::{Cause, No, Probe};
use ti_grades::{row_of, sent_for};
use ti_rows::Row;
use ti_words::wanted_words;
use vt_term::Size;

/// The bytes that the string of a fault sends, and the run that shows the fault, in words.
#[derive(Debug, Drop)]
pub struct FaultRun {
    /// The bytes that the entry's string sends for the fault's parameters; `None` where the fault is about no string,
    /// or nothing is sent.
    pub sent: Option<Vec<u8>>,
    /// The state of the terminal from which it goes wrong; `None` if no state shows the fault.
    pub start: Option<Vec<u8>>,
    /// The wanted effect; `None` if the fault isn't that there is another one.
    pub wanted: Option<Vec<u8>>,
    /// The effect that is seen instead; `None` if no run showed the fault.
    pub seen: Option<Vec<u8>>,
}

/// The part of a run that shows the cause of a fault.
#[derive(Clone, Copy)]
enum RunPart {
    /// No part: the cause is about no run.
    Nothing,
    /// The wanted effect alone: no run showed another one.
    WantedAlone,
    /// The rendition at the end of a run after a reset.
    LookAfterReset,
    /// The changes by a run from the state of this probe.
    ChangesFrom(Probe),
}

/// Bytes, if there are any; or that memory ran out.
type Found = Result<Option<Vec<u8>>, AllocError>;

impl FaultRun {
    ghost use Rattle.std.specs.Prelude.{IfOk};
    ghost use Rattle.ti_verdicts.specs.FaultRuns as spec;

    /// The run that shows the fault `no` of `entry` on a terminal of `size`.
    ///
    /// # Errors
    /// Out of memory.
    pub fn new(alloc: Global, entry: &Entry, size: Size, no: &No) -> Result<FaultRun, AllocError>
        ensures { IfOk result (λ run. spec.IsRunOf entry.now size.rows size.cols no.now run) }
    {
        let row = row_of(no);
        let sent = sent_for(alloc, row, entry.get_string(no.cap))?;
        let part = part_of(no.cause);
        let start = start_of(alloc, size, part)?;
        let wanted = wanted_of(alloc, part, row)?;
        let seen = seen_of(alloc, size, part, &sent)?;
        Ok(FaultRun {
            sent,
            start,
            wanted,
            seen,
        })
    }
}

/// The part of a run that shows the `cause`.
fn part_of(cause: Cause) -> RunPart
    ensures { result ≡ spec.part_of cause }
{
    match cause {
        Cause::BadLook => RunPart::LookAfterReset,
        Cause::WrongEffect(probe) => RunPart::ChangesFrom(probe),
        Cause::NotShown => RunPart::WantedAlone,
        Cause::FlagOut | Cause::Absent | Cause::AcsByte | Cause::Parm(_) => RunPart::Nothing,
        Cause::StaticRead | Cause::Unfinished | Cause::Stuck => RunPart::Nothing,
        Cause::NotTame | Cause::TooLong | Cause::NoResync | Cause::NoMemory => RunPart::Nothing,
    }
}

/// The state on a terminal of `size` from which it goes wrong, if the `part` has one.
fn start_of(alloc: Global, size: Size, part: RunPart) -> Found
    ensures { IfOk result (λ start. option_map (λ words. words.items) start ≡ spec.start_of size.rows part) }
{
    match part {
        RunPart::ChangesFrom(probe) => Ok(Some(probe_words(alloc, size, &probe)?)),
        RunPart::Nothing | RunPart::WantedAlone | RunPart::LookAfterReset => Ok(None),
    }
}

/// The effect that is wanted of `row`, if the `part` has it.
fn wanted_of(alloc: Global, part: RunPart, row: Option<Row>) -> Found
    ensures { IfOk result (λ wanted. option_map (λ words. words.items) wanted ≡ spec.wanted_of part row) }
{
    match part {
        RunPart::Nothing => Ok(None),
        RunPart::WantedAlone | RunPart::LookAfterReset | RunPart::ChangesFrom(_) => {
            wanted_by(alloc, row)
        }
    }
}

/// The effect that is wanted of `row`, if there is one.
fn wanted_by(alloc: Global, row: Option<Row>) -> Found
    ensures { IfOk result (λ wanted. option_map (λ words. words.items) wanted ≡ option_map wanted_text row) }
{
    match row {
        Some(row) => Ok(Some(wanted_words(alloc, row)?)),
        None => Ok(None),
    }
}

/// The effect of the bytes that are `sent`, if there are any and the `part` has it.
fn seen_of(alloc: Global, size: Size, part: RunPart, sent: &Option<Vec<u8>>) -> Found
    ensures { IfOk result (λ seen. spec.IsSeen part size.rows size.cols (option_map (λ bytes. bytes.items) sent.now)
        (option_map (λ words. words.items) seen)) }
{
    match sent {
        Some(bytes) => seen_by(alloc, size, part, bytes.as_slice()),
        None => Ok(None),
    }
}

/// The effect of `bytes`, if the `part` has it; `None` where they don't run.
fn seen_by(alloc: Global, size: Size, part: RunPart, bytes: &[u8]) -> Found
    ensures { IfOk result (λ seen. spec.IsSeenBy part size.rows size.cols bytes.now
        (option_map (λ words. words.items) seen)) }
{
    match part {
        RunPart::ChangesFrom(probe) => probe_run_words(alloc, size, &probe, bytes),
        RunPart::LookAfterReset => look_words(alloc, size, bytes),
        RunPart::Nothing | RunPart::WantedAlone => Ok(None),
    }
}
