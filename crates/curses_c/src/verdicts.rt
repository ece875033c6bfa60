//! The calls on certificates, which keep nothing.
ghost use Rattle.std.specs.Prelude.{◌≡◌, ◌≢◌, IfErr, IfOk};
ghost use Rattle.ti_verdicts.specs.Refusals.{no_text};
ghost use Rattle.curses_c.specs.Verdicts as spec;

use crate::codes::{Failure, OK, failure_code};
use crate::entries::{Subject, certificate_of, checked_by, describe};
use std::alloc::Global;
use ti_checker::{Cause, No, check};
use ti_verdicts::no_words;

/// Writes the certificate of an entry for `rows` and `cols` to the start of `room`: the entry of the compiled file
/// `entry`, or of `name` in the source text `entry`. `needed` is its length, or 0 if there is none. Returns 0, or the
/// number of `BadSize`, of `BadEntry` if the entry can't be read, of `NoCertificate` if it has none, of `NoRoom` if
/// `room` is too short, or of `NoMemory`.
#[unsafe(no_mangle)]
pub extern "C" fn ticurses_raw_check(
    alloc: Global,
    entry: &[u8],
    name: &[u8],
    rows: u16,
    cols: u16,
    room: &mut [u8],
    needed: &mut usize,
) -> i32
    ensures { spec.Answers (spec.Certifies entry.now name.now rows cols) (spec.Denies entry.now name.now rows cols)
        room.old room.new needed.new result }
{
    let subject = Subject {
        bytes: entry,
        name,
        rows,
        cols,
    };
    deliver(certificate(alloc, &subject), room, needed)
}

fn certificate(alloc: Global, subject: &Subject<'_>) -> Result<Vec<u8>, Failure>
    ensures certified { IfOk result (λ text. spec.Certifies subject.now.bytes.now subject.now.name.now
        subject.now.rows subject.now.cols text.items) }
    ensures denied { IfErr result (spec.Denies subject.now.bytes.now subject.now.name.now subject.now.rows
        subject.now.cols) }
{
    let described = describe(alloc, subject)?;
    certificate_of(alloc, &described)
}

/// Writes the reason why an entry has no certificate for `rows` and `cols` to the start of `room`: the line that begins
/// with `no`. `needed` is its length, or 0 if the entry has a certificate. Returns 0, or the number of `BadSize`, of
/// `BadEntry` if the entry can't be read, of `NoRoom` if `room` is too short, or of `NoMemory`.
#[unsafe(no_mangle)]
pub extern "C" fn ticurses_raw_reason(
    alloc: Global,
    entry: &[u8],
    name: &[u8],
    rows: u16,
    cols: u16,
    room: &mut [u8],
    needed: &mut usize,
) -> i32
    ensures { spec.Answers (spec.Reasons entry.now name.now rows cols) (spec.LacksReason entry.now name.now rows cols)
        room.old room.new needed.new result }
{
    let subject = Subject {
        bytes: entry,
        name,
        rows,
        cols,
    };
    deliver(reason(alloc, &subject), room, needed)
}

fn reason(alloc: Global, subject: &Subject<'_>) -> Result<Vec<u8>, Failure>
    ensures says { IfOk result (λ words. spec.Reasons subject.now.bytes.now subject.now.name.now subject.now.rows
        subject.now.cols words.items) }
    ensures lacks { IfErr result (spec.LacksReason subject.now.bytes.now subject.now.name.now subject.now.rows
        subject.now.cols) }
{
    let described = describe(alloc, subject)?;
    match check(alloc, &described.entry, described.size) {
        Ok(_certificate) => Ok(Vec::new(alloc)),
        Err(no) => words_of(alloc, &no),
    }
}

/// The words of the refusal `no`. Fails with `NoMemory` if memory runs out, or if that was the cause of `no`.
fn words_of(alloc: Global, no: &No) -> Result<Vec<u8>, Failure>
    ensures says { IfOk result (λ words. words.items ≡ no_text no.now) }
    ensures claims { IfOk result (λ words. no.now.cause ≢ Cause.NoMemory) }
    ensures lacks { IfErr result (λ e. e ≡ Failure.NoMemory) }
{
    if matches!(no.cause, Cause::NoMemory) {
        return Err(Failure::NoMemory);
    }
    Ok(no_words(alloc, no)?)
}

/// Writes the text of `answer` to the start of `room`, if `room` is long enough. `needed` gets the text's length, or 0
/// if there is none.
fn deliver(answer: Result<Vec<u8>, Failure>, room: &mut [u8], needed: &mut usize) -> i32
    ensures { spec.Delivers (λ text. text.items) answer room.old room.new needed.new result }
{
    match answer {
        Ok(text) => {
            *needed = text.len();
            fill(text.as_slice(), room)
        }
        Err(failure) => {
            *needed = 0;
            failure_code(failure)
        }
    }
}

/// Writes `text` to the start of `room`; gives the number of `NoRoom`, and writes nothing, if `room` is too short.
pub fn fill(text: &[u8], room: &mut [u8]) -> i32
    ensures { spec.Fills text.now room.old room.new result }
{
    if text.len() > room.len() {
        return failure_code(Failure::NoRoom);
    }
    room[..text.len()].copy_from_slice(text);
    OK
}

/// Checks that `certificate` shows that each checked string of an entry has the effect that programs rely on, on a
/// terminal of `rows` and `cols`. Returns 0 if it does, else the number of `BadSize`, of `BadEntry` if the entry can't
/// be read, of `BadCertificate`, or of `NoMemory`.
#[unsafe(no_mangle)]
pub extern "C" fn ticurses_raw_verify(
    alloc: Global,
    entry: &[u8],
    name: &[u8],
    rows: u16,
    cols: u16,
    certificate: &[u8],
) -> i32
    ensures { spec.Verifies entry.now name.now rows cols certificate.now result }
{
    let subject = Subject {
        bytes: entry,
        name,
        rows,
        cols,
    };
    match verified(alloc, &subject, certificate) {
        Ok(()) => OK,
        Err(failure) => failure_code(failure),
    }
}

fn verified(alloc: Global, subject: &Subject<'_>, certificate: &[u8]) -> Result<(), Failure>
    ensures shown { IfOk result (λ _. spec.IsVerified subject.now.bytes.now subject.now.name.now subject.now.rows
        subject.now.cols certificate.now) }
    ensures unshown { IfErr result (spec.IsUnverified subject.now.bytes.now subject.now.name.now subject.now.rows
        subject.now.cols certificate.now) }
{
    let described = describe(alloc, subject)?;
    let _checked = checked_by(alloc, &described, certificate)?;
    Ok(())
}
