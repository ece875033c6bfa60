//! The command `check`.

ghost use Rattle.std.specs.Prelude.{◌≡◌, IfErr, IfOk, OnErr};
ghost use Rattle.ti_verdicts.specs.Checks.{Delivers, FailsToCheck, IsChecked, StoresText, TellsNotes, TellsSome};

use crate::certifiers::Certifier;
use crate::note_texts::note_lines;
use crate::outside::note_outside;
use crate::reasons::explain_no;
use crate::refusals::no_failure;
use std::alloc::{AllocError, Global};
use ti_caps::Entry;
use ti_checker::{Cause, No, notes};
use ti_commands::{Sourced, sourced_entry};
use ti_files::{Failure, Files, Remarks, Replied, Reply, file_fault, size_words};
use ti_hints::advise;
use ti_openings::{note_bound, note_left_out_names};
use ti_requests::CheckWords;
use vt_term::Size;

/// Replies with the notes on the entry that the `words` give and with the certificate that the `certifier` writes of
/// it, which goes to its path or to standard output, or with the reason why there is none. Further lines go to
/// `remarks`: on an entry with a certificate advice and, if the `certifier` tells it, the bound of a session; on
/// another one what explains the refusal, and what a session goes without.
pub fn check_entry<C: Certifier, F: Files>(
    alloc: Global,
    certifier: &C,
    words: &CheckWords<'_>,
    files: &mut F,
    remarks: &mut Remarks,
) -> Replied
    ensures reply { IfOk result (λ reply. IsChecked (C.certifies certifier.now) (C.refuses certifier.now)
        (F.holds files.old) (F.holds files.new) words.now reply) }
    ensures failure { IfErr result (λ e. FailsToCheck (F.holds files.old) words.now e) }
    ensures kept { OnErr result (F.holds files.new ≡ F.holds files.old) }
{
    let size = size_words(alloc, words.rows, words.cols, remarks)?;
    let Sourced { entry, source: _ } = sourced_entry(alloc, files, words.entry, remarks)?;
    let notes = notes_on(alloc, &entry, size)?;
    match certificate_of(alloc, certifier, &entry, size, remarks) {
        Ok(text) => {
            let reply = deliver(alloc, notes, text, words.out, files, remarks);
            further_on(alloc, certifier, &entry, size, &reply, remarks);
            Ok(reply)
        }
        Err(failure) => Ok(Reply {
            notes,
            text: Vec::new(alloc),
            failure: Some(failure),
        }),
    }
}

/// Adds advice on `entry` to `remarks`, and its bound if the `certifier` wants that, if the `reply` has delivered its
/// certificate.
fn further_on<C: Certifier>(
    alloc: Global,
    certifier: &C,
    entry: &Entry,
    size: Size,
    reply: &Reply,
    remarks: &mut Remarks,
) {
    if reply.failure.is_none() {
        advise(alloc, entry, size, remarks);
        if certifier.tells_bound() {
            note_bound(alloc, entry, size, remarks);
        }
    }
}

/// The lines of the notes on `entry`; none if one of its strings sends no whole tokens.
pub fn notes_on(alloc: Global, entry: &Entry, size: Size) -> Result<Vec<u8>, AllocError>
    ensures { IfOk result (λ lines. TellsNotes entry.now lines.items) }
{
    match notes(alloc, entry, size) {
        Ok(notes) => note_lines(alloc, notes.as_slice()),
        Err(
            No {
                cause: Cause::NoMemory,
                ..
            },
        ) => Err(AllocError),
        Err(_) => Ok(Vec::new(alloc)),
    }
}

/// The certificate of `entry` for `size` that the `certifier` writes.
fn certificate_of<C: Certifier>(
    alloc: Global,
    certifier: &C,
    entry: &Entry,
    size: Size,
    remarks: &mut Remarks,
) -> Result<Vec<u8>, Failure>
    ensures certified { IfOk result (λ text. C.certifies certifier.now entry.now size.rows size.cols text.items) }
    ensures failure { IfErr result (λ e. TellsSome (C.refuses certifier.now entry.now size.rows size.cols) e) }
{
    match certifier.certify(alloc, entry, size) {
        Ok(text) => Ok(text),
        Err(no) => {
            explain_no(alloc, entry, size, &no, remarks);
            note_outside(alloc, entry, size, remarks);
            note_left_out_names(alloc, entry, size, remarks);
            Err(no_failure(alloc, &no))
        }
    }
}

/// The reply with `notes` and with `text`, which goes to the path `out`, where it is stored whole or not at all, or to
/// standard output.
fn deliver<F: Files>(
    alloc: Global,
    notes: Vec<u8>,
    text: Vec<u8>,
    out: Option<&str>,
    files: &mut F,
    remarks: &mut Remarks,
) -> Reply
    ensures noted { result.notes ≡ notes }
    ensures delivered { Delivers text.items out.entry (F.holds files.old) (F.holds files.new) result }
{
    match out {
        None => Reply {
            notes,
            text,
            failure: None,
        },
        Some(path) => Reply {
            notes,
            text: Vec::new(alloc),
            failure: store_text(alloc, files, path, text.as_slice(), remarks),
        },
    }
}

/// Stores `text` at `path`, or returns the failure.
pub fn store_text<F: Files>(
    alloc: Global,
    files: &mut F,
    path: &str,
    text: &[u8],
    remarks: &mut Remarks,
) -> Option<Failure>
    ensures { StoresText text.now path.now (F.holds files.old) (F.holds files.new) result }
{
    match files.store(path, text) {
        Ok(()) => None,
        Err(fault) => Some(file_fault(alloc, path, fault, remarks)),
    }
}
