//! The command `check --every-size`.

ghost use Rattle.std.specs.Prelude.{◌≡◌, IfErr, IfOk};
ghost use Rattle.ti_caps.specs.Entry.{Content};
ghost use Rattle.ti_everywhere.specs.Checks as spec;
ghost use Rattle.ti_sizes.specs.Answers.{IsAnswer};

use crate::words::{doubt_words, size_words};
use std::alloc::Global;
use ti_caps::Entry;
use ti_checker::No;
use ti_commands::{Sourced, sourced_entry};
use ti_files::{Failure, Files, Remarks, Replied, Reply};
use ti_sizes::{EverySize, every_size};
use ti_verdicts::{explain_no, no_failure, note_outside, verdict};
use vt_term::Size;

/// The text for an entry that is right at every size.
const YES: &[u8] = b"yes at every size\n";

/// Replies with the answer to the question whether the entry that `word` gives is right at every size. If it isn't, the
/// reply fails with its refusal at some size, and a further line names the size; or with the capability that may have
/// another effect at some size. Further lines go to `remarks`.
///
/// # Errors
/// The reason why there is no entry; out of memory.
pub fn check_everywhere<F: Files>(
    alloc: Global,
    word: &str,
    files: &mut F,
    remarks: &mut Remarks,
) -> Replied
    ensures reply { IfOk result (λ reply. spec.IsChecked (F.holds files.old) word.now reply) }
    ensures failure { IfErr result (λ e. spec.FailsToCheck (F.holds files.old) word.now e) }
    ensures kept { F.holds files.new ≡ F.holds files.old }
{
    let Sourced { entry, source: _ } = sourced_entry(alloc, files, word, remarks)?;
    let answer = every_size(alloc, &entry)?;
    explain(alloc, &entry, &answer, remarks);
    reply_of(alloc, &answer)
}

/// The reply with this `answer` about an entry.
fn reply_of(alloc: Global, answer: &EverySize) -> Replied
    ensures reply { (entry : Content) → IsAnswer entry answer.now
        → IfOk result (λ reply. spec.EndsFor entry reply.failure) }
    ensures failure { IfErr result (λ e. e ≡ Failure.NoMemory) }
{
    match answer {
        EverySize::Yes => Ok(Reply::of_text(alloc, Vec::from_slice(alloc, YES)?)),
        EverySize::No(_, no) => Ok(failing(alloc, no_failure(alloc, no))),
        EverySize::Undecided(cap) => {
            Ok(failing(alloc, verdict(doubt_words(alloc, b"Undecided", *cap))))
        }
    }
}

/// The reply with this `failure` alone.
fn failing(alloc: Global, failure: Failure) -> Reply
    ensures { result.failure ≡ Some failure }
{
    Reply {
        notes: Vec::new(alloc),
        text: Vec::new(alloc),
        failure: Some(failure),
    }
}

/// Adds to `remarks` what explains the `answer` about `entry`.
fn explain(alloc: Global, entry: &Entry, answer: &EverySize, remarks: &mut Remarks) {
    match answer {
        EverySize::Yes => (),
        EverySize::No(size, no) => explain_at(alloc, entry, *size, no, remarks),
        EverySize::Undecided(_) => remarks.add_words(
            b"its strings are right at 2 by 2, 24 by 80 and 200 by 500; whether one does the same at each size is open",
        ),
    }
}

/// Adds to `remarks` the `size` at which `entry` has the refusal `no`, and what explains it.
fn explain_at(alloc: Global, entry: &Entry, size: Size, no: &No, remarks: &mut Remarks) {
    if let Ok(words) = size_words(alloc, size) {
        remarks.add_words(words.as_slice());
    }
    explain_no(alloc, entry, size, no, remarks);
    note_outside(alloc, entry, size, remarks);
}
