//! The command `survey --fix`.

ghost use Rattle.std.specs.{Prelude.{◌≡◌, ◌≤◌, ◌&&◌, Ok, IfErr, IfOk, OnErr, length}, List.{AllByRecursion}};
ghost use Rattle.ti_commands.specs.{Findings.{IsSourceFailure}, Further.{together_in}};
ghost use Rattle.ti_fixes.specs.Files.{all_raws, sheets};
ghost use Rattle.ti_repairs.specs.Repairs as spec;
ghost use Rattle.ti_source.specs.{Raw.{IsRaw}, Source.{source_of}};

use crate::delivery::{Repaired, delivered, refused, target_of};
use crate::notes::kept_lines;
use crate::still_wrong::all_still_wrong;
use crate::suggestions::Suggestions;
use crate::texts::texts_of;
use crate::weights::Terms;
use crate::words::FixWords;
use std::alloc::{AllocError, Global};
use ti_commands::{PutTogether, put_together};
use ti_files::{
    CommandRefusal, Failure, Files, LONGEST_FILE, Remarks, Replied, read_whole, size_words,
};
use ti_fixes::{Text, Texts};
use ti_hints::explain_source;
use ti_rounds::{Remedied, mend_all};
use ti_source::{RawEntry, read};
use ti_steps::Wanted;

/// A source text, and its entries together with those of the files of `--with`.
#[derive(Drop)]
struct Source {
    /// The text.
    text: Vec<u8>,
    /// How many entries it has.
    count: usize,
    /// All entries, and the files of `--with`.
    all: PutTogether,
}

/// Files with suggestions taken, the notes about them, and of these the lines about what is still wrong.
#[derive(Drop)]
struct RepairedFiles {
    files: Vec<Text>,
    notes: Vec<u8>,
    still: Vec<u8>,
}

/// The entries of a source text.
fn entries_of(alloc: Global, text: &[u8]) -> Result<Vec<RawEntry>, Failure>
    ensures reads { IfOk result (λ raws. source_of text.now ≡ Ok raws.items) }
    ensures fit { IfOk result (λ raws. AllByRecursion IsRaw raws.items) }
    ensures failure { IfErr result (λ e. IsSourceFailure text.now e) }
{
    match read(alloc, text) {
        Ok(raws) => Ok(raws),
        Err(fault) => {
            fault.kind.must_claim()?;
            Err(Failure::Refused(CommandRefusal::Source(fault)))
        }
    }
}

/// The entries of the source `text`, the file at `path`.
fn own_entries(
    alloc: Global,
    path: &str,
    text: &[u8],
    remarks: &mut Remarks,
) -> Result<Vec<RawEntry>, Failure>
    ensures reads { IfOk result (λ raws. source_of text.now ≡ Ok raws.items) }
    ensures fit { IfOk result (λ raws. AllByRecursion IsRaw raws.items) }
    ensures failure { IfErr result (λ e. IsSourceFailure text.now e) }
{
    let found = entries_of(alloc, text);
    if let Err(Failure::Refused(CommandRefusal::Source(fault))) = &found {
        explain_source(alloc, path, text, *fault, remarks);
    }
    found
}

/// Reads the source text at `path`, and the files of `--with`.
fn read_source<F: Files>(
    alloc: Global,
    files: &mut F,
    path: &str,
    remarks: &mut Remarks,
) -> Result<Source, Failure>
    ensures stands { IfOk result (λ source. spec.IsReadAt (F.holds files.old) path.now source.text.items source.count
        (together_in source.all)) }
    ensures fit { IfOk result (λ source. AllByRecursion IsRaw source.all.raws.items) }
    ensures failure { IfErr result (λ e. spec.LacksFiles (F.holds files.old) path.now e) }
    ensures kept { F.holds files.new ≡ F.holds files.old }
{
    let text = read_whole(alloc, files, path, LONGEST_FILE, remarks)?;
    let own = own_entries(alloc, path, text.as_slice(), remarks)?;
    let count = own.len();
    let all = put_together(alloc, files, own, remarks)?;
    Ok(Source { text, count, all })
}

/// The files with the suggestions for the first `count` entries taken or kept.
fn repaired_files(
    alloc: Global,
    terms: Terms,
    count: usize,
    texts: Texts,
) -> Result<RepairedFiles, AllocError>
    requires whole { texts.raws.items ≡ all_raws (sheets texts.files.items) }
    requires fit { AllByRecursion IsRaw texts.raws.items }
    requires there { count ≤ length texts.raws.items }
    ensures { IfOk result (λ done. spec.IsRepaired (sheets texts.files.items) terms count (sheets done.files.items)
        done.notes.items done.still.items) }
{
    let adviser = Suggestions { terms };
    let Remedied {
        texts,
        kept,
        is_ended,
    } = mend_all(alloc, &adviser, texts, Wanted::First(count))?;
    let raws = texts.raws.as_slice();
    let mut notes = kept_lines(alloc, true, raws, kept.as_slice(), is_ended)?;
    let still = all_still_wrong(alloc, raws, terms.size, count)?;
    notes.extend_from_slice(still.as_slice())?;
    Ok(RepairedFiles {
        files: texts.files,
        notes,
        still,
    })
}

/// Whether there are lines.
fn has_lines(lines: &[u8]) -> bool
    ensures { result ≡ spec.has_lines lines.now }
{
    match lines {
        [] => false,
        [_first, ..] => true,
    }
}

/// How the reply ends with these lines about what is still wrong: a strict one fails if there are any.
fn ending(alloc: Global, is_strict: bool, still: &[u8]) -> Option<Failure>
    ensures { spec.FailsIf (is_strict && spec.has_lines still.now) result }
{
    if is_strict && has_lines(still) {
        Some(refused(alloc, b"Faulty"))
    } else {
        None
    }
}

/// The files with all suggestions taken or left out, and how the reply with them ends.
fn ready(
    alloc: Global,
    terms: Terms,
    is_strict: bool,
    count: usize,
    texts: Texts,
) -> Result<Repaired, AllocError>
    requires whole { texts.raws.items ≡ all_raws (sheets texts.files.items) }
    requires fit { AllByRecursion IsRaw texts.raws.items }
    requires there { count ≤ length texts.raws.items }
    ensures { IfOk result (λ done. spec.IsReady (sheets texts.files.items) terms count is_strict
        (sheets done.files.items) done.notes.items done.ended) }
{
    let RepairedFiles {
        files,
        notes,
        still,
    } = repaired_files(alloc, terms, count, texts)?;
    Ok(Repaired {
        files,
        notes,
        ended: ending(alloc, is_strict, still.as_slice()),
    })
}

/// Replies with the source text at the path of the `words`, in which the strings that are suggested for the faults of
/// all its entries are taken; it goes to a path, or to standard output. With files of `--with` suggestions are taken in
/// these too, and each file in which a field was given another string goes to the folder that the words name, under its
/// own name. No entry of these files gets a fault by it, and no value of them changes but those at fault. The notes
/// have a line for each suggestion that is left out, and for each fault that an entry of the source still has.
///
/// # Errors
/// The words give no size, or the path no source text; a file of `--with` can't be read; `SeveralFiles` with files of
/// `--with` if the words name no folder; out of memory.
pub fn fix_survey<F: Files>(
    alloc: Global,
    words: &FixWords<'_>,
    files: &mut F,
    remarks: &mut Remarks,
) -> Replied
    ensures reply { IfOk result (λ reply. spec.IsFixed (F.holds files.old) (F.holds files.new) words.now reply) }
    ensures failure { IfErr result (λ e. spec.FailsToFix (F.holds files.old) words.now e) }
    ensures kept { OnErr result (F.holds files.new ≡ F.holds files.old) }
{
    let size = size_words(alloc, words.rows, words.cols, remarks)?;
    let Source { text, count, all } = read_source(alloc, files, words.path, remarks)?;
    let target = target_of(alloc, all.files.as_slice(), words.out, remarks)?;
    let texts = texts_of(alloc, words.path, text, all)?;
    let terms = Terms {
        size,
        is_standard: words.is_standard,
    };
    let repaired = ready(alloc, terms, words.is_strict, count, texts)?;
    Ok(delivered(alloc, repaired, target, files, remarks)?)
}
