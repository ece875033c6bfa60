//! The command `check --fix`.

ghost use Rattle.std.specs.{Prelude.{◌≡◌, ◌<◌, ℕ, Some, IfErr, IfOk, OnErr, length}};
ghost use Rattle.std.specs.List.{AllByRecursion};
ghost use Rattle.ti_caps.specs.Entry.{Content};
ghost use Rattle.ti_fixes.specs.Files.{all_raws, sheets};
ghost use Rattle.ti_repairs.specs.Entries as spec;
ghost use Rattle.ti_resolve.specs.Uses.{place_named};
ghost use Rattle.ti_source.specs.Raw.{IsRaw};

use crate::delivery::{Repaired, delivered, refused, target_of};
use crate::notes::kept_lines;
use crate::still_wrong::{StillWrong, still_wrong, wrong_lines};
use crate::suggestions::Suggestions;
use crate::texts::texts_of;
use crate::weights::Terms;
use std::alloc::{AllocError, Global};
use ti_checker::No;
use ti_commands::{PutTogether, SourceText, Sourced, sourced_entry};
use ti_files::{Failure, Files, Remarks, Replied, size_words};
use ti_fixes::{Text, Texts};
use ti_requests::CheckWords;
use ti_rounds::{Remedied, mend_all};
use ti_source::RawEntry;
use ti_sources::place_named;
use ti_steps::Wanted;
use ti_verdicts::no_failure;

/// Files with suggestions for one entry taken, the notes about them, and what is still wrong with the entry.
#[derive(Drop)]
struct RepairedEntry {
    files: Vec<Text>,
    notes: Vec<u8>,
    wrong: StillWrong,
}

/// How the reply ends if these faults are left.
fn fault_ending(alloc: Global, nos: &[No]) -> Option<Failure>
    ensures { spec.EndsAsFaults nos.now result }
{
    match nos {
        [] => None,
        [first, ..] => Some(no_failure(alloc, first)),
    }
}

/// How the reply ends if this is still `wrong` with the entry.
fn ending(alloc: Global, wrong: StillWrong) -> Option<Failure>
    ensures { spec.EndsAsWrong wrong result }
{
    match wrong {
        Ok(nos) => fault_ending(alloc, nos.as_slice()),
        Err(refusal) => Some(Failure::Refused(refusal)),
    }
}

/// The place of the first entry with this `name`; there must be one.
fn root_of(raws: &[RawEntry], name: &[u8]) -> usize
    requires { (root : ℕ) × (place_named raws.now name.now ≡ Some root) }
    ensures place { place_named raws.now name.now ≡ Some result }
    ensures range { result < length raws.now }
{
    match place_named(raws, name) {
        Some(root) => root,
        None => 0,
    }
}

/// The files in which the suggestions for the faults of the entry at `root` are taken or kept.
fn repaired_at(
    alloc: Global,
    terms: Terms,
    root: usize,
    texts: Texts,
) -> Result<RepairedEntry, AllocError>
    requires whole { texts.raws.items ≡ all_raws (sheets texts.files.items) }
    requires fit { AllByRecursion IsRaw texts.raws.items }
    requires there { root < length texts.raws.items }
    ensures { IfOk result (λ done. spec.IsRepairedEntry (sheets texts.files.items) terms root
        (sheets done.files.items) done.notes.items done.wrong) }
{
    let adviser = Suggestions { terms };
    let Remedied {
        texts,
        kept,
        is_ended,
    } = mend_all(alloc, &adviser, texts, Wanted::Only(root))?;
    let raws = texts.raws.as_slice();
    let wrong = still_wrong(alloc, raws, terms.size, root)?;
    let mut notes = kept_lines(alloc, false, raws, kept.as_slice(), is_ended)?;
    let lines = wrong_lines(alloc, &[], &wrong)?;
    notes.extend_from_slice(lines.as_slice())?;
    Ok(RepairedEntry {
        files: texts.files,
        notes,
        wrong,
    })
}

/// The files of `source` in which the suggestions for all faults of its entry are taken or left out.
fn repaired_source(
    alloc: Global,
    terms: Terms,
    source: SourceText<'_>,
) -> Result<RepairedEntry, AllocError>
    requires { (entry : Content) × spec.StandsTogether source entry }
    ensures { IfOk result (λ done. spec.IsRepairedSource source.entry terms (sheets done.files.items)
        done.notes.items done.wrong) }
{
    let SourceText {
        path,
        name,
        text,
        raws,
        further,
        counts,
    } = source;
    let root = root_of(raws.as_slice(), name.as_bytes());
    let all = PutTogether {
        raws,
        files: further,
        counts,
    };
    let texts = texts_of(alloc, path, text, all)?;
    repaired_at(alloc, terms, root, texts)
}

/// The files of `source`, and how the reply with them ends.
fn ready(alloc: Global, terms: Terms, source: SourceText<'_>) -> Result<Repaired, AllocError>
    requires { (entry : Content) × spec.StandsTogether source entry }
    ensures { IfOk result (λ done. spec.IsReady source.entry terms (sheets done.files.items)
        done.notes.items done.ended) }
{
    let RepairedEntry {
        files,
        notes,
        wrong,
    } = repaired_source(alloc, terms, source)?;
    Ok(Repaired {
        files,
        notes,
        ended: ending(alloc, wrong),
    })
}

/// Replies with the source text that the `words` name, in which the suggestions for all faults of the entry are taken;
/// it goes to a path, or to standard output. With files of `--with` suggestions are taken in these too, and each file
/// in which a field was given another string goes to the folder that the words name, under its own name. No entry of
/// these files gets a fault by it, and no value of them changes but those at fault. The notes have a line for each
/// suggestion that is left out and for each fault that the entry still has, and the reply fails with the first of these
/// faults. If `is_standard`, strings are also suggested for faults of which T can't tell whether they are some.
///
/// # Errors
/// The words give no size or no entry; `NoSource` for the entry of a compiled file; `SeveralFiles` with files of
/// `--with` if the words name no folder; out of memory.
pub fn fix_entry<F: Files>(
    alloc: Global,
    words: &CheckWords<'_>,
    is_standard: bool,
    files: &mut F,
    remarks: &mut Remarks,
) -> Replied
    ensures reply { IfOk result
        (λ reply. spec.IsFixed (F.holds files.old) (F.holds files.new) words.now is_standard reply) }
    ensures failure { IfErr result (λ e. spec.FailsToFix (F.holds files.old) words.now e) }
    ensures kept { OnErr result (F.holds files.new ≡ F.holds files.old) }
{
    let size = size_words(alloc, words.rows, words.cols, remarks)?;
    let Sourced {
        entry: _entry,
        source,
    } = sourced_entry(alloc, files, words.entry, remarks)?;
    let Some(source) = source else {
        remarks.add_words(b"--fix mends the text of a source file: name the entry as FILE:NAME");
        return Err(refused(alloc, b"NoSource"));
    };
    let target = target_of(alloc, source.further.as_slice(), words.out, remarks)?;
    let terms = Terms { size, is_standard };
    let repaired = ready(alloc, terms, source)?;
    Ok(delivered(alloc, repaired, target, files, remarks)?)
}
