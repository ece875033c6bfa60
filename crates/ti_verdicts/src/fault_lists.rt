//! The command `check --all`.

ghost use Rattle.std.specs.Prelude.{◌≡◌, IfErr, IfOk, map};
ghost use Rattle.ti_verdicts.specs.{Checks.{FailsForEntry}, Parts.{HasParts}};
ghost use Rattle.ti_verdicts.specs.FaultLists as spec;
ghost use Rattle.ti_verdicts.specs.Locations.{place_if, source_place};
ghost use Rattle.ti_sources.specs.LinedFiles.{file_text};

use crate::answers::{answers_line, fault_answers};
use crate::checks::notes_on;
use crate::faulty_parts::Judged;
use crate::indents::indented;
use crate::locations::location;
use crate::outside::note_all_outside;
use crate::reasons::explain_no;
use crate::refusals::{no_failure, no_words};
use crate::remedies::{Faulty, note_another_kind, note_left_out, suggestion_lines};
use crate::source_places::{LinedSource, SourcePlace};
use crate::written::Lines;
use std::alloc::{AllocError, Global};
use ti_caps::Entry;
use ti_checker::No;
use ti_commands::{Sourced, sourced_entry};
use ti_faults::{Mended, faults};
use ti_files::{Files, Remarks, Replied, Reply, size_words};
use ti_grades::{Grade, grade_of};
use ti_hints::{advise, advise_unchecked};
use ti_openings::note_names_beside;
use ti_requests::FaultsWords;
use ti_sources::LinedFile;
use vt_term::Size;

/// Replies with the notes on the entry that the `words` give, and with all its faults, each with its place, the field
/// there and its explanation, and with their number; or with `yes` if there is none. The reply fails as the first of
/// the faults does. The `originals` are the texts of those files whose lines were joined, as they were before.
/// Further lines go to `remarks`: that the entry seems to be for a terminal of another kind, that a fault may go once
/// others are mended, what a session goes without, advice on an entry without a fault, and advice on strings that
/// aren't checked, with their number.
pub fn check_all<F: Files>(
    alloc: Global,
    words: &FaultsWords<'_>,
    originals: &[LinedFile<'_>],
    files: &mut F,
    remarks: &mut Remarks,
) -> Replied
    ensures reply { IfOk result (λ reply. spec.ListsFaults (map file_text originals.now)
        (F.holds files.old) words.now reply) }
    ensures failure { IfErr result (λ e. FailsForEntry (F.holds files.old) words.now.rows.now words.now.cols.now
        words.now.entry.now e) }
    ensures kept { F.holds files.new ≡ F.holds files.old }
{
    let size = size_words(alloc, words.rows, words.cols, remarks)?;
    let found = sourced_entry(alloc, files, words.entry, remarks)?;
    let notes = notes_on(alloc, &found.entry, size)?;
    let nos = faults(alloc, &found.entry, size)?;
    let asked = Asked {
        found: &found,
        size,
        originals,
    };
    let reply = reply_of(alloc, &asked, notes, nos.as_slice())?;
    note_another_kind(nos.as_slice(), remarks);
    note_left_out(nos.as_slice(), remarks);
    note_all_outside(alloc, &found.entry, size, nos.as_slice(), remarks);
    if nos.is_empty() {
        advise(alloc, &found.entry, size, remarks);
    } else {
        note_names_beside(alloc, &found.entry, size, nos.as_slice(), remarks);
    }
    advise_unchecked(alloc, &found.entry, remarks);
    Ok(reply)
}

/// The entry whose faults are listed, for a size, and the texts of those files whose lines were joined.
#[derive(Drop)]
struct Asked<'x> {
    found: &'x Sourced<'x>,
    size: Size,
    originals: &'x [LinedFile<'x>],
}

/// The reply with `notes` that says of the entry that is `asked` about that `nos` are its faults.
fn reply_of(
    alloc: Global,
    asked: &Asked<'_>,
    notes: Vec<u8>,
    nos: &[No],
) -> Result<Reply, AllocError>
    ensures noted { IfOk result (λ reply. reply.notes ≡ notes) }
    ensures told { IfOk result (λ reply. spec.TellsFaults (map file_text asked.now.originals.now)
        asked.now.found.now.entry (source_place asked.now.found.now.source) asked.now.size.rows asked.now.size.cols
        nos.now reply) }
{
    match nos {
        [] => Ok(Reply {
            notes,
            text: Vec::from_slice(alloc, b"yes\n")?,
            failure: None,
        }),
        [first, ..] => {
            let mended = Mended::new(alloc, &asked.found.entry, asked.size, nos)?;
            Ok(Reply {
                notes,
                text: faults_text(alloc, asked, &mended, nos)?,
                failure: Some(no_failure(alloc, first)),
            })
        }
    }
}

/// The lines of the faults `nos` of the entry that is `asked` about, which is `mended`, and then their counts.
fn faults_text(alloc: Global, asked: &Asked<'_>, mended: &Mended, nos: &[No]) -> Lines
    ensures { IfOk result (λ text. spec.IsFaultsText (map file_text asked.now.originals.now) asked.now.found.now.entry
        (source_place asked.now.found.now.source) mended.now nos.now text.items) }
{
    match &asked.found.source {
        None => located_text(alloc, &asked.located(None), mended, nos),
        Some(source) => {
            let lined = LinedSource::new(alloc, source)?;
            located_text(alloc, &asked.located(lined.stands()), mended, nos)
        }
    }
}

impl<'x> Asked<'x> {
    ghost use Rattle.std.specs.Prelude.{◌≡◌};

    /// The entry, at the place `stands`.
    fn located<'a>(&self, stands: Option<SourcePlace<'a, 'x>>) -> Located<'a, 'x>
        ensures entry { result.entry.now ≡ self.now.found.now.entry }
        ensures stands { result.stands ≡ stands.entry }
        ensures originals { result.originals.now ≡ self.now.originals.now }
    {
        Located {
            entry: &self.found.entry,
            stands,
            size: self.size,
            originals: self.originals,
        }
    }
}

/// An entry with its place, if it is in a source; the size that it is for, and the texts of those files whose lines
/// were joined.
#[derive(Drop)]
struct Located<'a, 'b> {
    entry: &'b Entry,
    stands: Option<SourcePlace<'a, 'b>>,
    size: Size,
    originals: &'b [LinedFile<'b>],
}

/// The lines of the faults `nos` of the entry `found`, which is `mended`, and then their counts.
fn located_text(alloc: Global, found: &Located<'_, '_>, mended: &Mended, nos: &[No]) -> Lines
    ensures { IfOk result (λ text. spec.IsFaultsText (map file_text found.now.originals.now) found.now.entry.now
        (place_if found.now.stands) mended.now nos.now text.items) }
{
    let mut text = fault_lines(alloc, found, mended, nos)?;
    let counts = counts_line(alloc, nos)?;
    text.extend_from_slice(counts.as_slice())?;
    Ok(text)
}

/// The line of counts of the faults `nos`: the number of all, and of each cause that occurs.
fn counts_line(alloc: Global, nos: &[No]) -> Lines
    ensures { IfOk result (λ line. line.items ≡ spec.counts_line nos.now) }
{
    let answers = fault_answers(alloc, nos)?;
    answers_line(alloc, answers.as_slice())
}

/// The lines of the faults `nos` of the entry `found`, which is `mended`, one after another.
fn fault_lines(alloc: Global, found: &Located<'_, '_>, mended: &Mended, nos: &[No]) -> Lines
    ensures { IfOk result (λ lines. HasParts (spec.HasFaultLines (map file_text found.now.originals.now)
        found.now.entry.now (place_if found.now.stands) mended.now nos.now) nos.now lines.items) }
{
    let mut lines = Vec::new(alloc);
    for no in nos {
        lines.extend_from_slice(own_lines(alloc, found, mended, no, nos)?.as_slice())?;
    }
    Ok(lines)
}

/// The line of `no`, one of the faults `nos` of the entry `found`, which is `mended`; then the place of its value in
/// the source, the field there, its explanation, and the strings that would be right.
fn own_lines(alloc: Global, found: &Located<'_, '_>, mended: &Mended, no: &No, nos: &[No]) -> Lines
    ensures { IfOk result (λ lines. spec.HasFaultLines (map file_text found.now.originals.now) found.now.entry.now
        (place_if found.now.stands) mended.now nos.now no.now lines.items) }
{
    let mut lines = no_words(alloc, no)?;
    lines.push(b'\n')?;
    let fault = Judged {
        no,
        size: found.size,
    };
    let place = location(alloc, &found.stands, found.originals, &fault)?;
    lines.extend_from_slice(place.as_slice())?;
    let further = explanation(alloc, found, no, nos.len() == 1)?;
    lines.extend_from_slice(further.as_slice())?;
    let faulty = Faulty {
        entry: found.entry,
        nos,
        mended,
    };
    let remedies = suggestion_lines(alloc, &faulty, no.cap)?;
    lines.extend_from_slice(remedies.as_slice())?;
    Ok(lines)
}

/// The line with the grade of `no`, a fault of the entry `found` and perhaps its only one, and those that explain it.
fn explanation(alloc: Global, found: &Located<'_, '_>, no: &No, alone: bool) -> Lines
    ensures { IfOk result (λ lines. spec.AreIndented lines.items) }
{
    let grade = grade_of(alloc, found.entry, found.size, no, alone)?;
    let mut remarks = Remarks::new(alloc);
    remarks.add_words(grade_words(alloc, grade)?.as_slice());
    explain_no(alloc, found.entry, found.size, no, &mut remarks);
    indented(alloc, remarks.lines())
}

/// The words of a line with this `grade`.
fn grade_words(alloc: Global, grade: Grade) -> Lines {
    let mut words = Vec::from_slice(alloc, b"grade: ")?;
    words.extend_from_slice(grade.name().as_bytes())?;
    Ok(words)
}
