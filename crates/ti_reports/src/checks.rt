//! The command `check` with reports.

ghost use Rattle.std.specs.Prelude.{◌≡◌, Bool, IfErr, IfOk, map};
ghost use Rattle.ti_reports.specs.Lacks.{is_alone};
ghost use Rattle.ti_reports.specs.Checks as spec;
ghost use Rattle.ti_reports.specs.Findings.{AreFaults};
ghost use Rattle.ti_files.specs.Sizes.{LacksSize};
ghost use Rattle.ti_sources.specs.LinedFiles.{file_text};
ghost use Rattle.ti_verdicts.specs.Locations.{place_if, source_place};

use crate::asked::Asked;
use crate::faults::{Subject, found_reports};
use crate::findings::found_faults;
use crate::forms::{Form, has_news, printed};
use crate::hints::Hinted;
use crate::lacks::lack_reply;
use std::alloc::{AllocError, Global};
use ti_caps::Entry;
use ti_checker::No;
use ti_commands::{Sourced, sourced_entry};
use ti_files::{Failure, Files, Remarks, Replied, Reply, size_words};
use ti_openings::note_left_out_names;
use ti_requests::FaultsWords;
use ti_sources::LinedFile;
use ti_verdicts::{LinedSource, SourcePlace, explain_no, no_failure, note_outside, notes_on};
use vt_term::Size;

/// The reply that a function makes, or that memory ran out.
type Answered = Result<Reply, AllocError>;

/// A check with reports that is wanted.
#[derive(Drop)]
pub struct Check<'a, P> {
    /// The words of the command.
    pub words: &'a FaultsWords<'a>,
    /// Whether all faults are reported, and not only the first one.
    pub lists_all: bool,
    /// The form of the reports.
    pub form: &'a P,
    /// The texts of those files whose lines were joined, as they were before.
    pub originals: &'a [LinedFile<'a>],
}

/// Replies with the notes on the entry that the words of `check` give and, in the check's form, with reports of its
/// faults, the first one or all of them; or with the report that it has a certificate. The reply fails as the first
/// fault does, if the form tells of one. If the words give no entry, it reports that, and fails so. Further lines go to
/// `remarks`.
pub fn check_reports<P: Form, F: Files>(
    alloc: Global,
    check: &Check<'_, P>,
    files: &mut F,
    remarks: &mut Remarks,
) -> Replied
    ensures reply { IfOk result (λ reply. spec.Replies (P.wanted check.now.form.now) (P.prints check.now.form.now)
        (map file_text check.now.originals.now) (F.holds files.old) check.now.lists_all check.now.words.now reply) }
    ensures failure { IfErr result (λ e. LacksSize check.now.words.now.rows.now check.now.words.now.cols.now e) }
    ensures kept { F.holds files.new ≡ F.holds files.old }
{
    let words = check.words;
    let size = size_words(alloc, words.rows, words.cols, remarks)?;
    let asked = Asked {
        form: check.form,
        size,
        lists_all: check.lists_all,
        originals: check.originals,
    };
    match sourced_entry(alloc, files, words.entry, remarks) {
        Ok(found) => Ok(entry_reply(alloc, &asked, words.entry, &found, remarks)?),
        Err(failure) => lack_reply(
            alloc,
            check.form,
            size,
            is_alone(files),
            words.entry,
            failure,
        ),
    }
}

/// Whether there is no file of `--with`.
fn is_alone<F: Files>(files: &F) -> bool
    ensures { result ≡ is_alone (F.holds files.now).with_paths }
{
    match files.with_paths() {
        [] => true,
        [_, ..] => false,
    }
}

/// The reply on the entry that was `found` by the ENTRY `word`, as it is `asked` for.
fn entry_reply<P: Form>(
    alloc: Global,
    asked: &Asked<'_, P>,
    word: &str,
    found: &Sourced<'_>,
    remarks: &mut Remarks,
) -> Answered
    ensures { IfOk result (λ reply. spec.ReportsEntry (P.wanted asked.now.form.now) (P.prints asked.now.form.now)
        (map file_text asked.now.originals.now) found.now.entry found.now.source asked.now.size.rows
        asked.now.size.cols asked.now.lists_all word.now reply) }
{
    let notes = notes_on(alloc, &found.entry, asked.size)?;
    let nos = found_faults(alloc, &found.entry, asked.size, asked.lists_all)?;
    let reply = found_reply(alloc, asked, word, found, notes, nos.as_slice())?;
    if !asked.lists_all {
        explain_first(alloc, &found.entry, asked.size, nos.as_slice(), remarks);
    }
    Ok(reply)
}

/// The reply with `notes` that says that `nos` are the faults of the entry that was `found` by the ENTRY `word`, as it
/// is `asked` for.
fn found_reply<'x, P: Form>(
    alloc: Global,
    asked: &'x Asked<'x, P>,
    word: &'x str,
    found: &'x Sourced<'x>,
    notes: Vec<u8>,
    nos: &[No],
) -> Answered
    requires { AreFaults asked.now.lists_all found.now.entry asked.now.size.rows asked.now.size.cols nos.now }
    ensures noted { IfOk result (λ reply. reply.notes ≡ notes) }
    ensures told { IfOk result (λ reply. spec.TellsFound (P.wanted asked.now.form.now) (P.prints asked.now.form.now)
        found.now.entry asked.now.size.rows asked.now.size.cols asked.now.lists_all
        (spec.file_of found.now.source word.now) (map file_text asked.now.originals.now)
        (source_place found.now.source) nos.now reply) }
{
    match &found.source {
        None => {
            let named = Named {
                entry: &found.entry,
                file: word,
            };
            placed_reply(alloc, asked, named, &None, notes, nos)
        }
        Some(source) => {
            let named = Named {
                entry: &found.entry,
                file: source.path,
            };
            let lined = LinedSource::new(alloc, source)?;
            placed_reply(alloc, asked, named, &lined.stands(), notes, nos)
        }
    }
}

/// An entry, and the path of its file.
#[derive(Clone, Copy)]
struct Named<'x> {
    entry: &'x Entry,
    file: &'x str,
}

/// The reply with `notes` that says that `nos` are the faults of the entry that is `named`, at the place `stands`, as
/// it is `asked` for.
fn placed_reply<'x, 'y, P: Form>(
    alloc: Global,
    asked: &'x Asked<'x, P>,
    named: Named<'x>,
    stands: &'x Option<SourcePlace<'x, 'y>>,
    notes: Vec<u8>,
    nos: &[No],
) -> Answered
    requires { AreFaults asked.now.lists_all named.entry.now asked.now.size.rows asked.now.size.cols nos.now }
    ensures noted { IfOk result (λ reply. reply.notes ≡ notes) }
    ensures told { IfOk result (λ reply. spec.TellsFound (P.wanted asked.now.form.now) (P.prints asked.now.form.now)
        named.entry.entry.now asked.now.size.rows asked.now.size.cols asked.now.lists_all named.entry.file.now
        (map file_text asked.now.originals.now) (place_if stands.now) nos.now reply) }
{
    let subject = asked.subject(named.entry, named.file, stands, Hinted::WithUsed);
    reply_of(alloc, asked.form, &subject, notes, nos)
}

/// The reply with `notes` that says in this `form` that `nos` are the faults of the `subject`, with hints about the
/// entries that it uses.
fn reply_of<P: Form>(
    alloc: Global,
    form: &P,
    subject: &Subject<'_, '_>,
    notes: Vec<u8>,
    nos: &[No],
) -> Answered
    requires faults { AreFaults subject.now.lists_all subject.now.entry.now subject.now.size.rows subject.now.size.cols
        nos.now }
    requires hinted { subject.now.hinted ≡ Hinted.WithUsed }
    ensures noted { IfOk result (λ reply. reply.notes ≡ notes) }
    ensures told { IfOk result (λ reply. spec.TellsFound (P.wanted form.now) (P.prints form.now) subject.now.entry.now
        subject.now.size.rows subject.now.size.cols subject.now.lists_all subject.now.file.now
        (map file_text subject.now.originals.now) (place_if subject.now.stands.now) nos.now reply) }
{
    let reports = found_reports(alloc, subject, nos)?;
    let has_news = has_news(form, reports.as_slice());
    Ok(Reply {
        notes,
        text: printed(alloc, form, reports.as_slice())?,
        failure: failure_of(alloc, has_news, nos),
    })
}

/// The failure of the first of the faults `nos`, if there is one and the form tells of one.
fn failure_of(alloc: Global, has_news: bool, nos: &[No]) -> Option<Failure>
    ensures { spec.EndsAsFirst has_news nos.now result }
{
    match nos {
        [first, ..] if has_news => Some(no_failure(alloc, first)),
        [] | [_, ..] => None,
    }
}

/// Adds to `remarks` the explanation of the first of `nos`, and what a session goes without.
fn explain_first(alloc: Global, entry: &Entry, size: Size, nos: &[No], remarks: &mut Remarks) {
    if let [first, ..] = nos {
        explain_no(alloc, entry, size, first, remarks);
        note_outside(alloc, entry, size, remarks);
        note_left_out_names(alloc, entry, size, remarks);
    }
}
