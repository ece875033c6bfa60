//! The reports on the entries of a file.

ghost use Rattle.std.specs.Prelude.{◌≡◌, [], ◌∷◌, Bool, Option, List, IfOk, map, option_map};
ghost use Rattle.ti_checker.specs.declared.causes.No.{No};
ghost use Rattle.ti_reports.specs.Surveys as spec;
ghost use Rattle.ti_sources.specs.LinedFiles.{file_text};
ghost use Rattle.ti_surveys.specs.Told.{told_of};
ghost use Rattle.ti_verdicts.specs.Locations.{place_if};

use crate::asked::Asked;
use crate::faults::found_reports;
use crate::findings::found_faults;
use crate::forms::{Form, has_news, is_news, printed};
use crate::hints::Hinted;
use crate::refusals::{lacking_report, unread_report};
use crate::reports::Report;
use std::alloc::{AllocError, Global};
use ti_checker::No;
use ti_surveys::{EntryKind, FileEntry, Lacking, Said, Speaker, answers_of, kind_of};
use ti_verdicts::Answer;

impl<P: Form> Speaker for Asked<'_, P> {
    ghost says = { λ asked. spec.Reports (P.wanted asked.form.now) (P.prints asked.form.now) asked.size.rows
        asked.size.cols asked.lists_all (map file_text asked.originals.now) };

    ghost refuses = { λ asked. spec.ReportsLack (P.wanted asked.form.now) (P.prints asked.form.now) asked.size.rows
        asked.size.cols };

    ghost leaves = { λ asked. spec.ReportsUnread (P.wanted asked.form.now) (P.prints asked.form.now) asked.size.rows
        asked.size.cols };

    fn hints(&self) -> bool {
        self.lists_all
    }

    fn say(&self, alloc: Global, found: &FileEntry<'_, '_>) -> Result<Said, AllocError> {
        entry_said(alloc, self, found)
    }

    fn refuse(&self, alloc: Global, lacking: &Lacking<'_, '_>) -> Result<Said, AllocError> {
        let report = lacking_report(alloc, self.size, lacking)?;
        refused_said(alloc, self.form, &report)
    }

    fn leave(&self, alloc: Global, path: &str) -> Result<Said, AllocError> {
        let report = unread_report(alloc, self.size, path)?;
        refused_said(alloc, self.form, &report)
    }
}

/// The reports on the entry that was `found`, as they are `asked` for, and their answers.
fn entry_said<'x, 'y, P: Form>(
    alloc: Global,
    asked: &'x Asked<'x, P>,
    found: &'x FileEntry<'x, 'y>,
) -> Result<Said, AllocError>
    ensures { IfOk result (λ said. spec.Reports (P.wanted asked.now.form.now) (P.prints asked.now.form.now)
        asked.now.size.rows asked.now.size.cols asked.now.lists_all (map file_text asked.now.originals.now)
        found.now.path.now (place_if found.now.stands.now) found.now.name.now found.now.entry.now (told_of said)) }
{
    let nos = found_faults(alloc, found.entry, asked.size, asked.lists_all)?;
    let hinted = hinted_in(asked.lists_all);
    let subject = asked.subject(found.entry, found.path, found.stands, hinted);
    let reports = found_reports(alloc, &subject, nos.as_slice())?;
    let kind = kind_of(asked.lists_all, found.entry, nos.as_slice());
    let has_news = has_news(asked.form, reports.as_slice());
    Ok(Said {
        lines: printed(alloc, asked.form, reports.as_slice())?,
        places: Vec::new(alloc),
        answers: answers_if(alloc, has_news, kind, nos.as_slice())?,
        grades: Vec::new(alloc),
        opened: Vec::new(alloc),
    })
}

/// The fields about which a survey gives hints: those of each entry, if all faults are reported.
fn hinted_in(lists_all: bool) -> Hinted
    ensures { result ≡ spec.hinted_in lists_all }
{
    if lists_all {
        Hinted::Own
    } else {
        Hinted::Unhinted
    }
}

/// The answers about an entry of this `kind` with the faults `nos`, if the form tells of one of them; else yes.
fn answers_if(
    alloc: Global,
    has_news: bool,
    kind: EntryKind,
    nos: &[No],
) -> Result<Vec<Answer>, AllocError>
    ensures { IfOk result (λ answers. answers.items ≡ spec.answers_if has_news kind nos.now) }
{
    if has_news {
        answers_of(alloc, kind, nos)
    } else {
        Ok(vec![in alloc; Answer::Yes]?)
    }
}

/// The `report` that something can't be obtained, in its `form`, and its answer.
fn refused_said<P: Form>(alloc: Global, form: &P, report: &Report) -> Result<Said, AllocError>
    ensures { IfOk result (λ said. spec.TellsOne (P.wanted form.now) (P.prints form.now) report.now (told_of said)) }
{
    let text = form.print(alloc, report)?;
    Said::of_line(alloc, text, answer_if(is_news(form, report)))
}

/// The answer about what can't be obtained, if the form tells of it; else yes.
fn answer_if(is_news: bool) -> Answer
    ensures { result ≡ spec.answer_if is_news }
{
    if is_news {
        Answer::Refused
    } else {
        Answer::Yes
    }
}
