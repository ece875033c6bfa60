//! The command `survey` with reports.

ghost use Rattle.std.specs.Prelude.{◌≡◌, IfErr, IfOk, map};
ghost use Rattle.ti_sources.specs.LinedFiles.{file_text};
ghost use Rattle.ti_surveys.specs.{Together.{FailsToSurvey}, Heard.{Hears}};
ghost use Rattle.ti_reports.specs.Surveys as spec;

use crate::asked::Asked;
use crate::forms::Form;
use std::alloc::Global;
use ti_files::{Files, Remarks, Replied, Reply, size_words};
use ti_requests::SurveyWords;
use ti_sources::LinedFile;
use ti_surveys::{Said, Surveyed, Watcher, places_lines, strict_failure, survey_paths};

/// A survey with reports that is wanted.
#[derive(Drop)]
pub struct SurveyReports<'a, P> {
    /// The words of the command.
    pub words: &'a SurveyWords<'a>,
    /// The form of the reports.
    pub form: &'a P,
    /// The texts of those files whose lines were joined, as they were before.
    pub originals: &'a [LinedFile<'a>],
}

/// Reports on each entry of each file that the words of `survey` name, in the survey's form: its first fault, or all of
/// them if the words ask for that, or that it has a certificate. An entry that can't be read has its line too. The
/// `watcher` passes on the lines of each entry once they are known, and sees how far the survey has come; the reply has
/// no text. A file that can't be read has a line too; the reply then fails as the first such file does, the `remarks`
/// name the further ones, and the others are surveyed all the same. Else it is refused if the words ask for that and a
/// verdict of which the form tells isn't yes.
///
/// # Errors
/// The reason why the words give no size, before any line is known; out of memory, after the `watcher` has passed on
/// the lines of the entries before.
pub fn survey_reports<P: Form, F: Files, W: Watcher>(
    alloc: Global,
    survey: &SurveyReports<'_, P>,
    files: &mut F,
    watcher: &mut W,
    remarks: &mut Remarks,
) -> Replied
    ensures reply { IfOk result (λ reply. spec.AreSurveyed (P.wanted survey.now.form.now) (P.prints survey.now.form.now)
        (map file_text survey.now.originals.now)
        (F.holds files.old) survey.now.words.now remarks.new (Hears W.heard W.has_failed watcher.old watcher.new)
        reply) }
    ensures failure { IfErr result (λ e. FailsToSurvey (F.holds files.old) survey.now.words.now.rows.now
        survey.now.words.now.cols.now e) }
    ensures kept { F.holds files.new ≡ F.holds files.old }
{
    let size = size_words(alloc, survey.words.rows, survey.words.cols, remarks)?;
    let asked = Asked {
        form: survey.form,
        size,
        lists_all: survey.words.lists_all,
        originals: survey.originals,
    };
    let paths = survey.words.paths.as_slice();
    let Surveyed { said, failure } = survey_paths(alloc, &asked, paths, files, watcher, remarks)?;
    let Said {
        lines: _lines,
        places,
        answers,
        grades: _grades,
        opened: _opened,
    } = said;
    let notes = places_lines(alloc, places.as_slice())?;
    let failure = strict_failure(alloc, survey.words.is_strict, answers.as_slice(), failure)?;
    Ok(Reply {
        notes,
        text: Vec::new(alloc),
        failure,
    })
}
