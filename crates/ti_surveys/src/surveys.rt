//! The command `survey`, and the common part of all surveys.

ghost use Rattle.std.specs.Prelude.{◌≡◌, ◌++◌, ◌⊎◌, IfErr, IfOk, OnOk, map};
ghost use Rattle.ti_files.specs.Words.{texts_of};
ghost use Rattle.ti_sources.specs.LinedFiles.{file_text};
ghost use Rattle.ti_surveys.specs.{Heard.{Hears}, Lines.{AreLines}};
ghost use Rattle.ti_surveys.specs.Surveys as spec;
ghost use Rattle.ti_surveys.specs.Together.{FailsApartly, FailsBeside, FailsToSurvey};
ghost use Rattle.ti_surveys.specs.Told.{IsEither, IsToldOrLeft, followed_by, left_if, told_of};

use crate::asked::Asked;
use crate::files::{Surveying, file_lines};
use crate::grades::notes_text;
use crate::openings::Opened;
use crate::said::Said;
use crate::speakers::Speaker;
use crate::strict::strict_failure;
use crate::unread::named;
use crate::watchers::{Watcher, pass_on};
use std::alloc::{AllocError, Global};
use ti_commands::further_files;
use ti_files::{Failure, Files, LONGEST_FILE, Remarks, Replied, Reply, read_whole, size_words};
use ti_requests::SurveyWords;
use ti_sources::LinedFile;
use ti_verdicts::{Certifier, answers_line};

/// The result of a survey of some paths.
#[derive(Drop)]
pub struct Surveyed {
    /// The statements about the paths.
    pub said: Said,
    /// The failure of the first path that can't be read, if there is one.
    pub failure: Option<Failure>,
}

/// A survey that is wanted.
#[derive(Drop)]
pub struct Survey<'a, C> {
    /// The certifier, which answers about an entry unless all faults are listed.
    pub certifier: &'a C,
    /// The words of the command.
    pub words: &'a SurveyWords<'a>,
    /// The texts of those files whose lines were joined, as they were before.
    pub originals: &'a [LinedFile<'a>],
}

/// Surveys the files that the words of `survey` name. The `watcher` passes on the line of each entry once it is
/// known, which says whether the certifier writes a certificate, or why not; or the lines of all faults of the entry,
/// if the words ask for them. Then an entry that is only there to be used is counted apart, and named if the words
/// ask for that; and an entry for a terminal of another kind has one line. An entry that can't be read has its line
/// too. The reply's text is the last line, which counts the answers. For each listed fault of a source's entry, the
/// reply's notes give the place of its value, the field there, its grade, and the names of all entries that have it;
/// then how many faults have which grade, and on how many entries a session opens. If files can't be read, the reply
/// has the failure of the first such file, the `remarks` name the further ones, and the others are surveyed all the
/// same; else it is refused if the words ask for that and a line doesn't say yes. The `watcher` also receives reports
/// of how far the survey has come.
///
/// # Errors
/// The reason why the words give no size, or a file of `--with` that can't be read, before any line is known; a file of
/// `--with` that hides all its entries; out of memory, after the `watcher` has passed on the lines of the entries
/// before.
pub fn survey_files<C: Certifier, F: Files, W: Watcher>(
    alloc: Global,
    survey: &Survey<'_, C>,
    files: &mut F,
    watcher: &mut W,
    remarks: &mut Remarks,
) -> Replied
    ensures reply { IfOk result (λ reply. spec.IsSurveyed (map file_text survey.now.originals.now)
        (C.certifies survey.now.certifier.now) (C.refuses survey.now.certifier.now)
        (F.holds files.old) survey.now.words.now remarks.new
        (Hears W.heard W.has_failed watcher.old watcher.new) reply) }
    ensures failure { IfErr result (λ e. FailsToSurvey (F.holds files.old) survey.now.words.now.rows.now
        survey.now.words.now.cols.now e) }
    ensures kept { F.holds files.new ≡ F.holds files.old }
{
    let words = survey.words;
    let size = size_words(alloc, words.rows, words.cols, remarks)?;
    let asked = Asked {
        certifier: survey.certifier,
        size,
        lists_all: words.lists_all,
        names_parts: words.names_parts,
        originals: survey.originals,
    };
    let paths = words.paths.as_slice();
    let surveyed = survey_paths(alloc, &asked, paths, files, watcher, remarks)?;
    let Said {
        lines: _lines,
        places,
        answers,
        grades,
        opened,
    } = surveyed.said;
    let opened = Opened {
        is_counted: words.lists_all,
        entries: opened.as_slice(),
    };
    let notes = notes_text(alloc, places.as_slice(), grades.as_slice(), opened)?;
    let text = answers_line(alloc, answers.as_slice())?;
    let failure = strict_failure(alloc, words.is_strict, answers.as_slice(), surveyed.failure)?;
    Ok(Reply {
        notes,
        text,
        failure,
    })
}

/// The statements of the `speaker` about each entry of each file of `paths`, or about a file that can't be read, one
/// after another. If files can't be read, the failure is that of the first one, and the last `remarks` name the further
/// ones. The `watcher` passes on the lines of each entry once they are known, and receives reports of how far the
/// survey has come.
///
/// # Errors
/// A file of `--with` that can't be read or hides all its entries; out of memory. The `watcher` has then passed on the
/// lines of the entries before.
pub fn survey_paths<S: Speaker, F: Files, W: Watcher>(
    alloc: Global,
    speaker: &S,
    paths: &[&str],
    files: &mut F,
    watcher: &mut W,
    remarks: &mut Remarks,
) -> Result<Surveyed, Failure>
    ensures told { IfOk result (λ surveyed. spec.EndsPaths (AreLines (S.says speaker.now) (S.refuses speaker.now))
        (S.leaves speaker.now) (F.holds files.old) (texts_of paths.now) (told_of surveyed.said) surveyed.failure
        remarks.new) }
    ensures heard { IfOk result (λ surveyed. Hears W.heard W.has_failed watcher.old watcher.new
        surveyed.said.lines.items) }
    ensures failure { IfErr result (λ e. FailsBeside (F.holds files.old) e) }
    ensures kept { F.holds files.new ≡ F.holds files.old }
{
    let further = further_files(alloc, files, remarks)?;
    let survey = Surveying {
        speaker,
        further: further.as_slice(),
    };
    let parted = paths_said(alloc, &survey, paths, files, watcher, remarks);
    watcher.ends();
    let Parted { said, unread } = parted?;
    let failure = named(alloc, unread.as_slice(), remarks)?;
    Ok(Surveyed { said, failure })
}

/// The statements about some paths, and the paths that can't be read.
#[derive(Drop)]
struct Parted<'a> {
    said: Said,
    unread: Vec<&'a str>,
}

impl<'a> Parted<'a> {
    /// Adds `path` with its `own` statements.
    fn add(&mut self, path: &'a str, own: Own) -> Result<(), AllocError>
        ensures told { OnOk result (told_of self.new.said
            ≡ followed_by (told_of self.old.said) (told_of own.said)) }
        ensures unread { OnOk result (texts_of self.new.unread.items
            ≡ texts_of self.old.unread.items ++ left_if own.is_left path.now) }
    {
        let Own { said, is_left } = own;
        self.said.add(said)?;
        if is_left {
            self.unread.push(path)?;
        }
        Ok(())
    }
}

/// The statements about a path.
#[derive(Drop)]
struct Own {
    said: Said,
    /// Whether it can't be read.
    is_left: bool,
}

/// The statements of the survey's speaker about all `paths`, whose lines the `watcher` hears.
fn paths_said<'a, S: Speaker, F: Files, W: Watcher>(
    alloc: Global,
    survey: &Surveying<'_, S>,
    paths: &[&'a str],
    files: &mut F,
    watcher: &mut W,
    remarks: &mut Remarks,
) -> Result<Parted<'a>, Failure>
    ensures told { IfOk result (λ parted. IsToldOrLeft
        (spec.HasLines (AreLines (S.says survey.now.speaker.now) (S.refuses survey.now.speaker.now)
        survey.now.further.now) (F.holds files.old)) (S.leaves survey.now.speaker.now) (texts_of paths.now)
        (told_of parted.said) (texts_of parted.unread.items)) }
    ensures heard { IfOk result (λ parted. Hears W.heard W.has_failed watcher.old watcher.new
        parted.said.lines.items) }
    ensures failure { IfErr result (λ e. FailsApartly survey.now.further.now e ⊎ (e ≡ Failure.NoMemory)) }
    ensures kept { F.holds files.new ≡ F.holds files.old }
{
    let mut parted = Parted {
        said: Said::new(alloc),
        unread: Vec::new(alloc),
    };
    for (done, path) in paths.iter().enumerate() {
        watcher.begins(done, paths.len(), path.as_bytes());
        let own = path_said(alloc, survey, path, files, watcher, remarks)?;
        parted.add(*path, own)?;
    }
    Ok(parted)
}

/// The statements of the survey's speaker about `path`, whose lines the `watcher` hears.
fn path_said<S: Speaker, F: Files, W: Watcher>(
    alloc: Global,
    survey: &Surveying<'_, S>,
    path: &str,
    files: &mut F,
    watcher: &mut W,
    remarks: &mut Remarks,
) -> Result<Own, Failure>
    ensures told { IfOk result (λ own. IsEither
        (spec.HasLines (AreLines (S.says survey.now.speaker.now) (S.refuses survey.now.speaker.now)
        survey.now.further.now) (F.holds files.old)) (S.leaves survey.now.speaker.now) own.is_left path.now
        (told_of own.said)) }
    ensures heard { IfOk result (λ own. Hears W.heard W.has_failed watcher.old watcher.new own.said.lines.items) }
    ensures failure { IfErr result (λ e. FailsApartly survey.now.further.now e ⊎ (e ≡ Failure.NoMemory)) }
    ensures kept { F.holds files.new ≡ F.holds files.old }
{
    match read_whole(alloc, files, path, LONGEST_FILE, remarks) {
        Ok(bytes) => {
            let said = file_lines(alloc, survey, path, bytes.as_slice(), watcher, remarks)?;
            Ok(Own {
                said,
                is_left: false,
            })
        }
        Err(Failure::NoMemory) => Err(Failure::NoMemory),
        Err(
            Failure::Refused(_)
            | Failure::RefusedUnwritten(_)
            | Failure::Usage(_)
            | Failure::File(_)
            | Failure::Output,
        ) => {
            let said = left_said(alloc, survey.speaker, path, watcher)?;
            Ok(Own {
                said,
                is_left: true,
            })
        }
    }
}

/// The statements of the `speaker` about `path`, which can't be read. The `watcher` hears their lines.
fn left_said<S: Speaker, W: Watcher>(
    alloc: Global,
    speaker: &S,
    path: &str,
    watcher: &mut W,
) -> Result<Said, AllocError>
    ensures told { IfOk result (λ said. S.leaves speaker.now path.now (told_of said)) }
    ensures heard { IfOk result (λ said. Hears W.heard W.has_failed watcher.old watcher.new said.lines.items) }
{
    let said = speaker.leave(alloc, path)?;
    pass_on(watcher, &said);
    Ok(said)
}
