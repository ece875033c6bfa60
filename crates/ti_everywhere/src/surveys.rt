//! The command `survey --every-size`.

ghost use Rattle.std.specs.Prelude.{◌≡◌, IfErr, IfOk};
ghost use Rattle.ti_everywhere.specs.Surveys as spec;
ghost use Rattle.ti_files.specs.Words.{texts_of};
ghost use Rattle.ti_surveys.specs.{Heard.{Hears}, Together.{FailsBeside}};

use crate::counts::counts_line;
use crate::speakers::EverySizes;
use std::alloc::Global;
use ti_files::{Files, Remarks, Replied, Reply};
use ti_surveys::{Surveyed, Watcher, strict_failure, survey_paths};

/// Surveys the files of these `paths`. The `watcher` passes on the line of each entry once it is known, which says
/// whether the entry is right at every size, or at which size it has which refusal, or which capability leaves that
/// open. The reply's notes have the number of lines of each kind. If files can't be read, the reply has the failure of
/// the first such file, the `remarks` name the further ones, and the others are surveyed all the same; else it is
/// refused, if it `is_strict`, if a line doesn't say yes: a doubt counts as a no.
///
/// # Errors
/// A file of `--with` that can't be read or hides all its entries; out of memory. The `watcher` has then passed on the
/// lines of the entries before.
pub fn survey_everywhere<F: Files, W: Watcher>(
    alloc: Global,
    paths: &[&str],
    is_strict: bool,
    files: &mut F,
    watcher: &mut W,
    remarks: &mut Remarks,
) -> Replied
    ensures reply { IfOk result (λ reply. spec.IsSurveyed (F.holds files.old) (texts_of paths.now) is_strict remarks.new
        (Hears W.heard W.has_failed watcher.old watcher.new) reply) }
    ensures failure { IfErr result (λ e. FailsBeside (F.holds files.old) e) }
    ensures kept { F.holds files.new ≡ F.holds files.old }
{
    let Surveyed {
        said,
        failure: unread,
    } = survey_paths(alloc, &EverySizes, paths, files, watcher, remarks)?;
    let answers = said.answers.as_slice();
    let notes = counts_line(alloc, answers)?;
    let failure = strict_failure(alloc, is_strict, answers, unread)?;
    Ok(Reply {
        notes,
        text: Vec::new(alloc),
        failure,
    })
}
