//! One run of the program.

ghost use Rattle.std.specs.Prelude.{◌≤◌};

use crate::collected::Collected;
use crate::counted::Counted;
use crate::forms::{baseline_of, count_gone, formed, is_kept};
use crate::hints::{hint_join, hint_path};
use crate::mended::{Mended, Mending, delivered, fix_out, folder_of, is_collected, sources_of};
use crate::originals::{Kept, lined, originals, paths_of};
use crate::progress::SurveyLines;
use crate::stored::Sources;
use cur_commands::{play_script, show_script, verify_certificate};
use std::alloc::Global;
use std::io::{IsTerminal, Write};
use ti_arguments::{Asked, ParsedLine, UsageFault, parse_line};
use ti_commands::{
    Comparison, compare_entries, compile_entry, expand_string, feed_file, feed_state, print_entry,
};
use ti_everywhere::{check_everywhere, survey_everywhere};
use ti_files::{
    Beside, CommandRefusal, Failure, Files, Output, Remarks, Replied, Reply, Wrapped, Written,
    file_fault, report, write_reply, write_text,
};
use ti_printers::{Baseline, Json, News, Sarif};
use ti_repairs::{FixWords, fix_entry, fix_survey};
use ti_reports::{Check, Form, SurveyReports, check_reports, survey_reports};
use ti_requests::{CheckWords, FaultsWords, Request, ScriptWords, SurveyWords};
use ti_source::FaultKind;
use ti_sources::LinedFile;
use ti_surveys::{Survey, survey_files};
use ti_verdicts::{Checker, TellingChecker, check_all, check_entry};

/// The output of a command, and the standard error.
#[derive(Drop)]
struct Streams<'a, 'b, O, E> {
    out: &'a mut O,
    err: &'b mut E,
}

/// Carries out the `words` after the program's own name. The answer goes to `out`, notes and the
/// lines of a failure to `err`. Returns the exit status: 0 done, 1 refused, 2 a usage error, 3 a
/// file or the output failed, 4 out of memory. Files are reached through `files` alone.
pub fn command<F: Files + Sources, O: Write, E: Write + IsTerminal>(
    alloc: Global,
    words: &[String],
    files: &mut F,
    out: &mut O,
    err: &mut E,
) -> u8
    ensures { result ≤ 4 }
{
    let mut remarks = Remarks::new(alloc);
    let mut out = Written::new(out);
    let mut streams = Streams {
        out: &mut out,
        err: &mut *err,
    };
    match perform(alloc, words, files, &mut streams, &mut remarks) {
        Ok(()) => {
            let _ = remarks.write(err);
            0
        }
        Err(failure) => report(&failure, &remarks, err),
    }
}

/// Carries out the `words`, and adds the further lines to `remarks`.
fn perform<F: Files + Sources, O: Output, E: Write + IsTerminal>(
    alloc: Global,
    words: &[String],
    files: &mut F,
    streams: &mut Streams<'_, '_, O, E>,
    remarks: &mut Remarks,
) -> Result<(), Failure> {
    match parse_line(alloc, words) {
        Ok(ParsedLine::Request(asked)) => {
            let reply = reply_in_form(alloc, &asked, files, streams, remarks);
            if let Some(path) = failed_path(&reply) {
                hint_path(alloc, &asked.request, path, files, remarks);
            }
            if !asked.joins && is_open_field(&reply) {
                hint_join(&asked.request, remarks);
            }
            let reply = reply?;
            let _ = streams.err.write_all(reply.notes.as_slice());
            write_reply(streams.out, reply)
        }
        Ok(ParsedLine::Text(text)) => write_text(streams.out, text.as_bytes()),
        Err(UsageFault::Usage(text)) => Err(Failure::Usage(text)),
        Err(UsageFault::NoMemory) => Err(Failure::NoMemory),
    }
}

/// The path of the file for which `reply` failed, if it did.
fn failed_path(reply: &Replied) -> Option<&str> {
    match reply {
        Err(Failure::File(path))
        | Ok(
            Reply {
                failure: Some(Failure::File(path)),
                ..
            },
        ) => Some(path.as_str()),
        _ => None,
    }
}

/// Whether a source is refused because a field of it isn't ended on its line.
fn is_open_field(reply: &Replied) -> bool {
    match reply {
        Err(Failure::Refused(CommandRefusal::Source(fault)))
        | Ok(
            Reply {
                failure: Some(Failure::Refused(CommandRefusal::Source(fault))),
                ..
            },
        ) => fault.kind == FaultKind::OpenField,
        _ => false,
    }
}

/// The reply of `check` to its `words`. If `err` is a terminal, a further line in `remarks` has the bound of a session,
/// and if the certificate goes to a file, the last one says how many lines it has.
fn check_counted<F: Files, E: IsTerminal>(
    alloc: Global,
    words: &CheckWords<'_>,
    files: &mut F,
    err: &E,
    remarks: &mut Remarks,
) -> Replied {
    let mut counted = Counted::new(files);
    if !err.is_terminal() {
        return check_entry(alloc, &Checker, words, &mut counted, remarks);
    }
    let reply = check_entry(alloc, &TellingChecker, words, &mut counted, remarks)?;
    if let Some(lines) = counted.lines {
        if let Ok(text) = format!(in alloc; "yes, {lines} lines") {
            remarks.add_words(text.as_bytes());
        }
    }
    Ok(reply)
}

/// The reply of `check` to its `words`, which is mended text or an answer about all sizes if that is `asked` for.
fn check_by<F: Files, E: IsTerminal>(
    alloc: Global,
    asked: &Asked<'_>,
    words: &CheckWords<'_>,
    files: &mut F,
    err: &E,
    remarks: &mut Remarks,
) -> Replied {
    if asked.fixes {
        let out = fix_out(asked);
        fix_entry(
            alloc,
            &CheckWords { out, ..*words },
            asked.standard,
            files,
            remarks,
        )
    } else if asked.every_size {
        check_everywhere(alloc, words.entry, files, remarks)
    } else {
        check_counted(alloc, words, files, err, remarks)
    }
}

/// The reply of `play` to its `words`. The bytes that it sends go to `out` as they come.
fn play<F: Files, O: Output>(
    alloc: Global,
    words: &ScriptWords<'_>,
    files: &mut F,
    out: &mut O,
    remarks: &mut Remarks,
) -> Replied {
    play_script(alloc, words, files, out, remarks)?;
    Ok(Reply::of_text(alloc, Vec::new(alloc)))
}

/// The check with reports in this `form` by these `words`, where the `originals` are the texts whose lines are joined.
fn check_of<'a, P>(
    words: &'a FaultsWords<'a>,
    lists_all: bool,
    form: &'a P,
    originals: &'a [LinedFile<'a>],
) -> Check<'a, P> {
    Check {
        words,
        lists_all,
        form,
        originals,
    }
}

/// The survey by these `words`, where the `originals` are the texts whose lines are joined; the checker certifies.
fn survey_of<'a>(
    words: &'a SurveyWords<'a>,
    originals: &'a [LinedFile<'a>],
) -> Survey<'a, Checker> {
    Survey {
        certifier: &Checker,
        words,
        originals,
    }
}

/// The survey with reports in this `form` by these `words`, where the `originals` are the texts whose lines are joined.
fn reports_of<'a, P>(
    words: &'a SurveyWords<'a>,
    form: &'a P,
    originals: &'a [LinedFile<'a>],
) -> SurveyReports<'a, P> {
    SurveyReports {
        words,
        form,
        originals,
    }
}

/// Runs `survey`, and returns its reply. The lines of the entries go to the output as they come.
fn survey_plainly<F: Files, O: Output, E: Write + IsTerminal>(
    alloc: Global,
    survey: &Survey<'_, Checker>,
    files: &mut F,
    streams: &mut Streams<'_, '_, O, E>,
    remarks: &mut Remarks,
) -> Replied {
    let mut lines = SurveyLines::new(alloc, streams.out, streams.err);
    let reply = survey_files(alloc, survey, files, &mut lines, remarks)?;
    Ok(lines.end(alloc, reply))
}

/// Runs `survey --every-size` over the files of the `words`, and returns its reply. The lines of the entries go to the
/// output as they come.
fn survey_sizes<F: Files, O: Output, E: Write + IsTerminal>(
    alloc: Global,
    words: &SurveyWords<'_>,
    files: &mut F,
    streams: &mut Streams<'_, '_, O, E>,
    remarks: &mut Remarks,
) -> Replied {
    let mut lines = SurveyLines::new(alloc, streams.out, streams.err);
    let paths = words.paths.as_slice();
    let reply = survey_everywhere(alloc, paths, words.is_strict, files, &mut lines, remarks)?;
    Ok(lines.end(alloc, reply))
}

/// The words of the `survey --fix` that is `asked` for: those of a survey of one file, and the path of the text.
fn fix_words<'a>(asked: &'a Asked<'a>, words: &SurveyWords<'a>) -> FixWords<'a> {
    FixWords {
        is_strict: words.is_strict,
        is_standard: asked.standard,
        rows: words.rows,
        cols: words.cols,
        path: words.paths.first().copied().unwrap_or(""),
        out: fix_out(asked),
    }
}

/// Runs `survey` with reports, and returns its reply. The reports go to the output as they come.
fn survey_json<P: Form, F: Files, O: Output, E: Write + IsTerminal>(
    alloc: Global,
    survey: &SurveyReports<'_, P>,
    files: &mut F,
    streams: &mut Streams<'_, '_, O, E>,
    remarks: &mut Remarks,
) -> Replied {
    let mut lines = SurveyLines::new(alloc, streams.out, streams.err);
    let reply = survey_reports(alloc, survey, files, &mut lines, remarks)?;
    Ok(lines.end(alloc, reply))
}

/// The reply of the command that is `asked` for, with its reports in the form that is asked for.
fn reply_in_form<F: Files + Sources, O: Output, E: Write + IsTerminal>(
    alloc: Global,
    asked: &Asked<'_>,
    files: &mut F,
    streams: &mut Streams<'_, '_, O, E>,
    remarks: &mut Remarks,
) -> Replied {
    if !is_kept(asked) {
        return reply_by(alloc, asked, &Json, files, streams, remarks);
    }
    let baseline = baseline_of(alloc, asked, files, remarks)?;
    let mut kept = Vec::new(alloc);
    let mut out = Written::new(&mut kept);
    let mut streams = Streams {
        out: &mut out,
        err: &mut *streams.err,
    };
    let reply = kept_reply(alloc, asked, &baseline, files, &mut streams, remarks)?;
    count_gone(alloc, asked, &baseline, remarks);
    formed(alloc, asked, kept, reply)
}

/// The reply of the command that is `asked` for, without what the `baseline` says.
fn kept_reply<F: Files + Sources, O: Output, E: Write + IsTerminal>(
    alloc: Global,
    asked: &Asked<'_>,
    baseline: &Option<Baseline>,
    files: &mut F,
    streams: &mut Streams<'_, '_, O, E>,
    remarks: &mut Remarks,
) -> Replied {
    match baseline {
        None => reply_by(alloc, asked, &Sarif, files, streams, remarks),
        Some(baseline) => {
            if asked.sarif {
                let form = &Sarif;
                reply_by(
                    alloc,
                    asked,
                    &News { baseline, form },
                    files,
                    streams,
                    remarks,
                )
            } else {
                let form = &Json;
                reply_by(
                    alloc,
                    asked,
                    &News { baseline, form },
                    files,
                    streams,
                    remarks,
                )
            }
        }
    }
}

/// The reply of the command that is `asked` for, to whose files its switches apply. Reports have this `form`.
fn reply_by<P: Form, F: Files + Sources, O: Output, E: Write + IsTerminal>(
    alloc: Global,
    asked: &Asked<'_>,
    form: &P,
    files: &mut F,
    streams: &mut Streams<'_, '_, O, E>,
    remarks: &mut Remarks,
) -> Replied {
    if asked.fixes && !asked.diff {
        files.allow_source();
    }
    let reply = if is_collected(asked) {
        collected_reply(alloc, asked, form, files, streams, remarks)?
    } else {
        sourced_reply(alloc, asked, form, files, streams, remarks)?
    };
    match folder_of(asked) {
        Some(folder) => match files.make_folder(folder) {
            Ok(()) => Ok(reply),
            Err(fault) => Err(file_fault(alloc, folder, fault, remarks)),
        },
        None => Ok(reply),
    }
}

/// The reply of the command that is `asked` for, which mends texts that aren't what goes out.
fn collected_reply<P: Form, F: Files, O: Output, E: Write + IsTerminal>(
    alloc: Global,
    asked: &Asked<'_>,
    form: &P,
    files: &mut F,
    streams: &mut Streams<'_, '_, O, E>,
    remarks: &mut Remarks,
) -> Replied {
    let sources = sources_of(alloc, asked)?;
    let originals = originals(alloc, sources.as_slice(), files)?;
    let mut kept = Kept::new(files, originals.as_slice());
    let mut collected = Collected::new(alloc, &mut kept);
    let reply = sourced_reply(alloc, asked, form, &mut collected, streams, remarks)?;
    let stored = collected.stored;
    let mending = Mending {
        asked,
        originals: originals.as_slice(),
    };
    delivered(alloc, mending, Mended { stored, reply }, files, remarks)
}

/// The reply of the command that is `asked` for, whose sources are read as they are, or each field on one line.
fn sourced_reply<P: Form, F: Files, O: Output, E: Write + IsTerminal>(
    alloc: Global,
    asked: &Asked<'_>,
    form: &P,
    files: &mut F,
    streams: &mut Streams<'_, '_, O, E>,
    remarks: &mut Remarks,
) -> Replied {
    if asked.joins {
        return joined_reply(alloc, asked, form, files, streams, remarks);
    }
    let mut beside = Beside::new(files, asked.further.as_slice());
    let job = Job {
        asked,
        form,
        texts: &[],
    };
    reply_to(alloc, &job, &mut beside, streams, remarks)
}

/// The reply of the command that is `asked` for, whose sources are read with each field on one line. Their texts are
/// kept as they are, for the places in them.
fn joined_reply<P: Form, F: Files, O: Output, E: Write + IsTerminal>(
    alloc: Global,
    asked: &Asked<'_>,
    form: &P,
    files: &mut F,
    streams: &mut Streams<'_, '_, O, E>,
    remarks: &mut Remarks,
) -> Replied {
    let paths = paths_of(alloc, asked)?;
    let originals = originals(alloc, paths.as_slice(), files)?;
    let texts = lined(alloc, originals.as_slice())?;
    let mut kept = Kept::new(files, originals.as_slice());
    let mut beside = Beside::new(&mut kept, asked.further.as_slice());
    let mut joined = Wrapped::new(alloc, &mut beside);
    let job = Job {
        asked,
        form,
        texts: texts.as_slice(),
    };
    reply_to(alloc, &job, &mut joined, streams, remarks)
}

/// A command that is asked for, the form of its reports, and the texts whose lines are joined for it.
#[derive(Drop)]
struct Job<'a, P> {
    asked: &'a Asked<'a>,
    form: &'a P,
    texts: &'a [LinedFile<'a>],
}

/// The reply of `survey` to its `words`, which is mended text or answers about all sizes if the `job` is to have that.
fn survey_by<P, F: Files, O: Output, E: Write + IsTerminal>(
    alloc: Global,
    job: &Job<'_, P>,
    words: &SurveyWords<'_>,
    files: &mut F,
    streams: &mut Streams<'_, '_, O, E>,
    remarks: &mut Remarks,
) -> Replied {
    if job.asked.fixes {
        fix_survey(alloc, &fix_words(job.asked, words), files, remarks)
    } else if job.asked.every_size {
        survey_sizes(alloc, words, files, streams, remarks)
    } else {
        survey_plainly(alloc, &survey_of(words, job.texts), files, streams, remarks)
    }
}

/// The reply of the command of the `job`. The bytes that `play` sends and the lines of a survey go to `out` as they
/// come, and the reply has what follows them.
fn reply_to<P: Form, F: Files, O: Output, E: Write + IsTerminal>(
    alloc: Global,
    job: &Job<'_, P>,
    files: &mut F,
    streams: &mut Streams<'_, '_, O, E>,
    remarks: &mut Remarks,
) -> Replied {
    let asked = job.asked;
    let form = job.form;
    let texts = job.texts;
    match &asked.request {
        Request::Expand(words) => expand_string(alloc, words, remarks),
        Request::Feed { rows, cols, file } => feed_file(alloc, rows, cols, file, files, remarks),
        Request::FeedAs(words) => feed_state(alloc, words, files, remarks),
        Request::Tic { entry, out } => compile_entry(alloc, entry, *out, files, remarks),
        Request::Check(words) => check_by(alloc, asked, words, files, streams.err, remarks),
        Request::CheckAll(words) => check_all(alloc, words, texts, files, remarks),
        Request::CheckJson { lists_all, words } => {
            check_reports(
                alloc,
                &check_of(words, *lists_all, form, texts),
                files,
                remarks,
            )
        }
        Request::Verify(words) => verify_certificate(alloc, words, files, remarks),
        Request::Play(words) => play(alloc, words, files, streams.out, remarks),
        Request::Show(words) => show_script(alloc, words, files, remarks),
        Request::Survey(words) => survey_by(alloc, job, words, files, streams, remarks),
        Request::SurveyJson(words) => {
            survey_json(
                alloc,
                &reports_of(words, form, texts),
                files,
                streams,
                remarks,
            )
        }
        Request::Print { entry } => print_entry(alloc, entry, files, remarks),
        Request::Common { first, second } => {
            compare_entries(alloc, first, second, Comparison::Common, files, remarks)
        }
        Request::Neither { first, second } => {
            compare_entries(alloc, first, second, Comparison::Neither, files, remarks)
        }
    }
}
