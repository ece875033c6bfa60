//! The report that an entry can't be obtained.

ghost use Rattle.std.specs.Prelude.{◌≡◌, IfErr, IfNone, IfOk, IfSome, option_map};
ghost use Rattle.ti_files.specs.declared.failure.Failure.TheVariants.{NoMemory};
ghost use Rattle.ti_commands.specs.Findings.{IsPath, IsPathAndName};
ghost use Rattle.ti_reports.specs.Lacks as spec;

use crate::faults::Reported;
use crate::forms::{Form, is_news};
use crate::places::{ValuePlace, refusal_place};
use crate::refusals::{file_words, refused_report};
use std::alloc::{AllocError, Global};
use ti_files::{Failure, Replied, Reply, refusal_words};
use vt_term::Size;

/// The reply that reports in its `form`, for this `size`, that the ENTRY `word` gives no entry, with the reason of
/// `failure`. The reply fails so too, but not with a refusal of which the form doesn't tell. If the word's file is read
/// `alone`, the place of the reason is one in it.
pub fn lack_reply<P: Form>(
    alloc: Global,
    form: &P,
    size: Size,
    alone: bool,
    word: &str,
    failure: Failure,
) -> Replied
    ensures reply { IfOk result (λ reply. spec.ReportsLackOf (P.wanted form.now) (P.prints form.now) size.rows size.cols
        alone word.now failure reply) }
    ensures failure { IfErr result (λ e. e ≡ NoMemory) }
{
    let report = lack_report(alloc, size, alone, word, &failure)?;
    let text = form.print(alloc, &report)?;
    Ok(Reply {
        notes: Vec::new(alloc),
        text,
        failure: told_failure(is_news(form, &report), failure),
    })
}

/// The `failure`, if the form tells of its report, or if it isn't a refusal.
fn told_failure(is_news: bool, failure: Failure) -> Option<Failure>
    ensures { result ≡ spec.told_failure is_news failure }
{
    let is_told = match &failure {
        Failure::Refused(_) => is_news,
        Failure::RefusedUnwritten(_) | Failure::Usage(_) | Failure::File(_) => true,
        Failure::Output | Failure::NoMemory => true,
    };
    if is_told { Some(failure) } else { None }
}

/// The reason of `failure` in words, unless there is too little memory.
fn reason(alloc: Global, failure: &Failure) -> Result<Vec<u8>, AllocError>
    ensures { IfOk result (λ why. spec.IsReason failure.now why.items) }
{
    match failure {
        Failure::Refused(refusal) => refusal_words(alloc, refusal),
        Failure::RefusedUnwritten(refusal) => refusal_words(alloc, refusal),
        Failure::Usage(text) => Vec::from_slice(alloc, text.as_bytes()),
        Failure::File(path) => file_words(alloc, path.as_bytes()),
        Failure::Output | Failure::NoMemory => Err(AllocError),
    }
}

/// The place at which the reason of `failure` is found, in the text at the path `file`, if that is known.
fn reason_place(
    alloc: Global,
    file: Option<&str>,
    failure: &Failure,
) -> Result<ValuePlace, AllocError>
    ensures { IfOk result (λ place. spec.IsReasonPlace (option_map (λ f. f.now) file.entry) failure.now place) }
{
    match failure {
        Failure::Refused(refusal) => refusal_place(alloc, &None, file, refusal),
        Failure::RefusedUnwritten(refusal) => refusal_place(alloc, &None, file, refusal),
        Failure::Usage(_) | Failure::File(_) => Ok(ValuePlace::nowhere()),
        Failure::Output | Failure::NoMemory => Ok(ValuePlace::nowhere()),
    }
}

/// The report that the ENTRY `word` gives no entry, with the reason of `failure`.
fn lack_report(alloc: Global, size: Size, alone: bool, word: &str, failure: &Failure) -> Reported
    ensures { IfOk result (spec.IsLack size.rows size.cols alone word.now failure.now) }
{
    match path_and_name(word) {
        Some((path, name)) => lack_of(alloc, size, alone, failure, path, Some(name.as_bytes())),
        None => lack_of(alloc, size, alone, failure, word, None),
    }
}

/// The report that the entry `name` of the file at `path` can't be obtained, or no entry of the file if there is no
/// name, with the reason of `failure`.
fn lack_of(
    alloc: Global,
    size: Size,
    alone: bool,
    failure: &Failure,
    path: &str,
    name: Option<&[u8]>,
) -> Reported
    ensures { IfOk result (spec.IsLackOf size.rows size.cols alone failure.now path.now
        (option_map (λ n. n.now) name.entry)) }
{
    let why = reason(alloc, failure)?;
    let place = reason_place(alloc, sole_path(alone, path), failure)?;
    refused_report(alloc, size, path, name, why.as_slice(), place)
}

/// The `path`, if its file is read `alone`.
fn sole_path(alone: bool, path: &str) -> Option<&str>
    ensures { option_map (λ p. p.now) result ≡ spec.sole_path alone path.now }
{
    if alone { Some(path) } else { None }
}

/// The parts of `word`, as FILE:NAME, split at its last colon.
fn path_and_name(word: &str) -> Option<(&str, &str)>
    ensures parts { IfSome result (λ parts. IsPathAndName word.now parts.0.now parts.1.now) }
    ensures whole { IfNone result (IsPath word.now) }
{
    word.rsplit_once(':')
}
