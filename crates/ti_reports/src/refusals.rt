//! Reports on entries and files that can't be obtained.

ghost use Rattle.std.specs.Prelude.{◌≡◌, IfOk, option_map};
ghost use Rattle.ti_reports.specs.Sources.{fault_file};
ghost use Rattle.ti_reports.specs.Reports.{IsBare};
ghost use Rattle.ti_reports.specs.Surveys as spec;
ghost use Rattle.ti_verdicts.specs.Locations.{place_if};

use crate::faults::Reported;
use crate::names::name_if;
use crate::places::{ValuePlace, refusal_place};
use crate::reports::{Finding, Report, Verdict};
use crate::texts::text_of;
use std::alloc::{AllocError, Global};
use ti_files::refusal_words;
use ti_resolve::Origin;
use ti_surveys::Lacking;
use vt_term::Size;

/// The report on an entry that is `lacking`, or on a file that has no entries.
pub fn lacking_report(alloc: Global, size: Size, lacking: &Lacking<'_, '_>) -> Reported
    ensures { IfOk result (spec.IsOfRefusal size.rows size.cols lacking.now.path.now
        (place_if lacking.now.stands.now) (option_map (λ n. n.now) lacking.now.name) lacking.now.refusal.now) }
{
    let why = refusal_words(alloc, lacking.refusal)?;
    let file = Some(fault_file(lacking));
    let place = refusal_place(alloc, lacking.stands, file, lacking.refusal)?;
    refused_report(
        alloc,
        size,
        lacking.path,
        lacking.name,
        why.as_slice(),
        place,
    )
}

/// The path of the file with the fault that hides the entry that is `lacking`.
fn fault_file<'a>(lacking: &Lacking<'a, '_>) -> &'a str
    ensures { result.now ≡ fault_file lacking.now.path.now (place_if lacking.now.stands.now) }
{
    match lacking.stands {
        Some(there) => {
            let origin = Origin {
                entry: there.place,
                field: 0,
            };
            there.line(origin).path
        }
        None => lacking.path,
    }
}

/// The report that the file at `path` can't be read.
pub fn unread_report(alloc: Global, size: Size, path: &str) -> Reported
    ensures { IfOk result (spec.IsUnread size.rows size.cols path.now) }
{
    let why = file_words(alloc, path.as_bytes())?;
    let place = ValuePlace::nowhere();
    refused_report(alloc, size, path, None, why.as_slice(), place)
}

/// The words that the file at `path` can't be read.
pub fn file_words(alloc: Global, path: &[u8]) -> Result<Vec<u8>, AllocError>
    ensures { IfOk result (λ words. words.items ≡ spec.file_text path.now) }
{
    let mut words = Vec::from_slice(alloc, b"file: ")?;
    words.extend_from_slice(path)?;
    Ok(words)
}

/// The report that the entry `name` of the file at `path` can't be obtained, with the reason `why`, which is found at
/// `place`.
pub fn refused_report(
    alloc: Global,
    size: Size,
    path: &str,
    name: Option<&[u8]>,
    why: &[u8],
    place: ValuePlace,
) -> Result<Report, AllocError>
    ensures { IfOk result (λ report. spec.ReportsRefused size.rows size.cols
        path.now (option_map (λ n. n.now) name.entry) why.now place report) }
{
    Ok(Report {
        entry: name_if(alloc, name)?,
        aliases: Vec::new(alloc),
        is_part: None,
        rows: size.rows,
        cols: size.cols,
        file: String::from_str(alloc, path)?,
        verdict: Verdict::Refused,
        cause: Some(text_of(alloc, why)?),
        finding: bare_finding(alloc, place),
    })
}

/// No fault, at `place`.
fn bare_finding(alloc: Global, place: ValuePlace) -> Finding
    ensures stands { result.place ≡ place }
    ensures bare { IsBare result }
{
    let mut finding = Finding::none(alloc);
    finding.place = place;
    finding
}
