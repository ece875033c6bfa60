//! Reports on an entry that is there.

ghost use Rattle.std.specs.Prelude.{◌≡◌, [], ◌∷◌, IfOk, map, string_bytes};
ghost use Rattle.ti_caps.specs.Table.{name_at};
ghost use Rattle.ti_sources.specs.LinedFiles.{file_text};
ghost use Rattle.ti_verdicts.specs.Locations.{place_if};
ghost use Rattle.ti_reports.specs.Faults as spec;
ghost use Rattle.ti_reports.specs.Findings.{AreFaults};
ghost use Rattle.ti_reports.specs.Texts.{IsShownAs};
ghost use Rattle.ti_verdicts.specs.Parts.{HasParts};
ghost use Rattle.ti_verdicts.specs.Refusals.{cause_name};

use crate::advice::advice_reports;
use crate::explanations::{explained, hex_if};
use crate::hints::{Hinted, hint_reports};
use crate::names::{entry_aliases, entry_name};
use crate::openings::{bound_on, left_out_if, name_texts};
use crate::places::{faulty_region, value_place};
use crate::reports::{Finding, Report, Verdict};
use crate::spellings::own_string;
use crate::suggestions::{is_judged, mended_if, other_kind, suggested, suggested_with};
use crate::texts::text_of;
use std::alloc::{AllocError, Global};
use ti_caps::{Cap, Entry, name};
use ti_checker::{Cause, No};
use ti_faults::Mended;
use ti_files::Remarks;
use ti_grades::grade_of;
use ti_sources::LinedFile;
use ti_surveys::is_part;
use ti_verdicts::{Fault, FaultRun, Judged, SourcePlace, cause_name, explain_fault};
use ti_words::NO_RESYNC;
use vt_term::Size;

/// The report that a function makes, or that memory ran out.
pub(crate) type Reported = Result<Report, AllocError>;

/// The reports that a function makes, or that memory ran out.
pub(crate) type AllReported = Result<Vec<Report>, AllocError>;

/// An entry that is reported on.
#[derive(Clone, Copy)]
pub struct Subject<'a, 'b> {
    /// The entry.
    pub entry: &'a Entry,
    /// The terminal's size.
    pub size: Size,
    /// Whether all of its faults are reported, and not only the first one.
    pub lists_all: bool,
    /// The fields about which there are hints.
    pub hinted: Hinted,
    /// The path of the file that has the entry.
    pub file: &'a str,
    /// The place of the entry; `None` if it is in no source.
    pub stands: &'a Option<SourcePlace<'a, 'b>>,
    /// The texts of those files whose lines were joined, as they were before.
    pub originals: &'a [LinedFile<'a>],
}

/// The reports of the faults `nos` of the `subject`, or that it has a certificate if there are none; and then those of
/// the advice on it and of the hints about its fields. If all faults are reported, what is suggested is right with all
/// of them mended, and the reports have what a session goes without.
pub fn found_reports(alloc: Global, subject: &Subject<'_, '_>, nos: &[No]) -> AllReported
    requires { AreFaults subject.now.lists_all subject.now.entry.now subject.now.size.rows subject.now.size.cols
        nos.now }
    ensures { IfOk result (λ reports. spec.AreFound subject.now.entry.now
        subject.now.size.rows subject.now.size.cols subject.now.lists_all subject.now.hinted subject.now.file.now
        (map file_text subject.now.originals.now) (place_if subject.now.stands.now) nos.now reports.items) }
{
    let mut reports = verdicts(alloc, subject, nos)?;
    let mut advice = advice_reports(alloc, subject, nos)?;
    let mut hints = hint_reports(alloc, subject)?;
    reports.append(&mut advice)?;
    reports.append(&mut hints)?;
    Ok(reports)
}

/// The reports of the faults `nos` of the `subject`, or that it has a certificate if there are none.
fn verdicts(alloc: Global, subject: &Subject<'_, '_>, nos: &[No]) -> AllReported
    requires { AreFaults subject.now.lists_all subject.now.entry.now subject.now.size.rows subject.now.size.cols
        nos.now }
    ensures { IfOk result (λ reports. spec.AreVerdicts subject.now.entry.now
        subject.now.size.rows subject.now.size.cols subject.now.lists_all subject.now.file.now
        (map file_text subject.now.originals.now) (place_if subject.now.stands.now) nos.now reports.items) }
{
    match nos {
        [] => yes_alone(alloc, subject),
        [_, ..] => reports_of(alloc, subject, nos),
    }
}

/// A report for each of the faults `nos` of the `subject`.
fn reports_of(alloc: Global, subject: &Subject<'_, '_>, nos: &[No]) -> AllReported
    requires { AreFaults subject.now.lists_all subject.now.entry.now subject.now.size.rows subject.now.size.cols
        nos.now }
    ensures { IfOk result (λ reports. spec.AreFaultReports subject.now.entry.now
        subject.now.size.rows subject.now.size.cols subject.now.lists_all subject.now.file.now
        (map file_text subject.now.originals.now) (place_if subject.now.stands.now) nos.now reports.items) }
{
    let mended = mended_if(alloc, subject.lists_all, subject.entry, subject.size, nos)?;
    let left_out = left_out_if(alloc, subject.lists_all, subject.entry, subject.size, nos)?;
    let faults = Faults {
        nos,
        mended: &mended,
        left_out: left_out.as_slice(),
    };
    let reports = fault_reports(alloc, subject, &faults)?;
    Ok(reports)
}

/// Faults of an entry; if they are all that it has, the entry with all of them mended, and the names of what a session
/// goes without.
#[derive(Drop)]
struct Faults<'a> {
    nos: &'a [No],
    mended: &'a Option<Mended>,
    left_out: &'a [&'static [u8]],
}

/// A report for each of the `faults` of the `subject`, in their order.
fn fault_reports(alloc: Global, subject: &Subject<'_, '_>, faults: &Faults<'_>) -> AllReported
    ensures { IfOk result (λ reports. HasParts
        (spec.IsFaultReport (spec.of_subject subject.now faults.now.nos.now faults.now.mended.now
        faults.now.left_out.now) subject.now.file.now) faults.now.nos.now reports.items) }
{
    let mut reports = Vec::new(alloc);
    for no in faults.nos {
        let report = fault_report(alloc, subject, faults, no)?;
        reports.push(report)?;
    }
    Ok(reports)
}

/// The report alone that the `subject` has a certificate.
fn yes_alone(alloc: Global, subject: &Subject<'_, '_>) -> AllReported
    ensures { IfOk result (λ reports. spec.IsOne (spec.ReportsYes subject.now.entry.now
        subject.now.size.rows subject.now.size.cols subject.now.file.now) reports.items) }
{
    let report = yes_report(alloc, subject)?;
    only(alloc, report)
}

/// A list of `report` alone.
pub(crate) fn only(alloc: Global, report: Report) -> AllReported
    ensures { IfOk result (λ reports. reports.items ≡ report ∷ []) }
{
    Ok(vec![in alloc; report]?)
}

/// The report that the `subject` has a certificate, with the bound of a session.
fn yes_report(alloc: Global, subject: &Subject<'_, '_>) -> Reported
    ensures { IfOk result (λ report. spec.ReportsYes subject.now.entry.now
        subject.now.size.rows subject.now.size.cols subject.now.file.now report) }
{
    let bound = bound_on(alloc, subject.entry, subject.size)?;
    report_on(
        alloc,
        subject,
        Verdict::Yes(bound),
        None,
        Finding::none(alloc),
    )
}

/// The report on the `subject` with this `verdict`, `cause` and `finding`.
pub(crate) fn report_on(
    alloc: Global,
    subject: &Subject<'_, '_>,
    verdict: Verdict,
    cause: Option<String>,
    finding: Finding,
) -> Reported
    ensures { IfOk result (spec.IsReportOn subject.now verdict cause finding) }
{
    Ok(Report {
        entry: Some(entry_name(alloc, subject.entry)?),
        aliases: entry_aliases(alloc, subject.entry)?,
        is_part: Some(is_part(subject.entry)),
        rows: subject.size.rows,
        cols: subject.size.cols,
        file: String::from_str(alloc, subject.file)?,
        verdict,
        cause,
        finding,
    })
}

/// The report of `no`, one of the `faults` of the `subject`.
fn fault_report(alloc: Global, subject: &Subject<'_, '_>, faults: &Faults<'_>, no: &No) -> Reported
    ensures { IfOk result (λ report. spec.ReportsFault
        (spec.of_subject subject.now faults.now.nos.now faults.now.mended.now faults.now.left_out.now)
        subject.now.file.now no.now report) }
{
    let cause = cause_text(alloc, no.cause)?;
    let finding = finding_of(alloc, subject, faults, no)?;
    report_on(alloc, subject, Verdict::No, Some(cause), finding)
}

/// The finding about `no`, one of the `faults` of the `subject`.
fn finding_of(
    alloc: Global,
    subject: &Subject<'_, '_>,
    faults: &Faults<'_>,
    no: &No,
) -> Result<Finding, AllocError>
    ensures { IfOk result (λ finding. spec.Finds
        (spec.of_subject subject.now faults.now.nos.now faults.now.mended.now faults.now.left_out.now) no.now finding) }
{
    let entry = subject.entry;
    let judged = Judged {
        no,
        size: subject.size,
    };
    let run = FaultRun::new(alloc, entry, subject.size, no)?;
    let fault = Fault {
        entry,
        judged,
        run: &run,
    };
    Ok(Finding {
        capability: Some(cap_text(alloc, no.cap)?),
        parameters: Vec::from_slice(alloc, no.params.as_slice())?,
        bytes: hex_if(alloc, &run.sent)?,
        place: value_place(alloc, subject.stands, subject.originals, no.cap)?,
        faulty_region: faulty_region(alloc, subject.stands, subject.originals, &judged)?,
        string: own_string(alloc, entry, no.cap)?,
        suggestion: suggested(alloc, entry, faults.mended, no.cap)?,
        suggested_with: suggested_with(alloc, entry, faults.mended, no.cap)?,
        run: explained(alloc, &run)?,
        judged: Some(is_judged(no.cause)),
        grade: Some(grade_of(alloc, entry, subject.size, no, faults.nos.len() == 1)?),
        another_kind: other_kind(subject.lists_all, faults.nos),
        left_out: name_texts(alloc, faults.left_out)?,
        explanation: explanation_of(alloc, &fault)?,
    })
}

/// The lines with which the plain form explains the `fault`. Where no string begins what is sent first in an unknown
/// state, it has none, and the line says what is wanted there.
fn explanation_of(alloc: Global, fault: &Fault<'_>) -> Result<Vec<String>, AllocError> {
    let mut remarks = Remarks::new(alloc);
    explain_fault(alloc, fault, &mut remarks);
    if remarks.lines().is_empty() && fault.judged.no.cause == Cause::NoResync {
        remarks.add_words(NO_RESYNC);
    }
    let mut texts = Vec::new(alloc);
    for line in remarks.lines() {
        texts.push(text_of(alloc, line.as_slice())?)?;
    }
    Ok(texts)
}

/// The name of `cap`.
pub(crate) fn cap_text(alloc: Global, cap: Cap) -> Result<String, AllocError>
    ensures { IfOk result (λ text. IsShownAs (name_at cap) (string_bytes text)) }
{
    text_of(alloc, name(cap))
}

/// The name of `cause`.
fn cause_text(alloc: Global, cause: Cause) -> Result<String, AllocError>
    ensures { IfOk result (λ text. IsShownAs (cause_name cause) (string_bytes text)) }
{
    text_of(alloc, cause_name(cause))
}
