//! Reports of advice on an entry.

ghost use Rattle.std.specs.Prelude.{IfOk};
ghost use Rattle.ti_reports.specs.Sources.{IsNowhere};
ghost use Rattle.ti_reports.specs.Faults as spec;
ghost use Rattle.ti_reports.specs.Reports.{SaysWords};

use crate::faults::{AllReported, Subject, report_on};
use crate::places::ValuePlace;
use crate::reports::{Finding, Report, Verdict};
use crate::texts::text_of;
use std::alloc::{AllocError, Global};
use ti_checker::No;
use ti_hints::{advice_on, unchecked_advice};

/// A report for each piece of advice on the `subject`, which has the faults `nos`: on what is never seen, if there are
/// none; and on strings that aren't checked, if all faults are reported.
pub fn advice_reports(alloc: Global, subject: &Subject<'_, '_>, nos: &[No]) -> AllReported
    ensures { IfOk result (λ reports. spec.AreAll (spec.ReportsAdvice subject.now.entry.now
        subject.now.size.rows subject.now.size.cols subject.now.file.now) reports.items) }
{
    let texts = advice_texts(alloc, subject, nos)?;
    let mut reports = Vec::new(alloc);
    for text in &texts {
        let report = advice_report(alloc, subject, text.as_slice())?;
        reports.push(report)?;
    }
    Ok(reports)
}

/// The advice on the `subject`, which has the faults `nos`.
fn advice_texts(
    alloc: Global,
    subject: &Subject<'_, '_>,
    nos: &[No],
) -> Result<Vec<Vec<u8>>, AllocError> {
    let mut texts = if nos.is_empty() {
        advice_on(alloc, subject.entry, subject.size)?
    } else {
        Vec::new(alloc)
    };
    if subject.lists_all {
        for text in unchecked_advice(alloc, subject.entry)? {
            texts.push(text)?;
        }
    }
    Ok(texts)
}

/// The report of the advice `text` on the `subject`.
fn advice_report(
    alloc: Global,
    subject: &Subject<'_, '_>,
    text: &[u8],
) -> Result<Report, AllocError>
    ensures { IfOk result (λ report. spec.ReportsAdvice subject.now.entry.now
        subject.now.size.rows subject.now.size.cols subject.now.file.now report) }
{
    let finding = advice_finding(alloc, text)?;
    report_on(alloc, subject, Verdict::Advice, None, finding)
}

/// The capability with which the advice `text` begins, and the words behind it.
fn advice_finding(alloc: Global, text: &[u8]) -> Result<Finding, AllocError>
    ensures nowhere { IfOk result (λ finding. IsNowhere finding.place) }
    ensures says { IfOk result (λ finding. SaysWords finding) }
{
    let end = text
        .iter()
        .position(|byte| *byte == b':')
        .unwrap_or(text.len());
    let words = text.get(end..).unwrap_or(&[]);
    let words = words.strip_prefix(b": ").unwrap_or(words);
    let capability = text_of(alloc, text.get(..end).unwrap_or(text))?;
    Finding::of_words(alloc, Some(capability), ValuePlace::nowhere(), words)
}
