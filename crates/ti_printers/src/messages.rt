//! The words of a finding, for people.

use crate::json::rule_of;
use std::alloc::{AllocError, Global};
use ti_reports::{Report, Verdict};

/// The `text`, or an empty one.
pub(crate) fn text_or_empty(text: &Option<String>) -> &str {
    match text {
        Some(text) => text.as_str(),
        None => "",
    }
}

/// The name of the entry of `report`, or the path of a file that has none.
pub(crate) fn name_of(report: &Report) -> &str {
    match &report.entry {
        Some(name) => name.text.as_str(),
        None => report.file.as_str(),
    }
}

/// The capability of `report` and its parameters.
fn subject_text(alloc: Global, report: &Report) -> Result<String, AllocError> {
    let mut text = String::from_str(alloc, text_or_empty(&report.finding.capability))?;
    for number in &report.finding.parameters {
        text.push_str(format!(in alloc; " {number}")?.as_str())?;
    }
    Ok(text)
}

/// The statement of `report`: `no CAP P..: CAUSE`, as the plain form has it, `refused: ..`, `advice CAP`, or
/// `hint RULE`.
fn statement_text(alloc: Global, report: &Report) -> Result<String, AllocError> {
    let subject = subject_text(alloc, report)?;
    let cause = text_or_empty(&report.cause);
    let rule = rule_of(report).unwrap_or("");
    match report.verdict {
        Verdict::Yes(_) => Ok(subject),
        Verdict::No => format!(in alloc; "no {subject}: {cause}"),
        Verdict::Refused => format!(in alloc; "refused: {cause}"),
        Verdict::Advice => format!(in alloc; "advice {subject}"),
        Verdict::Hint(_) => format!(in alloc; "hint {rule}"),
    }
}

/// The statement of `report` about an entry of a file, whatever line it is on.
pub(crate) fn statement_key(alloc: Global, report: &Report) -> Result<String, AllocError> {
    let file = report.file.as_str();
    let entry = match &report.entry {
        Some(name) => name.hex.as_str(),
        None => "",
    };
    let statement = statement_text(alloc, report)?;
    format!(in alloc; "{file}:{entry}:{statement}")
}

/// The message about the finding of `report`: the entry and the statement, then the lines that explain it, and the
/// suggestion.
pub(crate) fn message_text(alloc: Global, report: &Report) -> Result<String, AllocError> {
    let name = name_of(report);
    let statement = statement_text(alloc, report)?;
    let mut text = format!(in alloc; "{name}: {statement}")?;
    for line in &report.finding.explanation {
        text.push_str("\n")?;
        text.push_str(line.as_str())?;
    }
    text.push_str(suggestion_text(alloc, report)?.as_str())?;
    Ok(text)
}

/// The line of the string that would be right, if one is known.
fn suggestion_text(alloc: Global, report: &Report) -> Result<String, AllocError> {
    match &report.finding.suggestion {
        None => Ok(String::new(alloc)),
        Some(suggestion) => {
            let capability = text_or_empty(&report.finding.capability);
            let string = suggestion.text.as_str();
            format!(in alloc; "\n{capability}={string} would be right on T")
        }
    }
}
