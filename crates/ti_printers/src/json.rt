//! Reports in JSON, an object on a line each.

ghost use Rattle.std.specs.Prelude.{◌≡◌, true, IfOk};
ghost use Rattle.ti_printers.specs.Json.{IsObjectLine};

use crate::escapes::printable_json;
use serde::Serialize;
use std::alloc::{AllocError, Global};
use ti_hints::HintKind;
use ti_openings::Bound;
use ti_reports::{Explanation, Form, Report, Verdict, Written};
use ti_sources::Region;

/// The version of the objects' form.
const VERSION: u32 = 1;

/// Prints each report as an object on a line of its own, in bytes of 32 to 126.
#[derive(Clone, Copy, Debug)]
pub struct Json;

impl Form for Json {
    ghost wanted = { λ _ _. true };

    ghost prints = { λ _ _ line. IsObjectLine line };

    fn wants(&self, _report: &Report) -> bool {
        true
    }

    fn print(&self, alloc: Global, report: &Report) -> Result<Vec<u8>, AllocError> {
        object_line(alloc, report)
    }
}

/// The object of `report` on a line of its own.
fn object_line(alloc: Global, report: &Report) -> Result<Vec<u8>, AllocError>
    ensures { IfOk result (λ line. IsObjectLine line.items) }
{
    let object = object_of(alloc, report)?;
    let text = object_text(alloc, &object)?;
    let mut line = printable_json(alloc, text.as_str())?;
    line.push(b'\n')?;
    Ok(line)
}

/// The JSON of `object`.
fn object_text(alloc: Global, object: &Object<'_>) -> Result<String, AllocError> {
    match serde_json::to_string(alloc, object) {
        Ok(text) => Ok(text),
        // the object has no map and no number that JSON can't have, so memory ran out
        Err(_) => Err(AllocError),
    }
}

/// The members of an object, in the order of their names. One that doesn't apply is null or an empty list.
#[derive(Drop, Serialize)]
struct Object<'a> {
    aliases: Vec<&'a str>,
    aliases_hex: Vec<&'a str>,
    another_kind: Option<bool>,
    bytes: Option<&'a str>,
    capability: Option<&'a str>,
    cause: Option<&'a str>,
    cell_limit: Option<usize>,
    column: Option<usize>,
    end_column: Option<usize>,
    end_line: Option<usize>,
    entry: Option<&'a str>,
    entry_hex: Option<&'a str>,
    explanation: &'a [String],
    fault_column: Option<usize>,
    fault_end_column: Option<usize>,
    fault_end_line: Option<usize>,
    fault_line: Option<usize>,
    file: &'a str,
    grade: Option<&'static str>,
    judged: Option<bool>,
    left_out: &'a [String],
    line: Option<usize>,
    parameters: &'a [u16],
    part: Option<bool>,
    rule: Option<&'a str>,
    seen: Option<&'a str>,
    size: TerminalSize,
    source_entry: Option<&'a str>,
    source_entry_hex: Option<&'a str>,
    source_file: Option<&'a str>,
    start: Option<&'a str>,
    string: Option<&'a str>,
    string_hex: Option<&'a str>,
    suggested_with: &'a [String],
    suggestion: Option<&'a str>,
    suggestion_hex: Option<&'a str>,
    verdict: &'a str,
    version: u32,
    wanted: Option<&'a str>,
    way_out: Option<usize>,
}

/// The terminal's size.
#[derive(Clone, Copy, Serialize)]
struct TerminalSize {
    cols: usize,
    rows: usize,
}

/// The members of `report`.
fn object_of<'a>(alloc: Global, report: &'a Report) -> Result<Object<'a>, AllocError> {
    let finding = &report.finding;
    let Explanation {
        start,
        wanted,
        seen,
    } = &finding.run;
    let place = &finding.place;
    let bound = bound_in(report);
    Ok(Object {
        aliases: texts_in(alloc, report.aliases.as_slice())?,
        aliases_hex: digits_in(alloc, report.aliases.as_slice())?,
        another_kind: finding.another_kind,
        bytes: text_if(&finding.bytes),
        capability: text_if(&finding.capability),
        cause: text_if(&report.cause),
        cell_limit: bound.map(|bound| bound.cell_limit),
        column: column(place.region),
        end_column: end_column(place.region),
        end_line: end_line(place.region),
        entry: text_in(&report.entry),
        entry_hex: hex_in(&report.entry),
        explanation: finding.explanation.as_slice(),
        fault_column: column(finding.faulty_region),
        fault_end_column: end_column(finding.faulty_region),
        fault_end_line: end_line(finding.faulty_region),
        fault_line: finding.faulty_region.map(|region| region.line),
        file: report.file.as_str(),
        grade: finding.grade.map(|grade| grade.name()),
        judged: finding.judged,
        left_out: finding.left_out.as_slice(),
        line: place.line,
        parameters: finding.parameters.as_slice(),
        part: report.is_part,
        rule: rule_of(report),
        seen: text_if(seen),
        size: TerminalSize {
            cols: report.cols,
            rows: report.rows,
        },
        source_entry: text_in(&place.entry),
        source_entry_hex: hex_in(&place.entry),
        source_file: text_if(&place.file),
        start: text_if(start),
        string: text_in(&finding.string),
        string_hex: hex_in(&finding.string),
        suggested_with: finding.suggested_with.as_slice(),
        suggestion: text_in(&finding.suggestion),
        suggestion_hex: hex_in(&finding.suggestion),
        verdict: verdict_word(report.verdict),
        version: VERSION,
        wanted: text_if(wanted),
        way_out: bound.map(|bound| bound.way_out),
    })
}

/// The bound of a session, if the entry of `report` has a certificate.
fn bound_in(report: &Report) -> Option<Bound> {
    match report.verdict {
        Verdict::Yes(bound) => Some(bound),
        Verdict::No | Verdict::Refused | Verdict::Advice | Verdict::Hint(_) => None,
    }
}

/// The word for `verdict`.
fn verdict_word(verdict: Verdict) -> &'static str {
    match verdict {
        Verdict::Yes(_) => "yes",
        Verdict::No => "no",
        Verdict::Refused => "refused",
        Verdict::Advice => "advice",
        Verdict::Hint(_) => "hint",
    }
}

/// The name of the kind of finding of `report`; `None` for a yes: the cause of a no, one name for all that can't be
/// read, one for advice, and the kind of a hint.
pub(crate) fn rule_of(report: &Report) -> Option<&str> {
    match report.verdict {
        Verdict::Yes(_) => None,
        Verdict::No => text_if(&report.cause),
        Verdict::Refused => Some("Refused"),
        Verdict::Advice => Some("Advice"),
        Verdict::Hint(kind) => Some(hint_rule(kind)),
    }
}

/// The name of this kind of hint.
fn hint_rule(kind: HintKind) -> &'static str {
    match kind {
        HintKind::UnknownName => "UnknownName",
        HintKind::Duplicate => "Duplicate",
        HintKind::OddEscape => "OddEscape",
        HintKind::PercentCaret => "PercentCaret",
        HintKind::FurtherFields => "FurtherFields",
    }
}

/// The `text`, if there is one.
fn text_if(text: &Option<String>) -> Option<&str> {
    match text {
        Some(text) => Some(text.as_str()),
        None => None,
    }
}

/// The first form of `written`, if there is one.
fn text_in(written: &Option<Written>) -> Option<&str> {
    match written {
        Some(written) => Some(written.text.as_str()),
        None => None,
    }
}

/// The digits of `written`, if there are any.
fn hex_in(written: &Option<Written>) -> Option<&str> {
    match written {
        Some(written) => Some(written.hex.as_str()),
        None => None,
    }
}

/// The first forms of `names`.
fn texts_in<'a>(alloc: Global, names: &'a [Written]) -> Result<Vec<&'a str>, AllocError> {
    let mut texts = Vec::new(alloc);
    for name in names {
        texts.push(name.text.as_str())?;
    }
    Ok(texts)
}

/// The digits of `names`.
fn digits_in<'a>(alloc: Global, names: &'a [Written]) -> Result<Vec<&'a str>, AllocError> {
    let mut digits = Vec::new(alloc);
    for name in names {
        digits.push(name.hex.as_str())?;
    }
    Ok(digits)
}

/// The column of the first byte of `region`.
fn column(region: Option<Region>) -> Option<usize> {
    region.map(|region| region.column)
}

/// The line on which `region` ends.
fn end_line(region: Option<Region>) -> Option<usize> {
    region.map(|region| region.end_line)
}

/// The column after the last byte of `region`.
fn end_column(region: Option<Region>) -> Option<usize> {
    region.map(|region| region.end_column)
}
