//! The result of a report.

use crate::json::rule_of;
use crate::messages::{message_text, name_of, statement_key, text_or_empty};
use crate::shape::{
    Artifact, Change, Fix, Level, Location, Logical, Message, Physical, Prints, Region,
    Replacement, SarifResult,
};
use crate::uris::uri_of;
use std::alloc::{AllocError, Global};
use ti_grades::Grade;
use ti_reports::{Report, Verdict, Written};

/// The JSON of the result of `report`.
///
/// # Errors
/// Out of memory.
pub fn result_of(alloc: Global, report: &Report) -> Result<String, AllocError> {
    let own = result_in(alloc, report)?;
    result_json(alloc, &own)
}

/// The JSON of `own`, a result.
fn result_json(alloc: Global, own: &SarifResult<'_>) -> Result<String, AllocError> {
    match serde_json::to_string(alloc, own) {
        Ok(text) => Ok(text),
        // the object has no map and no number that JSON can't have, so memory ran out
        Err(_) => Err(AllocError),
    }
}

/// The result of `report`.
fn result_in(alloc: Global, report: &Report) -> Result<SarifResult<'_>, AllocError> {
    let mut fixes = Vec::new(alloc);
    if let Some(fix) = fix_of(alloc, report)? {
        fixes.push(fix)?;
    }
    Ok(SarifResult {
        fixes,
        level: level_of(report),
        locations: vec![in alloc; location_of(alloc, report)?]?,
        message: Message {
            text: message_text(alloc, report)?,
        },
        partial_fingerprints: Prints {
            statement: statement_key(alloc, report)?,
        },
        rule_id: rule_of(report).unwrap_or(""),
    })
}

/// How much the finding of `report` matters: a fault by its grade, and what can't be read is an error.
fn level_of(report: &Report) -> Level {
    match report.verdict {
        Verdict::No if report.finding.another_kind == Some(true) => Level::Note,
        Verdict::No => level_by(report.finding.grade),
        Verdict::Refused => Level::Error,
        Verdict::Advice | Verdict::Hint(_) | Verdict::Yes(_) => Level::Note,
    }
}

/// How much a fault of this `grade` matters.
fn level_by(grade: Option<Grade>) -> Level {
    match grade {
        Some(Grade::Broken | Grade::Contradicts) => Level::Error,
        Some(Grade::Wrong) => Level::Warning,
        Some(Grade::Unknown) | None => Level::Note,
    }
}

/// The place in the file, and the entry.
fn location_of(alloc: Global, report: &Report) -> Result<Location<'_>, AllocError> {
    let name = name_of(report);
    Ok(Location {
        logical_locations: vec![in alloc; Logical { name }]?,
        physical_location: Physical {
            artifact_location: artifact_of(alloc, report)?,
            region: region_of(report),
        },
    })
}

/// The file that has the field of `report`, or else that of its entry.
fn artifact_of(alloc: Global, report: &Report) -> Result<Artifact, AllocError> {
    let path = match &report.finding.place.file {
        Some(path) => path.as_str(),
        None => report.file.as_str(),
    };
    let uri = uri_of(alloc, path)?;
    Ok(Artifact { uri })
}

/// The region of the field of `report`, or its line, as far as they are known.
fn region_of(report: &Report) -> Option<Region> {
    match field_of(report) {
        Some(region) => Some(region),
        None => report.finding.place.line.map(|start_line| Region {
            end_column: None,
            end_line: None,
            start_column: None,
            start_line,
        }),
    }
}

/// The region of the field of `report`, if it is known.
fn field_of(report: &Report) -> Option<Region> {
    report.finding.place.region.map(|region| Region {
        end_column: Some(region.end_column),
        end_line: Some(region.end_line),
        start_column: Some(region.column),
        start_line: region.line,
    })
}

/// The fix of `report`, if a string is suggested that is right without others, T could tell that the old one is wrong,
/// and the whole field is at a known place: the field with that string in place of the old one.
fn fix_of(alloc: Global, report: &Report) -> Result<Option<Fix>, AllocError> {
    match (sole_suggestion(report), field_of(report)) {
        (Some(suggestion), Some(deleted_region)) => {
            let replacement = Replacement {
                deleted_region,
                inserted_content: Message {
                    text: field_text(alloc, report, suggestion)?,
                },
            };
            Ok(Some(fix_by(alloc, report, replacement)?))
        }
        (Some(_), None) | (None, Some(_)) | (None, None) => Ok(None),
    }
}

/// The string that is suggested in `report`, if it is right without others, and T could tell that the old one is wrong.
fn sole_suggestion(report: &Report) -> Option<&Written> {
    if report.finding.suggested_with.is_empty() && report.finding.grade != Some(Grade::Unknown) {
        report.finding.suggestion.as_ref()
    } else {
        None
    }
}

/// The field that gives the capability of `report` the string `suggestion`.
fn field_text(alloc: Global, report: &Report, suggestion: &Written) -> Result<String, AllocError> {
    let capability = text_or_empty(&report.finding.capability);
    let text = suggestion.text.as_str();
    format!(in alloc; "{capability}={text}")
}

/// The fix of `report` by this `replacement`.
fn fix_by(alloc: Global, report: &Report, replacement: Replacement) -> Result<Fix, AllocError> {
    let change = Change {
        artifact_location: artifact_of(alloc, report)?,
        replacements: vec![in alloc; replacement]?,
    };
    Ok(Fix {
        artifact_changes: vec![in alloc; change]?,
        description: Message {
            text: String::from_str(alloc, "Give the string that would be right on T")?,
        },
    })
}
