//! The objects of a result of SARIF. Their members are in the order of their names.

use serde::Serialize;

/// A finding.
#[derive(Drop, Serialize)]
#[serde(rename_all = "camelCase")]
pub struct SarifResult<'a> {
    #[serde(skip_serializing_if = "Vec::is_empty")]
    pub fixes: Vec<Fix>,
    pub level: Level,
    pub locations: Vec<Location<'a>>,
    pub message: Message,
    pub partial_fingerprints: Prints,
    pub rule_id: &'a str,
}

/// How much a finding matters.
#[derive(Clone, Copy, Debug, PartialEq, Eq, Serialize)]
#[serde(rename_all = "lowercase")]
pub enum Level {
    Error,
    Warning,
    Note,
}

/// A text in an object of its own.
#[derive(Drop, Serialize)]
pub struct Message {
    pub text: String,
}

/// The statement that distinguishes a finding from others in later runs.
#[derive(Drop, Serialize)]
pub struct Prints {
    #[serde(rename = "ticurses/v1")]
    pub statement: String,
}

/// A change that mends a finding.
#[derive(Drop, Serialize)]
#[serde(rename_all = "camelCase")]
pub struct Fix {
    pub artifact_changes: Vec<Change>,
    pub description: Message,
}

/// The change of a file.
#[derive(Drop, Serialize)]
#[serde(rename_all = "camelCase")]
pub struct Change {
    pub artifact_location: Artifact,
    pub replacements: Vec<Replacement>,
}

/// A file.
#[derive(Drop, Serialize)]
pub struct Artifact {
    pub uri: String,
}

/// A text in place of a field.
#[derive(Drop, Serialize)]
#[serde(rename_all = "camelCase")]
pub struct Replacement {
    pub deleted_region: Region,
    pub inserted_content: Message,
}

/// A field of a file, or only its line. Lines and columns count from 1, and the last column is the one after the field.
#[derive(Clone, Copy, Serialize)]
#[serde(rename_all = "camelCase")]
pub struct Region {
    #[serde(skip_serializing_if = "Option::is_none")]
    pub end_column: Option<usize>,
    #[serde(skip_serializing_if = "Option::is_none")]
    pub end_line: Option<usize>,
    #[serde(skip_serializing_if = "Option::is_none")]
    pub start_column: Option<usize>,
    pub start_line: usize,
}

/// The place of a finding.
#[derive(Drop, Serialize)]
#[serde(rename_all = "camelCase")]
pub struct Location<'a> {
    pub logical_locations: Vec<Logical<'a>>,
    pub physical_location: Physical,
}

/// An entry.
#[derive(Drop, Serialize)]
pub struct Logical<'a> {
    pub name: &'a str,
}

/// A region of a file.
#[derive(Drop, Serialize)]
#[serde(rename_all = "camelCase")]
pub struct Physical {
    pub artifact_location: Artifact,
    #[serde(skip_serializing_if = "Option::is_none")]
    pub region: Option<Region>,
}
