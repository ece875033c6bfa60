//! The reports that say something new beside an earlier run's.

ghost use Rattle.std.specs.{Prelude.{◌≡◌, ◌≤◌, not, map, option_map}, List.{list_any}};
ghost use Rattle.ti_printers.specs.Baselines as spec;

use crate::paths::is_same_path;
use serde::Deserialize;
use std::alloc::{AllocError, Global};
use std::cell::Cell;
use ti_reports::{Form, Report, Verdict, Written};

/// The members of an object by which its statement is known in a later run. Others are passed over.
#[derive(Debug, Drop, Deserialize)]
struct Known {
    file: String,
    size: KnownSize,
    entry_hex: Option<String>,
    verdict: KnownVerdict,
    cause: Option<String>,
    capability: Option<String>,
    parameters: Vec<u16>,
    explanation: Vec<String>,
}

/// The size in an object.
#[derive(Clone, Copy, Debug, PartialEq, Eq, Deserialize)]
struct KnownSize {
    cols: usize,
    rows: usize,
}

/// The verdict of an object.
#[derive(Clone, Copy, Debug, PartialEq, Eq, Deserialize)]
#[serde(rename_all = "lowercase")]
enum KnownVerdict {
    Yes,
    No,
    Refused,
    Advice,
    Hint,
}

/// The statement of an object of the earlier run, and whether a report of this run repeats it.
#[derive(Drop)]
struct Statement {
    known: Known,
    is_repeated: Cell<bool>,
}

/// The statements of an earlier run's reports in JSON.
#[derive(Drop)]
pub struct Baseline {
    statements: Vec<Statement>,
}

/// Why a text is no baseline.
#[derive(Clone, Copy, Debug, PartialEq, Eq)]
pub enum BaselineFault {
    /// The line with this number, from 1, is no object of a report.
    NoReport(usize),
    /// Out of memory.
    NoMemory,
}

impl From<AllocError> for BaselineFault {
    fn from(_refused: AllocError) -> BaselineFault {
        BaselineFault::NoMemory
    }
}

impl Baseline {
    ghost use Rattle.std.specs.Prelude.{◌≡◌};
    ghost use Rattle.ti_printers.specs.Baselines as spec;

    /// The statements of the lines of `reports`, each of which must be an object of a report.
    ///
    /// # Errors
    /// `NoReport` with the first line that is none; `NoMemory`.
    pub fn new(alloc: Global, reports: &str) -> Result<Baseline, BaselineFault> {
        let mut statements = Vec::new(alloc);
        for (number, line) in reports.lines().enumerate() {
            let Some(known) = known_in(alloc, line)? else {
                return Err(BaselineFault::NoReport(number.saturating_add(1)));
            };
            let statement = Statement {
                known,
                is_repeated: Cell::new(false),
            };
            if statements.push(statement).is_err() {
                return Err(BaselineFault::NoMemory);
            }
        }
        Ok(Baseline { statements })
    }

    /// Whether an object says what `report` says of the same entry of the same file, whatever line it is on. Each
    /// object that does isn't counted by `count_gone` any more.
    pub fn knows(&self, report: &Report) -> bool
        ensures { result ≡ spec.knows self.now report.now }
    {
        let mut is_known = false;
        for statement in &self.statements {
            if says(&statement.known, report) {
                statement.is_repeated.set(true);
                is_known = true;
            }
        }
        is_known
    }

    /// How many faults and refusals no report has stated again of which `knows` was asked.
    pub fn count_gone(&self) -> usize {
        self.statements.iter().filter(|one| is_gone(one)).count()
    }
}

/// Whether the `statement` is about something wrong and hasn't been repeated.
fn is_gone(statement: &Statement) -> bool {
    match statement.known.verdict {
        KnownVerdict::No | KnownVerdict::Refused => !statement.is_repeated.get(),
        KnownVerdict::Yes | KnownVerdict::Advice | KnownVerdict::Hint => false,
    }
}

/// Reads a report's members from `line`, if it is an object of one.
fn known_in(alloc: Global, line: &str) -> Result<Option<Known>, AllocError> {
    match serde_json::from_str(alloc, line) {
        Ok(known) => Ok(Some(known)),
        Err(error) if error.is_memory() => Err(AllocError),
        Err(_) => Ok(None),
    }
}

/// Whether `known` says what `report` does.
fn says(known: &Known, report: &Report) -> bool
    ensures { result ≡ spec.says known.now report.now }
{
    is_about(known, report) && states(known, report)
}

/// Whether `known` is about the entry of `report` at its size.
fn is_about(known: &Known, report: &Report) -> bool
    ensures { result ≡ spec.is_about known.now report.now }
{
    known.size.rows == report.rows
        && known.size.cols == report.cols
        && is_digits_of(&known.entry_hex, &report.entry)
        && is_same_path(known.file.as_str(), report.file.as_str())
}

/// Whether `digits` are those of `name`, or neither is there.
fn is_digits_of(digits: &Option<String>, name: &Option<Written>) -> bool
    ensures { result ≡ spec.is_digits_of digits.now name.now }
{
    match (digits, name) {
        (Some(digits), Some(name)) => digits.as_str() == name.hex.as_str(),
        (None, None) => true,
        (Some(_), None) | (None, Some(_)) => false,
    }
}

/// Whether `known` states of its entry what `report` does.
fn states(known: &Known, report: &Report) -> bool
    ensures { result ≡ spec.states known.now report.now }
{
    match (known.verdict, report.verdict) {
        (KnownVerdict::Yes, Verdict::Yes(_)) => true,
        (KnownVerdict::No, Verdict::No) => {
            is_same(&known.cause, &report.cause) && has_subject(known, report)
        }
        (KnownVerdict::Refused, Verdict::Refused) => is_same(&known.cause, &report.cause),
        (KnownVerdict::Advice, Verdict::Advice) => {
            has_subject(known, report) && is_worded(known, report)
        }
        (KnownVerdict::Hint, Verdict::Hint(_)) => is_worded(known, report),
        (KnownVerdict::Yes, Verdict::No | Verdict::Refused | Verdict::Advice | Verdict::Hint(_)) =>
            false,
        (
            KnownVerdict::No,
            Verdict::Yes(_) | Verdict::Refused | Verdict::Advice | Verdict::Hint(_),
        ) => false,
        (
            KnownVerdict::Refused,
            Verdict::Yes(_) | Verdict::No | Verdict::Advice | Verdict::Hint(_),
        ) => false,
        (
            KnownVerdict::Advice,
            Verdict::Yes(_) | Verdict::No | Verdict::Refused | Verdict::Hint(_),
        ) => false,
        (KnownVerdict::Hint, Verdict::Yes(_) | Verdict::No | Verdict::Refused | Verdict::Advice) =>
            false,
    }
}

/// Whether `known` is about the capability and the parameters of `report`.
fn has_subject(known: &Known, report: &Report) -> bool
    ensures { result ≡ spec.has_subject known.now report.now }
{
    is_same(&known.capability, &report.finding.capability)
        && known.parameters.as_slice() == report.finding.parameters.as_slice()
}

/// Whether the two texts are the same, or neither is there.
fn is_same(one: &Option<String>, other: &Option<String>) -> bool
    ensures { result ≡ spec.is_same one.now other.now }
{
    match (one, other) {
        (Some(one), Some(other)) => one.as_str() == other.as_str(),
        (None, None) => true,
        (Some(_), None) | (None, Some(_)) => false,
    }
}

/// Whether the first lines of both explanations are the same. Advice and hints have one line.
fn is_worded(known: &Known, report: &Report) -> bool
    ensures { result ≡ spec.is_worded known.now report.now }
{
    match (
        known.explanation.as_slice(),
        report.finding.explanation.as_slice(),
    ) {
        ([one, ..], [other, ..]) => one.as_str() == other.as_str(),
        ([], []) => true,
        ([_, ..], []) | ([], [_, ..]) => false,
    }
}

/// Prints the reports that a baseline doesn't know, in another form.
#[derive(Clone, Copy)]
pub struct News<'a, P> {
    /// The earlier run's reports.
    pub baseline: &'a Baseline,
    /// The form.
    pub form: &'a P,
}

impl<P: Form> Form for News<'_, P> {
    ghost use Rattle.std.specs.Prelude.{not};
    ghost use Rattle.ti_printers.specs.Baselines as spec;

    ghost wanted = { λ news report. not (spec.knows news.baseline.now report) };

    ghost prints = { λ news report text. spec.PrintsNews (spec.knows news.baseline.now report)
        (P.prints news.form.now report) text };

    fn wants(&self, report: &Report) -> bool {
        !self.baseline.knows(report)
    }

    fn print(&self, alloc: Global, report: &Report) -> Result<Vec<u8>, AllocError> {
        if self.baseline.knows(report) {
            Ok(Vec::new(alloc))
        } else {
            self.form.print(alloc, report)
        }
    }
}
