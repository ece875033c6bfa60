//! Reports: an object for an entry, or for each of its faults.

use crate::explanations::Explanation;
use crate::places::ValuePlace;
use crate::texts::text_of;
use crate::written::Written;
use std::alloc::{AllocError, Global};
use ti_grades::Grade;
use ti_hints::HintKind;
use ti_openings::Bound;
use ti_sources::Region;

/// The verdict on an entry.
#[derive(Clone, Copy, Debug, PartialEq, Eq)]
pub enum Verdict {
    /// The entry has a certificate, and a session on it this bound.
    Yes(Bound),
    /// The entry has a fault.
    No,
    /// The entry can't be read.
    Refused,
    /// Advice on the entry, beside its verdict.
    Advice,
    /// A hint of this kind about a field of the entry's source text, beside its verdict.
    Hint(HintKind),
}

impl Verdict {
    ghost use Rattle.std.specs.Prelude.{◌≡◌};
    ghost use Rattle.ti_reports.specs.Reports as spec;

    /// Whether the verdict is that something is wrong; advice and hints aren't.
    pub fn is_wrong(self) -> bool
        ensures { result ≡ spec.is_wrong self }
    {
        match self {
            Verdict::No | Verdict::Refused => true,
            Verdict::Yes(_) | Verdict::Advice | Verdict::Hint(_) => false,
        }
    }
}

/// The contents of one object, about an entry or one of its faults. A field that doesn't apply is `None` or empty.
#[derive(Debug, Drop)]
pub struct Report {
    /// The entry's first name; `None` for a file that has no entries.
    pub entry: Option<Written>,
    /// The entry's other names, the description last.
    pub aliases: Vec<Written>,
    /// Whether the entry is only there to be used by others; `None` if there is no entry.
    pub is_part: Option<bool>,
    /// The terminal's rows.
    pub rows: usize,
    /// The terminal's columns.
    pub cols: usize,
    /// The path of the file that has the entry.
    pub file: String,
    /// The verdict on the entry.
    pub verdict: Verdict,
    /// The kind of the fault, or the reason why the entry can't be read.
    pub cause: Option<String>,
    /// The fault, the advice, or the hint.
    pub finding: Finding,
}

/// The contents of a report about a fault. A field that doesn't apply is `None` or empty.
#[derive(Debug, Drop)]
pub struct Finding {
    /// The capability at fault.
    pub capability: Option<String>,
    /// The parameters of the capability.
    pub parameters: Vec<u16>,
    /// The bytes that its string sends for these parameters, in hexadecimal.
    pub bytes: Option<String>,
    /// The place of the capability's value, or of the reason why an entry can't be obtained.
    pub place: ValuePlace,
    /// The region of the part of the value that is at fault, if a smaller part is known than the whole.
    pub faulty_region: Option<Region>,
    /// The capability's string.
    pub string: Option<Written>,
    /// The string that would be right.
    pub suggestion: Option<Written>,
    /// The fields that are to be given with this string, since they are mended as one.
    pub suggested_with: Vec<String>,
    /// The run that shows the fault.
    pub run: Explanation,
    /// Whether the fault was shown; `false` if the string may be right.
    pub judged: Option<bool>,
    /// The fault's grade.
    pub grade: Option<Grade>,
    /// Whether the entry seems to be for a terminal of another kind.
    pub another_kind: Option<bool>,
    /// The names of what a session on the entry goes without.
    pub left_out: Vec<String>,
    /// Lines that explain the fault, the advice or the hint to people.
    pub explanation: Vec<String>,
}

impl Finding {
    ghost use Rattle.std.specs.Prelude.{◌≡◌, IfOk};
    ghost use Rattle.ti_reports.specs.Reports as spec;

    /// A finding without a fault: these `words` about the `capability` at `place`.
    pub fn of_words(
        alloc: Global,
        capability: Option<String>,
        place: ValuePlace,
        words: &[u8],
    ) -> Result<Finding, AllocError>
        ensures capability { IfOk result (λ finding. finding.capability ≡ capability) }
        ensures place { IfOk result (λ finding. finding.place ≡ place) }
        ensures says { IfOk result (λ finding. spec.SaysWords finding) }
    {
        let mut finding = Finding::none(alloc);
        finding.capability = capability;
        finding.place = place;
        finding.explanation.push(text_of(alloc, words)?)?;
        Ok(finding)
    }

    /// No fault.
    pub fn none(alloc: Global) -> Finding
        ensures { spec.IsNothing result }
    {
        Finding {
            capability: None,
            parameters: Vec::new(alloc),
            bytes: None,
            place: ValuePlace::nowhere(),
            faulty_region: None,
            string: None,
            suggestion: None,
            suggested_with: Vec::new(alloc),
            run: Explanation {
                start: None,
                wanted: None,
                seen: None,
            },
            judged: None,
            grade: None,
            another_kind: None,
            left_out: Vec::new(alloc),
            explanation: Vec::new(alloc),
        }
    }
}
