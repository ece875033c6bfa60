//! The forms of reports: without what an earlier run has said, and as a file of SARIF.

ghost use Rattle.std.specs.Prelude.{◌≡◌, ◌++◌, IfOk};
ghost use Rattle.ticurses.specs.Formed.{IsFormed};

use std::alloc::Global;
use ti_arguments::Asked;
use ti_files::{Failure, Files, Remarks, Replied, Reply, read_whole};
use ti_printers::{Baseline, BaselineFault, sarif_file};

/// The most bytes of an earlier run's reports.
const LONGEST_REPORT: u32 = 268_435_456;

/// Whether the reports that are `asked` for are kept until all are known.
pub fn is_kept(asked: &Asked<'_>) -> bool {
    asked.sarif || asked.baseline.is_some()
}

/// The earlier run's reports, if what is `asked` for leaves them out. They are read from `files`.
pub fn baseline_of<F: Files>(
    alloc: Global,
    asked: &Asked<'_>,
    files: &mut F,
    remarks: &mut Remarks,
) -> Result<Option<Baseline>, Failure> {
    let Some(path) = asked.baseline else {
        return Ok(None);
    };
    let earlier = read_whole(alloc, files, path, LONGEST_REPORT, remarks)?;
    let Ok(reports) = str::from_utf8(earlier.as_slice()) else {
        remarks.add(path.as_bytes(), b" is no output of --json");
        return Err(unread(alloc, path));
    };
    match Baseline::new(alloc, reports) {
        Ok(baseline) => Ok(Some(baseline)),
        Err(BaselineFault::NoReport(line)) => {
            if let Ok(words) = format!(in alloc;
                " is no output of --json: line {line} has no report"
            ) {
                remarks.add(path.as_bytes(), words.as_bytes());
            }
            Err(unread(alloc, path))
        }
        Err(BaselineFault::NoMemory) => Err(Failure::NoMemory),
    }
}

/// The failure of the file at `path`.
fn unread(alloc: Global, path: &str) -> Failure {
    match String::from_str(alloc, path) {
        Ok(path) => Failure::File(path),
        Err(_) => Failure::NoMemory,
    }
}

/// Adds a line to `remarks` that says how many findings of the `baseline` this run didn't have, if there are any.
pub fn count_gone(
    alloc: Global,
    asked: &Asked<'_>,
    baseline: &Option<Baseline>,
    remarks: &mut Remarks,
) {
    let (Some(path), Some(baseline)) = (asked.baseline, baseline) else {
        return;
    };
    let gone = baseline.count_gone();
    if gone > 0 {
        let has = if gone == 1 {
            "finding is"
        } else {
            "findings are"
        };
        if let Ok(words) = format!(in alloc; ": {gone} {has} gone") {
            remarks.add(path.as_bytes(), words.as_bytes());
        }
    }
}

/// The `reply` with the `kept` reports before its own text; as a file, if SARIF is `asked` for.
pub fn formed(alloc: Global, asked: &Asked<'_>, kept: Vec<u8>, reply: Reply) -> Replied
    ensures text { IfOk result (λ formed.
        IsFormed asked.now.sarif (kept.items ++ reply.text.items) formed.text.items) }
    ensures notes { IfOk result (λ formed. formed.notes ≡ reply.notes) }
    ensures failure { IfOk result (λ formed. formed.failure ≡ reply.failure) }
{
    let Reply {
        notes,
        text: own,
        failure,
    } = reply;
    if is_unwritten(&failure) {
        return Err(Failure::NoMemory);
    }
    let mut reports = kept;
    reports.extend_from_slice(own.as_slice())?;
    let text = if asked.sarif {
        sarif_file(alloc, reports.as_slice())?
    } else {
        reports
    };
    Ok(Reply {
        notes,
        text,
        failure,
    })
}

/// Whether memory ran out when the reports were kept.
fn is_unwritten(failure: &Option<Failure>) -> bool {
    matches!(
        failure,
        Some(Failure::Output) | Some(Failure::RefusedUnwritten(_))
    )
}
