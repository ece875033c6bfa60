//! The entries of a survey on which a session opens.

ghost use Rattle.std.specs.{Prelude.{◌≡◌, IfOk}, List.{count_by}};
ghost use Rattle.ti_faults.specs.AllFaults.{AreAllFaults};
ghost use Rattle.ti_surveys.specs.Openings as spec;

use crate::kinds::EntryKind;
use std::alloc::{AllocError, Global};
use ti_caps::Entry;
use ti_checker::No;
use ti_openings::opens_beside;
use ti_verdicts::Lines;
use vt_term::Size;

/// Whether a session opens on `entry`, whole or without some of its strings; nothing about an entry that is only there
/// to be used, or is for a terminal of another kind. The entry must be of this `kind`, and `nos` all of its faults.
pub(crate) fn openings_of(
    alloc: Global,
    kind: EntryKind,
    entry: &Entry,
    size: Size,
    nos: &[No],
) -> Result<Vec<bool>, AllocError>
    requires { AreAllFaults entry.now size.rows size.cols nos.now }
    ensures { IfOk result (λ opened. spec.AreOpenings kind entry.now size.rows size.cols opened.items) }
{
    match kind {
        EntryKind::Part | EntryKind::Other => Ok(Vec::new(alloc)),
        EntryKind::Usual => {
            let opens = opens_beside(alloc, entry, size, nos)?;
            Ok(vec![in alloc; opens]?)
        }
    }
}

/// For each entry that was asked about, whether a session opens on it; and whether a line has the number of these.
#[derive(Clone, Copy)]
pub(crate) struct Opened<'a> {
    pub(crate) is_counted: bool,
    pub(crate) entries: &'a [bool],
}

/// The line with the number of entries on which a session opens, if there is to be one.
pub(crate) fn openings_line(alloc: Global, opened: Opened<'_>) -> Lines {
    if !opened.is_counted {
        return Ok(Vec::new(alloc));
    }
    let count = count_of(opened.entries);
    let line = format!(in alloc; "opens {count}\n")?;
    Ok(line.into_bytes())
}

/// How many of these open.
fn count_of(opened: &[bool]) -> usize
    ensures { result ≡ count_by (λ opens. opens) opened.now }
{
    opened.iter().filter(|opens| **opens).count()
}
