//! The region of the part of a value that is at fault.

ghost use Rattle.std.specs.Prelude.{◌≡◌, IfOk, IfSome, map};
ghost use Rattle.ti_verdicts.specs.Excerpts.{IsFaulty, value_in};
ghost use Rattle.ti_sources.specs.LinedFiles.{file_text, put_files};
ghost use Rattle.ti_verdicts.specs.Locations as spec;

use crate::excerpts::value_in;
use crate::faulty_parts::{Judged, faulty_part};
use std::alloc::{AllocError, Global};
use ti_blames::Stretch;
use ti_caps::Cap;
use ti_resolve::Origin;
use ti_sources::{Columns, LinedFile, LinedFiles, Region, region_at};

/// The columns of `part` of `value`, which ends where these `columns` do.
pub(crate) fn part_columns(value: &[u8], columns: Columns, part: Stretch) -> Columns
    ensures { result ≡ spec.part_columns value.now columns part }
{
    let behind_start = value.len().saturating_sub(part.from);
    let behind_end = value.len().saturating_sub(part.to);
    Columns {
        start: columns.end.saturating_sub(behind_start),
        end: columns.end.saturating_sub(behind_end),
    }
}

/// The region of the part of the value that is at fault, in the field at `origin` of the `files`, of which the
/// `originals` are as they were before their lines were joined; `None` if no line has the field, or no smaller part is
/// known than the whole value.
///
/// # Errors
/// Out of memory.
pub(crate) fn faulty_region(
    alloc: Global,
    originals: &[LinedFile<'_>],
    files: &LinedFiles<'_, '_>,
    origin: Origin,
    fault: &Judged<'_>,
) -> Result<Option<Region>, AllocError>
    ensures { IfOk result (λ found. IfSome found (spec.IsFaultyRegion (map file_text originals.now)
        (put_files files.now) fault.now.no.now.cap origin)) }
{
    let Some(columns) = files.columns(origin, fault.no.cap) else {
        return Ok(None);
    };
    let value = value_in(fault.no.cap, files.piece(origin, columns));
    match faulty_part(alloc, value, fault)? {
        Some(part) => {
            let place = files.line(origin);
            Ok(Some(region_at(originals, place, part_columns(value, columns, part))))
        }
        None => Ok(None),
    }
}
