//! Further lines about sessions: what one goes without, and its bound.

ghost use Rattle.ti_faults.specs.AllFaults.{AreAllFaults};

use crate::bounds::{Bound, bound_of};
use crate::openings::{Names, names_left_out, names_left_out_beside};
use std::alloc::{AllocError, Global};
use ti_caps::Entry;
use ti_checker::No;
use ti_files::Remarks;
use vt_term::Size;

/// Adds to `remarks` the names of what a session on `entry` goes without, if there is a session without some strings,
/// and memory for the line.
pub fn note_left_out_names(alloc: Global, entry: &Entry, size: Size, remarks: &mut Remarks) {
    let _ = note_names(alloc, names_left_out(alloc, entry, size), remarks);
}

/// As [`note_left_out_names`], for an entry all of whose faults are `nos`.
pub fn note_names_beside(
    alloc: Global,
    entry: &Entry,
    size: Size,
    nos: &[No],
    remarks: &mut Remarks,
)
    requires { AreAllFaults entry.now size.rows size.cols nos.now }
{
    let _ = note_names(
        alloc,
        names_left_out_beside(alloc, entry, size, nos),
        remarks,
    );
}

/// Adds to `remarks` the names that were `found`, if there are any.
fn note_names(
    alloc: Global,
    found: Result<Option<Names>, AllocError>,
    remarks: &mut Remarks,
) -> Result<(), AllocError> {
    if let Some(names) = found? {
        remarks.add_words(names_words(alloc, names.as_slice())?.as_slice());
    }
    Ok(())
}

/// The words that a session leaves out what has these `names`; none without names.
fn names_words(alloc: Global, names: &[&'static [u8]]) -> Result<Vec<u8>, AllocError> {
    let mut words = Vec::new(alloc);
    for name in names {
        if words.is_empty() {
            words.extend_from_slice(b"a session leaves out")?;
        }
        words.push(b' ')?;
        words.extend_from_slice(name)?;
    }
    Ok(words)
}

/// Adds to `remarks` the bound of a session on `entry`, which has a certificate, if there is memory for the line.
pub fn note_bound(alloc: Global, entry: &Entry, size: Size, remarks: &mut Remarks) {
    if let Ok(
        Bound {
            cell_limit,
            way_out,
        },
    ) = bound_of(alloc, entry, size)
    {
        if let Ok(words) = format!(in alloc;
            "a refresh sends at most {cell_limit} bytes for each cell that \
            differs, and once more; the way out of an unknown state has {way_out}"
        ) {
            remarks.add_words(words.as_bytes());
        }
    }
}
