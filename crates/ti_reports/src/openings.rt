//! The capabilities that a session on a reported entry goes without, and its bound.

ghost use Rattle.std.specs.Prelude.{IfOk};
ghost use Rattle.ti_faults.specs.AllFaults.{AreAllFaults};
ghost use Rattle.ti_openings.specs.Openings.{IsBound, texts_of};
ghost use Rattle.ti_reports.specs.Findings.{AreFaults};
ghost use Rattle.ti_reports.specs.Openings as spec;
ghost use Rattle.ti_verdicts.specs.Parts.{HasParts};

use crate::texts::text_of;
use std::alloc::{AllocError, Global};
use ti_caps::Entry;
use ti_checker::No;
use ti_openings::{Bound, Names, bound_of, names_left_out_beside};
use vt_term::Size;

/// The names of what a session on `entry` goes without, if `lists_all`, that is, if `nos` are all of its faults; none
/// if they aren't, or if there is no session.
pub(crate) fn left_out_if(
    alloc: Global,
    lists_all: bool,
    entry: &Entry,
    size: Size,
    nos: &[No],
) -> Result<Names, AllocError>
    requires { AreFaults lists_all entry.now size.rows size.cols nos.now }
    ensures { IfOk result (λ names. spec.AreLeftOut lists_all entry.now size.rows size.cols (texts_of names.items)) }
{
    if lists_all {
        left_out(alloc, entry, size, nos)
    } else {
        Ok(Vec::new(alloc))
    }
}

/// The names of what a session on `entry` goes without; none if there is no session. `nos` must be all of its faults.
fn left_out(alloc: Global, entry: &Entry, size: Size, nos: &[No]) -> Result<Names, AllocError>
    requires { AreAllFaults entry.now size.rows size.cols nos.now }
    ensures { IfOk result (λ names. spec.LeavesOut entry.now size.rows size.cols (texts_of names.items)) }
{
    match names_left_out_beside(alloc, entry, size, nos)? {
        Some(names) => Ok(names),
        None => Ok(Vec::new(alloc)),
    }
}

/// These `names` as texts.
pub(crate) fn name_texts(alloc: Global, names: &[&'static [u8]]) -> Result<Vec<String>, AllocError>
    ensures { IfOk result (λ texts. HasParts spec.IsNameText names.now texts.items) }
{
    let mut texts = Vec::new(alloc);
    for name in names {
        let text = text_of(alloc, name)?;
        texts.push(text)?;
    }
    Ok(texts)
}

/// The bound of a session on `entry`, which has a certificate.
pub(crate) fn bound_on(alloc: Global, entry: &Entry, size: Size) -> Result<Bound, AllocError>
    ensures { IfOk result (IsBound entry.now size.rows size.cols) }
{
    match bound_of(alloc, entry, size) {
        Ok(bound) => Ok(bound),
        // an entry with a certificate is refused only when memory runs out
        Err(_) => Err(AllocError),
    }
}
