//! Listing the clashes of those strings of an entry that are right by themselves: all that is wrong with them together.

ghost use Rattle.std.specs.{Prelude.{◌≡◌, IfOk, OnOk}, List.{list_any}};
ghost use Rattle.ti_checker.specs.Kept.{IsStanding, is_sent, unnamed};
ghost use Rattle.ti_checker.specs.Clashes as spec;

use crate::causes::{Cause, No};
use crate::kept::{is_sent, seen_but};
use crate::switches::{clashes_together, probe_with};
use std::alloc::{AllocError, Global};
use ti_caps::{Cap, Entry};
use ti_cert::AllClashes;
use ti_conforms::{acsc, resync_rows};
use ti_rows::Row;
use vt_term::{Charset, Size};

/// Adds to `nos` a refusal about the capability of `row`, if its string goes wrong from a charset, which is `before`.
fn push_switch(
    row: Row,
    before: Option<Charset>,
    size: Size,
    nos: &mut Vec<No>,
) -> Result<(), AllocError>
    ensures { OnOk result (spec.AddsSwitch size.rows size.cols row before nos.old.items nos.new.items) }
{
    if let Some(charset) = before {
        let cause = Cause::WrongEffect(probe_with(charset, size));
        nos.push(No::of(row.cap(), cause))?;
    }
    Ok(())
}

/// Adds to `nos` a refusal about `cap` with `cause`, if `is_so`.
fn push_where(is_so: bool, cap: Cap, cause: Cause, nos: &mut Vec<No>) -> Result<(), AllocError>
    ensures { OnOk result (spec.AddsWhere is_so cap cause nos.old.items nos.new.items) }
{
    if is_so {
        nos.push(No::of(cap, cause))?;
    }
    Ok(())
}

/// Whether `entry` has a string for one of these `rows` that is checked and that no refusal of `left_out` is about.
fn sends_some(entry: &Entry, left_out: &[No], rows: &[Row]) -> bool
    ensures { result ≡ list_any (λ row. is_sent entry.now (unnamed left_out.now) row) rows.now }
{
    rows.iter().any(|row| is_sent(entry, left_out, *row))
}

/// Whether one of the strings that lead out of an unknown state stands, where the refusals `left_out` name those that
/// don't.
fn leads_out(entry: &Entry, left_out: &[No], size: Size) -> bool
    ensures { result ≡ spec.some_leads entry.now size.rows (unnamed left_out.now) }
{
    sends_some(entry, left_out, &resync_rows(size))
}

/// The refusals about the clashes `all`, in their order. The one about `clear` is among them only if a string `leads`
/// out of an unknown state. Fails if memory runs out.
fn noes_of(alloc: Global, leads: bool, all: AllClashes, size: Size) -> Result<Vec<No>, AllocError>
    ensures { IfOk result (λ nos. spec.AreTold size.rows size.cols leads all nos.items) }
{
    let mut nos = Vec::new(alloc);
    push_switch(Row::Smacs, all.smacs, size, &mut nos)?;
    push_switch(Row::Rmacs, all.rmacs, size, &mut nos)?;
    push_where(all.acsc, acsc(), Cause::BadLook, &mut nos)?;
    push_where(
        leads && all.clear,
        Row::Clear.cap(),
        Cause::NoResync,
        &mut nos,
    )?;
    Ok(nos)
}

/// The clashes of those strings of `entry` that are right by themselves: a refusal about `smacs` and one about `rmacs`
/// that names a start from which the string leaves the wrong set active; one about `acsc` if strings can leave the
/// graphic set active although letters of line graphics can't be sent; one about `clear` if the bytes that lead out of
/// an unknown state don't begin with ESC, where at least one of the strings that send them is right. The refusals
/// `left_out` must name just those checked capabilities a row of which is at fault. If there are none in an entry that
/// is fit, [`check`](crate::check) answers the first clash.
///
/// # Errors
/// Out of memory.
pub fn clashes(
    alloc: Global,
    entry: &Entry,
    left_out: &[No],
    size: Size,
) -> Result<Vec<No>, AllocError>
    requires { IsStanding entry.now size.rows size.cols (unnamed left_out.now) }
    ensures { IfOk result (λ nos. spec.AreClashes entry.now size.rows size.cols nos.items) }
{
    let seen = seen_but(alloc, entry, left_out, size)?;
    let all = clashes_together(alloc, entry, left_out, size, &seen)?;
    let leads = leads_out(entry, left_out, size);
    noes_of(alloc, leads, all, size)
}
