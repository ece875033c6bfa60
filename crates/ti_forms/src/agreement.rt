//! Whether lines are those that an entry sends, where strings of the standard's form aren't run.

ghost use Rattle.std.specs.Prelude.{◌≡◌, IfErr, OnOk};
ghost use Rattle.ti_conforms.specs.Agreement as spec;
ghost use Rattle.ti_conforms.specs.Entries as entries;
ghost use Rattle.ti_rows.specs.{Lists.{IsFirst, IsInRange}, Names.{order}};

use crate::sends::send_into;
use std::alloc::Global;
use ti_caps::Entry;
use ti_conforms::{Disagreement, LinesByRow, SendFault, is_checked};
use ti_rows::{CAPABILITIES, Row};
use vt_term::Size;

/// Whether the row's line has just the bytes that `string` sends, which are written to `bytes`.
fn row_agrees<L: LinesByRow>(
    alloc: Global,
    size: Size,
    string: &[u8],
    lines: &L,
    row: Row,
    bytes: &mut Vec<u8>,
) -> Result<(), Disagreement>
    requires { IsInRange size.rows size.cols row }
    ensures sends { OnOk result (spec.LineSends string.now (L.line_of lines.now row) row) }
    ensures fault { IfErr result (spec.IsDisagreement size.rows size.cols string.now (L.line_of lines.now)
        (order row)) }
{
    match send_into(alloc, string, row, bytes) {
        Ok(()) => {}
        Err(SendFault::NoMemory) => return Err(Disagreement::NoMemory),
        Err(_) => return Err(Disagreement::Disagree(row)),
    }
    match lines.line(row) {
        Some(line) if line == bytes.as_slice() => Ok(()),
        _ => Err(Disagreement::Disagree(row)),
    }
}

/// Checks that each line of a capability has just the bytes that `string` sends, for every parameter list that `size`
/// allows. `first` must be the first of these lists.
fn all_agree<L: LinesByRow>(
    alloc: Global,
    size: Size,
    string: &[u8],
    lines: &L,
    first: Row,
) -> Result<(), Disagreement>
    requires { IsFirst size.rows size.cols first }
    ensures sends { OnOk result (spec.AllSend size.rows size.cols string.now (L.line_of lines.now) (order first)) }
    ensures fault { IfErr result (spec.IsDisagreement size.rows size.cols string.now (L.line_of lines.now)
        (order first)) }
{
    let mut bytes = Vec::new(alloc);
    let mut row = first;
    loop {
        row_agrees(alloc, size, string, lines, row, &mut bytes)?;
        match row.next(size) {
            Some(next) => row = next,
            None => return Ok(()),
        }
    }
}

/// Checks that the lines of one capability are just those that the entry sends, and that there are none if it isn't
/// checked.
fn cap_agrees<L: LinesByRow>(
    alloc: Global,
    size: Size,
    entry: &Entry,
    lines: &L,
    first: Row,
) -> Result<(), Disagreement>
    requires { IsFirst size.rows size.cols first }
    ensures agrees { OnOk result (entries.CapAgrees size.rows size.cols entry.now (L.line_of lines.now) (order first)) }
    ensures fault { IfErr result (entries.IsNotAgreed size.rows size.cols entry.now (L.line_of lines.now)) }
{
    if !is_checked(entry, first) {
        return if lines.has_any(first) {
            Err(Disagreement::Unwanted(first))
        } else {
            Ok(())
        };
    }
    match entry.get_string(first.cap()) {
        Some(string) => all_agree(alloc, size, string, lines, first),
        None => Ok(()),
    }
}

/// Checks that lines are just those that an entry sends: for each checked capability of the entry and each parameter
/// list that `size` allows, a line with the bytes that its string sends, and no other line.
///
/// # Errors
/// `Disagree` or `Unwanted` with a row for which this isn't true, or `NoMemory`.
pub fn entry_agrees<L: LinesByRow>(
    alloc: Global,
    size: Size,
    entry: &Entry,
    lines: &L,
) -> Result<(), Disagreement>
    ensures agrees { OnOk result (entries.EntryAgrees size.rows size.cols entry.now (L.line_of lines.now)) }
    ensures fault { IfErr result (entries.IsNotAgreed size.rows size.cols entry.now (L.line_of lines.now)) }
{
    for order in 0..CAPABILITIES {
        if let Some(first) = Row::first(order) {
            cap_agrees(alloc, size, entry, lines, first)?;
        }
    }
    Ok(())
}
