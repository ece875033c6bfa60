//! A field that may go over several lines of its text, and below it marks under a part of it.

ghost use Rattle.std.specs.Prelude.{◌≡◌, ◌-◌, ◌++◌, IfOk, OnOk};
ghost use Rattle.ti_verdicts.specs.Excerpts.{deeper};
ghost use Rattle.ti_verdicts.specs.Rows as spec;
ghost use Rattle.ti_files.specs.Shown.{shown};

use crate::excerpts::{shown_bytes, underlined};
use std::alloc::Global;
use ti_files::{Made, Pushed};
use ti_source::skip_white;
use ti_sources::{Columns, LinedText, Region, line_at};

/// The column at which `region` begins on `line`, the one with this `number`.
#[tactic(auto, using(ti_sources::proofs::Origins::skip_shorter))]
fn first_column(line: &[u8], region: Region, number: usize) -> usize
    ensures { result ≡ spec.first_column line.now region number }
{
    if number == region.line {
        region.column
    } else {
        line.len() - skip_white(line).len() + 1
    }
}

/// The column behind the bytes of `region` on `line`, the one with this `number`.
fn end_column(line: &[u8], region: Region, number: usize) -> usize
    ensures { result ≡ spec.end_column line.now region number }
{
    if number == region.end_line {
        region.end_column
    } else {
        line.len() + 1
    }
}

/// The bytes of `region` on the line of `text` with this `number`.
#[tactic(auto, unfolding(crate::specs::Rows::row_of))]
fn row_of<'b>(text: &LinedText<'b>, region: Region, number: usize) -> &'b [u8]
    ensures { result.now ≡ spec.row_of text.now region number }
{
    let line = line_at(text.lines(), number);
    let start = first_column(line, region, number);
    let end = end_column(line, region, number);
    text.piece(number, Columns { start, end })
}

/// The bytes of `region` before a `part` of it, on the line of `text` on which this part begins.
#[tactic(auto, unfolding(crate::specs::Rows::front_of_row))]
fn front_of_row<'b>(text: &LinedText<'b>, region: Region, part: Region) -> &'b [u8]
    ensures { result.now ≡ spec.front_of_row text.now region part }
{
    let line = line_at(text.lines(), part.line);
    let start = first_column(line, region, part.line);
    let columns = Columns {
        start,
        end: part.column,
    };
    text.piece(part.line, columns)
}

/// Adds the `bytes` to `lines`, as far as they can be shown, on a line of their own.
fn push_row(alloc: Global, lines: &mut Vec<u8>, bytes: &[u8]) -> Pushed
    ensures { OnOk result (lines.new.items ≡ lines.old.items ++ deeper (shown bytes.now)) }
{
    let row = shown_bytes(alloc, bytes)?;
    lines.extend_from_slice(b"    ")?;
    lines.extend_from_slice(row.as_slice())?;
    lines.push(b'\n')?;
    Ok(())
}

/// The bytes of `region` on its lines in `text` before the one with the number `end`, each on a line of its own.
fn rows_of(alloc: Global, text: &LinedText<'_>, region: Region, end: usize) -> Made
    ensures { IfOk result (λ lines. lines.items ≡ spec.rows_of text.now region (end - region.line)) }
{
    let mut lines = Vec::new(alloc);
    for passed in 0..end.saturating_sub(region.line) {
        let row = row_of(text, region, region.line + passed);
        push_row(alloc, &mut lines, row)?;
    }
    Ok(lines)
}

/// The lines of `region` in `text` up to the one on which a `part` of it begins, and below that the marks under this
/// part, up to the end of the line.
#[tactic(auto, unfolding(crate::specs::Rows::marked_rows))]
pub(crate) fn marked_rows(alloc: Global, text: &LinedText<'_>, region: Region, part: Region) -> Made
    ensures { IfOk result (λ lines. lines.items ≡ spec.marked_rows text.now region part) }
{
    let mut lines = rows_of(alloc, text, region, part.line)?;
    let row = shown_bytes(alloc, row_of(text, region, part.line))?;
    let front = shown_bytes(alloc, front_of_row(text, region, part))?;
    let marked = shown_bytes(alloc, row_of(text, part, part.line))?;
    let last = underlined(alloc, row.as_slice(), front.as_slice(), marked.as_slice())?;
    lines.extend_from_slice(last.as_slice())?;
    Ok(lines)
}
