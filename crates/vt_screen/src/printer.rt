//! The screen as a text.
ghost use Rattle.std.specs.{Prelude.{◌≡◌, ◌<◌, ◌+◌, ◌^◌, ◌++◌, length, OnOk, map}, List.{flat_map}};
ghost use Rattle.vt_screen.specs.Printed as spec;

use crate::cells::Cell;
use crate::looks::{ends_run, run_start, style_text};
use crate::sheets::Sheet;
use grids::Line;
use std::alloc::{AllocError, Global};

/// Appends the characters of each row of a sheet, a line for each row.
#[tactic(auto, using(crate::proofs::Prints::rows_joined))]
pub(crate) fn push_sheet_rows(text: &mut Vec<u8>, sheet: &Sheet) -> Result<(), AllocError>
    ensures { OnOk result (text.new.items ≡ text.old.items ++ flat_map spec.row_text sheet.now) }
{
    let (upper, lower) = sheet.parts();
    push_rows(text, upper)?;
    push_rows(text, lower)?;
    Ok(())
}

/// Appends the characters of each row, a line for each row.
fn push_rows(text: &mut Vec<u8>, lines: &[Line<Cell>]) -> Result<(), AllocError>
    ensures { OnOk result (text.new.items ≡ text.old.items ++ flat_map spec.row_text lines.now) }
{
    for line in lines {
        push_row(text, line)?;
    }
    Ok(())
}

fn push_row(text: &mut Vec<u8>, line: &Line<Cell>) -> Result<(), AllocError>
    ensures { OnOk result (text.new.items ≡ text.old.items ++ spec.row_text line.now) }
{
    push_characters(text, line.cells())?;
    text.push(b'\n')?;
    Ok(())
}

fn push_characters(text: &mut Vec<u8>, cells: &[Cell]) -> Result<(), AllocError>
    ensures { OnOk result (text.new.items ≡ text.old.items ++ map (λ x. x.byte) cells.now) }
{
    for cell in cells {
        text.push(cell.byte())?;
    }
    Ok(())
}

/// Appends the cursor's line.
pub(crate) fn push_cursor(
    alloc: Global,
    text: &mut Vec<u8>,
    row: usize,
    col: usize,
    visible: bool,
) -> Result<(), AllocError>
    ensures { OnOk result (text.new.items ≡ text.old.items ++ spec.cursor_text row col visible) }
{
    let place = format!(in alloc; "cursor {row} {col}")?;
    text.extend_from_slice(place.as_bytes())?;
    text.extend_from_slice(if visible { b"\n" } else { b" hidden\n" })
}

/// Appends a line for each run of cells of a sheet that are shown alike and not plainly.
#[tactic(auto, using(crate::proofs::Prints::looks_joined))]
pub(crate) fn push_sheet_looks(
    alloc: Global,
    text: &mut Vec<u8>,
    sheet: &Sheet,
) -> Result<(), AllocError>
    requires { length sheet.now < 2 ^ 64 }
    ensures { OnOk result (text.new.items ≡ text.old.items ++ spec.looks_text 0 sheet.now) }
{
    let (upper, lower) = sheet.parts();
    push_looks(alloc, text, 0, upper)?;
    push_looks(alloc, text, upper.len(), lower)?;
    Ok(())
}

/// Appends a line for each run of cells that are shown alike and not plainly, of lines from the row `first` on.
fn push_looks(
    alloc: Global,
    text: &mut Vec<u8>,
    first: usize,
    lines: &[Line<Cell>],
) -> Result<(), AllocError>
    requires { first + length lines.now < 2 ^ 64 }
    ensures { OnOk result (text.new.items ≡ text.old.items ++ spec.looks_text first lines.now) }
{
    for (k, line) in lines.iter().enumerate() {
        push_runs(alloc, text, first + k, line.cells())?;
    }
    Ok(())
}

fn push_runs(
    alloc: Global,
    text: &mut Vec<u8>,
    row: usize,
    cells: &[Cell],
) -> Result<(), AllocError>
    ensures { OnOk result (text.new.items ≡ text.old.items ++ spec.runs_text row cells.now (length cells.now)) }
{
    let mut start = 0;
    for col in 0..cells.len() {
        start = run_start(cells, col, start);
        push_run(alloc, text, row, start, cells, col)?;
    }
    Ok(())
}

/// Appends the line of the run that ends in the column `col`, if one does.
fn push_run(
    alloc: Global,
    text: &mut Vec<u8>,
    row: usize,
    first: usize,
    cells: &[Cell],
    col: usize,
) -> Result<(), AllocError>
    requires within { col < length cells.now }
    requires first { first ≡ spec.run_start cells.now col }
    ensures { OnOk result (text.new.items ≡ text.old.items ++ spec.run_text row cells.now col) }
{
    if ends_run(cells, col) {
        push_look(alloc, text, row, first, col, &cells[col])
    } else {
        Ok(())
    }
}

fn push_look(
    alloc: Global,
    text: &mut Vec<u8>,
    row: usize,
    first: usize,
    last: usize,
    cell: &Cell,
) -> Result<(), AllocError>
    ensures { OnOk result (text.new.items ≡
        text.old.items ++ spec.look_text row first last (spec.style_text cell.now)) }
{
    let style = style_text(alloc, cell)?;
    if style.is_empty() {
        return Ok(());
    }
    push_place(alloc, text, row, first, last)?;
    text.extend_from_slice(&style)?;
    text.push(b'\n')?;
    Ok(())
}

fn push_place(
    alloc: Global,
    text: &mut Vec<u8>,
    row: usize,
    first: usize,
    last: usize,
) -> Result<(), AllocError>
    ensures { OnOk result (text.new.items ≡ text.old.items ++ spec.place_text row first last) }
{
    let place = format!(in alloc; "look {row} {first}-{last} ")?;
    text.extend_from_slice(place.as_bytes())
}
