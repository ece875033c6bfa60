//! The cells of a terminal, row by row, as items of JSON lists.

ghost use Rattle.std.specs.{Prelude.{◌≡◌, ◌<◌, ◌++◌, [], length, IfOk, OnOk}, List.{flat_map}};
ghost use Rattle.vt_term.specs.Printed as shown;
ghost use Rattle.vt_states.specs.Json as spec;

use std::alloc::{AllocError, Global};
use vt_screen::{ends_run, run_start, style_text};
use vt_term::{Cell, Terminal};

/// The outcome of adding to a text, for which memory may run out.
type Added = Result<(), AllocError>;

/// Cells of a row that are shown alike.
#[derive(Clone, Copy)]
struct Run {
    row: usize,
    /// The columns of the first cell and the last one.
    first: usize,
    last: usize,
}

/// The rows of a terminal, each as a text in quotes, with commas between them.
pub(crate) fn row_items(alloc: Global, terminal: &Terminal) -> Result<Vec<u8>, AllocError>
    ensures { IfOk result (λ items. items.items ≡ spec.rows_behind [] terminal.now.screen.grid) }
{
    let mut items = Vec::new(alloc);
    for row in 0..terminal.size().rows {
        begin_item(&mut items)?;
        push_row(&mut items, terminal.line(row))?;
    }
    Ok(items)
}

/// The runs of cells that are shown alike and not plainly, with commas between them.
pub(crate) fn look_items(alloc: Global, terminal: &Terminal) -> Result<Vec<u8>, AllocError>
    ensures { IfOk result (λ items. items.items ≡ spec.looks_behind [] 0 terminal.now.screen.grid) }
{
    let mut items = Vec::new(alloc);
    for row in 0..terminal.size().rows {
        push_runs(alloc, &mut items, row, terminal.line(row))?;
    }
    Ok(items)
}

/// Adds a comma if there are items already.
fn begin_item(items: &mut Vec<u8>) -> Added
    ensures { OnOk result (items.new.items ≡ spec.before_next items.old.items) }
{
    if !items.is_empty() {
        items.push(b',')?;
    }
    Ok(())
}

fn push_row(items: &mut Vec<u8>, cells: &[Cell]) -> Added
    ensures { OnOk result (items.new.items ≡ items.old.items ++ spec.row_item cells.now) }
{
    items.push(b'"')?;
    push_characters(items, cells)?;
    items.push(b'"')?;
    Ok(())
}

fn push_characters(items: &mut Vec<u8>, cells: &[Cell]) -> Added
    ensures { OnOk result (items.new.items ≡ items.old.items ++ flat_map (λ x. spec.escaped x.byte) cells.now) }
{
    for cell in cells {
        push_escaped(items, cell.byte())?;
    }
    Ok(())
}

/// Adds a character of a text in quotes.
pub(crate) fn push_escaped(items: &mut Vec<u8>, byte: u8) -> Added
    ensures { OnOk result (items.new.items ≡ items.old.items ++ spec.escaped byte) }
{
    if byte == b'"' || byte == b'\\' {
        items.push(b'\\')?;
    }
    items.push(byte)?;
    Ok(())
}

fn push_runs(alloc: Global, items: &mut Vec<u8>, row: usize, cells: &[Cell]) -> Added
    ensures { OnOk result (items.new.items ≡ spec.runs_behind items.old.items row cells.now (length cells.now)) }
{
    let mut first = 0;
    for last in 0..cells.len() {
        first = run_start(cells, last, first);
        push_run(alloc, items, Run { row, first, last }, cells)?;
    }
    Ok(())
}

/// Adds `run` to `items` if the rendition of `cells` changes after it.
fn push_run(alloc: Global, items: &mut Vec<u8>, run: Run, cells: &[Cell]) -> Added
    requires within { run.last < length cells.now }
    requires first { run.first ≡ shown.run_start cells.now run.last }
    ensures { OnOk result (items.new.items ≡ spec.run_behind items.old.items run.row cells.now run.last) }
{
    if ends_run(cells, run.last) {
        push_look(alloc, items, run, &cells[run.last])
    } else {
        Ok(())
    }
}

fn push_look(alloc: Global, items: &mut Vec<u8>, run: Run, cell: &Cell) -> Added
    ensures { OnOk result (items.new.items ≡
        spec.look_behind items.old.items run.row run.first run.last (shown.style_text cell.now)) }
{
    let style = style_text(alloc, cell)?;
    if style.is_empty() {
        return Ok(());
    }
    begin_item(items)?;
    push_look_item(alloc, items, run, style.as_slice())
}

fn push_look_item(alloc: Global, items: &mut Vec<u8>, run: Run, style: &[u8]) -> Added
    ensures { OnOk result (items.new.items ≡
        items.old.items ++ spec.look_item run.row run.first run.last style.now) }
{
    push_place(alloc, items, run)?;
    items.extend_from_slice(style)?;
    items.extend_from_slice(b"\"]")?;
    Ok(())
}

fn push_place(alloc: Global, items: &mut Vec<u8>, run: Run) -> Added
    ensures { OnOk result (items.new.items ≡ items.old.items ++ spec.look_place run.row run.first run.last) }
{
    let Run { row, first, last } = run;
    let place = format!(in alloc; "[{row},{first},{last},\"")?;
    items.extend_from_slice(place.as_bytes())
}
