//! The cells that a run has changed.

ghost use Rattle.std.specs.Prelude.{◌≡◌, ◌++◌, [], ◌∷◌, IfOk, OnOk};
ghost use Rattle.ti_words.specs.Seen as spec;

use crate::starts::{chosen, has_look, push_place};
use std::alloc::{AllocError, Global};
use ti_files::Pushed;
use vt_term::{Cell, Terminal};

/// A cell that has changed.
#[derive(Clone, Copy)]
pub struct Change {
    /// The cell's row.
    pub row: usize,
    /// The cell's column.
    pub col: usize,
    /// The character that it shows.
    pub byte: u8,
}

/// The cells of `terminal` that don't show the character `fill` plainly, in reading order.
pub fn changed_cells(
    alloc: Global,
    terminal: &Terminal,
    fill: u8,
) -> Result<Vec<Change>, AllocError>
    ensures { IfOk result (λ changes. changes.items ≡ spec.changes_from fill 0 terminal.now.screen.grid) }
{
    let mut changes = Vec::new(alloc);
    for row in 0..terminal.size().rows {
        push_changes(fill, row, terminal.line(row), &mut changes)?;
    }
    Ok(changes)
}

/// Appends the changed ones of the `cells` of a row.
fn push_changes(fill: u8, row: usize, cells: &[Cell], changes: &mut Vec<Change>) -> Pushed
    ensures { OnOk result (changes.new.items ≡ changes.old.items ++ spec.changes_in fill row 0 cells.now) }
{
    for col in 0..cells.len() {
        push_change(fill, row, col, cells[col], changes)?;
    }
    Ok(())
}

/// Appends the `cell` at this place, if it has changed.
fn push_change(fill: u8, row: usize, col: usize, cell: Cell, changes: &mut Vec<Change>) -> Pushed
    ensures { OnOk result (changes.new.items ≡ changes.old.items ++ spec.change_if fill row col cell) }
{
    if is_other(cell, fill) {
        changes.push(Change {
            row,
            col,
            byte: cell.byte(),
        })?;
    }
    Ok(())
}

fn is_other(cell: Cell, fill: u8) -> bool
    ensures { result ≡ spec.is_other fill cell }
{
    cell.byte() != fill || cell.is_graphic() || has_look(cell.rendition())
}

/// Appends the number of the `changes`, the first and the last one, and whether all are blank.
pub fn push_changed(alloc: Global, changes: &[Change], words: &mut Vec<u8>) -> Pushed
    ensures { OnOk result (words.new.items ≡ words.old.items ++ spec.changed_text changes.now) }
{
    match changes {
        [] => words.extend_from_slice(b"no cell has changed"),
        [one] => {
            let now = now_words(changes);
            push_cell(alloc, b"the cell at ", *one, b" is ", now, words)
        }
        [first, others @ ..] => {
            let last = last_of(*first, others);
            push_several(alloc, changes, *first, last, words)
        }
    }
}

/// Appends the words for several `changes`, from the `first` to the `last` one.
fn push_several(
    alloc: Global,
    changes: &[Change],
    first: Change,
    last: Change,
    words: &mut Vec<u8>,
) -> Pushed
    ensures { OnOk result (words.new.items ≡ words.old.items ++ spec.several_text changes.now first last) }
{
    push_first(alloc, changes.len(), first, words)?;
    push_cell(alloc, b" to ", last, b" are ", now_words(changes), words)
}

/// Appends the number of the changed cells, and the `first` of them.
fn push_first(alloc: Global, count: usize, first: Change, words: &mut Vec<u8>) -> Pushed
    ensures { OnOk result (words.new.items ≡ words.old.items ++ spec.first_text count first) }
{
    push_count(alloc, count, words)?;
    push_place(alloc, first.row, first.col, words)
}

#[tactic(auto, unfolding(crate::specs::Seen::count_text))]
fn push_count(alloc: Global, count: usize, words: &mut Vec<u8>) -> Pushed
    ensures { OnOk result (words.new.items ≡ words.old.items ++ spec.count_text count) }
{
    let front = format!(in alloc; "{count} cells from ")?;
    words.extend_from_slice(front.as_bytes())
}

/// Appends `front`, the place of a changed `cell`, and by the verb `are` what the changed cells are `now`.
fn push_cell(
    alloc: Global,
    front: &[u8],
    cell: Change,
    are: &[u8],
    now: &[u8],
    words: &mut Vec<u8>,
) -> Pushed
    ensures { OnOk result (words.new.items ≡ words.old.items ++ spec.cell_text front.now cell are.now now.now) }
{
    words.extend_from_slice(front)?;
    push_place(alloc, cell.row, cell.col, words)?;
    words.extend_from_slice(are)?;
    words.extend_from_slice(now)
}

/// The last of the changes `first` and `others`.
fn last_of(first: Change, others: &[Change]) -> Change
    ensures { result ≡ spec.last_of first others.now }
{
    let mut last = first;
    for change in others {
        last = *change;
    }
    last
}

/// The new contents of the `changes`.
fn now_words(changes: &[Change]) -> &'static [u8]
    ensures { result.now ≡ spec.now_text changes.now }
{
    chosen(are_blank(changes), b"blank", b"other than before")
}

fn are_blank(changes: &[Change]) -> bool
    ensures { result ≡ spec.are_blank changes.now }
{
    changes.iter().all(|change| change.byte == b' ')
}
