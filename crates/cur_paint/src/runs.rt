//! The runs of blanks within a line that are erased, because that takes fewer bytes than printing them.
ghost use Rattle.std.specs.Prelude.{◌+◌, ◌<◌, ◌≡◌, ◌≤◌, IfSome, true, ℕ};
ghost use Rattle.cur_paint.specs.{Differ.{span}, Scenes.{HasCells, scene}};
ghost use Rattle.cur_steps.specs.Inks.{blank_ink};
ghost use Rattle.ti_conforms.specs.Certified.{IsChecked};

use crate::pieces::differs_in;
use crate::screens::Screens;
use cur_moves::{ErasedPart, erasing_line, line_bytes};
use cur_steps::{Cells, Picture, Place, are_blank};
use ti_conforms::Certificate;

/// The fewest bytes of an erasure and the move after it.
pub(crate) const FEWEST: usize = 5;

/// A run of blank cells of a line: its length, the part of it from the first to the last cell that differs, and the
/// number of cells that differ.
#[derive(Clone, Copy)]
struct Run {
    len: usize,
    start: usize,
    end: usize,
    differing: usize,
}

/// Successive cells of a line: how many there are, and how they are erased. Without an erasure they are printed.
#[derive(Clone, Copy)]
pub(crate) struct Part {
    pub count: usize,
    pub erasure: Option<ErasedPart>,
}

/// Whether the entry has strings that erase runs.
pub(crate) fn erases_runs<C: Certificate>(checked: &C) -> bool {
    erasing_line(checked, ErasedPart::Part(1)).is_some()
        || erasing_line(checked, ErasedPart::Head).is_some()
}

/// The part with which the `cells` begin.
pub(crate) fn next_part<C: Certificate, O: Picture, N: Picture>(
    screens: &Screens<'_, C, O, N>,
    cells: Cells,
) -> Part
    requires cells { HasCells (scene C.table O.cells N.cells screens.now) cells }
    requires some { 0 < cells.count }
    ensures some { 0 < result.count }
    ensures within { result.count ≤ cells.count }
{
    let mut n = 0;
    while n + FEWEST < cells.count {
        let from = cells.from + n;
        // only a run of more than `FEWEST` cells pays, and one that begins no later than this cell contains it
        if !screens.new.is_blank(cells.row, from + FEWEST) {
            n += FEWEST + 1;
            continue;
        }
        let rest = Cells {
            row: cells.row,
            from,
            count: cells.count - n,
        };
        let run = run_at(screens.old, screens.new, rest);
        if let Some(erasure) = erasure_of(screens.checked, screens.new, cells.row, from, run) {
            return cut(n, run, erasure);
        }
        n += run.len.max(1);
    }
    Part {
        count: cells.count,
        erasure: None,
    }
}

/// The first part to mend: the `before` cells ahead of `run` and the unchanged ones at its start, or, if there are
/// none, the run itself, which is erased by `erasure`.
fn cut(before: usize, run: Run, erasure: ErasedPart) -> Part
    requires order { run.start < run.end }
    requires few { before + run.end ≤ 1000 }
    ensures some { 0 < result.count }
    ensures within { result.count ≤ before + run.end }
{
    if before + run.start == 0 {
        Part {
            count: run.end,
            erasure: Some(erasure),
        }
    } else {
        Part {
            count: before + run.start,
            erasure: None,
        }
    }
}

/// How the `run`, which begins in line `row` and column `from`, is erased, if that takes fewer bytes than printing it.
fn erasure_of<C: Certificate, N: Picture>(
    checked: &C,
    new: &N,
    row: usize,
    from: usize,
    run: Run,
) -> Option<ErasedPart>
    requires checked { IsChecked (C.table checked.now) }
    requires row { row < (C.table checked.now).rows }
    requires order { run.start ≤ run.end }
    requires end { from + run.end ≤ (C.table checked.now).cols }
    ensures some { IfSome result (λ e. run.start < run.end) }
{
    if run.differing <= FEWEST || run.start == run.end {
        return None;
    }
    let start = from + run.start;
    let end = from + run.end;
    let part = ErasedPart::Part((end - start) as u16);
    if pays(checked, part, Place { row, col: start }, end, run.differing) {
        return Some(part);
    }
    let last = Place { row, col: end - 1 };
    let cup = line_bytes(checked, None, last);
    let rest = run.differing.saturating_sub(cup);
    if pays(checked, ErasedPart::Head, last, end, rest) && are_blank(new, row, 0, start) {
        return Some(ErasedPart::Head);
    }
    None
}

/// Whether the `erasure` at the place `at`, and a move from there to the column `to`, take fewer bytes than `bytes`.
fn pays<C: Certificate>(
    checked: &C,
    erasure: ErasedPart,
    at: Place,
    to: usize,
    bytes: usize,
) -> bool
    requires checked { IsChecked (C.table checked.now) }
    requires row { at.row < (C.table checked.now).rows }
    requires col { at.col < (C.table checked.now).cols }
    requires to { to ≤ (C.table checked.now).cols }
{
    let last = checked.cols() - 1;
    match erasing_line(checked, erasure) {
        Some(line) => {
            let after = Place {
                row: at.row,
                col: to.min(last),
            };
            let on = line_bytes(checked, Some(at), after);
            line.len() < bytes && on < bytes - line.len()
        }
        None => false,
    }
}

/// The run of blanks with which the `cells` begin.
fn run_at<O: Picture, N: Picture>(old: &O, new: &N, cells: Cells) -> Run
    requires { cells.from + cells.count ≤ 1000 }
    ensures order { result.start ≤ result.end }
    ensures within { result.end ≤ result.len }
    ensures len { result.len ≤ cells.count }
{
    let mut run = Run {
        len: 0,
        start: 0,
        end: 0,
        differing: 0,
    };
    while run.len < cells.count {
        let col = cells.from + run.len;
        if !new.is_blank(cells.row, col) {
            return run;
        }
        if old.is_blank(cells.row, col) {
            run.len += 1;
        } else {
            run = with_different(run);
        }
    }
    run
}

/// The `run` with one more cell, which differs.
fn with_different(run: Run) -> Run
    requires start { run.start ≤ run.len }
    requires len { run.len ≤ 1000 }
    requires differing { run.differing ≤ run.len }
    ensures start { result.start ≤ result.end }
    ensures end { result.end ≡ run.len + 1 }
    ensures len { result.len ≡ run.len + 1 }
    ensures differing { result.differing ≤ result.len }
{
    Run {
        len: run.len + 1,
        start: if run.differing == 0 {
            run.len
        } else {
            run.start
        },
        end: run.len + 1,
        differing: run.differing + 1,
    }
}

/// Whether some of the `cells` differ, and their line becomes blank from the column `first` to the last of them.
pub(crate) fn is_run<O: Picture, N: Picture>(old: &O, new: &N, first: usize, cells: Cells) -> bool
    requires { cells.from + cells.count ≤ 1000 }
    ensures some { result ≡ true → 0 < cells.count }
    ensures differs { result ≡ true
        → 0 < span (O.cells old.now) (N.cells new.now) cells.row cells.from cells.count }
    ensures blank { result ≡ true → (k : ℕ) → first ≤ k → k < cells.from + cells.count
        → N.cells new.now cells.row k ≡ blank_ink }
{
    cells.count > 0
        && differs_in(old, new, cells)
        && are_blank(new, cells.row, first, cells.from + cells.count)
}
