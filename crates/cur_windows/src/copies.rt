//! Copying between windows: overlay, overwrite and copywin.
ghost use Rattle.std.specs.Prelude.{◌≡◌, ◌<◌, ◌≤ℤ◌, OnOk, [], true, false, length, slice_index_or, slice_set};
ghost use Rattle.cur_drawing.specs.{Grids.{Fits, overlaid, moved_to}, Calls.{IsCanvas}, Spans.{IsWithin}};
ghost use Rattle.cur_windows.specs.Copies.{common_part, copywin, in_order, spans_copied};
ghost use Rattle.cur_windows.specs.Desks as spec;

use crate::creations::in_range;
use crate::desks::Desk;
use cur_drawing::{Cell, CopySpan, Refusal, common, matched};
use cur_screens::{AreaCopy, Patch, Slot, overlay_from, overlay_shift};
use grids::{Area, Grid, Place};
use std::mem;

/// The lines and the columns of a copy between two windows.
#[derive(Clone, Copy)]
struct CopySpans {
    rows: CopySpan,
    cols: CopySpan,
}

// Copying from a window to another one, or to itself, as if the source were read first. It takes no memory.
impl Desk {
    /// Copies the part that both windows have on the screen from `source` to `target`, without the
    /// source's spaces (X/Open Curses, `overlay`); `Ok` even if there is no such part. `Full`,
    /// `NoWindow`, `PadKind` if one is a pad; nothing has then changed.
    pub fn overlay(&mut self, source: usize, target: usize) -> Result<(), Refusal>
        ensures { spec.step self.new result ≡ common_part true self.old source target }
    {
        self.copy_common(source, target, true)
    }

    /// Copies as `overlay` does, from `source` to `target`, but with the source's spaces (`overwrite`).
    pub fn overwrite(&mut self, source: usize, target: usize) -> Result<(), Refusal>
        ensures { spec.step self.new result ≡ common_part false self.old source target }
    {
        self.copy_common(source, target, false)
    }

    /// Copies the cells of `source` from row `from_row` and column `from_col` on to the rows `row`
    /// to `last_row` and columns `col` to `last_col` of `target`, without spaces if these are
    /// skipped (`copywin`). `Full`, `NoWindow`, `BadRegion` if an end is before its start,
    /// `OutOfWindow` if a place is outside its window; nothing has then changed.
    pub fn copywin(
        &mut self,
        source: usize,
        target: usize,
        from_row: i32,
        from_col: i32,
        row: i32,
        col: i32,
        last_row: i32,
        last_col: i32,
        skip: bool,
    ) -> Result<(), Refusal>
        ensures { spec.step self.new result ≡ copywin self.old source target from_row from_col row col last_row
            last_col skip }
    {
        in_range(source, target)?;
        let source = self.find(source)?;
        let target = self.find(target)?;
        in_order(row, last_row, col, last_col)?;
        let outer = source.window.area;
        let inner = target.window.area;
        let rows = matched(from_row, row, last_row, outer.rows, inner.rows);
        let Some(rows) = rows else {
            return Err(Refusal::OutOfWindow);
        };
        let cols = matched(from_col, col, last_col, outer.cols, inner.cols);
        let Some(cols) = cols else {
            return Err(Refusal::OutOfWindow);
        };
        self.copy_spans(&source, &target, CopySpans { rows, cols }, skip);
        Ok(())
    }

    // Copies the part that both windows have on the screen, without the source's spaces if these are skipped.
    fn copy_common(&mut self, source: usize, target: usize, skip: bool) -> Result<(), Refusal>
        ensures { spec.step self.new result ≡ common_part skip self.old source target }
    {
        in_range(source, target)?;
        let source = self.find(source)?;
        let target = self.find(target)?;
        self.check_window(&source)?;
        self.check_window(&target)?;
        let from = self.place_on_screen(&source);
        let to = self.place_on_screen(&target);
        let rows = common(from.top, from.rows, to.top, to.rows);
        let cols = common(from.left, from.cols, to.left, to.cols);
        if let (Some(rows), Some(cols)) = (rows, cols) {
            self.copy_spans(&source, &target, CopySpans { rows, cols }, skip);
        }
        Ok(())
    }

    // Copies these lines and columns of the source to the target.
    fn copy_spans(&mut self, source: &Slot, target: &Slot, spans: CopySpans, skip: bool)
        requires source_root { (source.now).root < 64 }
        requires source_canvas { IsCanvas (spec.grid_at self.old (source.now).root) (source.now).window }
        requires target_root { (target.now).root < 64 }
        requires target_canvas { IsCanvas (spec.grid_at self.old (target.now).root) (target.now).window }
        requires rows { IsWithin (source.now).window.area.rows (target.now).window.area.rows spans.rows }
        requires cols { IsWithin (source.now).window.area.cols (target.now).window.area.cols spans.cols }
        ensures { self.new ≡ spans_copied self.old source.now target.now spans.rows spans.cols skip }
    {
        let CopySpans { rows, cols } = spans;
        let copy = AreaCopy {
            area: Area {
                top: target.window.area.top + rows.to,
                left: target.window.area.left + cols.to,
                rows: rows.count,
                cols: cols.count,
            },
            from: Place {
                row: source.window.area.top + rows.from,
                col: source.window.area.left + cols.from,
            },
        };
        let spare = Grid::empty(self.alloc);
        let (source, target) = (source.root as usize, target.root as usize);
        copy_between(&mut self.grids, source, target, spare, Patch { copy, skip });
    }
}

// Copies a rectangle from one grid to another, or to itself, as the source was before. The grid
// `spare` takes the target's place while that is written.
fn copy_between(
    grids: &mut [Grid<Cell>],
    source: usize,
    target: usize,
    spare: Grid<Cell>,
    patch: Patch,
)
    requires source { source < length grids.old }
    requires target { target < length grids.old }
    requires area { Fits patch.copy.area (slice_index_or grids.old target []) }
    requires from { Fits (moved_to patch.copy.area patch.copy.from) (slice_index_or grids.old source []) }
    ensures { grids.new ≡ slice_set grids.old target (overlaid patch.copy.area patch.copy.from patch.skip
        (slice_index_or grids.old source []) (slice_index_or grids.old target [])) }
{
    if source == target {
        overlay_shift(&mut grids[target], patch);
        return;
    }
    let mut grid = mem::replace(&mut grids[target], spare);
    overlay_from(&mut grid, &grids[source], patch);
    grids[target] = grid;
}

/// `BadRegion` if `bottom` is before `top` or `right` before `left`.
pub fn in_order(top: i32, bottom: i32, left: i32, right: i32) -> Result<(), Refusal>
    ensures value { result ≡ in_order top bottom left right }
    ensures order { OnOk result ((top ≤ℤ bottom) × (left ≤ℤ right)) }
{
    if bottom < top || right < left {
        return Err(Refusal::BadRegion);
    }
    Ok(())
}
