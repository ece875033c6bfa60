//! Copying rectangles of cells between grids.
ghost use Rattle.std.specs.Prelude.{◌≡◌, ◌<◌, ◌≤◌, ◌+◌, ◌-◌, ℕ, length, slice_index_or};
ghost use Rattle.cur_drawing.specs.{Cells.{space}, Calls.{place}};
ghost use Rattle.cur_drawing.specs.Grids.{Fits, copied, drawn_in, line_at, moved_to, overlaid, row_of, shape_of, taken};
ghost use Rattle.cur_screens.specs.{Copies.{CopiesMarking, IsFrom, IsInBoth}, Marks.{AreSame, IsCopiedBut, IsSameIn}};

use crate::differences::changed;
use crate::marks::Marks;
use cur_drawing::{Cell, SkipSpaces};
use grids::{Area, Grid, Place};

type Cells = Grid<Cell>;

/// A copy to the rectangle `area` of a grid: it gets the cells of a grid from the place `from` on.
#[derive(Clone, Copy)]
pub struct AreaCopy {
    pub area: Area,
    pub from: Place,
}

/// A copy between grids, without the spaces among the copied cells if `skip`.
#[derive(Clone, Copy)]
pub struct Patch {
    pub copy: AreaCopy,
    pub skip: bool,
}

/// Copies the cells of `source` into the rectangle of `patch`. Both rectangles must be in their grids.
pub fn overlay_from(grid: &mut Cells, source: &Cells, patch: Patch)
    requires target { Fits patch.copy.area grid.old }
    requires source { Fits (moved_to patch.copy.area patch.copy.from) source.now }
    ensures value { grid.new ≡ overlaid patch.copy.area patch.copy.from patch.skip source.now grid.old }
    ensures shape { shape_of grid.new ≡ shape_of grid.old }
{
    if patch.skip {
        grid.merge_from(patch.copy.area, source, patch.copy.from, &SkipSpaces);
    } else {
        grid.copy_from(patch.copy.area, source, patch.copy.from);
    }
}

/// Copies the grid's own cells into the rectangle of `patch`, as if all were read first. Both
/// rectangles must be in the grid.
pub fn overlay_shift(grid: &mut Cells, patch: Patch)
    requires target { Fits patch.copy.area grid.old }
    requires source { Fits (moved_to patch.copy.area patch.copy.from) grid.old }
    ensures value { grid.new ≡ overlaid patch.copy.area patch.copy.from patch.skip grid.old grid.old }
    ensures shape { shape_of grid.new ≡ shape_of grid.old }
{
    if patch.skip {
        grid.merge_shift(patch.copy.area, patch.copy.from, &SkipSpaces);
    } else {
        grid.shift(patch.copy.area, patch.copy.from);
    }
}

/// Copies cells of `source` as `copy` says. The rectangle must already have them outside the marks
/// `touched`. In each line only the cells from the first one that differs to the last one are
/// written, and these are added to `marks`.
pub fn copy_changed(
    grid: &mut Cells,
    source: &Cells,
    copy: AreaCopy,
    touched: &Marks,
    marks: &mut Marks,
)
    requires target { Fits copy.area grid.old }
    requires from { IsFrom copy source.now }
    requires touched { IsCopiedBut touched.now copy.area copy.from source.now grid.old }
    ensures copied { CopiesMarking copy source.now grid.old grid.new marks.old marks.new }
{
    let AreaCopy { area, from } = copy;
    let rows = touched.rows_from(area.top, area.rows);
    let lines = AreaCopy {
        area: Area {
            top: area.top + rows.at,
            rows: rows.size,
            ..area
        },
        from: Place {
            row: from.row + rows.at,
            ..from
        },
    };
    copy_lines(grid, source, lines, touched, marks);
}

// Copies and marks as `copy_changed` does, line by line.
fn copy_lines(grid: &mut Cells, source: &Cells, copy: AreaCopy, touched: &Marks, marks: &mut Marks)
    requires target { Fits copy.area grid.old }
    requires from { IsFrom copy source.now }
    requires touched { IsCopiedBut touched.now copy.area copy.from source.now grid.old }
    ensures copied { CopiesMarking copy source.now grid.old grid.new marks.old marks.new }
{
    for k in 0..copy.area.rows {
        let AreaCopy { area, from } = copy;
        let row = area.top + k;
        let span = touched.columns_from(row, area.left, area.cols);
        let line = AreaCopy {
            area: Area {
                top: row,
                left: area.left + span.at,
                rows: 1,
                cols: span.size,
            },
            from: Place {
                row: from.row + k,
                col: from.col + span.at,
            },
        };
        copy_changed_line(grid, source, line, marks);
    }
}

// Copies and marks as `copy_changed` does, in a rectangle of one line whose cells may all differ.
fn copy_changed_line(grid: &mut Cells, source: &Cells, copy: AreaCopy, marks: &mut Marks)
    requires one { copy.area.rows ≡ 1 }
    requires target { Fits copy.area grid.old }
    requires from { IsFrom copy source.now }
    ensures copied { CopiesMarking copy source.now grid.old grid.new marks.old marks.new }
{
    let AreaCopy { area, from } = copy;
    let old = part_of(grid.line(area.top as usize), area.left, area.cols);
    let new = part_of(source.line(from.row as usize), from.col, area.cols);
    let Some(span) = changed(old, new) else {
        return;
    };
    let part = AreaCopy {
        area: Area {
            top: area.top,
            left: area.left + span.at,
            rows: 1,
            cols: span.size,
        },
        from: Place {
            row: from.row,
            col: from.col + span.at,
        },
    };
    copy_cells(grid, source, part);
    marks.mark(area.top, part.area.left, part.area.left + part.area.cols);
}

/// Copies the cells of `source` at the same places into the rectangle `area`, which must begin at the
/// first column. The grids must have equal cells there outside `marks`; only marked cells are written.
pub fn copy_marked(grid: &mut Cells, area: Area, source: &Cells, marks: &Marks)
    requires both { IsInBoth area source.now grid.old }
    requires marked { AreSame marks.now grid.old source.now }
    ensures value { grid.new ≡ copied area (place area.top area.left) source.now grid.old }
    ensures shape { shape_of grid.new ≡ shape_of grid.old }
{
    let rows = marks.rows_from(area.top, area.rows);
    let part = Area {
        top: area.top + rows.at,
        left: area.left,
        rows: rows.size,
        cols: area.cols,
    };
    copy_marked_rows(grid, part, source, marks);
}

// Copies as `copy_marked` does, row by row.
fn copy_marked_rows(grid: &mut Cells, area: Area, source: &Cells, marks: &Marks)
    requires both { IsInBoth area source.now grid.old }
    requires marked { AreSame marks.now grid.old source.now }
    ensures value { grid.new ≡ copied area (place area.top area.left) source.now grid.old }
    ensures shape { shape_of grid.new ≡ shape_of grid.old }
{
    for k in 0..area.rows {
        copy_marked_row(grid, area, k, source, marks);
    }
}

// Copies the row `k` of the rectangle.
fn copy_marked_row(grid: &mut Cells, area: Area, k: u16, source: &Cells, marks: &Marks)
    requires both { IsInBoth area source.now grid.old }
    requires within { k < area.rows }
    requires marked { IsSameIn marks.now (area.top + k) grid.old source.now }
    ensures value { grid.new ≡ drawn_in (row_of area k) (taken area (place area.top area.left) source.now) grid.old }
    ensures shape { shape_of grid.new ≡ shape_of grid.old }
{
    let row = area.top + k;
    let span = marks.columns(row, area.cols);
    let left = area.left + span.at;
    let part = Area {
        top: row,
        left,
        rows: 1,
        cols: span.size,
    };
    let from = Place { row, col: left };
    copy_cells(grid, source, AreaCopy { area: part, from });
}

// Copies cells of `source` as `copy` says; one cell without a loop.
fn copy_cells(grid: &mut Cells, source: &Cells, copy: AreaCopy)
    requires target { Fits copy.area grid.old }
    requires source { Fits (moved_to copy.area copy.from) source.now }
    ensures value { grid.new ≡ copied copy.area copy.from source.now grid.old }
    ensures shape { shape_of grid.new ≡ shape_of grid.old }
{
    if copy.area.rows == 1 && copy.area.cols == 1 {
        copy_cell(grid, source, copy);
    } else {
        grid.copy_from(copy.area, source, copy.from);
    }
}

// Copies a cell of `source` into a rectangle of one place.
fn copy_cell(grid: &mut Cells, source: &Cells, copy: AreaCopy)
    requires rows { copy.area.rows ≡ 1 }
    requires cols { copy.area.cols ≡ 1 }
    requires target { Fits copy.area grid.old }
    requires source { Fits (moved_to copy.area copy.from) source.now }
    ensures value { grid.new ≡ copied copy.area copy.from source.now grid.old }
    ensures shape { shape_of grid.new ≡ shape_of grid.old }
{
    let AreaCopy { area, from } = copy;
    let cell = source.get(from.row as usize, from.col as usize);
    grid.set(area.top as usize, area.left as usize, cell);
}

// The `cols` cells of a line from the column `left` on.
fn part_of(line: &[Cell], left: u16, cols: u16) -> &[Cell]
    requires { left + cols ≤ length line.now }
    ensures len { length result.now ≡ cols }
    ensures cells { (j : ℕ) → j < cols
        → slice_index_or result.now j space ≡ slice_index_or line.now (left + j) space }
{
    &line[left as usize..left as usize + cols as usize]
}
