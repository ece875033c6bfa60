//! The places where each grid may have changed since it was copied to the virtual screen.
ghost use Rattle.std.specs.Prelude.{◌≡◌, ◌≢◌, ◌⊎◌, ◌<◌, ◌≤◌, ◌+◌, ℕ, IfErr, IfOk, IfSome, None, OnOk, false, true};
ghost use Rattle.std.specs.Prelude.{length, replicate};
ghost use Rattle.cur_screens.specs.Marks.{JoinsMarks, none_marked};
ghost use Rattle.cur_screens.specs.Touched.{AreFull, ArePrinted, AreTouched, FillsAll, FitsLine, TakesMarksOff};
ghost use Rattle.cur_screens.specs.Touched.{IsOneCell, LeavesMarks, IsTouched, LiesWithin, MarksArea, MarksCells};
ghost use Rattle.cur_screens.specs.Touched.{MarksGrid, MarksLines, Spreads, TouchesGrid, all_marked, full_from};
ghost use Rattle.cur_screens.specs.Touched.{grid_marks};
ghost use Rattle.cur_drawing.specs.{Calls.{IsCanvas}, Windows.{IsWindow}};

use crate::marks::Marks;
use crate::slots::{Extent, Origin, Slot, WINDOWS};
use cur_drawing::{Answer, Area, Put, Refusal, Window};
use std::alloc::{AllocError, Global};
use std::marker::Model;

/// Marks for each grid, by the number of the window that made it, at the places of the screen where
/// it may differ from the virtual screen. A grid without marks may differ everywhere.
#[derive(Drop)]
pub struct Touched {
    grids: Vec<Marks>,
    // how many grids are in use: each grid from this number on is fully marked
    used: usize,
}

impl Model for Touched {
    ghost use Rattle.std.specs.Prelude.{◌≤◌, length};
    ghost use Rattle.cur_screens.specs.Touched.{Markings, full_from};

    ghost Value = { Markings };

    ghost view = { λ t. full_from t.used t.grids.items };

    ghost invariant = { λ t. t.used ≤ length t.grids.items };
}

impl Touched {
    /// The marks of 64 grids on a screen of `rows` lines, all of them marked. Fails if memory runs out.
    #[tactic(auto, using(crate::proofs::Openings::new_marks, crate::proofs::Openings::none_open))]
    pub fn new(alloc: Global, rows: u16) -> Result<Touched, AllocError>
        ensures value { IfOk result (λ touched. touched ≡ replicate 64 (all_marked rows)) }
        ensures full { IfOk result (λ touched. AreFull touched) }
    {
        let grids = unmarked_grids(alloc, rows)?;
        Ok(Touched { grids, used: 0 })
    }

    /// Marks for no grid, so that all count as marked. Takes no memory.
    #[tactic(auto, using(crate::proofs::Openings::none_open))]
    pub fn unknown(alloc: Global) -> Touched
        ensures { AreFull result }
    {
        Touched {
            grids: Vec::new(alloc),
            used: 0,
        }
    }

    /// Marks all places of all grids.
    #[tactic(auto, using(crate::proofs::Openings::all_closed))]
    pub fn mark_all(&mut self)
        ensures { FillsAll self.old self.new }
    {
        self.used = 0;
    }

    /// The marks of the grid that the window `root` made. `None` means that all of it is marked.
    #[tactic(auto, using(crate::proofs::Openings::used_at, crate::proofs::Openings::is_full_at, crate::proofs::Openings::length_full_from))]
    pub fn of_grid(&self, root: usize) -> Option<&Marks>
        ensures marks { IfSome result (λ m. m.now ≡ grid_marks self.now root) }
        ensures full { result ≡ None → (grid_marks self.now root).all ≡ true }
    {
        if root < self.used {
            return Some(&self.grids[root]);
        }
        None
    }
}

// Marks for 64 grids, none of them marked, on a screen of `rows` lines. Fails if memory runs out.
fn unmarked_grids(alloc: Global, rows: u16) -> Result<Vec<Marks>, AllocError>
    ensures { IfOk result (λ grids. grids.items ≡ replicate 64 (none_marked rows)) }
{
    let mut grids = Vec::with_capacity(alloc, WINDOWS)?;
    for _k in 0..WINDOWS {
        grids.push(Marks::new(alloc, rows)?)?;
    }
    Ok(grids)
}

/// Marks the rectangle `area` of the screen for the grid that the window `root` made, which must be
/// on the screen. `area` must have a column.
pub fn mark_rectangle(touched: &mut Touched, root: usize, area: Area)
    requires rows { area.top + area.rows < 65536 }
    requires cols { area.left + area.cols < 65536 }
    requires some { 0 < area.cols }
    ensures { MarksGrid touched.old touched.new root area }
{
    if root >= touched.used {
        return;
    }
    mark_area(&mut touched.grids[root], area);
}

// Marks a rectangle of the screen.
fn mark_area(marks: &mut Marks, area: Area)
    requires rows { area.top + area.rows < 65536 }
    requires cols { area.left + area.cols < 65536 }
    requires some { 0 < area.cols }
    ensures { MarksArea marks.old marks.new area }
{
    for k in 0..area.rows {
        marks.mark(area.top + k, area.left, area.left + area.cols);
    }
}

/// Marks the lines that a window wrote since its cursor was in the line `first`, or all of its grid
/// if its region may have scrolled. `origin` must be the grid's place, unless it is a pad's.
fn touch(touched: &mut Touched, slot: &Slot, origin: Origin, first: u16)
    requires window { IsWindow (slot.now).window }
    requires within { origin.pad ≡ false → LiesWithin origin (slot.now).window.area }
    ensures { IsTouched touched.old touched.new slot.now origin first }
{
    let root = slot.root as usize;
    if origin.pad || root >= touched.used {
        return;
    }
    touch_grid(&mut touched.grids[root], &slot.window, origin, first);
}

/// As `touch`, after a call with this `answer`. Nothing is marked if the call was refused before it
/// wrote; `NoScroll` may come after it has written.
fn touch_if_written(touched: &mut Touched, slot: &Slot, origin: Origin, first: u16, answer: &Answer)
    requires window { IsWindow (slot.now).window }
    requires within { origin.pad ≡ false → LiesWithin origin (slot.now).window.area }
    ensures touched { IsTouched touched.old touched.new slot.now origin first
        ⊎ LeavesMarks touched.old touched.new answer.now }
    ensures refused { IfErr answer.now (λ e. e ≢ Refusal.NoScroll → touched.new ≡ touched.old) }
{
    if let Err(refusal) = answer {
        if *refusal != Refusal::NoScroll {
            return;
        }
    }
    touch(touched, slot, origin, first);
}

// As `touch`, in the marks of the window's grid.
fn touch_grid(marks: &mut Marks, window: &Window, origin: Origin, first: u16)
    requires window { IsWindow window.now }
    requires within { LiesWithin origin (window.now).area }
    ensures { TouchesGrid marks.old marks.new window.now origin first }
{
    if window.scrolls && window.row == window.region_bottom {
        marks.mark_all();
    } else {
        mark_lines(marks, window, origin, first);
    }
}

/// The place of a window's cursor before a call writes, and whether its text fits in that line: it
/// then becomes `cells` cells of the line, none of them in the last column.
#[derive(Clone, Copy)]
pub struct WrittenFrom {
    pub row: u16,
    pub col: u16,
    pub cells: u16,
    pub fits: bool,
}

/// The facts to remember before the character `put` is written in `window`.
pub fn start_of(window: &Window, put: Put) -> WrittenFrom
    requires { IsWindow window.now }
    ensures row { result.row ≡ (window.now).row }
    ensures col { result.col ≡ (window.now).col }
    ensures one { result.fits ≡ true → IsOneCell window.now put × (result.cells ≡ 1) }
    ensures exact { IsOneCell window.now put → result.fits ≡ true }
{
    WrittenFrom {
        row: window.row,
        col: window.col,
        cells: 1,
        fits: put.is_cell() && window.col + 1 < window.area.cols,
    }
}

/// The facts to remember before the string `text` is written in `window`.
pub fn start_of_text(window: &Window, text: &[u8]) -> WrittenFrom
    requires { IsWindow window.now }
    ensures row { result.row ≡ (window.now).row }
    ensures col { result.col ≡ (window.now).col }
    ensures cells { result.fits ≡ true → FitsLine window.now text.now × (result.cells ≡ length text.now) }
    ensures exact { FitsLine window.now text.now → result.fits ≡ true }
{
    let fits = fits_line(window, text);
    WrittenFrom {
        row: window.row,
        col: window.col,
        cells: if fits { text.len() as u16 } else { 0 },
        fits,
    }
}

// Whether a string becomes cells of the cursor's line, none of them in the last column.
fn fits_line(window: &Window, text: &[u8]) -> bool
    requires { IsWindow window.now }
    ensures fits { result ≡ true → FitsLine window.now text.now }
    ensures exact { FitsLine window.now text.now → result ≡ true }
{
    text.len() < (window.area.cols - window.col) as usize && are_printed(text)
}

// Whether each byte is a character from 32 to 126.
fn are_printed(text: &[u8]) -> bool
    ensures printed { result ≡ true → ArePrinted text.now }
    ensures exact { ArePrinted text.now → result ≡ true }
{
    for k in 0..text.len() {
        if text[k] < 32 || text[k] > 126 {
            return false;
        }
    }
    true
}

/// Marks the changes of a call that wrote a character from `start` on, with this `answer`: one
/// cell, or as `touch_if_written` does.
pub fn touch_written(
    touched: &mut Touched,
    slot: &Slot,
    origin: Origin,
    start: WrittenFrom,
    answer: &Answer,
)
    requires window { IsWindow (slot.now).window }
    requires within { origin.pad ≡ false → LiesWithin origin (slot.now).window.area }
    requires cells { start.fits ≡ true → start.col + start.cells ≤ (slot.now).window.area.cols }
    ensures touched { ((start.fits ≡ true)
        × AreTouched touched.old touched.new slot.now origin start.col start.cells)
        ⊎ (IsTouched touched.old touched.new slot.now origin start.row
        ⊎ LeavesMarks touched.old touched.new answer.now) }
    ensures cells { start.fits ≡ true → OnOk answer.now
        (AreTouched touched.old touched.new slot.now origin start.col start.cells) }
    ensures refused { IfErr answer.now (λ e. e ≢ Refusal.NoScroll → touched.new ≡ touched.old) }
{
    if start.fits && answer.is_ok() {
        touch_cells(touched, slot, origin, start.col, start.cells);
        return;
    }
    touch_if_written(touched, slot, origin, start.row, answer);
}

/// Marks the changes of a call that wrote a string from `start` on: its cells, or as `touch` does.
pub fn touch_text(touched: &mut Touched, slot: &Slot, origin: Origin, start: WrittenFrom)
    requires window { IsWindow (slot.now).window }
    requires within { origin.pad ≡ false → LiesWithin origin (slot.now).window.area }
    requires cells { start.fits ≡ true → start.col + start.cells ≤ (slot.now).window.area.cols }
    ensures touched { ((start.fits ≡ true)
        × AreTouched touched.old touched.new slot.now origin start.col start.cells)
        ⊎ IsTouched touched.old touched.new slot.now origin start.row }
    ensures cells { start.fits ≡ true
        → AreTouched touched.old touched.new slot.now origin start.col start.cells }
{
    if start.fits {
        touch_cells(touched, slot, origin, start.col, start.cells);
        return;
    }
    touch(touched, slot, origin, start.row);
}

/// Marks `count` cells from the column `col` on of the window's line with the cursor. `origin` must
/// be the grid's place, unless it is a pad's.
pub fn touch_cells(touched: &mut Touched, slot: &Slot, origin: Origin, col: u16, count: u16)
    requires window { IsWindow (slot.now).window }
    requires within { origin.pad ≡ false → LiesWithin origin (slot.now).window.area }
    requires cells { col + count ≤ (slot.now).window.area.cols }
    ensures { AreTouched touched.old touched.new slot.now origin col count }
{
    if count == 0 {
        return;
    }
    let root = slot.root as usize;
    if origin.pad || root >= touched.used {
        return;
    }
    mark_cells(&mut touched.grids[root], &slot.window, origin, col, count);
}

// Marks cells of the window's line with the cursor.
fn mark_cells(marks: &mut Marks, window: &Window, origin: Origin, col: u16, count: u16)
    requires window { IsWindow window.now }
    requires within { LiesWithin origin (window.now).area }
    requires cells { col + count ≤ (window.now).area.cols }
    requires some { 0 < count }
    ensures { MarksCells marks.old marks.new origin window.now col count }
{
    let row = origin.top + window.area.top + window.row;
    let left = origin.left + window.area.left + col;
    marks.mark(row, left, left + count);
}

// Marks the window's lines from the line `first` to the cursor's.
fn mark_lines(marks: &mut Marks, window: &Window, origin: Origin, first: u16)
    requires window { IsWindow window.now }
    requires within { LiesWithin origin (window.now).area }
    ensures { MarksLines marks.old marks.new origin window.now first }
{
    let count = (window.row + 1).saturating_sub(first);
    if count == 0 {
        return;
    }
    let lines = Area {
        top: origin.top + window.area.top + first,
        left: origin.left + window.area.left,
        rows: count,
        cols: window.area.cols,
    };
    mark_area(marks, lines);
}

/// Removes all marks of the grid `root` if a window is `whole` of it.
#[tactic(auto, using(crate::proofs::Openings::set_open, crate::proofs::Openings::used_at, crate::proofs::Openings::length_full_from))]
pub fn unmark(touched: &mut Touched, root: usize, whole: bool)
    ensures { TakesMarksOff touched.old touched.new root whole }
{
    if !whole || root >= touched.grids.len() {
        return;
    }
    touched.used = use_until(&mut touched.grids, touched.used, root + 1);
    touched.grids[root].clear();
}

// Marks all of each grid that isn't in use, up to `end`, and takes them into use. Returns how many
// are in use then.
#[tactic(auto, using(crate::proofs::Openings::opened))]
fn use_until(grids: &mut Vec<Marks>, used: usize, end: usize) -> usize
    requires within { end ≤ length grids.old.items }
    requires used { used ≤ length grids.old.items }
    ensures same { full_from result grids.new.items ≡ full_from used grids.old.items }
    ensures size { length grids.new.items ≡ length grids.old.items }
    ensures used { end ≤ result }
    ensures within { result ≤ length grids.new.items }
{
    let mut used = used;
    while used < end {
        grids[used].mark_all();
        used += 1;
    }
    used
}

/// Adds the screen's marks to those of each grid but the one `but`, on a screen of this size.
pub fn spread(touched: &mut Touched, but: usize, marks: &Marks, size: Extent)
    ensures { Spreads touched.old touched.new but marks.now size.rows size.cols }
{
    spread_over(&mut touched.grids, touched.used, but, marks, size);
}

// Adds the marks as `spread` does, to the grids in use.
fn spread_over(grids: &mut Vec<Marks>, used: usize, but: usize, marks: &Marks, size: Extent)
    ensures { Spreads (full_from used grids.old.items) (full_from used grids.new.items) but marks.now
        size.rows size.cols }
{
    for k in 0..used.min(grids.len()) {
        if k != but {
            join_grid(&mut grids[k], marks, size);
        }
    }
}

// Adds the screen's marks to those of one grid, unless all of it is marked.
fn join_grid(grid: &mut Marks, marks: &Marks, size: Extent)
    ensures { JoinsMarks grid.old marks.now size.rows size.cols grid.new }
{
    if !grid.is_full() {
        grid.join(marks, size.rows, size.cols);
    }
}
