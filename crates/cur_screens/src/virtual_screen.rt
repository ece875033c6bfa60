//! The virtual screen and its color pairs.
ghost use Rattle.std.specs.Prelude.{ℕ, length, slice_index_or, ◌≡◌, ◌<◌, ◌≤◌, ◌+◌, IfOk, IfSome, replicate, true};
ghost use Rattle.cur_drawing.specs.{Cells.{IsCell, space}, Grids.{Fits, blank, line_at, moved_to}, Spans.{ArePlaces}};
ghost use Rattle.cur_screens.specs.Marks.{AreSame, IsCopiedBut, Keeps, MarksOnly};
ghost use Rattle.cur_screens.specs.VirtualScreen as spec;

use crate::copies::{AreaCopy, copy_changed, copy_marked};
use crate::hints::{Hint, Owners, Scroll, remember};
use crate::marks::Marks;
use cur_drawing::{Cell, PAIRS, Refusal, all_cells, place_below};
use grids::{Area, Grid, Place};
use std::alloc::{AllocError, Global};
use std::marker::Model;
use vt_term::Size;

// How many colors there are for a pair.
const COLORS: u16 = 8;

/// The colors of a pair, 0 to 7 in the order of ECMA-48's SGR. `None` is the terminal's own.
#[derive(Clone, Copy, PartialEq, Eq)]
pub struct Colors {
    pub foreground: Option<u8>,
    pub background: Option<u8>,
}

/// A copy of cells of the grid `root` to the virtual screen, which gets this cursor; the next refresh
/// clears the terminal if `clears`. A `scrolled` region replaces the one that the screen remembers.
#[derive(Clone, Copy)]
pub struct ScreenCopy {
    pub part: AreaCopy,
    pub cursor: Option<Place>,
    pub clears: bool,
    pub root: u8,
    pub scrolled: Option<Scroll>,
}

/// The picture that the terminal must show: cells, a cursor or none, and the colors of the pairs.
#[derive(Drop)]
pub struct Virtual {
    rows: u16,
    cols: u16,
    grid: Grid<Cell>,
    cursor: Option<Place>,
    clearok: bool,
    pairs: Vec<Colors>,
    // the pairs from this one on are default on default
    colored: u16,
    scrolled: Option<Scroll>,
    owners: Owners,
}

impl Model for Virtual {
    ghost use Rattle.cur_screens.specs.VirtualScreen.{AreDefault, Screen, IsScreen, screen_of};

    ghost Value = { Screen };

    ghost view = { λ v. screen_of v.rows v.cols v.grid v.cursor v.clearok v.pairs.items };

    ghost invariant = { λ v. IsScreen (screen_of v.rows v.cols v.grid v.cursor v.clearok v.pairs.items)
        × AreDefault v.colored v.pairs.items };
}

impl Virtual {
    /// A new screen: spaces without attributes, the cursor at the corner, all pairs default on
    /// default. Fails if memory runs out.
    pub fn new(alloc: Global, size: Size) -> Result<Virtual, AllocError>
        ensures { IfOk result (λ screen. screen ≡ spec.new_screen size.rows size.cols) }
    {
        let (rows, cols) = (size.rows as u16, size.cols as u16);
        let pairs = default_pairs(alloc)?;
        Ok(Virtual {
            rows,
            cols,
            grid: blank_grid(alloc, rows, cols)?,
            cursor: Some(Place { row: 0, col: 0 }),
            clearok: false,
            pairs,
            colored: 0,
            scrolled: None,
            owners: Owners::none(),
        })
    }

    /// The numbers of its lines and columns.
    pub fn size(&self) -> (u16, u16)
        ensures { result ≡ ((self.now).rows, (self.now).cols) }
    {
        (self.rows, self.cols)
    }

    /// The line `y`, which must be on the screen. Each of its cells holds a character from 32 to
    /// 126 and a pair below 64.
    pub fn row(&self, y: u16) -> &[Cell]
        requires { y < (self.now).rows }
        ensures value { result.now ≡ line_at (self.now).grid y }
        ensures cells { (x : ℕ) → x < length result.now → IsCell (slice_index_or result.now x space) }
        ensures legal { spec.IsScreen self.now }
    {
        let cells = self.grid.line(y as usize);
        all_cells(cells);
        cells
    }

    /// The place of the cursor, or none if it may be anywhere.
    pub fn cursor(&self) -> Option<Place>
        ensures { result ≡ (self.now).cursor }
    {
        self.cursor
    }

    /// Whether the next refresh must clear the terminal first.
    pub fn clearok(&self) -> bool
        ensures { result ≡ (self.now).clearok }
    {
        self.clearok
    }

    /// Rows that were scrolled since the last refresh that succeeded, if they are known. No clause
    /// says what they hold.
    pub fn hint(&self) -> Option<Hint>
        ensures order { IfSome result (λ h. h.top ≤ h.bottom) }
        ensures there { IfSome result (λ h. h.bottom < (self.now).rows) }
    {
        let hint = self.scrolled?.hint;
        if hint.top <= hint.bottom && hint.bottom < self.rows {
            Some(hint)
        } else {
            None
        }
    }

    /// Records a refresh that succeeded: the next one needn't clear the terminal, and there is no hint.
    pub fn shown(&mut self)
        ensures { self.new ≡ spec.refreshed self.old }
    {
        self.clearok = false;
        self.scrolled = None;
    }

    /// Sets the colors of `pair` (`init_pair`). `BadPair` for a pair that isn't 1 to 63, or a color
    /// that isn't 0 to 7; nothing has then changed.
    pub fn init_pair(&mut self, pair: i32, foreground: i32, background: i32) -> Result<(), Refusal>
        ensures { (self.new, result) ≡ spec.init_pair pair foreground background self.old }
    {
        if foreground < 0 || background < 0 {
            return Err(Refusal::BadPair);
        }
        self.init_pair_or_default(pair, foreground, background)
    }

    /// Sets the colors of `pair`, as `init_pair` does, and also takes -1 for `foreground` or `background`: the
    /// terminal's default color. `BadPair` for a pair that isn't 1 to 63, or a color that isn't -1 to 7; then nothing
    /// has changed.
    pub fn init_pair_or_default(
        &mut self,
        pair: i32,
        foreground: i32,
        background: i32,
    ) -> Result<(), Refusal>
        ensures { (self.new, result) ≡ spec.init_pair_or_default pair foreground background self.old }
    {
        let Some(pair) = place_below(pair, PAIRS as u16) else {
            return Err(Refusal::BadPair);
        };
        let Some(foreground) = color_or_default(foreground) else {
            return Err(Refusal::BadPair);
        };
        let Some(background) = color_or_default(background) else {
            return Err(Refusal::BadPair);
        };
        if pair == 0 {
            return Err(Refusal::BadPair);
        }
        self.pairs[pair as usize] = Colors {
            foreground,
            background,
        };
        self.colored = self.colored.max(pair + 1);
        Ok(())
    }

    /// The colors of `pair`, which must be below 64: foreground and background.
    pub fn pair(&self, pair: u8) -> (Option<u8>, Option<u8>)
        requires { pair < 64 }
        ensures { result ≡ ((spec.colors_at self.now pair).foreground, (spec.colors_at self.now pair).background) }
    {
        let colors = self.pairs[pair as usize];
        (colors.foreground, colors.background)
    }

    /// Whether all pairs have the same colors on `other`. Pairs that were never set aren't compared.
    pub fn same_pairs(&self, other: &Virtual) -> bool
        ensures same { result ≡ true → (self.now).pairs ≡ (other.now).pairs }
        ensures found { (self.now).pairs ≡ (other.now).pairs → result ≡ true }
    {
        same_colors(&self.pairs, &other.pairs, self.colored.max(other.colored))
    }

    /// Makes this screen equal to `other`, which must have its size and equal cells outside
    /// `marks`. Only marked cells are copied, and no hint is left. Takes no memory.
    pub fn copy_marked(&mut self, other: &Virtual, marks: &Marks)
        requires rows { (self.old).rows ≡ (other.now).rows }
        requires cols { (self.old).cols ≡ (other.now).cols }
        requires marked { AreSame marks.now (self.old).grid (other.now).grid }
        ensures { self.new ≡ other.now }
    {
        let area = Area {
            top: 0,
            left: 0,
            rows: self.rows,
            cols: self.cols,
        };
        copy_marked(&mut self.grid, area, &other.grid, marks);
        copy_colors(
            &mut self.pairs,
            &other.pairs,
            self.colored.max(other.colored),
        );
        self.colored = other.colored;
        self.cursor = other.cursor;
        self.clearok = other.clearok;
        self.scrolled = None;
        self.owners.forget();
    }

    /// Copies a rectangle of `grid` to the screen, as `copy` says. Only cells marked in `touched` can differ; those
    /// that do are added to `marks`. A `scrolled` region replaces the one that is remembered. Takes no memory.
    #[inline(always)]
    pub fn show(&mut self, copy: ScreenCopy, grid: &Grid<Cell>, touched: &Marks, marks: &mut Marks)
        requires rows { copy.part.area.top + copy.part.area.rows ≤ (self.old).rows }
        requires cols { copy.part.area.left + copy.part.area.cols ≤ (self.old).cols }
        requires source { Fits (moved_to copy.part.area copy.part.from) grid.now }
        requires places { ArePlaces copy.part.area copy.part.from }
        requires cursor { IfSome copy.cursor (λ p. (p.row < (self.old).rows) × (p.col < (self.old).cols)) }
        requires touched { IsCopiedBut touched.now copy.part.area copy.part.from grid.now (self.old).grid }
        ensures value { self.new ≡ spec.shown copy.part.area grid.now copy.part.from copy.cursor copy.clears self.old }
        ensures marked { Keeps marks.old (self.old).grid marks.new (self.new).grid }
        ensures only { MarksOnly marks.old (self.old).grid marks.new (self.new).grid }
        ensures legal { spec.IsScreen self.old }
    {
        copy_changed(&mut self.grid, grid, copy.part, touched, marks);
        remember(&mut self.owners, &mut self.scrolled, copy, self.cols);
        self.cursor = copy.cursor;
        self.clearok = self.clearok | copy.clears;
    }
}

/// A grid of spaces without attributes. Fails if memory runs out.
pub fn blank_grid(alloc: Global, rows: u16, cols: u16) -> Result<Grid<Cell>, AllocError>
    ensures { IfOk result (λ grid. grid ≡ blank rows cols) }
{
    Grid::new(alloc, rows as usize, cols as usize, Cell::space())
}

/// The color of a pair that `color` is: 0 to 7, the terminal's default for -1, and none otherwise.
fn color_or_default(color: i32) -> Option<Option<u8>>
    ensures { result ≡ spec.color_or_default color }
{
    if color == -1 {
        return Some(None);
    }
    let Some(color) = place_below(color, COLORS) else {
        return None;
    };
    Some(Some(color as u8))
}

fn default_pairs(alloc: Global) -> Result<Vec<Colors>, AllocError>
    ensures { IfOk result (λ pairs. pairs.items ≡ replicate 64 spec.default_colors) }
{
    let colors = Colors {
        foreground: None,
        background: None,
    };
    let mut pairs = Vec::with_capacity(alloc, PAIRS as usize)?;
    for _k in 0..PAIRS {
        pairs.push(colors)?;
    }
    Ok(pairs)
}

// Whether the pairs before `end` have the same colors; all others must be default on default.
fn same_colors(a: &[Colors], b: &[Colors], end: u16) -> bool
    requires long { length a.now ≡ 64 }
    requires long_too { length b.now ≡ 64 }
    requires others { spec.AreDefault end a.now }
    requires others_too { spec.AreDefault end b.now }
    ensures same { result ≡ true → a.now ≡ b.now }
    ensures found { a.now ≡ b.now → result ≡ true }
{
    for pair in 0..end {
        if a[pair as usize] != b[pair as usize] {
            return false;
        }
    }
    true
}

// Copies the pairs before `end`; all others must be default on default.
fn copy_colors(pairs: &mut [Colors], source: &[Colors], end: u16)
    requires long { length pairs.old ≡ 64 }
    requires long_too { length source.now ≡ 64 }
    requires others { spec.AreDefault end pairs.old }
    requires others_too { spec.AreDefault end source.now }
    ensures { pairs.new ≡ source.now }
{
    for pair in 0..end {
        pairs[pair as usize] = source[pair as usize];
    }
}
