//! Hints about scrolled lines, and the grids that the screen's lines show.
use crate::virtual_screen::ScreenCopy;
use grids::Area;
use vt_term::MAX_ROWS;

/// The screen's rows from `top` to `bottom` moved up by `up` lines, or down if that is negative. No
/// clause says what they hold.
#[derive(Clone, Copy, Debug, PartialEq, Eq)]
pub struct Hint {
    pub top: u16,
    pub bottom: u16,
    pub up: i32,
}

/// A hint, and the number of the grid whose lines moved.
#[derive(Clone, Copy)]
pub struct Scroll {
    pub root: u8,
    pub hint: Hint,
}

impl Scroll {
    /// A scroll of the same rows by `up` lines.
    pub fn by(self, up: i32) -> Scroll {
        let hint = Hint { up, ..self.hint };
        Scroll { hint, ..self }
    }

    // This scroll after the scroll `before`: they add up if they move the same rows of one grid;
    // else the later one replaces the earlier one.
    fn after(self, before: Scroll) -> Scroll {
        let (early, late) = (before.hint, self.hint);
        if before.root != self.root || early.top != late.top || early.bottom != late.bottom {
            return self;
        }
        self.by(early.up.saturating_add(late.up))
    }
}

// The scroll to remember after `later`, if there was one.
pub fn joined(before: Option<Scroll>, later: Option<Scroll>) -> Option<Scroll> {
    let Some(later) = later else {
        return before;
    };
    match before {
        Some(before) => Some(later.after(before)),
        None => Some(later),
    }
}

// Records which grid now owns the copied lines of a screen of `cols` columns, and updates the
// scroll to remember. Usually nothing has scrolled.
#[inline(always)]
pub(crate) fn remember(
    owners: &mut Owners,
    scrolled: &mut Option<Scroll>,
    copy: ScreenCopy,
    cols: u16,
) {
    if scrolled.is_some() || copy.scrolled.is_some() {
        remember_scroll(owners, scrolled, copy, cols);
    } else if copy.part.area.cols == cols {
        owners.cover(copy.part.area, copy.root);
    }
}

// Records and updates as `remember` does, if something has scrolled.
#[inline(never)]
fn remember_scroll(
    owners: &mut Owners,
    scrolled: &mut Option<Scroll>,
    copy: ScreenCopy,
    cols: u16,
) {
    let kept = owners.take(copy, cols, *scrolled);
    *scrolled = later_of(kept, copy.scrolled);
}

// The scroll to remember on the screen: the later one, if there was one, else `before`.
fn later_of(before: Option<Scroll>, later: Option<Scroll>) -> Option<Scroll> {
    match later {
        Some(later) => Some(later),
        None => before,
    }
}

// The scroll to remember after a window wrote and the rows of a region moved up by `lines` lines.
pub fn after_writing(before: Option<Scroll>, region: Option<Scroll>, lines: u16) -> Option<Scroll> {
    if lines == 0 {
        return before;
    }
    match region {
        Some(region) => joined(before, Some(region.by(lines as i32))),
        None => before,
    }
}

/// The number of the grid that was last copied over the whole of each line of the screen: for the
/// lines from `top` on and before `end` that of the last copy, for the others as noted in `roots`.
#[derive(Clone, Copy)]
pub(crate) struct Owners {
    top: u16,
    end: u16,
    root: u8,
    roots: [u8; MAX_ROWS],
}

// The number of no grid.
const NONE: u8 = 255;

impl Owners {
    // The owners before any copy.
    pub(crate) fn none() -> Owners {
        Owners {
            top: 0,
            end: 0,
            root: NONE,
            roots: [NONE; MAX_ROWS],
        }
    }

    // Forgets the owners of all lines.
    pub(crate) fn forget(&mut self) {
        self.top = 0;
        self.end = u16::MAX;
        self.root = NONE;
    }

    // Whether the last copy over the whole of the line was from this grid.
    pub(crate) fn has(&self, row: u16, root: u8) -> bool {
        if self.top <= row && row < self.end {
            return self.root == root;
        }
        (row as usize) < MAX_ROWS && self.roots[row as usize] == root
    }

    // Records a copy of the grid over the whole of the area's lines.
    fn cover(&mut self, area: Area, root: u8) {
        let end = area.top.saturating_add(area.rows);
        if self.top < area.top || end < self.end {
            self.note_last();
        }
        self.top = area.top;
        self.end = end;
        self.root = root;
    }

    // Notes the owner of the lines of the last copy.
    fn note_last(&mut self) {
        let end = (self.end as usize).min(MAX_ROWS);
        for row in self.top as usize..end {
            self.roots[row] = self.root;
        }
    }

    // Whether one of the rows that moved is still its grid's.
    fn keep(&self, scroll: Scroll) -> bool {
        for row in scroll.hint.top..scroll.hint.bottom.saturating_add(1) {
            if self.has(row, scroll.root) {
                return true;
            }
        }
        false
    }

    // The scroll to remember after this copy to a screen of `cols` columns: none if the
    // copy takes the last row that was still its grid's. A narrower copy takes no rows.
    fn take(&mut self, copy: ScreenCopy, cols: u16, before: Option<Scroll>) -> Option<Scroll> {
        if copy.part.area.cols != cols {
            return before;
        }
        let Some(scroll) = before else {
            self.cover(copy.part.area, copy.root);
            return None;
        };
        let was = self.keep(scroll);
        self.cover(copy.part.area, copy.root);
        if was && !self.keep(scroll) {
            return None;
        }
        before
    }
}
