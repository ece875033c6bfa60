//! The choice of how a known screen is mended: not at all, directly, after a scroll, or after `clear`, by the number of
//! cells that would differ.
ghost use Rattle.std.specs.Prelude.{◌≡◌, IfSome, Some, false, true};
ghost use Rattle.cur_paint.specs.Limits.{IsPlaced, last_move};
ghost use Rattle.cur_paint.specs.Scenes.{CanCompare, ClearSaves, IsDue, IsUseful, all_changed, scene};

use crate::changes::{Changes, Moved, Written, region};
use crate::clears::{may_become_blanks, saves};
use crate::counts::MOST_CELLS;
use crate::screens::Screens;
use crate::updates::Wanted;
use cur_moves::{Scroll, Shifted, can_scroll};
use cur_steps::{Belief, Blank, Picture, Place, is_mode};
use ti_conforms::Certificate;
use ti_rows::Row;

/// The number of cells that a scroll must save beyond the number of lines that it moves by, since it also sends margins
/// twice, and moves.
const BESIDE: usize = 4;

impl<C: Certificate, O: Picture, N: Picture> Screens<'_, C, O, N> {
    /// Whether nothing has to be sent from a known state: no cell differs, and the cursor is where `wanted` says and in
    /// its mode.
    pub(crate) fn is_still<D: Changes>(&self, belief: Belief, changes: &D, wanted: Wanted) -> bool
        requires compared { CanCompare D.between changes.now (scene C.table O.cells N.cells self.now) }
        ensures there { result ≡ true → IsPlaced (C.table self.now.checked.now).cols wanted.cursor belief.place }
        ensures mode { result ≡ true → belief.mode ≡ Some wanted.mode }
        ensures same { result ≡ true → all_changed (scene C.table O.cells N.cells self.now) ≡ 0 }
        ensures due { result ≡ false → IsDue (scene C.table O.cells N.cells self.now) belief wanted }
    {
        if !is_in_place(belief.place, self.checked.cols(), wanted.cursor) {
            return false;
        }
        if !is_mode(belief.mode, wanted.mode) {
            return false;
        }
        if self.first_differs(changes) {
            return false;
        }
        !self.differ_in_more(changes, 0)
    }

    /// The `scroll`, if there is one, the terminal can do it, and it leaves fewer cells to mend: fewer by the number of
    /// lines that it moves by, and 4 more.
    pub(crate) fn useful_scroll<D: Changes>(
        &self,
        changes: &D,
        scroll: Option<Scroll>,
    ) -> Option<Scroll>
        requires compared { CanCompare D.between changes.now (scene C.table O.cells N.cells self.now) }
        ensures useful { IfSome result (λ x. IsUseful (scene C.table O.cells N.cells self.now) x) }
    {
        self.useful(changes, scroll?)
    }

    /// The `scroll`, if the terminal can do it and enough fewer cells differ after it. Counts the cells of its region
    /// that differ without it, and if the columns that may differ after it aren't few enough, also those that differ
    /// after it; elsewhere it changes nothing.
    #[inline(never)]
    fn useful<D: Changes>(&self, changes: &D, scroll: Scroll) -> Option<Scroll>
        requires compared { CanCompare D.between changes.now (scene C.table O.cells N.cells self.now) }
        ensures useful { IfSome result (λ x. IsUseful (scene C.table O.cells N.cells self.now) x) }
    {
        if !can_scroll(self.checked, scroll) {
            return None;
        }
        let moved = Shifted {
            old: self.old,
            scroll,
        };
        let then = Screens {
            checked: self.checked,
            old: &moved,
            new: self.new,
        };
        let after = Moved {
            changes,
            scroll,
            new: self.new,
        };
        let lines = region(scroll, self.checked.rows());
        let cost = usize::from(scroll.count) + (BESIDE - 1);
        let width = then.columns_in(&after, lines);
        let most = width + cost;
        let before = self.count_lines(changes, lines, most);
        if before > most {
            return Some(scroll);
        }
        let left = then.count_lines(&after, lines, MOST_CELLS);
        if before > left + cost {
            Some(scroll)
        } else {
            None
        }
    }

    /// Whether clearing and painting everything is likely to take fewer bytes than mending the differences, and also
    /// keeps within the bound.
    pub(crate) fn is_better_cleared<D: Changes>(&self, changes: &D) -> bool
        requires compared { CanCompare D.between changes.now (scene C.table O.cells N.cells self.now) }
        ensures saves { result ≡ true → ClearSaves (scene C.table O.cells N.cells self.now) }
    {
        let rows = self.checked.rows();
        let cols = self.checked.cols();
        may_become_blanks(self.new, changes, rows, cols) && self.takes_fewer_cleared(changes)
    }

    /// Slow path of `is_better_cleared`, for a screen on which many lines become blank: counts the cells that differ
    /// before and after `clear`.
    #[inline(never)]
    fn takes_fewer_cleared<D: Changes>(&self, changes: &D) -> bool
        requires compared { CanCompare D.between changes.now (scene C.table O.cells N.cells self.now) }
        ensures saves { result ≡ true → ClearSaves (scene C.table O.cells N.cells self.now) }
    {
        let clear = self.checked.line(Row::Clear).unwrap().len();
        if !saves(self.checked, self.old, self.new, clear) {
            return false;
        }
        let anew = Screens {
            checked: self.checked,
            old: &Blank,
            new: self.new,
        };
        let left = anew.count_cells(&Written { new: self.new });
        self.differ_in_more(changes, clear + left)
    }
}

/// Whether the cursor is at the place `cursor`; true if there is none. `now` is its believed place on a screen of
/// `cols` columns.
fn is_in_place(now: Place, cols: usize, cursor: Option<Place>) -> bool
    ensures seen { result ≡ true → IsPlaced cols cursor now }
    ensures counted { result ≡ false → last_move cols now cursor ≡ 1 }
{
    match cursor {
        Some(at) => is_seen(now, cols, at),
        None => true,
    }
}

/// Whether the cursor is at `at`, given its believed place `now` on a screen of `cols` columns: with a wrap pending it
/// is in the last column.
fn is_seen(now: Place, cols: usize, at: Place) -> bool
    ensures seen { result ≡ true → IsPlaced cols (Some at) now }
    ensures counted { result ≡ false → last_move cols now (Some at) ≡ 1 }
{
    now.row == at.row && now.col.min(cols.saturating_sub(1)) == at.col
}
