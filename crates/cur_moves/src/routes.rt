//! The way to a place, chosen by its bytes: by a line, over the cells between, which are printed again, or first by a
//! line to a stop.
ghost use Rattle.std.specs.Prelude.{◌≡◌, ◌+◌, ◌<◌, ◌≤◌, ℕ, true, IfSome};
ghost use Rattle.cur_steps.specs.{Gaps.{IsAlike, IsGap}, declared.beliefs.Place.{Place}, Steps.{IsGoal}};
ghost use Rattle.cur_moves.specs.Routes.{IsLeg, IsRoute, LeadsFrom, leg_bytes};

use crate::moves::shortest;
use crate::targets::Target;
use cur_steps::{Belief, Ink, Picture, Place, is_active, same_brush};
use ti_conforms::Certificate;
use ti_rows::Row;

/// The fewest bytes of a way with a stop.
const LEAST: usize = 2;

/// The last part of a way.
#[derive(Clone, Copy)]
pub enum Leg {
    /// A move by a row's line.
    By(Row),
    /// A move over the cells of the line from this column on, which are printed again.
    Over(usize),
}

/// A place on the way, and the row whose line leads there.
#[derive(Clone, Copy)]
pub struct Stop {
    pub line: Row,
    pub place: Place,
}

/// A way to a place, and the number of its bytes.
#[derive(Clone, Copy)]
pub struct Route {
    pub stop: Option<Stop>,
    pub leg: Leg,
    pub bytes: usize,
}

/// A leg, and the number of its bytes.
#[derive(Clone, Copy)]
struct Measured {
    leg: Leg,
    bytes: usize,
}

/// Whether a character is printed now in the set and the brush of `ink`.
pub(crate) fn is_alike(belief: &Belief, ink: Ink) -> bool
    ensures alike { result ≡ true → IsAlike belief.now ink }
    ensures known { IsAlike belief.now ink → result ≡ true }
{
    same_brush(belief.brush, ink.brush) && is_active(belief.graphic, ink.graphic)
}

/// Whether the `count` cells from `from` on are printed in the brush and the set that are known.
fn are_alike<N: Picture>(belief: &Belief, shown: &N, from: Place, count: usize) -> bool
    requires { from.col + count ≤ 1000 }
    ensures { result ≡ true → (k : ℕ) → k < count → IsAlike belief.now (N.cells shown.now from.row (from.col + k)) }
{
    for n in 0..count {
        if !is_alike(belief, shown.at(from.row, from.col + n)) {
            return false;
        }
    }
    true
}

impl<C: Certificate, N: Picture> Target<'_, C, N> {
    /// The column of the cursor in the line of `at`, if the cells from there to `at` are fewer than `bytes`, the bytes
    /// of the move, and would be printed in the current brush and set.
    fn gap_start(&self, belief: &Belief, at: Place, bytes: usize) -> Option<usize>
        requires goal { IsGoal (C.table self.now.checked.now) at }
        requires bytes { bytes ≤ (C.table self.now.checked.now).longest.cup }
        ensures gap { IfSome result
            (λ from. IsGap (C.table self.now.checked.now) belief.now (N.cells self.now.shown.now) at.row from at.col) }
    {
        let from = belief.place;
        if from.row != at.row || at.col <= from.col {
            return None;
        }
        let count = at.col - from.col;
        if count < bytes && are_alike(belief, self.shown, from, count) {
            Some(from.col)
        } else {
            None
        }
    }

    /// A leg to `at` from the believed place of the cursor.
    fn leg_to(&self, belief: &Belief, at: Place) -> Measured
        requires goal { IsGoal (C.table self.now.checked.now) at }
        ensures leg { IsLeg (C.table self.now.checked.now) belief.now (N.cells self.now.shown.now)
            at.row at.col result.leg }
        ensures bytes { result.bytes ≡ leg_bytes (C.table self.now.checked.now) result.leg at.col }
    {
        let way = shortest(
            self.checked,
            Some(belief.place),
            at.row as u16,
            at.col as u16,
        );
        match self.gap_start(belief, at, way.bytes) {
            Some(from) => Measured {
                leg: Leg::Over(from),
                bytes: at.col.saturating_sub(from),
            },
            None => Measured {
                leg: Leg::By(way.line),
                bytes: way.bytes,
            },
        }
    }

    /// A way to `at` without a stop.
    fn direct(&self, belief: &Belief, at: Place) -> Route
        requires goal { IsGoal (C.table self.now.checked.now) at }
        ensures route { IsRoute (C.table self.now.checked.now) belief.now (N.cells self.now.shown.now)
            at.row at.col result }
    {
        let whole = self.leg_to(belief, at);
        Route {
            stop: None,
            leg: whole.leg,
            bytes: whole.bytes,
        }
    }

    /// The way to `at` with the stop `stop`, if that way is shorter than `best`.
    fn with_stop(&self, belief: &Belief, at: Place, best: Route, stop: Stop) -> Route
        requires goal { IsGoal (C.table self.now.checked.now) at }
        requires best { IsRoute (C.table self.now.checked.now) belief.now (N.cells self.now.shown.now)
            at.row at.col best }
        requires moves { LeadsFrom (C.table self.now.checked.now).cols belief.now.place stop }
        ensures route { IsRoute (C.table self.now.checked.now) belief.now (N.cells self.now.shown.now)
            at.row at.col result }
    {
        if stop.place.row >= self.checked.rows() || stop.place.col >= self.checked.cols() {
            return best;
        }
        let Some(line) = self.checked.line(stop.line) else {
            return best;
        };
        if line.len() + 1 >= best.bytes {
            return best;
        }
        let there = Belief {
            place: stop.place,
            ..*belief
        };
        let left = self.leg_to(&there, at);
        if left.bytes < best.bytes - line.len() {
            Route {
                stop: Some(stop),
                leg: left.leg,
                bytes: line.len() + left.bytes,
            }
        } else {
            best
        }
    }

    /// A way of few bytes to `at`: without a stop, or with one at the start of the cursor's line, in the corner, or in
    /// the line of `at`. A stop from which `cup` alone leads on is left out.
    pub(crate) fn route_to(&self, belief: &Belief, at: Place) -> Route
        requires goal { IsGoal (C.table self.now.checked.now) at }
        ensures route { IsRoute (C.table self.now.checked.now) belief.now (N.cells self.now.shown.now)
            at.row at.col result }
    {
        let from = belief.place;
        let mut best = self.direct(belief, at);
        if let Some(stop) = line_start(from, at, best.bytes) {
            best = self.with_stop(belief, at, best, stop);
        }
        if let Some(stop) = corner(at, best.bytes) {
            best = self.with_stop(belief, at, best, stop);
        }
        if let Some(stop) = same_column(self.checked, from, at, best.bytes) {
            best = self.with_stop(belief, at, best, stop);
        }
        best
    }
}

/// The start of the line of `from`, where the cursor is, by `cr`: on the way to a place `at` of that line or of the
/// first column, if a way of `bytes` bytes isn't short enough.
fn line_start(from: Place, at: Place, bytes: usize) -> Option<Stop>
    ensures moves { (cols : ℕ) → IfSome result (λ stop. LeadsFrom cols from stop) }
{
    if from.col == 0 || from.row != at.row && at.col > 0 || bytes <= LEAST {
        return None;
    }
    Some(Stop {
        line: Row::Cr,
        place: Place {
            row: from.row,
            col: 0,
        },
    })
}

/// The corner, by `home`: on the way to a place `at` of the first line or the first column, if a way of `bytes` bytes
/// isn't short enough.
fn corner(at: Place, bytes: usize) -> Option<Stop>
    ensures moves { (cols : ℕ) (from : Place) → IfSome result (λ stop. LeadsFrom cols from stop) }
{
    if at.row > 0 && at.col > 0 || bytes <= LEAST {
        return None;
    }
    Some(Stop {
        line: Row::Home,
        place: Place { row: 0, col: 0 },
    })
}

/// The column of `from`, where the cursor is, in the line of `at`: on the way to a place `at` of another line, if a way
/// of `bytes` bytes isn't short enough.
fn same_column<C: Certificate>(checked: &C, from: Place, at: Place, bytes: usize) -> Option<Stop>
    requires goal { IsGoal (C.table checked.now) at }
    ensures moves { IfSome result (λ stop. LeadsFrom (C.table checked.now).cols from stop) }
{
    let col = from.col;
    if from.row == at.row || col >= checked.cols() || bytes <= LEAST {
        return None;
    }
    Some(Stop {
        line: shortest(checked, Some(from), at.row as u16, col as u16).line,
        place: Place { row: at.row, col },
    })
}
