//! Lines that have moved, found by comparing lines. Nothing here is believed: a scroll is compared before it is used.
ghost use Rattle.std.specs.Prelude.{◌≡◌, ◌<◌, ◌≤◌, IfSome};

use crate::changes::{Findings, columns_at, may_differ};
use cur_drawing::Cell;
use cur_moves::Scroll;
use cur_paint::Scrolls;
use cur_screens::{Hint, Virtual, first_diff};

/// The least number of lines that a scroll must spare if no call has named it.
const LEAST: u16 = 3;

/// The most lines of the old screen that are compared with one line as a whole, for each way.
const TRIES: u8 = 16;

/// The number of cells that may be painted once more to save the margins of a scroll.
const MARGINS: usize = 28;

/// The number of bytes of a move back to lines below those that are painted once more.
const BACK: usize = 6;

/// How lines move: by `count` lines, up if `up`, else down.
#[derive(Clone, Copy)]
struct Way {
    count: u16,
    up: bool,
}

/// The lines from `from` to `last`, most of which have come there the same `way`, and the number of lines that needn't
/// be painted after a scroll, less those that must then be painted again.
#[derive(Clone, Copy)]
struct Run {
    way: Way,
    from: u16,
    last: u16,
    spared: u16,
}

/// The effect of a scroll on a line.
enum Fate {
    /// It needn't be painted any more.
    Spared,
    /// It must be painted because of the scroll.
    Lost,
    /// Neither.
    Even,
}

/// A cell that tells its line from most other lines.
#[derive(Clone, Copy)]
struct Key {
    row: u16,
    col: usize,
    number: u32,
}

/// The screen that was shown last and the one to be shown, which are of one size, and the lines that may differ: none
/// above `top`, none from `end` on.
#[derive(Clone, Copy)]
struct Pages<'a> {
    old: &'a Virtual,
    new: &'a Virtual,
    found: Findings<'a>,
    top: u16,
    end: u16,
}

impl<'a> Pages<'a> {
    /// Whether line `to` of the new screen is line `from` of the old one.
    fn is_moved(&self, from: u16, to: u16) -> bool
        requires rows { (self.now.old.now).rows ≡ (self.now.new.now).rows }
        requires cols { (self.now.old.now).cols ≡ (self.now.new.now).cols }
        requires from { from < (self.now.new.now).rows }
        requires to { to < (self.now.new.now).rows }
    {
        first_diff(self.old.row(from), self.new.row(to)).is_none()
    }

    /// The line of the old screen that comes to the line `y` if lines move that `way`.
    fn source(&self, y: u16, way: Way) -> Option<u16>
        requires { y < self.now.end }
        ensures { IfSome result (λ x. x < self.now.end) }
    {
        if way.up && way.count < self.end - y {
            return Some(y + way.count);
        }
        if !way.up && way.count <= y.saturating_sub(self.top) {
            return Some(y - way.count);
        }
        None
    }

    /// Returns the effect on the line `y` of moving lines in the direction `way`.
    fn fate(&self, y: u16, way: Way) -> Fate
        requires rows { (self.now.old.now).rows ≡ (self.now.new.now).rows }
        requires cols { (self.now.old.now).cols ≡ (self.now.new.now).cols }
        requires within { self.now.end ≤ (self.now.new.now).rows }
        requires line { y < self.now.end }
    {
        let Some(from) = self.source(y, way) else {
            return Fate::Even;
        };
        match (may_differ(&self.found, y), self.is_moved(from, y)) {
            (true, true) => spared(self.new.row(y)),
            (false, false) => Fate::Lost,
            (true, false) | (false, true) => Fate::Even,
        }
    }

    /// The lines for which a scroll that `way` is best, if it spares enough lines.
    fn run(&self, way: Way) -> Option<Run>
        requires rows { (self.now.old.now).rows ≡ (self.now.new.now).rows }
        requires cols { (self.now.old.now).cols ≡ (self.now.new.now).cols }
        requires within { self.now.end ≤ (self.now.new.now).rows }
    {
        let mut run = Run {
            way,
            from: self.top,
            last: self.top,
            spared: 0,
        };
        let mut best = run;
        for y in self.top..self.end {
            run = grown(run, y, self.fate(y, way));
            if run.spared > best.spared {
                best = run;
            }
        }
        (best.spared >= LEAST).then_some(best)
    }

    /// The first cell of line `row` that may differ, unless that is a space.
    fn key_of(&self, row: u16) -> Option<Key>
        requires within { self.now.end ≤ (self.now.new.now).rows }
        requires row { row < self.now.end }
        ensures { IfSome result (λ k. k.row < self.now.end) }
    {
        let columns = columns_at(&self.found, row);
        let line = self.new.row(row);
        let col = columns.from;
        if col >= columns.end || col >= line.len() {
            return None;
        }
        let cell = line[col];
        let number = cell.number();
        (cell.byte() != b' ').then_some(Key { row, col, number })
    }

    /// The key of the first line from `y` on that has one.
    fn key_near(&self, y: u16) -> Option<Key>
        requires within { self.now.end ≤ (self.now.new.now).rows }
        ensures { IfSome result (λ k. k.row < self.now.end) }
    {
        for row in y..self.end {
            let key = self.key_of(row);
            if key.is_some() {
                return key;
            }
        }
        None
    }

    /// Whether line `from` of the old screen has the cell of `key`.
    fn has_cell(&self, from: u16, key: Key) -> bool
        requires { from < (self.now.old.now).rows }
    {
        let line = self.old.row(from);
        key.col < line.len() && line[key.col].number() == key.number
    }

    /// The better one of `best` and the run in which line `from` of the old screen comes to the line of `key`, if it
    /// has come there.
    #[inline(never)]
    fn tried(&self, best: Option<Run>, key: Key, from: u16) -> Option<Run>
        requires rows { (self.now.old.now).rows ≡ (self.now.new.now).rows }
        requires cols { (self.now.old.now).cols ≡ (self.now.new.now).cols }
        requires within { self.now.end ≤ (self.now.new.now).rows }
        requires row { key.row < self.now.end }
        requires from { from < self.now.end }
    {
        if !self.is_moved(from, key.row) {
            return best;
        }
        let way = Way {
            count: from.abs_diff(key.row),
            up: from > key.row,
        };
        better(best, self.run(way))
    }

    /// The better one of `best` and the runs in which the line of `key` has come up (`up`) or down to its place, by at
    /// most three quarters of the lines. The nearest lines of the old screen come first.
    fn seek_along(&self, key: Key, up: bool, best: Option<Run>) -> Option<Run>
        requires rows { (self.now.old.now).rows ≡ (self.now.new.now).rows }
        requires cols { (self.now.old.now).cols ≡ (self.now.new.now).cols }
        requires within { self.now.end ≤ (self.now.new.now).rows }
        requires row { key.row < self.now.end }
    {
        let lines = self.end.saturating_sub(self.top);
        let room = if up {
            self.end - 1 - key.row
        } else {
            key.row.saturating_sub(self.top)
        };
        let mut best = best;
        let mut tries = 0u8;
        for less in 0..room.min(lines - lines / 4) {
            let from = if up {
                key.row + 1 + less
            } else {
                key.row - 1 - less
            };
            if self.has_cell(from, key) {
                best = self.tried(best, key, from);
                tries = tries.saturating_add(1);
                if tries == TRIES || self.is_long(best) {
                    return best;
                }
            }
        }
        best
    }

    /// The better one of `best` and the runs that the line of `key` belongs to.
    fn seek(&self, key: Key, best: Option<Run>) -> Option<Run>
        requires rows { (self.now.old.now).rows ≡ (self.now.new.now).rows }
        requires cols { (self.now.old.now).cols ≡ (self.now.new.now).cols }
        requires within { self.now.end ≤ (self.now.new.now).rows }
        requires row { key.row < self.now.end }
    {
        let up = self.seek_along(key, true, best);
        if self.is_long(up) {
            return up;
        }
        self.seek_along(key, false, up)
    }

    /// Whether `run` spares at least half of the lines.
    fn is_long(&self, run: Option<Run>) -> bool {
        match run {
            Some(run) => run.spared >= self.end.saturating_sub(self.top) / 2,
            None => false,
        }
    }

    /// The run that spares the most lines, among those of a line in the upper part, the middle and the lower part.
    fn longest(&self) -> Option<Run>
        requires rows { (self.now.old.now).rows ≡ (self.now.new.now).rows }
        requires cols { (self.now.old.now).cols ≡ (self.now.new.now).cols }
        requires within { self.now.end ≤ (self.now.new.now).rows }
        requires order { self.now.top < self.now.end }
    {
        let lines = self.end - self.top;
        let places = [
            self.top + lines / 8,
            self.top + lines / 2,
            self.end - 1 - lines / 6,
        ];
        let mut best = None;
        let mut next = 0;
        for k in 0..places.len() {
            let Some(key) = self.key_near(places[k].max(next)) else {
                return best;
            };
            best = self.seek(key, best);
            if self.is_long(best) {
                return best;
            }
            next = key.row + 1;
        }
        best
    }

    /// The number of cells to paint in the lines from `from` up to, but not including, `end` if a scroll takes them,
    /// beyond those that may differ in any case.
    fn repainted(&self, from: u16, end: u16) -> usize
        requires { end ≤ (self.now.new.now).rows }
    {
        let mut count = 0usize;
        for y in from..end {
            let columns = columns_at(&self.found, y);
            let width = columns.end.saturating_sub(columns.from);
            count = count.saturating_add(written(self.new.row(y)).saturating_sub(width));
        }
        count
    }

    /// The scroll of the lines of `run` and of those where they come from.
    fn scroll_of_run(&self, run: Run) -> Scroll {
        let Way { count, up } = run.way;
        Scroll {
            top: run.from.saturating_sub(if up { 0 } else { count }),
            bottom: run.last.saturating_add(if up { count } else { 0 }),
            count,
            up,
        }
    }

    /// The `scroll`; of the whole screen if the lines outside of its region are cheaper to paint than margins are to
    /// set.
    fn widened(&self, scroll: Scroll) -> Scroll {
        let rows = self.new.size().0;
        let above = self.repainted(0, scroll.top.min(rows));
        let below = self.repainted(scroll.bottom.saturating_add(1), rows);
        let back = if above > 0 { BACK } else { 0 };
        if above.saturating_add(below).saturating_add(back) > MARGINS {
            return scroll;
        }
        Scroll {
            top: 0,
            bottom: rows.saturating_sub(1),
            ..scroll
        }
    }

    /// The scroll of lines above or below the region of `first`, where there are more of them that may differ.
    fn beside(&self, first: Scroll) -> Option<Scroll>
        requires rows { (self.now.old.now).rows ≡ (self.now.new.now).rows }
        requires cols { (self.now.old.now).cols ≡ (self.now.new.now).cols }
        requires within { self.now.end ≤ (self.now.new.now).rows }
    {
        let end = first.top.min(self.end);
        let top = first.bottom.saturating_add(1).max(self.top);
        let part = if end.saturating_sub(self.top) > self.end.saturating_sub(top) {
            Pages { end, ..*self }
        } else {
            Pages { top, ..*self }
        };
        if part.end.saturating_sub(part.top) <= LEAST {
            return None;
        }
        let run = part.longest()?;
        Some(part.scroll_of_run(run))
    }

    /// The scroll that makes `run`, and one of other lines beside it.
    fn scrolls_of_run(&self, run: Run) -> Scrolls
        requires rows { (self.now.old.now).rows ≡ (self.now.new.now).rows }
        requires cols { (self.now.old.now).cols ≡ (self.now.new.now).cols }
        requires within { self.now.end ≤ (self.now.new.now).rows }
    {
        let first = self.scroll_of_run(run);
        let second = self.beside(first);
        Scrolls {
            first: Some(if second.is_some() {
                first
            } else {
                self.widened(first)
            }),
            second,
        }
    }
}

/// The pages of `old` and `new`, if they have one size and lines that may differ.
fn pages_of<'a>(old: &'a Virtual, new: &'a Virtual, found: Findings<'a>) -> Option<Pages<'a>>
    ensures rows { IfSome result (λ p. (p.old.now).rows ≡ (p.new.now).rows) }
    ensures cols { IfSome result (λ p. (p.old.now).cols ≡ (p.new.now).cols) }
    ensures within { IfSome result (λ p. p.end ≤ (p.new.now).rows) }
    ensures order { IfSome result (λ p. p.top < p.end) }
{
    let (rows, cols) = old.size();
    let (new_rows, new_cols) = new.size();
    let lines = found.lines;
    if rows != new_rows || cols != new_cols {
        return None;
    }
    if lines.from >= lines.end || lines.end > usize::from(rows) {
        return None;
    }
    let (top, end) = (lines.from as u16, lines.end as u16);
    Some(Pages {
        old,
        new,
        found,
        top,
        end,
    })
}

/// Returns the effect on `line`, which comes to its place by a scroll: a blank one is erased at once without it too.
fn spared(line: &[Cell]) -> Fate {
    let space = Cell::space().number();
    for k in 0..line.len() {
        if line[k].number() != space {
            return Fate::Spared;
        }
    }
    Fate::Even
}

/// The number of cells of a line up to the last one that isn't a space without attributes.
fn written(line: &[Cell]) -> usize {
    let space = Cell::space().number();
    for k in 0..line.len() {
        let end = line.len() - k;
        if line[end - 1].number() != space {
            return end;
        }
    }
    0
}

/// The run that spares more lines.
fn better(one: Option<Run>, other: Option<Run>) -> Option<Run> {
    match (one, other) {
        (Some(a), Some(b)) if a.spared < b.spared => other,
        (None, _) => other,
        (Some(_), _) => one,
    }
}

/// The lines of `run` and the line `y`, to which a scroll does as `fate` says; `y` alone if those lines spare nothing.
fn grown(run: Run, y: u16, fate: Fate) -> Run {
    let from = if run.spared == 0 { y } else { run.from };
    let spared = match fate {
        Fate::Spared => run.spared.saturating_add(1),
        Fate::Lost => run.spared.saturating_sub(1),
        Fate::Even => run.spared,
    };
    Run {
        way: run.way,
        from,
        last: y,
        spared,
    }
}

/// The scroll that `hint` names, if it names one, by at most as many lines as the region has.
fn scroll_of(hint: Hint) -> Option<Scroll> {
    let lines = u32::from(hint.bottom.saturating_sub(hint.top).saturating_add(1));
    let count = hint.up.unsigned_abs().min(lines) as u16;
    if count == 0 {
        return None;
    }
    Some(Scroll {
        top: hint.top,
        bottom: hint.bottom,
        count,
        up: hint.up > 0,
    })
}

/// Whether two of three lines, in the upper part, the middle and the lower part, may differ, so that the others are
/// worth comparing.
fn differ_much(pages: &Pages<'_>) -> bool
    requires { pages.now.top < pages.now.end }
{
    let quarter = (pages.end - pages.top) / 4;
    let upper = may_differ(&pages.found, pages.top + quarter);
    let lower = may_differ(&pages.found, pages.end - 1 - quarter);
    match (upper, lower) {
        (true, true) => true,
        (false, false) => false,
        (true, false) | (false, true) => may_differ(&pages.found, pages.top + 2 * quarter),
    }
}

/// The `scroll` alone, if there is one.
fn only(scroll: Option<Scroll>) -> Scrolls {
    Scrolls {
        first: scroll,
        second: None,
    }
}

/// The scrolls that may turn much of the screen `old` into the screen `new`, of which `found` has the lines that may
/// differ: the one that a call has named, perhaps of more lines, or else one that is found, and one of other lines.
/// None is sought if at most a quarter of the screen's lines may differ, or three beside those of the named scroll.
pub(crate) fn found_scrolls(old: &Virtual, new: &Virtual, found: Findings<'_>) -> Scrolls {
    let lines = found.lines.end.saturating_sub(found.lines.from);
    let few = usize::from(new.size().0 / 4);
    match new.hint() {
        Some(hint) => {
            let Some(named) = scroll_of(hint) else {
                return only(None);
            };
            let region = usize::from(named.bottom.saturating_sub(named.top)) + 1;
            let beside = lines.saturating_sub(region);
            if beside <= usize::from(LEAST) {
                return only(Some(named));
            }
            scrolls_beside(old, new, found, named, beside > few)
        }
        None if lines <= few => only(None),
        None => scrolls_between(old, new, found),
    }
}

/// Slow path of `found_scrolls`: seeks scrolls, however many lines differ.
#[inline(never)]
fn scrolls_between(old: &Virtual, new: &Virtual, found: Findings<'_>) -> Scrolls {
    let Some(pages) = pages_of(old, new, found) else {
        return only(None);
    };
    if !differ_much(&pages) {
        return only(None);
    }
    match pages.longest() {
        Some(run) => pages.scrolls_of_run(run),
        None => only(None),
    }
}

/// Slow path of `found_scrolls` beside a scroll that a call has `named`: one of other lines, and if `many` lines may
/// differ beside that scroll, perhaps one of more lines the same way in its place.
#[inline(never)]
fn scrolls_beside(
    old: &Virtual,
    new: &Virtual,
    found: Findings<'_>,
    named: Scroll,
    many: bool,
) -> Scrolls {
    let Some(pages) = pages_of(old, new, found) else {
        return only(Some(named));
    };
    let way = Way {
        count: named.count,
        up: named.up,
    };
    let wider = if many { pages.run(way) } else { None };
    match wider {
        Some(run) if run.spared > named.bottom.saturating_sub(named.top) => pages.scrolls_of_run(
            run,
        ),
        Some(_) | None => Scrolls {
            first: Some(named),
            second: pages.beside(named),
        },
    }
}
