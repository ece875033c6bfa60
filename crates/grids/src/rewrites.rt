//! Rules applied to the cells of one line, to each alone or together with another cell.

ghost use Rattle.std.specs.Prelude.{◌≡◌, ◌<◌, ◌≤◌, ◌+◌, ◌-◌, ℕ, length, slice_index_or};
ghost use Rattle.grids.specs.Grids.{line_drawn, part_redrawn, part_merged};

use crate::areas::Pass;
use crate::rules::{Merge, Rule};

#[tactic(auto, using(std::proofs::lemmas::List::places))]
fn redraw_part<C: Copy, R: Rule<C>>(cells: &mut [C], from: usize, to: usize, rule: &R)
    requires ordered { from ≤ to }
    requires within { to ≤ length cells.old }
    ensures len { length cells.new ≡ length cells.old }
    ensures inside { (k : ℕ) (d : C) → from ≤ k → k < to
        → slice_index_or cells.new k d ≡ R.made rule.now (slice_index_or cells.old k d) }
    ensures before { (k : ℕ) (d : C) → k < from → slice_index_or cells.new k d ≡ slice_index_or cells.old k d }
    ensures behind { (k : ℕ) (d : C) → to ≤ k → slice_index_or cells.new k d ≡ slice_index_or cells.old k d }
{
    for k in from..to {
        cells[k] = rule.make(cells[k]);
    }
}

pub(crate) fn redraw_cells<C: Copy, R: Rule<C>>(cells: &mut [C], from: usize, to: usize, rule: &R)
    requires ordered { from ≤ to }
    requires within { to ≤ length cells.old }
    ensures len { length cells.new ≡ length cells.old }
    ensures drawn { cells.new ≡ line_drawn (part_redrawn from to (R.made rule.now)) 0 cells.old }
{
    redraw_part(cells, from, to, rule);
}

// Merges cells of `source` into those of `cells`, by `rule`.
pub(crate) fn merge_cells<C: Copy, R: Merge<C>>(cells: &mut [C], pass: Pass, source: &[C], rule: &R)
    requires to { pass.to + pass.count ≤ length cells.old }
    requires from { pass.from + pass.count ≤ length source.now }
    ensures len { length cells.new ≡ length cells.old }
    ensures drawn { cells.new
        ≡ line_drawn (part_merged pass.to pass.count pass.from (R.merged rule.now) source.now) 0 cells.old }
{
    if rule.replaces() {
        copy_part(cells, pass, source);
    } else {
        merge_each(cells, pass, source, rule);
    }
}

#[tactic(auto, using(std::proofs::lemmas::List::places))]
fn copy_part<C: Copy>(cells: &mut [C], pass: Pass, source: &[C])
    requires to { pass.to + pass.count ≤ length cells.old }
    requires from { pass.from + pass.count ≤ length source.now }
    ensures len { length cells.new ≡ length cells.old }
    ensures inside { (k : ℕ) (d : C) → pass.to ≤ k → k < pass.to + pass.count
        → slice_index_or cells.new k d ≡ slice_index_or source.now (pass.from + (k - pass.to)) d }
    ensures before { (k : ℕ) (d : C) → k < pass.to → slice_index_or cells.new k d ≡ slice_index_or cells.old k d }
    ensures behind { (k : ℕ) (d : C) → pass.to + pass.count ≤ k
        → slice_index_or cells.new k d ≡ slice_index_or cells.old k d }
{
    cells[pass.to..pass.to + pass.count].copy_from_slice(
        &source[pass.from..pass.from + pass.count],
    );
}

#[tactic(auto, using(std::proofs::lemmas::List::places))]
fn merge_each<C: Copy, R: Merge<C>>(cells: &mut [C], pass: Pass, source: &[C], rule: &R)
    requires to { pass.to + pass.count ≤ length cells.old }
    requires from { pass.from + pass.count ≤ length source.now }
    ensures len { length cells.new ≡ length cells.old }
    ensures drawn { cells.new
        ≡ line_drawn (part_merged pass.to pass.count pass.from (R.merged rule.now) source.now) 0 cells.old }
{
    for k in 0..pass.count {
        cells[pass.to + k] = rule.merge(cells[pass.to + k], source[pass.from + k]);
    }
}

// Merges cells of the line into other ones of it, by `rule`, as if all were read first.
pub(crate) fn merge_within<C: Copy, R: Merge<C>>(cells: &mut [C], pass: Pass, rule: &R)
    requires to { pass.to + pass.count ≤ length cells.old }
    requires from { pass.from + pass.count ≤ length cells.old }
    ensures len { length cells.new ≡ length cells.old }
    ensures drawn { cells.new
        ≡ line_drawn (part_merged pass.to pass.count pass.from (R.merged rule.now) cells.old) 0 cells.old }
{
    if rule.replaces() {
        shift_part(cells, pass);
    } else if pass.to <= pass.from {
        merge_left(cells, pass, rule);
    } else {
        merge_right(cells, pass, rule);
    }
}

// Copies cells of the line to other ones of it, as if all were read first.
pub(crate) fn shift_part<C: Copy>(cells: &mut [C], pass: Pass)
    requires to { pass.to + pass.count ≤ length cells.old }
    requires from { pass.from + pass.count ≤ length cells.old }
    ensures len { length cells.new ≡ length cells.old }
    ensures inside { (k : ℕ) (d : C) → pass.to ≤ k → k < pass.to + pass.count
        → slice_index_or cells.new k d ≡ slice_index_or cells.old (pass.from + (k - pass.to)) d }
    ensures before { (k : ℕ) (d : C) → k < pass.to → slice_index_or cells.new k d ≡ slice_index_or cells.old k d }
    ensures behind { (k : ℕ) (d : C) → pass.to + pass.count ≤ k
        → slice_index_or cells.new k d ≡ slice_index_or cells.old k d }
{
    cells.copy_within(pass.from..pass.from + pass.count, pass.to);
}

// The source begins at or after the target, so going from left to right reads each cell before it is written.
#[tactic(auto, using(std::proofs::lemmas::List::places))]
fn merge_left<C: Copy, R: Merge<C>>(cells: &mut [C], pass: Pass, rule: &R)
    requires order { pass.to ≤ pass.from }
    requires from { pass.from + pass.count ≤ length cells.old }
    ensures len { length cells.new ≡ length cells.old }
    ensures drawn { cells.new
        ≡ line_drawn (part_merged pass.to pass.count pass.from (R.merged rule.now) cells.old) 0 cells.old }
{
    for k in 0..pass.count {
        cells[pass.to + k] = rule.merge(cells[pass.to + k], cells[pass.from + k]);
    }
}

// The source begins before the target, so going from right to left reads each cell before it is written.
#[tactic(auto, using(std::proofs::lemmas::List::places))]
fn merge_right<C: Copy, R: Merge<C>>(cells: &mut [C], pass: Pass, rule: &R)
    requires order { pass.from < pass.to }
    requires to { pass.to + pass.count ≤ length cells.old }
    ensures len { length cells.new ≡ length cells.old }
    ensures drawn { cells.new
        ≡ line_drawn (part_merged pass.to pass.count pass.from (R.merged rule.now) cells.old) 0 cells.old }
{
    for k in 0..pass.count {
        let m = pass.count - 1 - k;
        cells[pass.to + m] = rule.merge(cells[pass.to + m], cells[pass.from + m]);
    }
}
