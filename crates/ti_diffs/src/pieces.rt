//! Two lists of lines as pieces that both have and pieces in which they differ.

ghost use Rattle.std.specs.Prelude.{◌≡◌, ◌+◌, ◌<◌, ◌≤◌, drop, IfOk, IfSome, length};
ghost use Rattle.ti_diffs.specs.Pieces.{IsDiff, IsFront, IsWithin, lines_of, new_lines, old_lines};
ghost use Rattle.ti_diffs.specs.Pieces as spec;

use std::alloc::{AllocError, Global};

/// A piece of two lists of lines.
#[derive(Clone, Copy, Debug, PartialEq, Eq)]
pub enum Piece {
    /// This number of lines, which both lists have.
    Kept(usize),
    /// Lines of the old list, in place of which the new one has others.
    Changed {
        /// How many lines of the old list.
        removed: usize,
        /// How many lines of the new list.
        added: usize,
    },
}

/// How many lines of both lists together are passed at most in search of the next one that both have.
const FARTHEST: usize = 200;

impl Piece {
    ghost use Rattle.std.specs.Prelude.{◌≡◌};
    ghost use Rattle.ti_diffs.specs.Pieces.{new_lines, old_lines};

    /// How many lines of the old list it has.
    pub fn old_lines(self) -> usize
        ensures { result ≡ old_lines self }
    {
        match self {
            Piece::Kept(count) => count,
            Piece::Changed { removed, .. } => removed,
        }
    }

    /// How many lines of the new list it has.
    pub fn new_lines(self) -> usize
        ensures { result ≡ new_lines self }
    {
        match self {
            Piece::Kept(count) => count,
            Piece::Changed { added, .. } => added,
        }
    }
}

/// The pieces of the lines `old` and `new`, in order. A piece that is kept has all lines up to the next that differ.
///
/// # Errors
/// Out of memory.
pub fn pieces_of(alloc: Global, old: &[&[u8]], new: &[&[u8]]) -> Result<Vec<Piece>, AllocError>
    ensures { IfOk result (λ pieces. IsDiff pieces.items (lines_of old.now) (lines_of new.now)) }
{
    let mut pieces = Vec::new(alloc);
    let mut passed = 0;
    let mut added = 0;
    while passed < old.len() || added < new.len() {
        let piece = first_piece(behind(old, passed), behind(new, added));
        pieces.push(piece)?;
        passed += piece.old_lines();
        added += piece.new_lines();
    }
    Ok(pieces)
}

/// The `lines` behind the first `count`.
fn behind<'a, 'b>(lines: &'b [&'a [u8]], count: usize) -> &'b [&'a [u8]]
    requires { count ≤ length lines.now }
    ensures { result.now ≡ drop count lines.now }
{
    &lines[count..]
}

/// The first piece of the lines `old` and `new`, of which there are some.
fn first_piece(old: &[&[u8]], new: &[&[u8]]) -> Piece
    requires { 0 < length old.now + length new.now }
    ensures front { IsFront result (lines_of old.now) (lines_of new.now) }
    ensures within { IsWithin (old_lines result) (new_lines result) old.now new.now }
    ensures some { 0 < old_lines result + new_lines result }
{
    let kept = common(old, new);
    if kept > 0 {
        Piece::Kept(kept)
    } else {
        changed(old, new)
    }
}

/// How many lines the lists have in common at their beginning.
fn common(old: &[&[u8]], new: &[&[u8]]) -> usize
    ensures count { result ≡ spec.common (lines_of old.now) (lines_of new.now) }
    ensures within { IsWithin result result old.now new.now }
{
    for place in 0..old.len() {
        if place >= new.len() {
            return place;
        }
        if old[place] != new[place] {
            return place;
        }
    }
    old.len()
}

/// The piece up to the nearest line that both lists have, or else all of both.
fn changed(old: &[&[u8]], new: &[&[u8]]) -> Piece
    requires some { 0 < length old.now + length new.now }
    requires apart { spec.common (lines_of old.now) (lines_of new.now) ≡ 0 }
    ensures front { IsFront result (lines_of old.now) (lines_of new.now) }
    ensures within { IsWithin (old_lines result) (new_lines result) old.now new.now }
    ensures some { 0 < old_lines result + new_lines result }
{
    for passed in 1..=FARTHEST {
        if let Some(removed) = removed_before(old, new, passed) {
            return Piece::Changed {
                removed,
                added: passed - removed,
            };
        }
    }
    Piece::Changed {
        removed: old.len(),
        added: new.len(),
    }
}

/// How many of the `passed` lines are those of the old list, if the lists have the same line behind them.
fn removed_before(old: &[&[u8]], new: &[&[u8]], passed: usize) -> Option<usize>
    ensures { IfSome result (λ removed. spec.IsPassed removed passed old.now new.now) }
{
    for removed in 0..=passed {
        let added = passed - removed;
        if removed < old.len() && added < new.len() && old[removed] == new[added] {
            return Some(removed);
        }
    }
    None
}
