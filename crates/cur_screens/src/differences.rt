//! The places where two lists of cells differ.
ghost use Rattle.std.specs.{Prelude.{ℕ, length, slice_index_or, ◌≡◌, ◌<◌, ◌≤◌, ◌+◌, true, false}, Bool.{OnTrue}};
ghost use Rattle.cur_drawing.specs.Cells.{content_of, space};
ghost use Rattle.cur_screens.specs.Differences.{AreEqualAt, AreEqualIn, IsChanged, IsFirst, IsLast};

use cur_drawing::{Cell, Span};
use std::simd::prelude::*;

// The number of cells compared at a time.
const LANES: usize = 8;

// Eight cells as their numbers.
fn numbers(cells: &[Cell], at: usize) -> u32x8
    requires { at + 8 ≤ length cells.now }
    ensures long { length result ≡ 8 }
    ensures lanes { (j : ℕ) → j < 8 → content_of (slice_index_or result j 0) ≡ slice_index_or cells.now (at + j) space }
{
    u32x8::from_array([
        cells[at].number(),
        cells[at + 1].number(),
        cells[at + 2].number(),
        cells[at + 3].number(),
        cells[at + 4].number(),
        cells[at + 5].number(),
        cells[at + 6].number(),
        cells[at + 7].number(),
    ])
}

// Whether the cells at a place are equal.
#[tactic(auto, using(cur_drawing::proofs::Numbers::equal_numbers))]
fn same_cell(a: &[Cell], b: &[Cell], at: usize) -> bool
    requires in_a { at < length a.now }
    requires in_b { at < length b.now }
    ensures same { result ≡ true → AreEqualAt a.now b.now at }
    ensures apart { result ≡ false → AreEqualAt a.now b.now at → ⊥ }
{
    a[at].number() == b[at].number()
}

// Whether two vectors are equal.
fn same_lanes(a: u32x8, b: u32x8) -> bool
    ensures { OnTrue result ((j : ℕ) → j < 8 → slice_index_or a j 0 ≡ slice_index_or b j 0) }
{
    a == b
}

// Whether eight cells of both lists are equal.
fn same_eight(a: &[Cell], b: &[Cell], at: usize) -> bool
    requires in_a { at + 8 ≤ length a.now }
    requires in_b { at + 8 ≤ length b.now }
    ensures { OnTrue result (AreEqualIn a.now b.now at (at + 8)) }
{
    same_lanes(numbers(a, at), numbers(b, at))
}

// A place before which the lists are equal, found by comparing eight cells at a time.
fn same_front(a: &[Cell], b: &[Cell]) -> usize
    requires { length a.now ≡ length b.now }
    ensures within { result ≤ length a.now }
    ensures equal { AreEqualIn a.now b.now 0 result }
{
    let mut at = 0;
    while a.len() - at >= LANES && same_eight(a, b, at) {
        at += LANES;
    }
    at
}

// A place from which on the lists are equal, found by comparing eight cells at a time.
fn same_back(a: &[Cell], b: &[Cell]) -> usize
    requires { length a.now ≡ length b.now }
    ensures within { result ≤ length a.now }
    ensures equal { AreEqualIn a.now b.now result (length a.now) }
{
    let mut end = a.len();
    while end >= LANES && same_eight(a, b, end - LANES) {
        end -= LANES;
    }
    end
}

/// The least index where two lists differ, or `None` if they are equal. They must have equal lengths.
pub fn first_diff(a: &[Cell], b: &[Cell]) -> Option<usize>
    requires { length a.now ≡ length b.now }
    ensures { IsFirst a.now b.now result }
{
    for k in same_front(a, b)..a.len() {
        if !same_cell(a, b, k) {
            return Some(k);
        }
    }
    None
}

/// The greatest index where two lists differ, or `None` if they are equal. They must have equal lengths.
pub fn last_diff(a: &[Cell], b: &[Cell]) -> Option<usize>
    requires { length a.now ≡ length b.now }
    ensures { IsLast a.now b.now result }
{
    let mut end = same_back(a, b);
    while end > 0 {
        end -= 1;
        if !same_cell(a, b, end) {
            return Some(end);
        }
    }
    None
}

// The places from the first one in which two lists differ to the last one, or `None` if they are equal.
pub(crate) fn changed(a: &[Cell], b: &[Cell]) -> Option<Span>
    requires same_length { length a.now ≡ length b.now }
    requires short { length a.now < 65536 }
    ensures { IsChanged a.now b.now result }
{
    let first = first_diff(a, b)?;
    if first + 1 == a.len() {
        return Some(Span {
            at: first as u16,
            size: 1,
        });
    }
    let last = last_diff(a, b)?;
    Some(Span {
        at: first as u16,
        size: (last - first + 1) as u16,
    })
}
