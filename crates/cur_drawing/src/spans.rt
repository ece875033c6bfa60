//! Runs of lines or columns, and the rectangles that they make.
ghost use Rattle.std.specs.Prelude.{ℕ, ◌≡◌, ◌<◌, ◌≤◌, ◌≤ℤ◌, ◌+◌, ◌⊎◌, IfOk, IfSome, pos};
ghost use Rattle.cur_drawing.specs.Spans.{IsAreaWithin, IsWithin, start_within, span_within, area_within, rectangle};
ghost use Rattle.cur_drawing.specs.Spans.{common, matched};

use crate::refusals::Refusal;
use grids::Area;

/// A run of lines or columns: the first one, and their number.
#[derive(Clone, Copy)]
pub struct Span {
    pub at: u16,
    pub size: u16,
}

impl Span {
    /// The part of the run that isn't before `first`, counted from there.
    pub fn counted_from(self, first: u16) -> Span
        requires { self.at + self.size < 65536 }
        ensures within { (limit : ℕ) → self.at + self.size ≤ first + limit → result.at + result.size ≤ limit }
        ensures others { (i : ℕ) → (i < result.at) ⊎ (result.at + result.size ≤ i)
            → (first + i < self.at) ⊎ (self.at + self.size ≤ first + i) }
    {
        let at = self.at.max(first);
        let end = (self.at + self.size).max(at);
        Span {
            at: at - first,
            size: end - at,
        }
    }
}

/// The `size` lines or columns from `at` on, or all below `limit` if `size` is 0. `None` if they aren't all below it.
fn span_within(size: i32, at: i64, limit: u16) -> Option<Span>
    ensures value { result ≡ span_within size at limit }
    ensures within { IfSome result (λ s. (0 < s.size) × (s.at + s.size ≤ limit)) }
{
    if size < 0 || at < 0 || at >= limit as i64 {
        return None;
    }
    let at = at as u16;
    let room = limit - at;
    if size == 0 {
        return Some(Span { at, size: room });
    }
    if size > room as i32 {
        return None;
    }
    Some(Span {
        at,
        size: size as u16,
    })
}

/// The rectangle of these lines and columns; fails with `outside` if either is missing.
pub fn rectangle(rows: Option<Span>, cols: Option<Span>, outside: Refusal) -> Result<Area, Refusal>
    ensures { result ≡ rectangle rows cols outside }
{
    let (Some(rows), Some(cols)) = (rows, cols) else {
        return Err(outside);
    };
    Ok(Area {
        top: rows.at,
        left: cols.at,
        rows: rows.size,
        cols: cols.size,
    })
}

/// The place `at` of `size` lines or columns, if they are all below `limit`.
pub fn start_within(at: i32, size: u16, limit: u16) -> Option<u16>
    ensures value { result ≡ start_within at size limit }
    ensures number { IfSome result (λ place. at ≡ pos place) }
    ensures within { IfSome result (λ place. place + size ≤ limit) }
{
    if at < 0 || at as i64 + size as i64 > limit as i64 {
        return None;
    }
    Some(at as u16)
}

/// The size and the place that a call asks for.
#[derive(Clone, Copy)]
pub struct Geometry {
    pub lines: i32,
    pub cols: i32,
    pub y: i64,
    pub x: i64,
}

impl Geometry {
    /// The size `lines` by `cols` at the place `y`, `x`.
    pub fn new(lines: i32, cols: i32, y: i32, x: i32) -> Geometry
        ensures { result ≡ record { lines = lines; cols = cols; y = y; x = x } }
    {
        Geometry {
            lines,
            cols,
            y: y as i64,
            x: x as i64,
        }
    }
}

/// The rectangle of a size at a place, in an area of `height` rows and `width` columns. `BadRegion`
/// for a negative size, else `outside` if the rectangle isn't within the area.
pub fn area_within(
    height: u16,
    width: u16,
    geometry: Geometry,
    outside: Refusal,
) -> Result<Area, Refusal>
    ensures value { result ≡ area_within height width geometry.lines geometry.cols geometry.y geometry.x outside }
    ensures within { IfOk result (IsAreaWithin height width) }
{
    if geometry.lines < 0 || geometry.cols < 0 {
        return Err(Refusal::BadRegion);
    }
    rectangle(
        span_within(geometry.lines, geometry.y, height),
        span_within(geometry.cols, geometry.x, width),
        outside,
    )
}

/// The lines or columns of a copy: the first one in the source, the first one in the destination,
/// and their number.
#[derive(Clone, Copy)]
pub struct CopySpan {
    pub from: u16,
    pub to: u16,
    pub count: u16,
}

/// The lines or columns that both have: the `count` of the source from `at` on, and the `limit` of
/// the target from `to` on.
pub fn common(at: u16, count: u16, to: u16, limit: u16) -> Option<CopySpan>
    ensures value { result ≡ common at count to limit }
    ensures within { IfSome result (IsWithin count limit) }
{
    let first = at.max(to) as u32;
    let end = (at as u32 + count as u32).min(to as u32 + limit as u32);
    if first >= end {
        return None;
    }
    Some(CopySpan {
        from: (first - at as u32) as u16,
        to: (first - to as u32) as u16,
        count: (end - first) as u16,
    })
}

/// The target's lines or columns `to` to `last`, and as many of the source, if they are all there.
/// `last` must not be before `to`.
pub fn matched(from: i32, to: i32, last: i32, count: u16, limit: u16) -> Option<CopySpan>
    requires { to ≤ℤ last }
    ensures value { result ≡ matched from to last count limit }
    ensures within { IfSome result (IsWithin count limit) }
{
    let to = start_within(to, 1, limit)?;
    let last = start_within(last, 1, limit)?;
    let size = last - to + 1;
    let from = start_within(from, size, count)?;
    Some(CopySpan {
        from,
        to,
        count: size,
    })
}
