//! Lines and columns from a first one to a last one.
ghost use Rattle.std.specs.Prelude.{◌≡◌, ◌+◌, ◌<◌, ◌≤◌, ◌≤ℤ◌, IfSome, pos};
ghost use Rattle.cur_pads.specs.Ranges.{between, from};
ghost use Rattle.cur_pads.specs.Displays as show;

use cur_drawing::Span;

/// The number `n`, or 0 if it is negative.
pub(crate) fn at_least_zero(n: i32) -> i32
    ensures { result ≡ pos (show.start n) }
{
    if n < 0 { 0 } else { n }
}

/// A first row or column; a negative number counts as 0.
pub(crate) fn start(n: i32) -> u32
    ensures { result ≡ show.start n }
{
    at_least_zero(n) as u32
}

/// The lines or columns from `first` to `last`, if `last` is below `limit`; it must not be before `first`.
pub(crate) fn between(first: u32, last: i32, limit: u16) -> Option<Span>
    requires { pos first ≤ℤ last }
    ensures value { result ≡ between first last limit }
    ensures within { IfSome result (λ s. s.at + s.size ≤ limit) }
{
    if last >= limit as i32 {
        return None;
    }
    Some(Span {
        at: first as u16,
        size: last as u16 - first as u16 + 1,
    })
}

/// The `count` lines or columns from `first` on, if they are all below `limit`.
pub(crate) fn from(first: u32, count: u16, limit: u16) -> Option<Span>
    requires { first < 2147483648 }
    ensures value { result ≡ from first count limit }
    ensures within { IfSome result (λ s. s.at + s.size ≤ limit) }
{
    if first + count as u32 > limit as u32 {
        return None;
    }
    Some(Span {
        at: first as u16,
        size: count,
    })
}
