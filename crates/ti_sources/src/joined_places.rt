//! The bytes of a text that the bytes of the joined text are.

ghost use Rattle.std.specs.Prelude.{◌≡◌, ◌≤◌, ◌<◌, ◌+◌, ◌-◌, ◌∷◌, [], IfNone, IfSome, drop, length, map};
ghost use Rattle.ti_sources.specs.JoinedPlaces as spec;

use ti_source::skip_white;

/// A line of a text, and a column on it in bytes, both counted from 1.
#[derive(Clone, Copy, Debug, PartialEq, Eq)]
pub struct Place {
    /// The number of the line.
    pub line: usize,
    /// The column.
    pub column: usize,
}

/// The region of a text from one byte up to another. Lines and columns are counted from 1, columns in bytes.
#[derive(Clone, Copy, Debug, PartialEq, Eq)]
pub struct Region {
    /// The line of the first byte.
    pub line: usize,
    /// The column of the first byte.
    pub column: usize,
    /// The line of the last byte.
    pub end_line: usize,
    /// The column behind the last byte.
    pub end_column: usize,
}

/// The place, in a text with these `lines`, of the byte at `place` of the joined text, which has as many lines. A
/// joined line begins with the line that has its number, and each line that was joined to it follows without its
/// leading white space. Behind the last byte the answer is a column behind the last line that was joined.
#[tactic(auto, unfolding(crate::specs::JoinedPlaces::place_of))]
pub fn original_place(lines: &[&[u8]], place: Place) -> Place
    ensures place { result ≡ spec.place_of (map (λ line. line.now) lines.now) place }
    ensures room { place.column < 18446744073709551615 → result.column < 18446744073709551615 }
{
    let behind = lines_from(lines, place.line.saturating_sub(1));
    place_from(place.line, place.column.saturating_sub(1), behind)
}

/// The region, in a text with these `lines`, of the bytes of the joined line with this `number` from column `start` up
/// to column `end`. It ends behind the last of these bytes, on the line that has it.
#[tactic(auto, unfolding(crate::specs::JoinedPlaces::region_of, crate::specs::JoinedPlaces::end_of))]
pub fn original_region(lines: &[&[u8]], number: usize, start: usize, end: usize) -> Region
    ensures { result ≡ spec.region_of (map (λ line. line.now) lines.now) number start end }
{
    let first = Place {
        line: number,
        column: start,
    };
    let begin = original_place(lines, first);
    let behind = end_of(lines, number, start, end);
    Region {
        line: begin.line,
        column: begin.column,
        end_line: behind.line,
        end_column: behind.column,
    }
}

/// The place behind the last of the bytes of the joined line with this `number` from column `start` up to column `end`;
/// the place of the first column, if there are none.
#[tactic(auto, unfolding(crate::specs::JoinedPlaces::end_of))]
fn end_of(lines: &[&[u8]], number: usize, start: usize, end: usize) -> Place
    ensures { result ≡ spec.end_of (map (λ line. line.now) lines.now) number start end }
{
    if start < end {
        let last = Place {
            line: number,
            column: end - 1,
        };
        let last = original_place(lines, last);
        Place {
            line: last.line,
            column: last.column + 1,
        }
    } else {
        let first = Place {
            line: number,
            column: start,
        };
        original_place(lines, first)
    }
}

/// The lines behind the first `count`.
#[tactic(auto, using(crate::proofs::Origins::lines_behind, crate::proofs::Origins::all_behind))]
fn lines_from<'a, 'b>(lines: &'a [&'b [u8]], count: usize) -> &'a [&'b [u8]]
    ensures lines { map (λ line. line.now) result.now ≡ drop count (map (λ line. line.now) lines.now) }
    ensures fewer { length result.now ≤ length lines.now - count }
{
    if count < lines.len() {
        &lines[count..]
    } else {
        &[]
    }
}

/// The first of these lines, and those behind it; `None` if there is none.
#[tactic(auto, using(crate::proofs::Origins::cut_lines, crate::proofs::Origins::no_lines))]
fn cut_first<'a, 'b>(lines: &'a [&'b [u8]]) -> Option<(&'b [u8], &'a [&'b [u8]])>
    ensures first { IfSome result (λ x. map (λ line. line.now) lines.now ≡ x.0.now ∷ map (λ line. line.now) x.1.now) }
    ensures fewer { IfSome result (λ x. length x.1.now + 1 ≡ length lines.now) }
    ensures none { IfNone result (map (λ line. line.now) lines.now ≡ []) }
{
    match lines.split_first() {
        Some((first, rest)) => Some((*first, rest)),
        None => None,
    }
}

/// The place of the byte with `at` others before it on the joined line that begins with the first of these `lines`, the
/// one with this `number`.
#[tactic(auto, using(crate::proofs::Origins::on_first, crate::proofs::Origins::behind_first, crate::proofs::Origins::on_none))]
fn place_from(number: usize, at: usize, lines: &[&[u8]]) -> Place
    requires column { at + 1 ≤ 18446744073709551615 }
    requires line { number + length lines.now ≤ 18446744073709551615 }
    ensures place { result ≡ spec.place_from number at (map (λ line. line.now) lines.now) }
    ensures room { at + 1 < 18446744073709551615 → result.column < 18446744073709551615 }
{
    match cut_first(lines) {
        None => Place {
            line: number,
            column: at + 1,
        },
        Some((line, behind)) => {
            if at < line.len() {
                Place {
                    line: number,
                    column: at + 1,
                }
            } else {
                place_behind(number + 1, at - line.len(), behind)
            }
        }
    }
}

/// The line and column of byte `past` within the lines `behind`, the first of which is line `number`.
#[tactic(auto, using(crate::proofs::Origins::skip_shorter, crate::proofs::Origins::on_next, crate::proofs::Origins::behind_next, crate::proofs::Origins::behind_all, crate::proofs::Origins::all_behind))]
fn place_behind(number: usize, past: usize, behind: &[&[u8]]) -> Place
    requires column { past + 1 ≤ 18446744073709551615 }
    requires line { number + length behind.now ≤ 18446744073709551615 }
    ensures place { result ≡ spec.place_behind number past (map (λ line. line.now) behind.now) }
    ensures room { past + 1 < 18446744073709551615 → result.column < 18446744073709551615 }
{
    let mut left = past;
    for at in 0..behind.len() {
        let next = line_there(behind, at);
        let own = skip_white(next);
        if left < own.len() {
            let column = next.len() - own.len() + left + 1;
            return Place {
                line: number + at,
                column,
            };
        }
        left -= own.len();
    }
    Place {
        line: number + behind.len(),
        column: left + 1,
    }
}

/// The line at a place of these.
#[tactic(auto, using(crate::proofs::Origins::there))]
fn line_there<'b>(lines: &[&'b [u8]], at: usize) -> &'b [u8]
    requires { at < length lines.now }
    ensures { drop at (map (λ line. line.now) lines.now)
        ≡ result.now ∷ drop (at + 1) (map (λ line. line.now) lines.now) }
{
    lines[at]
}
