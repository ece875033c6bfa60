//! The parameter of a control sequence that changes a part of the effect.

use crate::Stretch;
use crate::parts::Part;
use crate::units::moved;
use vt_effects::{Effect, Erasure, Move, Region};

/// Which parameter of a control sequence with the final byte `last` gives a part what is asked of it in another way,
/// counted from 0: of CUP, CHA and VPA the row or the column, of DECSTBM the first or the last line, and of ECH the
/// cells.
fn place_of(part: Part, last: u8, effect: &Effect, asked: &Effect) -> Option<usize> {
    match part {
        Part::Row => row_place(last, asked.row),
        Part::Column => column_place(last, asked.col),
        Part::Erasure if last == b'X' && is_next(asked.erasure) => Some(0),
        Part::Margins if last == b'r' => differing_line(effect.margins?, asked.margins?),
        Part::Erasure | Part::Margins | Part::Scroll | Part::Mark(_) | Part::Sets => None,
        Part::Foreground | Part::Background | Part::Visible | Part::Pending => None,
    }
}

/// The place of the row in CUP and VPA.
fn row_place(last: u8, asked: Move) -> Option<usize> {
    match last {
        b'H' | b'f' | b'd' if is_to(asked) => Some(0),
        _ => None,
    }
}

/// The place of the column in CUP and CHA.
fn column_place(last: u8, asked: Move) -> Option<usize> {
    match last {
        b'H' | b'f' if is_to(asked) => Some(1),
        b'G' if is_to(asked) => Some(0),
        _ => None,
    }
}

fn is_to(way: Move) -> bool {
    matches!(way, Move::To(_))
}

fn is_next(erasure: Erasure) -> bool {
    matches!(erasure, Erasure::Next(_))
}

/// 0 if the first lines of two regions differ, otherwise 1.
fn differing_line(seen: Region, wanted: Region) -> Option<usize> {
    if seen.top != wanted.top {
        Some(0)
    } else {
        Some(1)
    }
}

/// The bytes of the parameter of the control sequence `token` with this number, counted from 0; `None` if it has no
/// such parameter, or that is left out.
fn parameter_in(token: &[u8], number: usize) -> Option<Stretch> {
    let mut from = 2;
    let mut passed = 0usize;
    for (at, byte) in token.iter().enumerate() {
        if at >= 2 && !byte.is_ascii_digit() {
            if passed == number {
                return if from < at {
                    Some(Stretch { from, to: at })
                } else {
                    None
                };
            }
            from = at + 1;
            passed = passed.saturating_add(1);
        }
    }
    None
}

/// The bytes of `unit`, a part of what is `sent`, or of the one parameter of it that `part` is taken from.
pub(crate) fn narrowed(
    sent: &[u8],
    unit: Stretch,
    part: Part,
    effect: &Effect,
    asked: &Effect,
) -> Stretch {
    let Some(token) = sent.get(unit.from..unit.to) else {
        return unit;
    };
    let Some(last) = token.last() else {
        return unit;
    };
    match place_of(part, *last, effect, asked) {
        Some(number) => match parameter_in(token, number) {
            Some(parameter) => moved(parameter, unit.from),
            None => unit,
        },
        None => unit,
    }
}
