//! The states from which a row is judged.
ghost use Rattle.std.specs.Prelude.{◌≡◌};
ghost use Rattle.ti_rows.specs.Asked as spec;

use crate::rows::Row;
use vt_effects::{Margins, Start};
use vt_term::Size;

impl Row {
    /// The states from which the row's string is judged.
    pub fn start(self, size: Size) -> Start
        ensures { result ≡ spec.start_of size.rows size.cols self }
    {
        match self {
            Row::Cup(_, _) | Row::Csr(_, _) => starting(size, true, Margins::Legal),
            Row::Cub1 => room_left(1, calm(size)),
            Row::Cuf1 => room_right(1, calm(size)),
            Row::Cuu1 => room_above(1, calm(size)),
            Row::Cud1 => room_below(1, calm(size)),
            Row::Cub(n) => room_left(n, calm(size)),
            Row::Cuf(n) => room_right(n, calm(size)),
            Row::Cuu(n) => room_above(n, calm(size)),
            Row::Cud(n) => room_below(n, calm(size)),
            Row::El | Row::El1 | Row::Ed | Row::Ech(_) => calm(size),
            Row::Ind => room_above(1, starting(size, false, Margins::OnBottom)),
            Row::Ri => room_below(1, starting(size, false, Margins::OnTop)),
            _ => starting(size, true, Margins::Whole),
        }
    }
}

/// The states with any cursor and these margins, and with a pending wrap only if `pending`.
fn starting(size: Size, pending: bool, margins: Margins) -> Start
    ensures { result ≡ spec.starting size.rows size.cols pending margins }
{
    Start {
        row_min: 0,
        row_max: (size.rows - 1) as u16,
        col_min: 0,
        col_max: (size.cols - 1) as u16,
        pending,
        margins,
    }
}

/// The states with any cursor, no pending wrap, and the whole screen as margins.
fn calm(size: Size) -> Start
    ensures { result ≡ spec.calm size.rows size.cols }
{
    starting(size, false, Margins::Whole)
}

/// The states of `start` with at least `n` columns to the left of the cursor.
fn room_left(n: u16, start: Start) -> Start
    ensures { result ≡ spec.room_left n start }
{
    Start {
        col_min: n,
        ..start
    }
}

/// The states of `start` with at least `n` columns to the right of the cursor.
fn room_right(n: u16, start: Start) -> Start
    ensures { result ≡ spec.room_right n start }
{
    Start {
        col_max: start.col_max.saturating_sub(n),
        ..start
    }
}

/// The states of `start` with at least `n` rows above the cursor.
fn room_above(n: u16, start: Start) -> Start
    ensures { result ≡ spec.room_above n start }
{
    Start {
        row_min: n,
        ..start
    }
}

/// The states of `start` with at least `n` rows below the cursor.
fn room_below(n: u16, start: Start) -> Start
    ensures { result ≡ spec.room_below n start }
{
    Start {
        row_max: start.row_max.saturating_sub(n),
        ..start
    }
}
