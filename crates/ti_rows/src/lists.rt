//! The parameter lists of each capability, in ascending order.
ghost use Rattle.std.specs.Prelude.{◌≡◌, ◌+◌, ◌-◌, ◌<◌, ◌≤◌, ◌↔◌, IsTrue};
ghost use Rattle.ti_rows.specs.Bits as bits;
ghost use Rattle.ti_rows.specs.Lists as spec;
ghost use Rattle.ti_rows.specs.Rows as rows;
ghost use Rattle.vt_term.specs.Color as colors;

use crate::rows::{Attributes, Row};
use vt_term::{Color, Size, color_of};

impl Row {
    /// Whether a size allows the row's parameters.
    pub fn is_in_range(self, size: Size) -> bool
        ensures { IsTrue result ↔ spec.IsInRange size.rows size.cols self }
    {
        match self {
            Row::Cup(row, col) => usize::from(row) < size.rows && usize::from(col) < size.cols,
            Row::Hpa(col) => usize::from(col) < size.cols,
            Row::Vpa(row) => usize::from(row) < size.rows,
            Row::Cub(n) | Row::Cuf(n) => 1 <= n && usize::from(n) < size.cols,
            Row::Cuu(n) | Row::Cud(n) => 1 <= n && usize::from(n) < size.rows,
            Row::Ech(n) => 1 <= n && usize::from(n) <= size.cols,
            Row::Csr(top, bottom) => top < bottom && usize::from(bottom) < size.rows,
            _ => true,
        }
    }

    /// The next parameter list of the same capability, in ascending order.
    pub fn next(self, size: Size) -> Option<Row>
        requires { spec.IsInRange size.rows size.cols self }
        ensures { result ≡ spec.next size.rows size.cols self }
    {
        match self {
            Row::Cup(row, col) => next_place(row, col, size),
            Row::Hpa(col) if usize::from(col) + 1 < size.cols => Some(Row::Hpa(col + 1)),
            Row::Vpa(row) if usize::from(row) + 1 < size.rows => Some(Row::Vpa(row + 1)),
            Row::Cub(n) if usize::from(n) + 1 < size.cols => Some(Row::Cub(n + 1)),
            Row::Cuf(n) if usize::from(n) + 1 < size.cols => Some(Row::Cuf(n + 1)),
            Row::Cuu(n) if usize::from(n) + 1 < size.rows => Some(Row::Cuu(n + 1)),
            Row::Cud(n) if usize::from(n) + 1 < size.rows => Some(Row::Cud(n + 1)),
            Row::Ech(n) if usize::from(n) < size.cols => Some(Row::Ech(n + 1)),
            Row::Sgr(attributes) => next_attributes(attributes),
            Row::Setaf(color) if color.number() < 7 => Some(Row::Setaf(color_after(color))),
            Row::Setab(color) if color.number() < 7 => Some(Row::Setab(color_after(color))),
            Row::Csr(top, bottom) => next_margins(top, bottom, size),
            _ => None,
        }
    }

    /// The place of this parameter list among the lines of its capability, from 0.
    pub fn rank(self, size: Size) -> usize
        requires { spec.IsInRange size.rows size.cols self }
        ensures { result ≡ spec.rank size.rows size.cols self }
    {
        match self {
            Row::Cup(row, col) => usize::from(row) * size.cols + usize::from(col),
            Row::Hpa(col) => usize::from(col),
            Row::Vpa(row) => usize::from(row),
            Row::Cub(n) | Row::Cuf(n) | Row::Cuu(n) | Row::Cud(n) | Row::Ech(n) => usize::from(n)
                - 1,
            Row::Sgr(attributes) => attributes.number(),
            Row::Setaf(color) | Row::Setab(color) => usize::from(color.number()),
            Row::Csr(top, bottom) => above(size.rows, usize::from(top))
                + usize::from(bottom - top - 1),
            _ => 0,
        }
    }
}

fn next_place(row: u16, col: u16, size: Size) -> Option<Row>
    requires { spec.IsInRange size.rows size.cols (rows.Cup row col) }
    ensures { result ≡ spec.next size.rows size.cols (rows.Cup row col) }
{
    if usize::from(col) + 1 < size.cols {
        Some(Row::Cup(row, col + 1))
    } else if usize::from(row) + 1 < size.rows {
        Some(Row::Cup(row + 1, 0))
    } else {
        None
    }
}

fn next_margins(top: u16, bottom: u16, size: Size) -> Option<Row>
    requires { spec.IsInRange size.rows size.cols (rows.Csr top bottom) }
    ensures { result ≡ spec.next size.rows size.cols (rows.Csr top bottom) }
{
    if usize::from(bottom) + 1 < size.rows {
        Some(Row::Csr(top, bottom + 1))
    } else if usize::from(top) + 2 < size.rows {
        Some(Row::Csr(top + 1, top + 2))
    } else {
        None
    }
}

fn color_after(color: Color) -> Color
    requires { colors.color_number color < 7 }
    ensures { result ≡ colors.color (colors.color_number color + 1) }
{
    color_of(u16::from(color.number()) + 1)
}

fn next_attributes(a: Attributes) -> Option<Row>
    ensures { result ≡ spec.next 0 0 (rows.Sgr a) }
{
    let number = a.number();
    if number < 127 {
        Some(Row::Sgr(attributes_of(number + 1)))
    } else {
        None
    }
}

/// The attributes whose binary digits are those of `number`.
#[tactic(auto, unfolding(crate::specs::Lists::attributes_of))]
fn attributes_of(number: usize) -> Attributes
    ensures { result ≡ spec.attributes_of number }
{
    Attributes {
        standout: number / 64 == 1,
        underline: number / 32 % 2 == 1,
        reverse: number / 16 % 2 == 1,
        blink: number / 8 % 2 == 1,
        dim: number / 4 % 2 == 1,
        bold: number / 2 % 2 == 1,
        invisible: number % 2 == 1,
    }
}

/// The number of lists of `csr` whose first line is above `top`.
fn above(rows: usize, top: usize) -> usize
    requires within { top < rows }
    requires small { rows ≤ 200 }
    ensures value { result ≡ spec.above rows top }
    ensures small { result ≤ 40000 }
{
    top * (2 * rows - 1 - top) / 2
}
