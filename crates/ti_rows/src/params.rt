//! The parameters of a row as numbers, and back.
ghost use Rattle.std.specs.Prelude.{◌≡◌, ◌<◌, ◌++◌, [], ◌∷◌, length, IfSome, IfNone};
ghost use Rattle.arrayvec.specs.ArrayVec.{array_vec_len};
ghost use Rattle.ti_rows.specs.Params as spec;
ghost use Rattle.ti_rows.specs.Rows as rows;

use crate::rows::{Attributes, Row};
use arrayvec::ArrayVec;
use vt_term::{Color, color_of};

/// The parameters of a row, at most nine.
pub type Params = ArrayVec<u16, 9>;

impl Row {
    /// The row's parameters as numbers, in the order of its capability's. The last two of `sgr` are 0.
    pub fn params(self) -> Params
        ensures { result.items ≡ spec.params self }
    {
        match self {
            Row::Cup(row, col) => two(row, col),
            Row::Csr(top, bottom) => two(top, bottom),
            Row::Hpa(n) | Row::Vpa(n) | Row::Ech(n) => one(n),
            Row::Cub(n) | Row::Cuf(n) | Row::Cuu(n) | Row::Cud(n) => one(n),
            Row::Setaf(color) | Row::Setab(color) => one(u16::from(color.number())),
            Row::Sgr(attributes) => nine(attributes),
            _ => ArrayVec::new(),
        }
    }

    /// The number of parameters of the row's capability.
    pub fn param_count(self) -> usize
        ensures { result ≡ length (spec.params self) }
    {
        match self {
            Row::Cup(_, _) | Row::Csr(_, _) => 2,
            Row::Hpa(_) | Row::Vpa(_) | Row::Ech(_) => 1,
            Row::Cub(_) | Row::Cuf(_) | Row::Cuu(_) | Row::Cud(_) => 1,
            Row::Setaf(_) | Row::Setab(_) => 1,
            Row::Sgr(_) => 9,
            _ => 0,
        }
    }

    /// The row of this capability with the parameters `numbers`, if there are as many as it has and
    /// each is one that it can have: 0 or 1 for an attribute, below 8 for a color. Whether a size
    /// allows them isn't checked.
    pub fn with_params(self, numbers: &[u16]) -> Option<Row>
        ensures { result ≡ spec.with_params self numbers.now }
    {
        match self {
            Row::Cup(_, _) => {
                let (row, col) = two_numbers(numbers)?;
                Some(Row::Cup(row, col))
            }
            Row::Csr(_, _) => {
                let (top, bottom) = two_numbers(numbers)?;
                Some(Row::Csr(top, bottom))
            }
            Row::Hpa(_) => Some(Row::Hpa(only_number(numbers)?)),
            Row::Vpa(_) => Some(Row::Vpa(only_number(numbers)?)),
            Row::Cub(_) => Some(Row::Cub(only_number(numbers)?)),
            Row::Cuf(_) => Some(Row::Cuf(only_number(numbers)?)),
            Row::Cuu(_) => Some(Row::Cuu(only_number(numbers)?)),
            Row::Cud(_) => Some(Row::Cud(only_number(numbers)?)),
            Row::Ech(_) => Some(Row::Ech(only_number(numbers)?)),
            Row::Sgr(_) => Some(Row::Sgr(nine_bits(numbers)?)),
            Row::Setaf(_) => Some(Row::Setaf(only_color(numbers)?)),
            Row::Setab(_) => Some(Row::Setab(only_color(numbers)?)),
            Row::Clear | Row::Home | Row::Cr | Row::Cub1 | Row::Cuf1 => {
                without_numbers(self, numbers)
            }
            Row::Cuu1 | Row::Cud1 | Row::El | Row::El1 | Row::Ed => {
                without_numbers(self, numbers)
            }
            Row::Sgr0 | Row::Op | Row::Smul | Row::Rev | Row::Blink => {
                without_numbers(self, numbers)
            }
            Row::Dim | Row::Bold | Row::Invis | Row::Smso | Row::Enacs => {
                without_numbers(self, numbers)
            }
            Row::Smacs | Row::Rmacs | Row::Ind | Row::Ri | Row::Civis => {
                without_numbers(self, numbers)
            }
            Row::Cnorm | Row::Cvvis | Row::Smcup | Row::Rmcup | Row::Bel => {
                without_numbers(self, numbers)
            }
        }
    }
}

fn without_numbers(row: Row, numbers: &[u16]) -> Option<Row>
    ensures { result ≡ spec.without_numbers row numbers.now }
{
    match numbers {
        [] => Some(row),
        _ => None,
    }
}

fn only_number(numbers: &[u16]) -> Option<u16>
    ensures { result ≡ spec.only_number numbers.now }
{
    match numbers {
        [n] => Some(*n),
        _ => None,
    }
}

fn two_numbers(numbers: &[u16]) -> Option<(u16, u16)>
    ensures { result ≡ spec.two_numbers numbers.now }
{
    match numbers {
        [n, m] => Some((*n, *m)),
        _ => None,
    }
}

fn only_color(numbers: &[u16]) -> Option<Color>
    ensures { result ≡ spec.only_color numbers.now }
{
    match numbers {
        [n] if *n < 8 => Some(color_of(*n)),
        _ => None,
    }
}

fn nine_bits(numbers: &[u16]) -> Option<Attributes>
    ensures { result ≡ spec.nine_bits numbers.now }
{
    match numbers {
        [s, u, r, k, d, b, i, x, y] => {
            if are_bits(*s, *u, *r) && are_bits(*k, *d, *b) && ends_bits(*i, *x, *y) {
                Some(Attributes {
                    standout: *s == 1,
                    underline: *u == 1,
                    reverse: *r == 1,
                    blink: *k == 1,
                    dim: *d == 1,
                    bold: *b == 1,
                    invisible: *i == 1,
                })
            } else {
                None
            }
        }
        _ => None,
    }
}

fn are_bits(a: u16, b: u16, c: u16) -> bool
    ensures { result ≡ spec.are_bits a b c }
{
    a <= 1 && b <= 1 && c <= 1
}

/// Whether `a`, the last of the seven attributes, is 0 or 1, and `x` and `y` after it are 0.
fn ends_bits(a: u16, x: u16, y: u16) -> bool
    ensures { result ≡ spec.ends_bits a x y }
{
    a <= 1 && x == 0 && y == 0
}

fn one(n: u16) -> Params
    ensures { result.items ≡ n ∷ [] }
{
    let mut params = ArrayVec::new();
    params.push(n);
    params
}

fn two(n: u16, m: u16) -> Params
    ensures { result.items ≡ n ∷ m ∷ [] }
{
    let mut params = one(n);
    params.push(m);
    params
}

/// The parameters of `sgr`.
fn nine(a: Attributes) -> Params
    ensures { result.items ≡ spec.params (rows.Sgr a) }
{
    let mut params = two(u16::from(a.standout), u16::from(a.underline));
    params.push(u16::from(a.reverse));
    params.push(u16::from(a.blink));
    params.push(u16::from(a.dim));
    params.push(u16::from(a.bold));
    params.push(u16::from(a.invisible));
    params.push(0);
    params.push(0);
    params
}
