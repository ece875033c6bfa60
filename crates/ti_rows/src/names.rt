//! The checked capabilities by name and in order.
ghost use Rattle.std.specs.Prelude.{◌≡◌, ◌≢◌, ◌+◌, ◌<◌, Some, IfSome, IfNone};
ghost use Rattle.ti_rows.specs.Names as spec;
ghost use Rattle.ti_rows.specs.Rows as rows;

use crate::rows::{NO_ATTRIBUTES, Row};
use ti_caps::{Cap, Kind, at, name};
use vt_term::Color;

/// The number of checked capabilities.
pub const CAPABILITIES: usize = 42;

/// The positions of the checked capabilities among the strings of term(5), in the byte order of their names.
const STRINGS: [u16; CAPABILITIES] = [
    1, 26, 27, 13, 5, 16, 2, 3, 111, 14, 107, 11, 112, 17, 10, 114, 19, 20, 30, 37, 7, 6, 269, 155,
    12, 8, 129, 32, 297, 34, 130, 38, 40, 360, 359, 131, 39, 25, 28, 35, 36, 127,
];

/// The first parameter list of each checked capability, in the same order.
const FIRSTS: [Row; CAPABILITIES] = [
    Row::Bel,
    Row::Blink,
    Row::Bold,
    Row::Civis,
    Row::Clear,
    Row::Cnorm,
    Row::Cr,
    Row::Csr(0, 1),
    Row::Cub(1),
    Row::Cub1,
    Row::Cud(1),
    Row::Cud1,
    Row::Cuf(1),
    Row::Cuf1,
    Row::Cup(0, 0),
    Row::Cuu(1),
    Row::Cuu1,
    Row::Cvvis,
    Row::Dim,
    Row::Ech(1),
    Row::Ed,
    Row::El,
    Row::El1,
    Row::Enacs,
    Row::Home,
    Row::Hpa(0),
    Row::Ind,
    Row::Invis,
    Row::Op,
    Row::Rev,
    Row::Ri,
    Row::Rmacs,
    Row::Rmcup,
    Row::Setab(Color::Black),
    Row::Setaf(Color::Black),
    Row::Sgr(NO_ATTRIBUTES),
    Row::Sgr0,
    Row::Smacs,
    Row::Smcup,
    Row::Smso,
    Row::Smul,
    Row::Vpa(0),
];

impl Row {
    /// The first parameter list of the capability at the place `order` among the checked ones,
    /// which are in the byte order of their names; `None` unless `order` is below [`CAPABILITIES`].
    pub fn first(order: usize) -> Option<Row>
        ensures { result ≡ spec.first_in_order order }
    {
        if order < FIRSTS.len() {
            Some(FIRSTS[order])
        } else {
            None
        }
    }

    /// The first parameter list of the capability named `text`, if it is a checked one.
    pub fn named(text: &[u8]) -> Option<Row>
        ensures name { IfSome result (λ row. spec.name_of row ≡ text.now) }
        ensures first { IfSome result (λ row. spec.first_in_order (spec.order row) ≡ Some row) }
        ensures none { IfNone result ((row : rows.Row) → spec.name_of row ≢ text.now) }
    {
        for order in 0..CAPABILITIES {
            if name_in_order(order) == text {
                return Row::first(order);
            }
        }
        None
    }

    /// The place of this row's capability among the checked ones, in the byte order of their names.
    pub fn order(self) -> usize
        ensures value { result ≡ spec.order self }
        ensures small { result < spec.capabilities }
    {
        match self {
            Row::Bel => 0,
            Row::Blink => 1,
            Row::Bold => 2,
            Row::Civis => 3,
            Row::Clear => 4,
            Row::Cnorm => 5,
            Row::Cr => 6,
            Row::Csr(_, _) => 7,
            Row::Cub(_) => 8,
            Row::Cub1 => 9,
            Row::Cud(_) => 10,
            Row::Cud1 => 11,
            Row::Cuf(_) => 12,
            Row::Cuf1 => 13,
            Row::Cup(_, _) => 14,
            Row::Cuu(_) => 15,
            Row::Cuu1 => 16,
            Row::Cvvis => 17,
            _ => order_from_dim(self),
        }
    }

    /// This row's capability.
    pub fn cap(self) -> Cap
        ensures { result ≡ spec.cap_of self }
    {
        cap_in_order(self.order())
    }

    /// The name of this row's capability.
    pub fn name(self) -> &'static [u8]
        ensures { result.now ≡ spec.name_of self }
    {
        name_in_order(self.order())
    }
}

/// The place of a row's capability among the checked ones, for those from `dim` on.
fn order_from_dim(row: Row) -> usize
    requires { 17 < spec.order row }
    ensures { result ≡ spec.order row }
{
    match row {
        Row::Dim => 18,
        Row::Ech(_) => 19,
        Row::Ed => 20,
        Row::El => 21,
        Row::El1 => 22,
        Row::Enacs => 23,
        Row::Home => 24,
        Row::Hpa(_) => 25,
        Row::Ind => 26,
        Row::Invis => 27,
        Row::Op => 28,
        Row::Rev => 29,
        Row::Ri => 30,
        Row::Rmacs => 31,
        Row::Rmcup => 32,
        Row::Setab(_) => 33,
        Row::Setaf(_) => 34,
        Row::Sgr(_) => 35,
        Row::Sgr0 => 36,
        Row::Smacs => 37,
        Row::Smcup => 38,
        Row::Smso => 39,
        Row::Smul => 40,
        Row::Vpa(_) => 41,
        _ => 0,
    }
}

/// The name of the capability at a place.
#[tactic(auto, using(crate::proofs::NameFacts::named))]
fn name_in_order(order: usize) -> &'static [u8]
    requires { order < spec.capabilities }
    ensures { result.now ≡ spec.name_in_order order }
{
    name(cap_in_order(order))
}

/// The capability at a place.
#[tactic(auto, using(crate::proofs::NameFacts::placed))]
fn cap_in_order(order: usize) -> Cap
    requires { order < spec.capabilities }
    ensures { result ≡ 83 + spec.string_in_order order }
{
    at(Kind::String, string_in_order(order)).unwrap()
}

/// The position of the capability at the place `order` among the strings of term(5).
#[tactic(auto, unfolding(crate::specs::Names::string_in_order))]
fn string_in_order(order: usize) -> usize
    requires { order < spec.capabilities }
    ensures value { result ≡ spec.string_in_order order }
    ensures small { result < 414 }
{
    usize::from(STRINGS[order])
}
