//! The most bytes that a cell takes.

ghost use Rattle.std.specs.Prelude.{◌≡◌, ◌<◌, ◌^◌, length};
ghost use Rattle.ti_conforms.specs.{Certified.{cell_limit}, Table.{or_nothing}};
ghost use Rattle.ti_cert.specs.{Certificates.{limit}, Strings.{row_string, total}, Table.{certified}};
ghost use Rattle.ti_cert.specs.Lengths as spec;

use crate::table::Table;
use ti_rows::{NO_ATTRIBUTES, Row};
use vt_term::Color;

/// The number of bytes of the longest line of the row's capability, 0 if it has none.
fn longest(table: &Table, row: Row) -> usize
    requires few { total table.now.known.strings < limit }
    ensures value { result ≡ spec.longest_line table.now.known.strings row }
    ensures small { result < 2 ^ 26 }
{
    table.longest(row)
}

/// The number of bytes of the row's line, 0 if there is none.
fn len(table: &Table, row: Row) -> usize
    requires few { total table.now.known.strings < limit }
    ensures value { result ≡ length (or_nothing (row_string table.now.known.strings row)) }
    ensures small { result < 2 ^ 26 }
{
    match table.bytes(row) {
        Some(bytes) => bytes.len(),
        None => 0,
    }
}

/// The number of bytes of `sgr0` and the strings of single attributes together.
fn singly(table: &Table) -> usize
    requires few { total table.now.known.strings < limit }
    ensures value { result ≡ spec.singly table.now.known.strings }
    ensures small { result < 2 ^ 29 }
{
    len(table, Row::Sgr0)
        + len(table, Row::Smul)
        + len(table, Row::Rev)
        + len(table, Row::Blink)
        + len(table, Row::Dim)
        + len(table, Row::Bold)
        + len(table, Row::Invis)
        + len(table, Row::Smso)
}

/// The most bytes of a change of attributes.
fn longest_change(table: &Table) -> usize
    requires few { total table.now.known.strings < limit }
    ensures value { result ≡ spec.longest_change table.now.known.strings }
    ensures small { result < 2 ^ 29 }
{
    if table.bytes(Row::Sgr(NO_ATTRIBUTES)).is_some() {
        let sets = longest(table, Row::Sgr(NO_ATTRIBUTES));
        sets.max(longest(table, Row::Sgr0))
    } else {
        singly(table)
    }
}

/// The most bytes of an erasure.
#[tactic(auto, unfolding(crate::specs::Lengths::longest_in))]
fn erasure(table: &Table) -> usize
    requires few { total table.now.known.strings < limit }
    ensures value { result ≡ (spec.longest_in table.now.known.strings).erasure }
    ensures small { result < 2 ^ 26 }
{
    let line = longest(table, Row::El).max(longest(table, Row::El1));
    let more = longest(table, Row::Ed).max(longest(table, Row::Ech(1)));
    line.max(more)
}

/// The most bytes of a change of the margins, or of a scroll.
#[tactic(auto, unfolding(crate::specs::Lengths::longest_in))]
fn scroll(table: &Table) -> usize
    requires few { total table.now.known.strings < limit }
    ensures value { result ≡ (spec.longest_in table.now.known.strings).scroll }
    ensures small { result < 2 ^ 26 }
{
    let moves = longest(table, Row::Ind).max(longest(table, Row::Ri));
    longest(table, Row::Csr(0, 1)).max(moves)
}

/// The most bytes that a cell takes, with its move and all changes of its look.
#[tactic(auto, unfolding(crate::specs::Lengths::longest_in))]
pub(crate) fn cell_limit(table: &Table) -> usize
    requires few { total table.now.known.strings < limit }
    ensures { result ≡ cell_limit (certified table.now) }
{
    let look = longest_change(table)
        + longest(table, Row::Setaf(Color::Black))
        + longest(table, Row::Setab(Color::Black))
        + longest(table, Row::Op);
    let sets = longest(table, Row::Smacs).max(longest(table, Row::Rmacs));
    let modes = longest(table, Row::Civis)
        + longest(table, Row::Cnorm)
        + longest(table, Row::Cvvis);
    longest(table, Row::Cup(0, 0)) + look + sets + erasure(table) + scroll(table) + modes + 1
}
