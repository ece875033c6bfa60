//! The entry's other strings as witnesses against a string with a wrong effect.

ghost use Rattle.std.specs.Prelude.{◌≡◌, option_copied};
ghost use Rattle.ti_grades.specs.Odds as spec;

use crate::codes::{CodeKind, has_code};
use crate::effects::{
    Runs, bounds, clears, ends_in_col, ends_in_row, erases_away, takes_rendition,
};
use crate::sequences::{are_shifts, has_other_set};
use ti_caps::{Cap, Entry, Kind, at};
use ti_checker::Cause;
use ti_rows::Row;

/// An entry's other strings as witnesses about one of its strings.
#[derive(Clone, Copy)]
pub(crate) enum Witness {
    /// They say nothing of it.
    Silent,
    /// They contradict it.
    Against,
    /// It needs a set that they designate and the terminal T hasn't.
    Elsewhere,
}

/// The bytes of a string; none where there is no string.
pub(crate) fn bytes_of(string: Option<&[u8]>) -> &[u8]
    ensures { result.now ≡ spec.bytes_of (option_copied string.entry) }
{
    match string {
        Some(bytes) => bytes,
        None => &[],
    }
}

/// Whether the entry has `home`, and its `smcup` or `rmcup` clears the screen as `clear` should.
fn homes_elsewhere(entry: &Entry, runs: &Runs) -> bool
    ensures { result ≡ spec.homes_elsewhere entry.now runs.now }
{
    entry.get_string(Row::Home.cap()).is_some() && (clears(runs.enters) || clears(runs.leaves))
}

/// Whether the entry's string for `row` has `%i`.
fn increments(entry: &Entry, row: Row) -> bool
    ensures { result ≡ spec.increments entry.now row }
{
    has_code(bytes_of(entry.get_string(row.cap())), CodeKind::Increments)
}

/// Whether `string` has no `%i`, and the entry's `cup` has it.
fn misses_increment(entry: &Entry, string: &[u8]) -> bool
    ensures { result ≡ spec.misses_increment entry.now string.now }
{
    !has_code(string, CodeKind::Increments) && increments(entry, Row::Cup(0, 0))
}

/// Whether `string` has no `%i`, and the entry's `hpa`, `vpa` or `csr` has it.
fn misses_increment_of_kin(entry: &Entry, string: &[u8]) -> bool
    ensures { result ≡ spec.misses_increment_of_kin entry.now string.now }
{
    !has_code(string, CodeKind::Increments)
        && (increments(entry, Row::Hpa(0))
            || increments(entry, Row::Vpa(0))
            || increments(entry, Row::Csr(0, 0)))
}

#[tactic(auto, unfolding(ti_caps::specs::Table::kind_of, ti_caps::specs::Table::position_of, ti_caps::specs::Table::place_from))]
fn is1() -> Cap
    ensures { result ≡ spec.is1 }
{
    at(Kind::String, 48).unwrap()
}

#[tactic(auto, unfolding(ti_caps::specs::Table::kind_of, ti_caps::specs::Table::position_of, ti_caps::specs::Table::place_from))]
fn is2() -> Cap
    ensures { result ≡ spec.is2 }
{
    at(Kind::String, 49).unwrap()
}

#[tactic(auto, unfolding(ti_caps::specs::Table::kind_of, ti_caps::specs::Table::position_of, ti_caps::specs::Table::place_from))]
fn is3() -> Cap
    ensures { result ≡ spec.is3 }
{
    at(Kind::String, 50).unwrap()
}

#[tactic(auto, unfolding(ti_caps::specs::Table::kind_of, ti_caps::specs::Table::position_of, ti_caps::specs::Table::place_from))]
fn enacs() -> Cap
    ensures { result ≡ spec.enacs }
{
    at(Kind::String, 155).unwrap()
}

/// Whether the entry's string `cap` designates to G1 a set that the terminal hasn't.
fn designates_other(entry: &Entry, cap: Cap) -> bool
    ensures { result ≡ spec.designates_other entry.now cap }
{
    has_other_set(bytes_of(entry.get_string(cap)))
}

/// Whether a string that prepares the terminal does so.
fn has_own_set(entry: &Entry) -> bool
    ensures { result ≡ spec.has_own_set entry.now }
{
    designates_other(entry, is1())
        || designates_other(entry, is2())
        || designates_other(entry, is3())
        || designates_other(entry, enacs())
}

/// The witness about a string for a set that sends these bytes.
fn of_shifts(entry: &Entry, sent: &[u8]) -> Witness
    ensures { result ≡ spec.of_shifts entry.now sent.now }
{
    if !are_shifts(sent) {
        Witness::Silent
    } else if has_own_set(entry) {
        Witness::Elsewhere
    } else {
        Witness::Against
    }
}

fn against(so: bool) -> Witness
    ensures { result ≡ spec.against so }
{
    if so {
        Witness::Against
    } else {
        Witness::Silent
    }
}

/// The witness about the `string` for `row`, which sends these bytes with these `runs`.
fn witness_of(entry: &Entry, row: Row, string: &[u8], sent: &[u8], runs: &Runs) -> Witness
    ensures { result ≡ spec.witness_of entry.now row string.now sent.now runs.now }
{
    match row {
        Row::Op => against(takes_rendition(runs.own)),
        Row::Clear => against(erases_away(runs.own) && homes_elsewhere(entry, runs)),
        Row::Hpa(col) => against(misses_increment(entry, string) && ends_in_col(col, runs.counted)),
        Row::Vpa(row) => against(misses_increment(entry, string) && ends_in_row(row, runs.counted)),
        Row::Csr(top, bottom) => {
            against(misses_increment(entry, string) && bounds(top, bottom, runs.counted))
        }
        Row::Cup(row, col) => against(
            misses_increment_of_kin(entry, string)
                && ends_in_row(row, runs.counted)
                && ends_in_col(col, runs.counted),
        ),
        Row::Smacs | Row::Rmacs => of_shifts(entry, sent),
        Row::Home | Row::Cr | Row::Cub1 | Row::Cuf1 | Row::Cuu1 | Row::Cud1 => Witness::Silent,
        Row::Cub(_) | Row::Cuf(_) | Row::Cuu(_) | Row::Cud(_) => Witness::Silent,
        Row::El | Row::El1 | Row::Ed | Row::Ech(_) => Witness::Silent,
        Row::Sgr(_) | Row::Sgr0 | Row::Setaf(_) | Row::Setab(_) => Witness::Silent,
        Row::Smul | Row::Rev | Row::Blink | Row::Dim | Row::Bold | Row::Invis => Witness::Silent,
        Row::Smso | Row::Enacs | Row::Ind | Row::Ri | Row::Bel => Witness::Silent,
        Row::Civis | Row::Cnorm | Row::Cvvis | Row::Smcup | Row::Rmcup => Witness::Silent,
    }
}

fn is_wrong_effect(cause: Cause) -> bool
    ensures { result ≡ spec.is_wrong_effect cause }
{
    match cause {
        Cause::WrongEffect(_) => true,
        Cause::FlagOut | Cause::Absent | Cause::AcsByte | Cause::Parm(_) => false,
        Cause::StaticRead | Cause::Unfinished | Cause::Stuck => false,
        Cause::NotTame | Cause::BadLook | Cause::NotShown => false,
        Cause::TooLong | Cause::NoResync | Cause::NoMemory => false,
    }
}

/// The witness about the string of a fault with this `cause`, if it is a wrong effect of a row.
pub(crate) fn witness_for(
    entry: &Entry,
    cause: Cause,
    row: Option<Row>,
    string: &[u8],
    sent: &[u8],
    runs: &Runs,
) -> Witness
    ensures { result ≡ spec.witness_for entry.now cause row string.now sent.now runs.now }
{
    match row {
        Some(row) if is_wrong_effect(cause) => witness_of(entry, row, string, sent, runs),
        Some(_) | None => Witness::Silent,
    }
}

pub(crate) fn is_against(witness: Witness) -> bool
    ensures { result ≡ spec.is_against witness }
{
    match witness {
        Witness::Against => true,
        Witness::Silent | Witness::Elsewhere => false,
    }
}

pub(crate) fn is_elsewhere(witness: Witness) -> bool
    ensures { result ≡ spec.is_elsewhere witness }
{
    match witness {
        Witness::Elsewhere => true,
        Witness::Silent | Witness::Against => false,
    }
}
