//! The capabilities that an entry must have, and those that it must not have.

ghost use Rattle.std.specs.Prelude.{◌≡◌, ◌<◌, ℕ, List, IfNone, IfSome, true, false, Some, None};
ghost use Rattle.ti_caps.specs.Entry.{flag_at, number_at, string_at};
ghost use Rattle.ti_conforms.specs.{Alternates.{is_misfit}, Conforms.{IsFit, gn, hc, os, xmc}};
ghost use Rattle.ti_conforms.specs.Entries as entries;
ghost use Rattle.ti_conforms.specs.Unfit as spec;
ghost use Rattle.ti_rows.specs.declared.rows.Row.TheVariants as rows;

use crate::partners::misfit;
use ti_caps::{Cap, Entry, Kind, at};
use ti_rows::Row;

/// Why an entry can have no certificate, whatever its strings send.
#[derive(Clone, Copy, Debug, PartialEq, Eq)]
pub enum Unfit {
    /// It has this flag or number: attributes that take room on the screen (`xmc`), paper (`hc`), a generic
    /// type (`gn`), or cells that keep what was printed before (`os`).
    FlagOut(Cap),
    /// It lacks this string: `clear`, `cup` or `sgr0`.
    Absent(Row),
    /// Its `acsc` lists a letter of line graphics with a partner that can't be printed.
    AcsByte,
}

impl Unfit {
    /// The capability that the reason is about.
    pub fn cap(self) -> Cap
        ensures { result ≡ spec.cap_of_unfit self }
    {
        match self {
            Unfit::FlagOut(cap) => cap,
            Unfit::Absent(row) => row.cap(),
            Unfit::AcsByte => acsc(),
        }
    }
}

/// The first flag or number that rules out every certificate.
#[tactic(auto, unfolding(ti_caps::specs::Table::kind_of, ti_caps::specs::Table::position_of, ti_caps::specs::Table::place_from))]
fn flag_out(entry: &Entry) -> Option<Cap>
    ensures first { result ≡ spec.first_flag_out entry.now }
    ensures some { IfSome result (λ cap. spec.is_flag_out entry.now cap ≡ true) }
    ensures xmc { IfNone result (number_at entry.now xmc ≡ None) }
    ensures hc { IfNone result (flag_at entry.now hc ≡ false) }
    ensures gn { IfNone result (flag_at entry.now gn ≡ false) }
    ensures os { IfNone result (flag_at entry.now os ≡ false) }
{
    let xmc = at(Kind::Number, 4).unwrap();
    let hc = at(Kind::Flag, 7).unwrap();
    let gn = at(Kind::Flag, 6).unwrap();
    let os = at(Kind::Flag, 15).unwrap();
    if entry.get_number(xmc).is_some() {
        return Some(xmc);
    }
    if entry.get_flag(hc) {
        return Some(hc);
    }
    if entry.get_flag(gn) {
        return Some(gn);
    }
    if entry.get_flag(os) {
        return Some(os);
    }
    None
}

/// The first required string that the entry lacks.
fn absent(entry: &Entry) -> Option<Row>
    ensures first { result ≡ spec.first_absent entry.now }
    ensures some { IfSome result (λ row. spec.IsLacking entry.now row) }
    ensures clear { IfNone result (entries.has_string entry.now rows.Clear ≡ true) }
    ensures cup { IfNone result (entries.has_string entry.now (rows.Cup 0 0) ≡ true) }
    ensures sgr0 { IfNone result (entries.has_string entry.now rows.Sgr0 ≡ true) }
{
    if entry.get_string(Row::Clear.cap()).is_none() {
        return Some(Row::Clear);
    }
    if entry.get_string(Row::Cup(0, 0).cap()).is_none() {
        return Some(Row::Cup(0, 0));
    }
    if entry.get_string(Row::Sgr0.cap()).is_none() {
        return Some(Row::Sgr0);
    }
    None
}

/// The capability `acsc`.
#[tactic(auto, unfolding(ti_caps::specs::Table::kind_of, ti_caps::specs::Table::position_of, ti_caps::specs::Table::place_from))]
pub fn acsc() -> Cap
    ensures { result ≡ entries.acsc }
{
    at(Kind::String, 146).unwrap()
}

/// Whether the entry's `acsc` lists a letter of line graphics with a partner that can't be printed.
fn has_misfit(entry: &Entry) -> bool
    ensures some { result ≡ true → spec.HasMisfit entry.now }
    ensures none { result ≡ false → (pairs : List ℕ) → string_at entry.now entries.acsc ≡ Some pairs → (letter : ℕ)
        → letter < 256 → is_misfit pairs letter ≡ false }
{
    match entry.get_string(acsc()) {
        Some(pairs) => misfit(pairs).is_some(),
        None => false,
    }
}

/// The first reason why the entry can have no certificate, in the order `xmc`, `hc`, `gn`, `os`,
/// then `clear`, `cup`, `sgr0`, then `acsc`; `None` for a fit entry.
pub fn first_unfit(entry: &Entry) -> Option<Unfit>
    ensures some { IfSome result (λ why. spec.IsUnfit entry.now why) }
    ensures named { IfSome result (λ why. spec.IsUnfitBy entry.now (spec.cap_of_unfit why)) }
    ensures none { IfNone result (IsFit entry.now) }
{
    if let Some(cap) = flag_out(entry) {
        return Some(Unfit::FlagOut(cap));
    }
    if let Some(row) = absent(entry) {
        return Some(Unfit::Absent(row));
    }
    if has_misfit(entry) {
        return Some(Unfit::AcsByte);
    }
    None
}
