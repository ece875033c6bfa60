//! A string that was judged right in place of the entry's own.

ghost use Rattle.std.specs.{Prelude.{◌≡◌, IfOk, IfSome, IsTrue, Some, true, false}, List.{list_all}};
ghost use Rattle.std.specs.Option.{option_copied};
ghost use Rattle.ti_caps.specs.Fits.{string_fits};
ghost use Rattle.ti_conforms.specs.Entries.{string_of};
ghost use Rattle.ti_faults.specs.Remedies as spec;
ghost use Rattle.ti_faults.specs.Standard as standards;

use crate::capabilities::row_of;
use crate::mended::Mended;
use crate::standards::{standard, where_so};
use std::alloc::{AllocError, Global};
use ti_caps::{Cap, Entry};
use ti_checker::{No, names};
use ti_conforms::is_checked;
use ti_rows::Row;

/// The string that ECMA-48, the VT100 or the VT220 has for a checked capability. None of them has a second screen, so
/// there is no string for `smcup` and `rmcup`.
pub fn standard_string(cap: Cap) -> Option<&'static [u8]>
    ensures { standards.IsStandard cap (option_copied result) }
{
    match row_of(cap) {
        Some(row) => standard(row),
        None => None,
    }
}

/// The capabilities whose strings switch character sets.
fn switching() -> [Cap; 3]
    ensures { result ≡ spec.switching }
{
    [Row::Enacs.cap(), Row::Smacs.cap(), Row::Rmacs.cap()]
}

/// Whether the string of `cap` switches character sets.
fn is_switching(cap: Cap) -> bool
    ensures { result ≡ spec.is_switching cap }
{
    switching().iter().any(|own| *own == cap)
}

/// Whether the fault `no` doesn't speak against the string of `row`.
fn may_stay(no: &No, row: Row) -> bool
    ensures { result ≡ spec.may_stay row no.now }
{
    no.cap != row.cap() && !(is_switching(row.cap()) && is_switching(no.cap))
}

/// Whether none of the faults `left` speaks against the string of `row`.
fn all_may_stay(left: &[No], row: Row) -> bool
    ensures { result ≡ list_all (spec.may_stay row) left.now }
{
    left.iter().all(|no| may_stay(no, row))
}

/// Whether the entry has exactly this string for the row's capability.
fn has_string(entry: &Entry, row: Row, string: &[u8]) -> bool
    ensures same { result ≡ true → string_of entry.now row ≡ Some string.now }
    ensures differs { result ≡ false → string_of entry.now row ≡ Some string.now → ⊥ }
{
    match entry.get_string(row.cap()) {
        Some(own) => own == string,
        None => false,
    }
}

/// Whether the mended entry has the string for `row`, which is checked there, and no fault that is left there speaks
/// against it; and `entry`, which was mended, doesn't have it.
fn is_accepted(entry: &Entry, mended: &Mended, row: Row, string: &[u8]) -> bool
    ensures yes { result ≡ true → spec.IsAccepted entry.now mended.now row string.now }
    ensures no { result ≡ false → spec.IsRejected entry.now mended.now row string.now }
{
    if has_string(entry, row, string) {
        return false;
    }
    if !is_checked(&mended.entry, row) {
        return false;
    }
    if !all_may_stay(&mended.left, row) {
        return false;
    }
    has_string(&mended.entry, row, string)
}

/// The string, if there is one and it is accepted.
fn accepted(
    entry: &Entry,
    mended: &Mended,
    row: Row,
    string: Option<&'static [u8]>,
) -> Option<&'static [u8]>
    requires { IfSome string (λ bytes. IsTrue (string_fits bytes.now)) }
    ensures found { spec.IsIfAccepted entry.now mended.now row (option_copied string.entry) (option_copied result) }
    ensures fits { IfSome result (λ bytes. IsTrue (string_fits bytes.now)) }
{
    match string {
        Some(bytes) => where_so(is_accepted(entry, mended, row, bytes), bytes),
        None => None,
    }
}

/// The string that is suggested for `cap` in `entry`, from which `mended` was made: the candidate for it, if `entry`
/// has another string or none, the mended entry has this one, and no fault that is left there speaks against it. So all
/// suggestions by one mended entry are right together. `cap` is at fault, or it is one of `enacs`, `smacs` and `rmacs`,
/// which may be mended as one. `None` otherwise, also if there is no candidate, or if `cap` isn't a checked capability.
pub fn suggestion(entry: &Entry, mended: &Mended, cap: Cap) -> Option<&'static [u8]>
    ensures found { spec.IsSuggestion entry.now mended.now cap (option_copied result) }
    ensures fits { IfSome result (λ bytes. IsTrue (string_fits bytes.now)) }
{
    match row_of(cap) {
        Some(row) => accepted(entry, mended, row, mended.choice.candidate(entry, row)),
        None => None,
    }
}

/// The capability with whose fault the suggestions for those that switch sets are listed.
fn host(faults: &[No]) -> Cap
    ensures { result ≡ spec.host faults.now }
{
    if names(faults, Row::Smacs.cap()) {
        Row::Smacs.cap()
    } else {
        Row::Rmacs.cap()
    }
}

/// The capabilities that switch sets and that none of the `faults` is about.
fn companions(alloc: Global, faults: &[No]) -> Result<Vec<Cap>, AllocError>
    ensures { IfOk result (λ caps. caps.items ≡ spec.companions faults.now) }
{
    Vec::from_array(alloc, switching())?
        .into_iter()
        .filter(|cap| !names(faults, *cap))
        .collect(alloc)
}

/// The capabilities whose suggestions are listed with the fault of `cap`, one of the `faults` of an entry: `cap`
/// itself; and with `smacs`, or with `rmacs` if `smacs` isn't at fault, those of `enacs`, `smacs` and `rmacs` that
/// aren't at fault themselves, since these are mended as one.
///
/// # Errors
/// Out of memory.
pub fn listed_with(alloc: Global, faults: &[No], cap: Cap) -> Result<Vec<Cap>, AllocError>
    ensures { IfOk result (λ caps. caps.items ≡ spec.listed_with faults.now cap) }
{
    let mut caps = Vec::new(alloc);
    caps.push(cap)?;
    if cap == host(faults) {
        let mut others = companions(alloc, faults)?;
        caps.append(&mut others)?;
    }
    Ok(caps)
}
