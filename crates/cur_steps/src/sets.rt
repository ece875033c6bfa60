//! The set that is active after a string of attributes, and whether it leads to one rendition.
ghost use Rattle.std.specs.{Prelude.{◌≡◌, IfSome, true}, List.{list_all}};
ghost use Rattle.vt_term.specs.Parameters as parameters;
ghost use Rattle.ti_conforms.specs.Certified.{IsChecked};
ghost use Rattle.cur_steps.specs.Sets.{FixesRendition, IsBeside, IsRendition, LeavesSet};
ghost use Rattle.cur_steps.specs.Sets as spec;

use ti_conforms::Certificate;
use ti_rows::Row;

/// The most bytes of a sequence (a terminal takes no longer one).
const LONGEST: usize = 256;

/// Whether `byte` is a digit or a semicolon.
fn is_numeral(byte: u8) -> bool
    ensures { result ≡ parameters.is_numeral byte }
{
    48 <= byte && (byte <= 57 || byte == 59)
}

/// Whether all `bytes` are digits and semicolons.
fn are_numerals(bytes: &[u8]) -> bool
    ensures { result ≡ list_all parameters.is_numeral bytes.now }
{
    bytes.iter().all(|byte| is_numeral(*byte))
}

/// The digits and semicolons of `bytes`, if they are one control sequence SGR and no more.
fn numerals_of(bytes: &[u8]) -> Option<&[u8]>
    ensures { IfSome result (λ numerals. IsRendition bytes.now numerals.now) }
{
    match bytes {
        [27, b'[', numerals @ .., b'm'] if bytes.len() <= LONGEST && are_numerals(numerals) => {
            Some(numerals)
        }
        _ => None,
    }
}

/// The digits and semicolons of the SGR behind `other`, if `bytes` are these two.
fn numerals_behind<'a>(bytes: &'a [u8], other: &[u8]) -> Option<&'a [u8]>
    ensures { IfSome result (λ numerals. IsBeside bytes.now other.now numerals.now) }
{
    match bytes.strip_prefix(other) {
        Some(rest) => numerals_of(rest),
        None => None,
    }
}

/// The digits and semicolons of the SGR before `other`, if `bytes` are these two.
fn numerals_before<'a>(bytes: &'a [u8], other: &[u8]) -> Option<&'a [u8]>
    ensures { IfSome result (λ numerals. IsBeside bytes.now other.now numerals.now) }
{
    match bytes.strip_suffix(other) {
        Some(rest) => numerals_of(rest),
        None => None,
    }
}

/// The digits and semicolons of the SGR before or behind `other`, if `bytes` are these two.
fn numerals_beside<'a>(bytes: &'a [u8], other: &[u8]) -> Option<&'a [u8]>
    ensures { IfSome result (λ numerals. IsBeside bytes.now other.now numerals.now) }
{
    match numerals_behind(bytes, other) {
        Some(numerals) => Some(numerals),
        None => numerals_before(bytes, other),
    }
}

/// The set that is active after `bytes`, if that is known; `before` is the set known before them. One SGR changes no
/// set, and beside the string for the plain set it leaves that set active.
pub(crate) fn set_behind<C: Certificate>(
    checked: &C,
    bytes: &[u8],
    before: Option<bool>,
) -> Option<bool>
    requires checked { IsChecked (C.table checked.now) }
    ensures behind { LeavesSet (C.table checked.now) bytes.now before result }
{
    if numerals_of(bytes).is_some() {
        return before;
    }
    match checked.line(Row::Rmacs) {
        Some(other) if numerals_beside(bytes, other).is_some() => Some(false),
        _ => None,
    }
}

/// Whether the first number of an SGR is 0, by its `numerals`.
fn begins_plain(numerals: &[u8]) -> bool
    ensures { result ≡ true → spec.begins_plain (parameters.numbers numerals.now) ≡ true }
{
    matches!(numerals, [] | [b';', ..] | [b'0'] | [b'0', b';', ..])
}

/// Whether `bytes` are known to lead to one rendition, whatever the rendition was before: they are one SGR whose first
/// number is 0, alone or beside the string for the plain set.
pub(crate) fn fixes_rendition<C: Certificate>(checked: &C, bytes: &[u8]) -> bool
    requires checked { IsChecked (C.table checked.now) }
    ensures { result ≡ true → FixesRendition (C.table checked.now) bytes.now }
{
    if let Some(numerals) = numerals_of(bytes) {
        return begins_plain(numerals);
    }
    match checked.line(Row::Rmacs) {
        Some(other) => match numerals_beside(bytes, other) {
            Some(numerals) => begins_plain(numerals),
            None => false,
        },
        None => false,
    }
}
