//! The string that would be right in place of one at fault, and what is known of a fault.

ghost use Rattle.std.specs.Prelude.{◌≡◌, ◌==◌, IfOk, IfSome, IsTrue, OnOk, Some, filter, map, not, string_bytes};
ghost use Rattle.std.specs.Option.{option_copied};
ghost use Rattle.ti_caps.specs.Fits.{string_fits};
ghost use Rattle.ti_faults.specs.Remedies.{is_switching, switching};
ghost use Rattle.ti_reports.specs.Suggestions as spec;

use crate::spellings::{source_form, written_if};
use crate::texts::text_of;
use crate::written::Written;
use std::alloc::{AllocError, Global};
use ti_caps::{Cap, Entry, name};
use ti_checker::{Cause, No};
use ti_faults::{Mended, is_of_another_kind, suggestion};
use ti_rows::Row;
use ti_verdicts::Added;
use vt_term::Size;

/// The fields that a function makes, as in a source, or that memory ran out.
pub type Fields = Result<Vec<String>, AllocError>;

/// The `entry` in which the faults `nos` are mended at once, if `lists_all`, that is, if they are all of its faults.
/// `None` if they aren't, or if they show a terminal of another kind, for which nothing is suggested.
pub fn mended_if(
    alloc: Global,
    lists_all: bool,
    entry: &Entry,
    size: Size,
    nos: &[No],
) -> Result<Option<Mended>, AllocError>
    ensures { IfOk result (λ mended. spec.IsMendedFor lists_all entry.now size.rows size.cols nos.now mended) }
{
    if lists_all && !is_of_another_kind(nos) {
        Ok(Some(Mended::new(alloc, entry, size, nos)?))
    } else {
        Ok(None)
    }
}

/// The string that would be right for `cap` of `entry`, if this is `mended`.
pub fn suggested(
    alloc: Global,
    entry: &Entry,
    mended: &Option<Mended>,
    cap: Cap,
) -> Result<Option<Written>, AllocError>
    ensures { IfOk result (λ written. spec.IsSuggested entry.now mended.now cap written) }
{
    let found = right_string(entry, mended, cap);
    let written = written_if(alloc, found)?;
    Ok(written)
}

/// The fields of the other strings that are mended as one with that of `cap`, where these would be right for them.
pub fn suggested_with(alloc: Global, entry: &Entry, mended: &Option<Mended>, cap: Cap) -> Fields
    ensures { IfOk result (λ fields. spec.AreFields entry.now mended.now (spec.mended_with cap)
        (map string_bytes fields.items)) }
{
    let caps = mended_with(alloc, cap)?;
    let fields = fields_of(alloc, entry, mended, caps.as_slice())?;
    Ok(fields)
}

/// The capabilities whose strings are mended as one with that of `cap`.
fn mended_with(alloc: Global, cap: Cap) -> Result<Vec<Cap>, AllocError>
    ensures { IfOk result (λ caps. caps.items ≡ spec.mended_with cap) }
{
    if is_switching(cap) {
        others(alloc, cap)
    } else {
        Ok(Vec::new(alloc))
    }
}

/// The capabilities whose strings switch character sets.
fn switching() -> [Cap; 3]
    ensures { result ≡ switching }
{
    [Row::Enacs.cap(), Row::Smacs.cap(), Row::Rmacs.cap()]
}

/// Whether the string of `cap` switches character sets.
fn is_switching(cap: Cap) -> bool
    ensures { result ≡ is_switching cap }
{
    switching().iter().any(|own| *own == cap)
}

/// The capabilities other than `cap` whose strings switch character sets.
fn others(alloc: Global, cap: Cap) -> Result<Vec<Cap>, AllocError>
    ensures { IfOk result (λ caps. caps.items ≡ filter (λ other. not (other == cap)) switching) }
{
    Vec::from_array(alloc, switching())?
        .into_iter()
        .filter(|other| *other != cap)
        .collect(alloc)
}

/// The fields of those of `caps` for which there is a string that would be right.
#[tactic(auto, using(crate::proofs::FieldFacts::no_fields, crate::proofs::FieldFacts::one_more, crate::proofs::FieldFacts::all_fields))]
fn fields_of(alloc: Global, entry: &Entry, mended: &Option<Mended>, caps: &[Cap]) -> Fields
    ensures { IfOk result (λ fields. spec.AreFields entry.now mended.now caps.now
        (map string_bytes fields.items)) }
{
    let mut fields = Vec::new(alloc);
    for cap in caps {
        let found = right_string(entry, mended, *cap);
        add_field(alloc, &mut fields, *cap, found)?;
    }
    Ok(fields)
}

/// Adds the field that gives `cap` the string that was `found` for it to `fields`.
#[tactic(auto, using(crate::proofs::FieldFacts::no_field))]
fn add_field(alloc: Global, fields: &mut Vec<String>, cap: Cap, found: Option<&[u8]>) -> Added
    requires { IfSome found (λ bytes. IsTrue (string_fits bytes.now)) }
    ensures { OnOk result (spec.AddsField cap (option_copied found.entry) (map string_bytes fields.old.items)
        (map string_bytes fields.new.items)) }
{
    match found {
        Some(string) => push_field(alloc, fields, cap, string),
        None => Ok(()),
    }
}

/// Adds the field that gives `cap` this `string` to `fields`.
#[tactic(auto, using(crate::proofs::FieldFacts::field_added))]
fn push_field(alloc: Global, fields: &mut Vec<String>, cap: Cap, string: &[u8]) -> Added
    requires { IsTrue (string_fits string.now) }
    ensures { OnOk result (spec.AddsField cap (Some string.now) (map string_bytes fields.old.items)
        (map string_bytes fields.new.items)) }
{
    let field = field_of(alloc, cap, string)?;
    fields.push(field)?;
    Ok(())
}

/// The field that gives `cap` this `string`.
fn field_of(alloc: Global, cap: Cap, string: &[u8]) -> Result<String, AllocError>
    requires { IsTrue (string_fits string.now) }
    ensures { IfOk result (λ field. spec.IsField cap string.now (string_bytes field)) }
{
    let own = text_of(alloc, name(cap))?;
    let value = source_form(alloc, string)?;
    format!(in alloc; "{own}={value}")
}

/// The string that would be right for `cap`, if the entry is `mended`.
fn right_string(entry: &Entry, mended: &Option<Mended>, cap: Cap) -> Option<&'static [u8]>
    ensures right { spec.IsRightFor entry.now mended.now cap (option_copied result) }
    ensures fits { IfSome result (λ bytes. IsTrue (string_fits bytes.now)) }
{
    match mended {
        Some(mended) => suggestion(entry, mended, cap),
        None => None,
    }
}

/// Whether the faults `nos` of an entry show a terminal of another kind, if `lists_all`; else `None`, since they aren't
/// all of its faults.
pub fn other_kind(lists_all: bool, nos: &[No]) -> Option<bool>
    ensures { result ≡ spec.other_kind lists_all nos.now }
{
    if lists_all {
        Some(is_of_another_kind(nos))
    } else {
        None
    }
}

/// Whether a fault with this `cause` shows that something goes wrong; otherwise the string may be right.
pub fn is_judged(cause: Cause) -> bool
    ensures { result ≡ spec.is_judged cause }
{
    match cause {
        Cause::FlagOut | Cause::Absent | Cause::AcsByte | Cause::Parm(_) => true,
        Cause::StaticRead | Cause::Unfinished | Cause::Stuck => true,
        Cause::BadLook | Cause::WrongEffect(_) | Cause::NoResync => true,
        Cause::NotTame | Cause::NotShown | Cause::TooLong | Cause::NoMemory => false,
    }
}
