//! The strings that are suggested for an entry's faults, as advice.

ghost use Rattle.std.specs.{Prelude.{◌≡◌, ◌++◌, IfOk, IfSome, IsTrue, OnOk}, List.{AllByRecursion}};
ghost use Rattle.ti_caps.specs.Fits.{string_fits};
ghost use Rattle.ti_faults.specs.AllFaults.{AreAllFaults};
ghost use Rattle.ti_repairs.specs.Advices as spec;
ghost use Rattle.ti_repairs.specs.Weights.{Finds};

use crate::paddings::padding_of;
use crate::weights::{Terms, findings_of, found};
use std::alloc::{AllocError, Global};
use ti_caps::{Bytes, Cap, Entry, string_fits};
use ti_checker::No;
use ti_conforms::acsc;
use ti_faults::{Mended, faults, listed_with, suggestion};
use ti_rows::Row;
use ti_steps::{Advice, Adviser, Finding, Found, Weight};
use ti_surveys::{EntryKind, kind_of};

/// Finds the faults of an entry, and advises the strings that `check --all` suggests for those that count.
#[derive(Clone, Copy, Debug)]
pub struct Suggestions {
    /// The findings that count.
    pub terms: Terms,
}

/// A capability whose suggestion is listed with a fault of an entry.
#[derive(Clone, Copy, Debug)]
pub struct Listed {
    /// The capability.
    pub cap: Cap,
    /// The fault.
    pub fault: Finding,
}

/// Whether strings are suggested for a fault that counts so much.
fn counts(weight: Weight) -> bool
    ensures { result ≡ spec.counts weight }
{
    match weight {
        Weight::Certain => true,
        Weight::Shown => true,
        Weight::Doubtful => false,
        Weight::Lent => false,
    }
}

/// Each of these capabilities, with the fault.
fn with_fault(alloc: Global, caps: &[Cap], fault: &Finding) -> Result<Vec<Listed>, AllocError>
    ensures { IfOk result (λ listed. listed.items ≡ spec.with_fault fault.now caps.now) }
{
    let mut listed = Vec::new(alloc);
    for cap in caps {
        listed.push(Listed {
            cap: *cap,
            fault: *fault,
        })?;
    }
    Ok(listed)
}

/// The capabilities whose suggestions are listed with a fault, one of the faults `nos`; none if it doesn't count.
fn listed_for(alloc: Global, nos: &[No], fault: &Finding) -> Result<Vec<Listed>, AllocError>
    ensures { IfOk result (λ listed. listed.items ≡ spec.listed_for nos.now fault.now) }
{
    if counts(fault.weight) {
        let caps = listed_with(alloc, nos, fault.cap)?;
        with_fault(alloc, caps.as_slice(), fault)
    } else {
        Ok(Vec::new(alloc))
    }
}

/// The capabilities whose suggestions are listed with the faults `nos` that count, in their order.
fn all_listed(alloc: Global, nos: &[No], findings: &[Finding]) -> Result<Vec<Listed>, AllocError>
    ensures { IfOk result (λ listed. listed.items ≡ spec.all_listed nos.now findings.now) }
{
    let mut listed = Vec::new(alloc);
    for fault in findings {
        let mut own = listed_for(alloc, nos, fault)?;
        listed.append(&mut own)?;
    }
    Ok(listed)
}

/// Whether a byte is a letter of the VT100's set for line graphics.
fn is_letter(byte: u8) -> bool
    ensures { result ≡ spec.is_letter byte }
{
    95 <= byte && byte <= 126
}

/// Whether each partner in this `acsc` is a letter of the VT100's set.
fn are_letters(pairs: &[u8]) -> bool
    ensures { result ≡ spec.are_letters pairs.now }
{
    let mut rest = pairs;
    while let [_letter, partner, behind @ ..] = rest {
        if !is_letter(*partner) {
            return false;
        }
        rest = behind;
    }
    true
}

/// Whether each partner in the entry's `acsc` is a letter of the VT100's set.
fn has_letters(entry: &Entry) -> bool
    ensures { result ≡ spec.has_letters entry.now }
{
    match entry.get_string(acsc()) {
        Some(pairs) => are_letters(pairs),
        None => true,
    }
}

/// Whether the string of the capability switches character sets.
fn is_switching(cap: Cap) -> bool
    ensures { result ≡ spec.is_switching cap }
{
    cap == Row::Enacs.cap() || cap == Row::Smacs.cap() || cap == Row::Rmacs.cap()
}

/// Whether a string of the capability may be suggested for the entry.
fn may_suggest(entry: &Entry, cap: Cap) -> bool
    ensures { result ≡ spec.may_suggest entry.now cap }
{
    !is_switching(cap) || has_letters(entry)
}

/// The entry's string, or an empty one.
fn own_string(entry: &Entry, cap: Cap) -> &[u8]
    ensures { result.now ≡ spec.own_string entry.now cap }
{
    match entry.get_string(cap) {
        Some(string) => string,
        None => &[],
    }
}

/// The string with the padding of the `old` one behind it, unless that is too long.
fn padded(alloc: Global, old: &[u8], string: &[u8]) -> Result<Bytes, AllocError>
    requires { IsTrue (string_fits string.now) }
    ensures value { IfOk result (λ bytes. bytes ≡ spec.padded old.now string.now) }
    ensures fits { IfOk result (λ bytes. IsTrue (string_fits bytes)) }
{
    let padding = padding_of(alloc, old)?;
    let mut all = Vec::from_slice(alloc, string)?;
    all.extend_from_slice(padding.as_slice())?;
    if string_fits(all.as_slice()) {
        Bytes::from_slice(alloc, all.as_slice())
    } else {
        Bytes::from_slice(alloc, string)
    }
}

/// The suggestion for a capability that is listed with a fault.
fn advice(
    alloc: Global,
    entry: &Entry,
    mended: &Mended,
    listed: &Listed,
) -> Result<Option<Advice>, AllocError>
    ensures found { IfOk result (spec.IsAdvice entry.now mended.now listed.now) }
    ensures fits { IfOk result (λ found. IfSome found spec.Fits) }
{
    let Listed { cap, fault } = *listed;
    if !may_suggest(entry, cap) {
        return Ok(None);
    }
    match suggestion(entry, mended, cap) {
        Some(own) => {
            let string = padded(alloc, own_string(entry, cap), own)?;
            Ok(Some(Advice { cap, string, fault }))
        }
        None => Ok(None),
    }
}

/// Appends what was found.
fn push_found(advices: &mut Vec<Advice>, found: Option<Advice>) -> Result<(), AllocError>
    ensures { OnOk result (advices.new.items ≡ advices.old.items ++ spec.optional found) }
{
    if let Some(own) = found {
        advices.push(own)?;
    }
    Ok(())
}

/// The suggestions for the capabilities that are listed.
fn all_advices(
    alloc: Global,
    entry: &Entry,
    mended: &Mended,
    listed: &[Listed],
) -> Result<Vec<Advice>, AllocError>
    ensures advised { IfOk result (λ advices. spec.AreAdvices entry.now mended.now listed.now advices.items) }
    ensures fits { IfOk result (λ advices. AllByRecursion spec.Fits advices.items) }
{
    let mut advices = Vec::new(alloc);
    for one in listed {
        let found = advice(alloc, entry, mended, one)?;
        push_found(&mut advices, found)?;
    }
    Ok(advices)
}

/// Whether the entry is for a terminal of another kind, by the faults `nos`.
fn is_other(entry: &Entry, nos: &[No]) -> bool
    ensures { result ≡ spec.is_other entry.now nos.now }
{
    match kind_of(true, entry, nos) {
        EntryKind::Other => true,
        EntryKind::Part => false,
        EntryKind::Usual => false,
    }
}

/// The suggestions for the faults `nos` of the entry, as far as they count.
fn advices_for(
    alloc: Global,
    terms: Terms,
    entry: &Entry,
    nos: &[No],
) -> Result<Vec<Advice>, AllocError>
    requires { AreAllFaults entry.now terms.size.rows terms.size.cols nos.now }
    ensures advised { IfOk result (λ advices. spec.Advises terms entry.now advices.items) }
    ensures fits { IfOk result (λ advices. AllByRecursion spec.Fits advices.items) }
{
    if is_other(entry, nos) {
        return Ok(Vec::new(alloc));
    }
    let findings = findings_of(alloc, terms, entry, nos)?;
    let listed = all_listed(alloc, nos, findings.as_slice())?;
    if listed.is_empty() {
        return Ok(Vec::new(alloc));
    }
    let mended = Mended::new(alloc, entry, terms.size, nos)?;
    all_advices(alloc, entry, &mended, listed.as_slice())
}

impl Adviser for Suggestions {
    ghost finds = { λ own entry findings. Finds own.terms entry findings };

    ghost advises = { λ own entry advices. spec.Advises own.terms entry advices };

    fn find(&self, alloc: Global, entry: &Entry) -> Found {
        found(alloc, self.terms, entry)
    }

    fn advise(&self, alloc: Global, entry: &Entry) -> Result<Vec<Advice>, AllocError> {
        let nos = faults(alloc, entry, self.terms.size)?;
        advices_for(alloc, self.terms, entry, nos.as_slice())
    }
}
