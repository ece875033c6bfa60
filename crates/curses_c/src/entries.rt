//! Entries, sizes and certificates from the bytes that a program hands over.
ghost use Rattle.std.specs.Prelude.{◌≡◌, if◌then◌else◌, IfErr, IfOk};
ghost use Rattle.ti_cert.specs.Texts.{IsTableOf};
ghost use Rattle.ti_checker.specs.{Certificate.{IsCertificateOf}, Owned.{IsOwnTable}};
ghost use Rattle.ti_conforms.specs.Conforms.{Conforms};
ghost use Rattle.vt_term.specs.Size.{IsSize};
ghost use Rattle.curses_c.specs.Entries as spec;

use crate::codes::Failure;
use std::alloc::Global;
use ti_caps::Entry;
use ti_cert::{AgreeFault, CertFaultKind, Checked, VerifyFault, verify};
use ti_checker::{Cause, No, certify, check};
use ti_compiled::{PackFault, decode};
use ti_resolve::{ResolveFault, resolve};
use ti_source::{FaultKind, read};
use ti_without::{Without, certify_without};
use vt_term::Size;

/// The subject of a program's request: the entry of a compiled file, or of a name in a source text, on a terminal of a
/// size.
#[derive(Clone, Copy)]
pub struct Subject<'a> {
    /// The file or the text.
    pub bytes: &'a [u8],
    /// The entry's name; empty for a compiled file.
    pub name: &'a [u8],
    pub rows: u16,
    pub cols: u16,
}

/// An entry and a size.
#[derive(Drop)]
pub struct Described {
    pub entry: Entry,
    pub size: Size,
}

/// The size and the entry of `subject`. Fails with `BadSize`, then with `BadEntry` if the entry can't be read, or with
/// `NoMemory`.
pub fn describe(alloc: Global, subject: &Subject<'_>) -> Result<Described, Failure>
    ensures given { IfOk result (λ d. spec.Gives subject.now.bytes.now subject.now.name.now d.entry) }
    ensures rows { IfOk result (λ d. d.size.rows ≡ subject.now.rows) }
    ensures cols { IfOk result (λ d. d.size.cols ≡ subject.now.cols) }
    ensures lacks { IfErr result (spec.Lacks subject.now.bytes.now subject.now.name.now
        subject.now.rows subject.now.cols) }
{
    let size = size_of(subject.rows, subject.cols)?;
    let entry = entry_of(alloc, subject.bytes, subject.name)?;
    Ok(Described { entry, size })
}

/// The size of a terminal of `rows` and `cols`. Fails with `BadSize` if no terminal may have it.
fn size_of(rows: u16, cols: u16) -> Result<Size, Failure>
    ensures rows { IfOk result (λ size. size.rows ≡ rows) }
    ensures cols { IfOk result (λ size. size.cols ≡ cols) }
    ensures within { IfOk result (λ size. IsSize rows cols) }
    ensures lacks { IfErr result (λ e. (e ≡ Failure.BadSize) × (IsSize rows cols → ⊥)) }
{
    match Size::new(rows as usize, cols as usize) {
        Some(size) => Ok(size),
        None => Err(Failure::BadSize),
    }
}

/// The entry of the compiled file `bytes`, or, if there is a `name`, of that name in the source text `bytes`. Fails
/// with `BadEntry` if it can't be read, or with `NoMemory`.
fn entry_of(alloc: Global, bytes: &[u8], name: &[u8]) -> Result<Entry, Failure>
    ensures given { IfOk result (spec.Gives bytes.now name.now) }
    ensures lacks { IfErr result (spec.LacksEntry bytes.now name.now) }
{
    match name {
        [] => packed_entry(alloc, bytes),
        _ => source_entry(alloc, bytes, name),
    }
}

fn packed_entry(alloc: Global, bytes: &[u8]) -> Result<Entry, Failure>
    ensures given { IfOk result (spec.GivesPacked bytes.now) }
    ensures lacks { IfErr result (spec.LacksPacked bytes.now) }
{
    let packed = match decode(bytes) {
        Ok(packed) => packed,
        Err(_) => return Err(Failure::BadEntry),
    };
    match packed.to_entry(alloc) {
        Ok(entry) => Ok(entry),
        Err(fault) => Err(failure(matches!(fault, PackFault::NoMemory), Failure::BadEntry)),
    }
}

/// `NoMemory` if memory ran out (`is_memory`), else `other`.
fn failure(is_memory: bool, other: Failure) -> Failure
    ensures { result ≡ (if is_memory then Failure.NoMemory else other) }
{
    if is_memory { Failure::NoMemory } else { other }
}

impl From<No> for Failure {
    ghost use Rattle.ti_checker.specs.declared.causes.Cause.TheVariants as causes;
    ghost use Rattle.curses_c.specs.Entries.{IsOf};
    ghost use Rattle.curses_c.specs.declared.codes.Failure.TheVariants.{NoCertificate};

    ghost from_gives = { λ no failure. IsOf causes.NoMemory NoCertificate no.cause failure };

    fn from(no: No) -> Failure {
        failure(matches!(no.cause, Cause::NoMemory), Failure::NoCertificate)
    }
}

/// The entry of `name` in the source `text`. Fails with `BadEntry` if the text has a fault or doesn't yield the entry,
/// or with `NoMemory`.
pub fn source_entry(alloc: Global, text: &[u8], name: &[u8]) -> Result<Entry, Failure>
    ensures given { IfOk result (spec.GivesNamed text.now name.now) }
    ensures lacks { IfErr result (spec.LacksNamed text.now name.now) }
{
    let raws = match read(alloc, text) {
        Ok(raws) => raws,
        Err(fault) => {
            return Err(failure(matches!(fault.kind, FaultKind::NoMemory), Failure::BadEntry));
        }
    };
    match resolve(alloc, raws.as_slice(), name) {
        Ok(entry) => Ok(entry),
        Err(fault) => Err(failure(matches!(fault, ResolveFault::NoMemory), Failure::BadEntry)),
    }
}

/// Verifies `certificate` for the entry and the size of `described`. Fails with `BadCertificate` if it isn't the
/// entry's, or with `NoMemory`.
pub fn checked_by(
    alloc: Global,
    described: &Described,
    certificate: &[u8],
) -> Result<Checked, Failure>
    ensures shown { IfOk result (spec.IsShown described.now.entry described.now.size.rows described.now.size.cols) }
    ensures accepted { IfOk result (IsTableOf described.now.size.rows described.now.size.cols certificate.now) }
    ensures unshown { IfErr result (spec.IsUnshown described.now.entry described.now.size.rows
        described.now.size.cols certificate.now) }
{
    match verify(alloc, &described.entry, described.size, certificate) {
        Ok(checked) => Ok(checked),
        Err(VerifyFault::Cert(fault)) => {
            Err(failure(
                matches!(fault.kind, CertFaultKind::NoMemory),
                Failure::BadCertificate,
            ))
        }
        Err(VerifyFault::Agree(fault)) => {
            Err(failure(
                matches!(fault, AgreeFault::NoMemory),
                Failure::BadCertificate,
            ))
        }
    }
}

/// The certificate of the entry of `described`. Fails with `NoCertificate` if the entry has none, or with `NoMemory`.
pub fn certificate_of(alloc: Global, described: &Described) -> Result<Vec<u8>, Failure>
    ensures certified { IfOk result (λ text. spec.IsCertified described.now.entry described.now.size.rows
        described.now.size.cols text.items) }
    ensures refused { IfErr result (spec.IsUncertified described.now.entry described.now.size.rows
        described.now.size.cols) }
{
    Ok(check(alloc, &described.entry, described.size)?)
}

/// The strings of the certificate of the entry of `described`. Fails with `NoCertificate` if the entry has none, or
/// with `NoMemory`.
pub fn checked_by_own(alloc: Global, described: &Described) -> Result<Checked, Failure>
    ensures shown { IfOk result (spec.IsShown described.now.entry described.now.size.rows described.now.size.cols) }
    ensures own { IfOk result (IsOwnTable described.now.entry described.now.size.rows described.now.size.cols) }
    ensures refused { IfErr result (spec.IsUncertified described.now.entry described.now.size.rows
        described.now.size.cols) }
{
    Ok(certify(alloc, &described.entry, described.size)?)
}

/// The strings of the certificate of the entry of `described` without those of its strings that are at fault, and
/// these. Fails with `NoCertificate` if one of them can't be left out, or with `NoMemory`.
pub fn checked_less(alloc: Global, described: &Described) -> Result<Without, Failure>
    ensures less { IfOk result (spec.IsLess described.now.entry described.now.size.rows described.now.size.cols) }
    ensures refused { IfErr result (spec.IsUnleft described.now.entry described.now.size.rows
        described.now.size.cols) }
{
    Ok(certify_without(alloc, &described.entry, described.size)?)
}
