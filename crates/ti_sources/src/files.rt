//! A further file, and its entries.

ghost use Rattle.std.specs.{Prelude.{◌≡◌, ◌∷◌, [], IfErr, IfOk, true, false}, List.{AllByRecursion}};
ghost use Rattle.ti_source.specs.{Apart.{apart_of}, Fitting.{FieldsFit, NamesFit}, Raw.{IsRaw}, Source.{source_of}};
ghost use Rattle.ti_sources.specs.Compiled as compiled;
ghost use Rattle.ti_sources.specs.Files as spec;

use crate::compiled::raw_of;
use std::alloc::{AllocError, AllocFailed, Global};
use ti_caps::Entry;
use ti_compiled::{PackFault, decode};
use ti_source::{Apart, RawEntry, SourceFault, read, read_apart};

/// A file beside that of an entry: a source, or a compiled file, as its first two bytes show.
#[derive(Debug, Drop)]
pub struct FurtherFile {
    /// The file's path.
    pub path: String,
    /// The file's bytes.
    pub bytes: Vec<u8>,
}

impl FurtherFile {
    ghost use Rattle.std.specs.Prelude.{◌≡◌};
    ghost use Rattle.ti_sources.specs.Files.{text_in};

    /// The text that has the lines of the file's entries; empty for a compiled file.
    pub fn text(&self) -> &[u8]
        ensures { result.now ≡ text_in self.now.bytes.items }
    {
        if is_compiled(self.bytes.as_slice()) {
            &[]
        } else {
            self.bytes.as_slice()
        }
    }
}

/// The reason why a further file has no entries.
#[derive(Clone, Copy, Debug, PartialEq, Eq)]
pub enum FurtherFault {
    /// The source has this fault.
    Source(SourceFault),
    /// The compiled file has this fault.
    Pack(PackFault),
    /// Out of memory.
    NoMemory,
}

impl From<AllocError> for FurtherFault {
    ghost use Rattle.std.specs.Prelude.{◌≡◌};
    ghost use Rattle.ti_sources.specs.declared.files.FurtherFault.TheVariants.{NoMemory};

    ghost from_gives = { λ _ e. e ≡ NoMemory };

    fn from(_refused: AllocError) -> FurtherFault {
        FurtherFault::NoMemory
    }
}

impl<T: Drop> From<AllocFailed<T>> for FurtherFault {
    ghost use Rattle.std.specs.Prelude.{◌≡◌};
    ghost use Rattle.ti_sources.specs.declared.files.FurtherFault.TheVariants.{NoMemory};

    ghost from_gives = { λ _ e. e ≡ NoMemory };

    fn from(_refused: AllocFailed<T>) -> FurtherFault {
        FurtherFault::NoMemory
    }
}

/// Whether `bytes` begin as a compiled file does.
fn is_compiled(bytes: &[u8]) -> bool
    ensures { result ≡ spec.is_compiled bytes.now }
{
    match bytes {
        [26, 1, ..] | [30, 2, ..] => true,
        _ => false,
    }
}

/// The fault of a source, in which running out of memory claims nothing.
fn source_fault(fault: SourceFault) -> FurtherFault
    ensures { spec.TellsSource fault result }
{
    match fault.kind.must_claim() {
        Ok(()) => FurtherFault::Source(fault),
        Err(AllocError) => FurtherFault::NoMemory,
    }
}

/// The entry of a compiled file.
fn entry_of(alloc: Global, file: &[u8]) -> Result<Entry, FurtherFault>
    ensures entry { IfOk result (λ entry. spec.IsPackedAs file.now entry) }
    ensures fault { IfErr result (λ fault. spec.LacksPacked file.now fault) }
{
    match decode(file) {
        Ok(packed) => match packed.to_entry(alloc) {
            Ok(entry) => Ok(entry),
            Err(PackFault::NoMemory) => Err(FurtherFault::NoMemory),
            Err(fault) => Err(FurtherFault::Pack(fault)),
        },
        Err(fault) => Err(FurtherFault::Pack(fault)),
    }
}

/// The `entry` alone, as one of a source.
fn alone(alloc: Global, entry: &Entry) -> Result<Vec<RawEntry>, AllocError>
    ensures value { IfOk result (λ raws. raws.items ≡ compiled.raw_of entry.now ∷ []) }
    ensures fit { IfOk result (λ raws. AllByRecursion IsRaw raws.items) }
{
    let mut raws = Vec::new(alloc);
    raws.push(raw_of(alloc, entry)?)?;
    Ok(raws)
}

/// The entry of a compiled file, as one of a source.
fn packed_raws(alloc: Global, file: &[u8]) -> Result<Vec<RawEntry>, FurtherFault>
    ensures entries { IfOk result (λ raws. spec.AreRawsBy true file.now raws.items) }
    ensures fit { IfOk result (λ raws. AllByRecursion IsRaw raws.items) }
    ensures fault { IfErr result (λ fault. spec.LacksPacked file.now fault) }
{
    let entry = entry_of(alloc, file)?;
    Ok(alone(alloc, &entry)?)
}

/// The entries of a source text.
fn source_raws(alloc: Global, text: &[u8]) -> Result<Vec<RawEntry>, FurtherFault>
    ensures entries { IfOk result (λ raws. spec.AreRawsBy false text.now raws.items) }
    ensures fit { IfOk result (λ raws. AllByRecursion IsRaw raws.items) }
    ensures fault { IfErr result (λ fault. spec.LacksSource (source_of text.now) fault) }
{
    match read(alloc, text) {
        Ok(raws) => Ok(raws),
        Err(fault) => Err(source_fault(fault)),
    }
}

/// The entries of a further file with these `bytes`: those of a source text, or that of a compiled file.
///
/// # Errors
/// The first fault of the file; out of memory.
pub fn raws_of(alloc: Global, bytes: &[u8]) -> Result<Vec<RawEntry>, FurtherFault>
    ensures entries { IfOk result (λ raws. spec.AreRawsOf bytes.now raws.items) }
    ensures fit { IfOk result (λ raws. AllByRecursion IsRaw raws.items) }
    ensures fault { IfErr result (λ fault. spec.LacksRaws bytes.now fault) }
{
    if is_compiled(bytes) {
        packed_raws(alloc, bytes)
    } else {
        source_raws(alloc, bytes)
    }
}

/// The entry of a compiled file, which can be read.
fn packed_apart(alloc: Global, file: &[u8]) -> Result<Apart, FurtherFault>
    ensures entries { IfOk result (λ apart. spec.AreApartBy true file.now apart.raws.items apart.faults.items) }
    ensures fields { IfOk result (λ apart. AllByRecursion FieldsFit apart.raws.items) }
    ensures names { IfOk result (λ apart. NamesFit apart.raws.items apart.faults.items) }
    ensures fault { IfErr result (λ fault. spec.LacksPacked file.now fault) }
{
    let entry = entry_of(alloc, file)?;
    let mut faults = Vec::new(alloc);
    faults.push(None)?;
    Ok(Apart {
        raws: alone(alloc, &entry)?,
        faults,
    })
}

/// The entries of a source text, each read by itself.
fn source_apart(alloc: Global, text: &[u8]) -> Result<Apart, FurtherFault>
    ensures entries { IfOk result (λ apart. spec.AreApartBy false text.now apart.raws.items apart.faults.items) }
    ensures fields { IfOk result (λ apart. AllByRecursion FieldsFit apart.raws.items) }
    ensures names { IfOk result (λ apart. NamesFit apart.raws.items apart.faults.items) }
    ensures fault { IfErr result (λ fault. spec.LacksSource (apart_of text.now) fault) }
{
    match read_apart(alloc, text) {
        Ok(apart) => Ok(apart),
        Err(fault) => Err(source_fault(fault)),
    }
}

/// The entries of a further file with these `bytes`, each read by itself, as in a survey: an entry that can't be read
/// hides no other.
///
/// # Errors
/// A fault of the file that hides all its entries; out of memory.
pub fn apart_of(alloc: Global, bytes: &[u8]) -> Result<Apart, FurtherFault>
    ensures entries { IfOk result (λ apart. spec.AreApartOf bytes.now apart.raws.items apart.faults.items) }
    ensures fields { IfOk result (λ apart. AllByRecursion FieldsFit apart.raws.items) }
    ensures names { IfOk result (λ apart. NamesFit apart.raws.items apart.faults.items) }
    ensures fault { IfErr result (λ fault. spec.LacksApart bytes.now fault) }
{
    if is_compiled(bytes) {
        packed_apart(alloc, bytes)
    } else {
        source_apart(alloc, bytes)
    }
}
