//! The entries of a source and, behind them, those of the files of `--with`, each read by itself.

ghost use Rattle.std.specs.{Prelude.{◌≡◌, ◌⊎◌, IfErr, IfOk, length}, List.{AllByRecursion}};
ghost use Rattle.ti_sources.specs.Files.{AreApartOf};
ghost use Rattle.ti_source.specs.Fitting.{FieldsFit, NamesFit};
ghost use Rattle.ti_surveys.specs.Together as spec;

use std::alloc::{AllocError, Global};
use ti_commands::further_failure;
use ti_files::{Failure, Remarks};
use ti_source::{Apart, RawEntry, SourceFault};
use ti_sources::{FurtherFile, apart_of};

/// Entries of several files put together, each read by itself.
#[derive(Drop)]
pub(crate) struct ApartTogether {
    /// All entries.
    pub(crate) raws: Vec<RawEntry>,
    /// The fault of each entry; `None` if it can be read.
    pub(crate) faults: Vec<Option<SourceFault>>,
    /// How many entries each file has.
    pub(crate) counts: Vec<usize>,
}

impl ApartTogether {
    ghost use Rattle.std.specs.Prelude.{◌≡◌, ◌∷◌, ◌++◌, [], IfOk, OnOk, length};

    /// The entries of the first file alone.
    fn new(alloc: Global, own: Apart) -> Result<ApartTogether, AllocError>
        ensures raws { IfOk result (λ all. all.raws.items ≡ own.raws.items) }
        ensures faults { IfOk result (λ all. all.faults.items ≡ own.faults.items) }
        ensures counts { IfOk result (λ all. all.counts.items ≡ length own.raws.items ∷ []) }
    {
        let mut counts = Vec::new(alloc);
        counts.push(own.raws.len())?;
        Ok(ApartTogether {
            raws: own.raws,
            faults: own.faults,
            counts,
        })
    }

    /// Adds the entries of one file more.
    fn add(&mut self, apart: Apart) -> Result<(), AllocError>
        ensures raws { OnOk result (self.new.raws.items ≡ self.old.raws.items ++ apart.raws.items) }
        ensures faults { OnOk result (self.new.faults.items ≡ self.old.faults.items ++ apart.faults.items) }
        ensures counts { OnOk result (self.new.counts.items ≡ self.old.counts.items ++ length apart.raws.items ∷ []) }
    {
        let Apart {
            mut raws,
            mut faults,
        } = apart;
        self.counts.push(raws.len())?;
        self.raws.append(&mut raws)?;
        self.faults.append(&mut faults)
    }
}

/// The entries of a further `file`, each read by itself.
#[tactic(auto, using(crate::proofs::ApartFacts::badly_told))]
fn further_apart(alloc: Global, file: &FurtherFile, remarks: &mut Remarks) -> Result<Apart, Failure>
    ensures entries { IfOk result (λ apart. AreApartOf file.now.bytes.items apart.raws.items apart.faults.items) }
    ensures fields { IfOk result (λ apart. AllByRecursion FieldsFit apart.raws.items) }
    ensures names { IfOk result (λ apart. NamesFit apart.raws.items apart.faults.items) }
    ensures failure { IfErr result (λ e. spec.IsBadlyApart file.now.bytes.items e) }
{
    match apart_of(alloc, file.bytes.as_slice()) {
        Ok(apart) => Ok(apart),
        Err(fault) => Err(further_failure(alloc, file, fault, remarks)),
    }
}

/// The entries `own` of a source, and behind them those of the `further` files.
///
/// # Errors
/// The first further file that hides all its entries; out of memory.
pub(crate) fn all_apart(
    alloc: Global,
    own: Apart,
    further: &[FurtherFile],
    remarks: &mut Remarks,
) -> Result<ApartTogether, Failure>
    requires fields { AllByRecursion FieldsFit own.raws.items }
    requires names { NamesFit own.raws.items own.faults.items }
    requires beside { length own.faults.items ≡ length own.raws.items }
    ensures together { IfOk result (λ all. spec.ArePutApart
        (record { raws = own.raws.items; faults = own.faults.items }) further.now (spec.all_in all)) }
    ensures fit { IfOk result (λ all. AllByRecursion FieldsFit all.raws.items) }
    ensures named { IfOk result (λ all. NamesFit all.raws.items all.faults.items) }
    ensures beside { IfOk result (λ all. length all.faults.items ≡ length all.raws.items) }
    ensures failure { IfErr result (λ e. spec.FailsApartly further.now e ⊎ (e ≡ Failure.NoMemory)) }
{
    let mut all = ApartTogether::new(alloc, own)?;
    for file in further {
        let apart = further_apart(alloc, file, remarks)?;
        all.add(apart)?;
    }
    Ok(all)
}
