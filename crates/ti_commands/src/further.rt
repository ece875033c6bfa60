//! The files of `--with`, and their entries behind those of a source.

ghost use Rattle.std.specs.{Prelude.{◌≡◌, ◌≤◌, ◌⊎◌, IfErr, IfOk, OnOk, length, string_bytes}, List.{AllByRecursion}};
ghost use Rattle.ti_sources.specs.Files.{AreRawsOf};
ghost use Rattle.ti_source.specs.Raw.{IsRaw};
ghost use Rattle.ti_files.specs.{Contents.{AreBytesOf}, Failures.{IsFileFailure}, Words.{texts_of}};
ghost use Rattle.ti_commands.specs.Further as spec;

use std::alloc::{AllocError, Global};
use ti_files::{CommandRefusal, Failure, Files, LONGEST_FILE, Remarks, read_whole};
use ti_hints::{explain_packed, explain_source};
use ti_source::RawEntry;
use ti_sources::{FurtherFault, FurtherFile, raws_of};

/// Entries of several files put together: those of a source, and then those of each file of `--with`.
#[derive(Debug, Drop)]
pub struct PutTogether {
    /// All entries.
    pub raws: Vec<RawEntry>,
    /// The files behind the first one.
    pub files: Vec<FurtherFile>,
    /// How many entries each file has, the first one too.
    pub counts: Vec<usize>,
}

impl PutTogether {
    ghost use Rattle.std.specs.{Prelude.{◌≡◌, ◌∷◌, ◌++◌, [], IfOk, OnOk, length}, List.{AllByRecursion}};
    ghost use Rattle.ti_source.specs.Raw.{IsRaw};

    /// The entries of the first file alone.
    fn new(alloc: Global, own: Vec<RawEntry>) -> Result<PutTogether, AllocError>
        ensures raws { IfOk result (λ put. put.raws.items ≡ own.items) }
        ensures files { IfOk result (λ put. put.files.items ≡ []) }
        ensures counts { IfOk result (λ put. put.counts.items ≡ length own.items ∷ []) }
    {
        let mut counts = Vec::new(alloc);
        counts.push(own.len())?;
        Ok(PutTogether {
            raws: own,
            files: Vec::new(alloc),
            counts,
        })
    }

    /// Adds a `file` with its entries.
    fn add(&mut self, file: FurtherFile, raws: Vec<RawEntry>) -> Result<(), AllocError>
        ensures raws { OnOk result (self.new.raws.items ≡ self.old.raws.items ++ raws.items) }
        ensures files { OnOk result (self.new.files.items ≡ self.old.files.items ++ file ∷ []) }
        ensures counts { OnOk result (self.new.counts.items ≡ self.old.counts.items ++ length raws.items ∷ []) }
    {
        let mut raws = raws;
        self.counts.push(raws.len())?;
        self.raws.append(&mut raws)?;
        Ok(self.files.push(file)?)
    }
}

/// Copies of the paths of `--with`.
fn path_copies<F: Files>(alloc: Global, files: &F) -> Result<Vec<String>, AllocError>
    ensures { IfOk result (λ paths. spec.path_texts paths.items ≡ (F.holds files.now).with_paths) }
{
    copies_of(alloc, files.with_paths())
}

/// Copies of these texts.
fn copies_of(alloc: Global, texts: &[&str]) -> Result<Vec<String>, AllocError>
    ensures { IfOk result (λ copies. spec.path_texts copies.items ≡ texts_of texts.now) }
{
    let mut copies = Vec::new(alloc);
    for text in texts {
        copies.push(String::from_str(alloc, text)?)?;
    }
    Ok(copies)
}

/// The file at `path`, with its bytes.
fn read_further<F: Files>(
    alloc: Global,
    files: &mut F,
    path: &str,
    remarks: &mut Remarks,
) -> Result<FurtherFile, Failure>
    ensures named { IfOk result (λ file. string_bytes file.path ≡ path.now) }
    ensures whole { IfOk result (λ file. AreBytesOf ((F.holds files.old).at path.now) file.bytes.items) }
    ensures short { IfOk result (λ file. length file.bytes.items ≤ 16777216) }
    ensures failure { IfErr result (λ e. IsFileFailure path.now e) }
    ensures kept { F.holds files.new ≡ F.holds files.old }
{
    let bytes = read_whole(alloc, files, path, LONGEST_FILE, remarks)?;
    match String::from_str(alloc, path) {
        Ok(path) => Ok(FurtherFile { path, bytes }),
        Err(AllocError) => Err(Failure::NoMemory),
    }
}

/// The failure for the `fault` of the further `file`, which `remarks` explain with the file's path.
pub fn further_failure(
    alloc: Global,
    file: &FurtherFile,
    fault: FurtherFault,
    remarks: &mut Remarks,
) -> Failure
    ensures { spec.TellsFurther fault result }
{
    match fault {
        FurtherFault::NoMemory => Failure::NoMemory,
        FurtherFault::Source(fault) => {
            explain_source(
                alloc,
                file.path.as_str(),
                file.bytes.as_slice(),
                fault,
                remarks,
            );
            Failure::Refused(CommandRefusal::Source(fault))
        }
        FurtherFault::Pack(fault) => {
            explain_packed(file.path.as_str(), file.bytes.as_slice(), fault, remarks);
            Failure::Refused(CommandRefusal::Pack(fault))
        }
    }
}

/// The entries of a further `file`.
#[tactic(auto, using(crate::proofs::FurtherFacts::badly_told))]
fn further_entries(
    alloc: Global,
    file: &FurtherFile,
    remarks: &mut Remarks,
) -> Result<Vec<RawEntry>, Failure>
    ensures entries { IfOk result (λ raws. AreRawsOf file.now.bytes.items raws.items) }
    ensures fit { IfOk result (λ raws. AllByRecursion IsRaw raws.items) }
    ensures failure { IfErr result (λ e. spec.IsBadlyFurther file.now.bytes.items e) }
{
    match raws_of(alloc, file.bytes.as_slice()) {
        Ok(raws) => Ok(raws),
        Err(fault) => Err(further_failure(alloc, file, fault, remarks)),
    }
}

/// Adds the file at `path`, and its entries, to those that were `put` together.
fn add_further<F: Files>(
    alloc: Global,
    files: &mut F,
    path: &str,
    put: &mut PutTogether,
    remarks: &mut Remarks,
) -> Result<(), Failure>
    requires fit { AllByRecursion IsRaw put.old.raws.items }
    ensures added { OnOk result (spec.AddsFurther (F.holds files.old) path.now (spec.together_in put.old)
        (spec.together_in put.new)) }
    ensures fits { OnOk result (AllByRecursion IsRaw put.new.raws.items) }
    ensures failure { IfErr result (λ e. spec.FailsAtFurther (F.holds files.old) path.now e) }
    ensures kept { F.holds files.new ≡ F.holds files.old }
{
    let file = read_further(alloc, files, path, remarks)?;
    let raws = further_entries(alloc, &file, remarks)?;
    Ok(put.add(file, raws)?)
}

/// The entries `own` of a source, and behind them those of the files of `--with`, each of which is read.
///
/// # Errors
/// The first file that can't be read or gives no entries; out of memory.
pub fn put_together<F: Files>(
    alloc: Global,
    files: &mut F,
    own: Vec<RawEntry>,
    remarks: &mut Remarks,
) -> Result<PutTogether, Failure>
    requires { AllByRecursion IsRaw own.items }
    ensures together { IfOk result (λ put. spec.ArePutTogether (F.holds files.old) own.items (spec.together_in put)) }
    ensures fit { IfOk result (λ put. AllByRecursion IsRaw put.raws.items) }
    ensures failure { IfErr result (λ e. spec.FailsFurther (F.holds files.old) (F.holds files.old).with_paths e
        ⊎ (e ≡ Failure.NoMemory)) }
    ensures kept { F.holds files.new ≡ F.holds files.old }
{
    let paths = path_copies(alloc, files)?;
    put_each(alloc, files, paths.as_slice(), own, remarks)
}

/// The entries `own` of a source, and behind them those of the files at these `paths`.
fn put_each<F: Files>(
    alloc: Global,
    files: &mut F,
    paths: &[String],
    own: Vec<RawEntry>,
    remarks: &mut Remarks,
) -> Result<PutTogether, Failure>
    requires { AllByRecursion IsRaw own.items }
    ensures reached { IfOk result (λ put. spec.AreReached (F.holds files.old) own.items (spec.path_texts paths.now)
        (spec.together_in put)) }
    ensures fit { IfOk result (λ put. AllByRecursion IsRaw put.raws.items) }
    ensures failure { IfErr result (λ e. spec.FailsFurther (F.holds files.old) (spec.path_texts paths.now) e
        ⊎ (e ≡ Failure.NoMemory)) }
    ensures kept { F.holds files.new ≡ F.holds files.old }
{
    let mut put = PutTogether::new(alloc, own)?;
    for path in paths {
        add_further(alloc, files, path.as_str(), &mut put, remarks)?;
    }
    Ok(put)
}

/// Reads the files of `--with` from `files`, and leaves it to a survey to take them apart for each of its own files.
/// `remarks` gets the words about one that can't be read.
///
/// # Errors
/// The first file that can't be read; out of memory.
pub fn further_files<F: Files>(
    alloc: Global,
    files: &mut F,
    remarks: &mut Remarks,
) -> Result<Vec<FurtherFile>, Failure>
    ensures held { IfOk result
        (λ further. spec.AreHeld (F.holds files.old) (F.holds files.old).with_paths further.items) }
    ensures failure { IfErr result (λ e. spec.FailsReading (F.holds files.old).with_paths e ⊎ (e ≡ Failure.NoMemory)) }
    ensures kept { F.holds files.new ≡ F.holds files.old }
{
    let paths = path_copies(alloc, files)?;
    files_at(alloc, files, paths.as_slice(), remarks)
}

/// The files at these `paths`.
fn files_at<F: Files>(
    alloc: Global,
    files: &mut F,
    paths: &[String],
    remarks: &mut Remarks,
) -> Result<Vec<FurtherFile>, Failure>
    ensures held { IfOk result (λ further. spec.AreHeld (F.holds files.old) (spec.path_texts paths.now) further.items) }
    ensures failure { IfErr result (λ e. spec.FailsReading (spec.path_texts paths.now) e ⊎ (e ≡ Failure.NoMemory)) }
    ensures kept { F.holds files.new ≡ F.holds files.old }
{
    let mut further = Vec::new(alloc);
    for path in paths {
        let file = read_further(alloc, files, path.as_str(), remarks)?;
        further.push(file)?;
    }
    Ok(further)
}

/// The entries of the first file among `raws`, those of several files, of which each has a number of entries among
/// `counts`.
pub fn own_raws<'a>(raws: &'a [RawEntry], counts: &[usize]) -> &'a [RawEntry]
    ensures { result.now ≡ spec.own_raws counts.now raws.now }
{
    match counts {
        [own, ..] if *own < raws.len() => &raws[..*own],
        [_, ..] => raws,
        [] => &[],
    }
}
