//! Files whose entries are put together, with fields that are given strings.

ghost use Rattle.std.specs.{Prelude.{◌≡◌, ◌≢◌, ◌++◌, [], IfOk, IsTrue, OnOk, true}, List.{AllByRecursion}};
ghost use Rattle.ti_caps.specs.Fits.{string_fits};
ghost use Rattle.ti_fixes.specs.Files as spec;

use crate::changes::{Change, ChangeFault, give_all};
use crate::copies::push_entries;
use crate::fixes::Fixed;
use std::alloc::{AllocError, Global};
use ti_source::RawEntry;

/// A file whose entries are put together with those of others.
#[derive(Debug, Drop)]
pub struct Text {
    /// The file's path.
    pub path: String,
    /// The file's bytes.
    pub bytes: Vec<u8>,
    /// The file's entries, as they are read.
    pub raws: Vec<RawEntry>,
    /// Whether it is a source. A compiled file gets no string.
    pub is_source: bool,
    /// Whether a field of it was given another string.
    pub is_changed: bool,
}

/// Files, and their entries put together.
#[derive(Debug, Drop)]
pub struct Texts {
    /// The files.
    pub files: Vec<Text>,
    /// The entries of the first file, then those of the second one, and so on.
    pub raws: Vec<RawEntry>,
}

impl Texts {
    ghost use Rattle.std.specs.Prelude.{◌≡◌, IfOk};
    ghost use Rattle.ti_fixes.specs.Files.{all_raws, sheets};

    /// The `files`, with their entries put together.
    ///
    /// # Errors
    /// Out of memory.
    pub fn new(alloc: Global, files: Vec<Text>) -> Result<Texts, AllocError>
        ensures files { IfOk result (λ texts. texts.files ≡ files) }
        ensures raws { IfOk result (λ texts. texts.raws.items ≡ all_raws (sheets files.items)) }
    {
        let raws = all_raws(alloc, files.as_slice())?;
        Ok(Texts { files, raws })
    }
}

/// The entries of all files, one after another.
fn all_raws(alloc: Global, files: &[Text]) -> Result<Vec<RawEntry>, AllocError>
    ensures { IfOk result (λ raws. raws.items ≡ spec.all_raws (spec.sheets files.now)) }
{
    let mut raws = Vec::new(alloc);
    for file in files {
        push_entries(alloc, &mut raws, file.raws.as_slice())?;
    }
    Ok(raws)
}

/// A copy of the file.
fn copied(alloc: Global, file: &Text) -> Result<Text, AllocError>
    ensures { IfOk result (λ copy. spec.sheet_of copy ≡ spec.sheet_of file.now) }
{
    let mut raws = Vec::new(alloc);
    push_entries(alloc, &mut raws, file.raws.as_slice())?;
    Ok(Text {
        path: String::from_str(alloc, file.path.as_str())?,
        bytes: Vec::from_slice(alloc, file.bytes.as_slice())?,
        raws,
        is_source: file.is_source,
        is_changed: file.is_changed,
    })
}

/// The source with the changes, of which there is at least one.
fn changed(alloc: Global, file: &Text, changes: &[Change]) -> Result<Text, ChangeFault>
    requires fits { AllByRecursion (λ change. IsTrue (string_fits change.string)) changes.now }
    requires some { changes.now ≢ [] }
    requires source { file.now.is_source ≡ true }
    ensures { IfOk result (λ new. spec.IsChangedFile changes.now (spec.sheet_of file.now) (spec.sheet_of new)) }
{
    let Fixed { text, raws } = give_all(
        alloc,
        file.bytes.as_slice(),
        file.raws.as_slice(),
        changes,
    )?;
    Ok(Text {
        path: String::from_str(alloc, file.path.as_str())?,
        bytes: text,
        raws,
        is_source: true,
        is_changed: true,
    })
}

/// The file with the changes of its entries.
fn given(alloc: Global, file: &Text, changes: &[Change]) -> Result<Text, ChangeFault>
    requires { AllByRecursion (λ change. IsTrue (string_fits change.string)) changes.now }
    ensures { IfOk result (λ new. spec.GivesFile changes.now (spec.sheet_of file.now) (spec.sheet_of new)) }
{
    match changes {
        [] => Ok(copied(alloc, file)?),
        [first, ..] => {
            if file.is_source {
                changed(alloc, file, changes)
            } else {
                Err(ChangeFault::Unplaced(first.place))
            }
        }
    }
}

/// Appends the change, if it is of one of the first `count` entries.
fn push_own(own: &mut Vec<Change>, count: usize, change: &Change) -> Result<(), AllocError>
    ensures { OnOk result (own.new.items ≡ own.old.items ++ spec.own_change count change.now) }
{
    if change.place < count {
        own.push(change.try_copy()?)?;
    }
    Ok(())
}

/// The changes of the first `count` entries.
fn own_changes(alloc: Global, count: usize, changes: &[Change]) -> Result<Vec<Change>, AllocError>
    ensures { IfOk result (λ own. own.items ≡ spec.own_changes count changes.now) }
{
    let mut own = Vec::new(alloc);
    for change in changes {
        push_own(&mut own, count, change)?;
    }
    Ok(own)
}

/// Appends the change, if it is of an entry after the first `count` ones, by its place after them.
fn push_later(later: &mut Vec<Change>, count: usize, change: &Change) -> Result<(), AllocError>
    ensures { OnOk result (later.new.items ≡ later.old.items ++ spec.later_change count change.now) }
{
    if change.place >= count {
        later.push(Change::of(change.place - count, change.cap, &change.string)?)?;
    }
    Ok(())
}

/// The changes of the entries after the first `count` ones, by their places after them.
fn later_changes(alloc: Global, count: usize, changes: &[Change]) -> Result<Vec<Change>, AllocError>
    ensures { IfOk result (λ later. later.items ≡ spec.later_changes count changes.now) }
{
    let mut later = Vec::new(alloc);
    for change in changes {
        push_later(&mut later, count, change)?;
    }
    Ok(later)
}

/// The fault of a file with `count` entries, before which there are `start` others, by the place among all.
fn fault_after(start: usize, count: usize, fault: ChangeFault) -> ChangeFault {
    match fault {
        ChangeFault::NoMemory => ChangeFault::NoMemory,
        ChangeFault::Unplaced(place) => {
            if place < count {
                ChangeFault::Unplaced(start.saturating_add(place))
            } else {
                ChangeFault::Unplaced(usize::MAX)
            }
        }
    }
}

/// The files with all changes.
fn all_given(alloc: Global, files: &[Text], changes: Vec<Change>) -> Result<Vec<Text>, ChangeFault>
    requires { AllByRecursion (λ change. IsTrue (string_fits change.string)) changes.items }
    ensures { IfOk result (λ news. spec.GivesFiles changes.items (spec.sheets files.now) (spec.sheets news.items)) }
{
    let mut news = Vec::new(alloc);
    let mut left = changes;
    let mut start: usize = 0;
    for file in files {
        let count = file.raws.len();
        let own = own_changes(alloc, count, left.as_slice())?;
        left = later_changes(alloc, count, left.as_slice())?;
        match given(alloc, file, own.as_slice()) {
            Ok(new) => news.push(new)?,
            Err(fault) => return Err(fault_after(start, count, fault)),
        }
        start = start.saturating_add(count);
    }
    if left.is_empty() {
        Ok(news)
    } else {
        Err(ChangeFault::Unplaced(start))
    }
}

/// The `files` with all `changes`, whose places count through the entries of all files: in each source the fields of
/// its changes are written, one after another, and a file without a change stays the same.
///
/// # Errors
/// A change for which no place was found, as one of a compiled file: nothing is returned that isn't read as just these
/// entries with these strings. Out of memory.
pub fn give_each(alloc: Global, files: &[Text], changes: Vec<Change>) -> Result<Texts, ChangeFault>
    requires { AllByRecursion (λ change. IsTrue (string_fits change.string)) changes.items }
    ensures gives { IfOk result
        (λ new. spec.GivesFiles changes.items (spec.sheets files.now) (spec.sheets new.files.items)) }
    ensures raws { IfOk result (λ new. new.raws.items ≡ spec.all_raws (spec.sheets new.files.items)) }
{
    let news = all_given(alloc, files, changes)?;
    Ok(Texts::new(alloc, news)?)
}
