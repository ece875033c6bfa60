//! The end of a reply of `--fix`: a text that is printed or stored, or several that are stored.

ghost use Rattle.std.specs.{Prelude.{◌≡◌, ◌≢◌, ◌++◌, ◌∷◌, ◌⊎◌, [], codes, IfErr, IfOk, OnErr, string_bytes}};
ghost use Rattle.std.specs.{Prelude.{None}, List.{AllZip}};
ghost use Rattle.ti_files.specs.declared.failure.Failure.TheVariants as failures;
ghost use Rattle.ti_fixes.specs.Files.{sheet_of, sheets};
ghost use Rattle.ti_repairs.specs.Delivery as spec;
ghost use Rattle.ti_verdicts.specs.Refusals.{IsVerdict};

use std::alloc::{AllocError, Global};
use ti_files::{CommandRefusal, Failure, Files, NewFile, Remarks, Reply, file_fault};
use ti_fixes::Text;
use ti_sources::FurtherFile;
use ti_verdicts::store_text;

/// Files with suggestions taken.
#[derive(Drop)]
pub struct Repaired {
    /// The files.
    pub files: Vec<Text>,
    /// The text for standard error about them.
    pub notes: Vec<u8>,
    /// How the reply ends if they can be stored.
    pub ended: Option<Failure>,
}

/// Where the texts go.
#[derive(Clone, Copy)]
pub enum Target<'a> {
    /// The first text goes to this path, or to standard output.
    Text(Option<&'a str>),
    /// The texts that have changed go to this folder.
    Folder(&'a str),
}

/// The failure for a reply that is refused with this word.
pub fn refused(alloc: Global, word: &[u8]) -> Failure
    ensures { IsVerdict word.now result }
{
    match Vec::from_slice(alloc, word) {
        Ok(words) => Failure::Refused(CommandRefusal::Verdict(words)),
        Err(_) => Failure::NoMemory,
    }
}

/// Where the texts go by the path `out` of the words: to a folder if there are `further` files.
///
/// # Errors
/// `SeveralFiles` if there are further files and no path.
pub fn target_of<'a>(
    alloc: Global,
    further: &[FurtherFile],
    out: Option<&'a str>,
    remarks: &mut Remarks,
) -> Result<Target<'a>, Failure>
    ensures target { IfOk result (spec.IsTarget further.now out.entry) }
    ensures failure { IfErr result (λ e. (further.now ≢ []) × (out.entry ≡ None) × IsVerdict (codes "SeveralFiles") e) }
{
    match further {
        [] => Ok(Target::Text(out)),
        [_first, ..] => match out {
            Some(folder) => Ok(Target::Folder(folder)),
            None => {
                remarks.add_words(
                    b"--fix with --with stores each changed file in the folder that --out names: there is no --out",
                );
                Err(refused(alloc, b"SeveralFiles"))
            }
        },
    }
}

/// The reply after texts were `stored`, or weren't.
fn stored_reply(
    alloc: Global,
    notes: Vec<u8>,
    ended: Option<Failure>,
    stored: Option<Failure>,
) -> Reply
    ensures noted { result.notes ≡ notes }
    ensures silent { result.text.items ≡ [] }
    ensures ends { result.failure ≡ spec.ends_as ended stored }
{
    let failure = match stored {
        None => ended,
        Some(fault) => Some(fault),
    };
    Reply {
        notes,
        text: Vec::new(alloc),
        failure,
    }
}

/// The bytes of the first file.
fn own_bytes(alloc: Global, files: &[Text]) -> Result<Vec<u8>, AllocError>
    ensures { IfOk result (λ bytes. bytes.items ≡ spec.own_bytes (sheets files.now)) }
{
    match files {
        [own, ..] => Vec::from_slice(alloc, own.bytes.as_slice()),
        [] => Ok(Vec::new(alloc)),
    }
}

/// The reply with the text of the first file, which goes to the path `out` or to standard output.
///
/// # Errors
/// Out of memory.
fn handed_over<F: Files>(
    alloc: Global,
    repaired: Repaired,
    out: Option<&str>,
    files: &mut F,
    remarks: &mut Remarks,
) -> Result<Reply, AllocError>
    ensures noted { IfOk result (λ reply. reply.notes ≡ repaired.notes) }
    ensures hands { IfOk result (λ reply. spec.HandsOver (spec.own_bytes (sheets repaired.files.items)) repaired.ended
        out.entry (F.holds files.old) (F.holds files.new) reply) }
    ensures kept { OnErr result (F.holds files.new ≡ F.holds files.old) }
{
    let Repaired {
        files: texts,
        notes,
        ended,
    } = repaired;
    let text = own_bytes(alloc, texts.as_slice())?;
    match out {
        None => Ok(Reply {
            notes,
            text,
            failure: ended,
        }),
        Some(path) => {
            let stored = store_text(alloc, files, path, text.as_slice(), remarks);
            Ok(stored_reply(alloc, notes, ended, stored))
        }
    }
}

/// The name of the file at `path`: what is behind its last slash.
fn file_name(path: &str) -> &str
    ensures { spec.IsFileName path.now result.now }
{
    match path.rsplit_once('/') {
        Some((_folder, name)) => name,
        None => path,
    }
}

/// The path of the file `name` in `folder`.
fn path_in(alloc: Global, folder: &str, name: &str) -> Result<String, AllocError>
    ensures { IfOk result (λ path. string_bytes path ≡ folder.now ++ 47 ∷ name.now) }
{
    format!(in alloc; "{folder}/{name}")
}

/// The new file for `file` in `folder`.
fn placed(alloc: Global, folder: &str, file: &Text) -> Result<NewFile, AllocError>
    ensures { IfOk result (λ new. spec.IsPlaced folder.now (sheet_of file.now) new) }
{
    Ok(NewFile {
        path: path_in(alloc, folder, file_name(file.path.as_str()))?,
        bytes: Vec::from_slice(alloc, file.bytes.as_slice())?,
    })
}

/// The new files in `folder` for those of the `files` that have changed.
fn new_files(alloc: Global, folder: &str, files: &[Text]) -> Result<Vec<NewFile>, AllocError>
    ensures { IfOk result
        (λ news. AllZip (spec.IsPlaced folder.now) (spec.changed_ones (sheets files.now)) news.items) }
{
    let mut news = Vec::new(alloc);
    for file in files {
        if file.is_changed {
            news.push(placed(alloc, folder, file)?)?;
        }
    }
    Ok(news)
}

/// Stores the `news` of `folder`, or returns the failure.
fn store_news<F: Files>(
    alloc: Global,
    files: &mut F,
    folder: &str,
    news: &[NewFile],
    remarks: &mut Remarks,
) -> Option<Failure>
    ensures { spec.StoresAll news.now folder.now (F.holds files.old) (F.holds files.new) result }
{
    match files.store_all(news) {
        Ok(()) => None,
        Err(fault) => Some(file_fault(alloc, folder, fault, remarks)),
    }
}

/// The reply after those of the texts that have changed were stored in `folder`, each under its own name, or weren't.
///
/// # Errors
/// Out of memory.
fn stored_in<F: Files>(
    alloc: Global,
    repaired: Repaired,
    folder: &str,
    files: &mut F,
    remarks: &mut Remarks,
) -> Result<Reply, AllocError>
    ensures noted { IfOk result (λ reply. reply.notes ≡ repaired.notes) }
    ensures stores { IfOk result (λ reply. spec.StoresChanged (sheets repaired.files.items) repaired.ended folder.now
        (F.holds files.old) (F.holds files.new) reply) }
    ensures kept { OnErr result (F.holds files.new ≡ F.holds files.old) }
{
    let Repaired {
        files: texts,
        notes,
        ended,
    } = repaired;
    let news = new_files(alloc, folder, texts.as_slice())?;
    let stored = store_news(alloc, files, folder, news.as_slice(), remarks);
    Ok(stored_reply(alloc, notes, ended, stored))
}

/// The reply with the `repaired` texts, which go to the `target`.
///
/// # Errors
/// Out of memory.
pub fn delivered<F: Files>(
    alloc: Global,
    repaired: Repaired,
    target: Target<'_>,
    files: &mut F,
    remarks: &mut Remarks,
) -> Result<Reply, AllocError>
    ensures noted { IfOk result (λ reply. reply.notes ≡ repaired.notes) }
    ensures delivers { IfOk result (λ reply. spec.DeliversTo target.entry (sheets repaired.files.items) repaired.ended
        (F.holds files.old) (F.holds files.new) reply) }
    ensures kept { OnErr result (F.holds files.new ≡ F.holds files.old) }
{
    match target {
        Target::Text(out) => handed_over(alloc, repaired, out, files, remarks),
        Target::Folder(folder) => stored_in(alloc, repaired, folder, files, remarks),
    }
}
