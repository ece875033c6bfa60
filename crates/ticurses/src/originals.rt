//! Source files as they are before their lines are joined.

ghost use Rattle.std.specs.Prelude.{◌≡◌, ◌∷◌, ◌++◌, [], IfOk, OnOk, option_map};
ghost use Rattle.ti_files.specs.Contents.{AreFirstBytesOf};
ghost use Rattle.ticurses.specs.Originals.{WereRead, bytes_read, held_before};
ghost use Rattle.ticurses.specs.Originals as spec;

use crate::stored::Opened;
use std::alloc::{AllocError, Global};
use std::io::{Cursor, Read};
use ti_arguments::Asked;
use ti_files::{Failure, FileCause, FileFault, Files, LONGEST_FILE, NewFile};
use ti_requests::Request;
use ti_sources::LinedFile;

/// One byte more than a source may have.
const LONGEST_READ: u64 = LONGEST_FILE as u64 + 1;

/// A file that was read: its path, and its bytes, or one more than a source may have.
#[derive(Drop)]
pub struct Original<'a> {
    pub path: &'a str,
    pub bytes: Vec<u8>,
}

/// The files at these `paths`. One that can't be read isn't among them: it is the command's to say so.
pub fn originals<'a, F: Files>(
    alloc: Global,
    paths: &[&'a str],
    files: &mut F,
) -> Result<Vec<Original<'a>>, Failure>
    ensures read { IfOk result (λ originals. WereRead (F.holds files.old) originals.items) }
    ensures kept { F.holds files.new ≡ F.holds files.old }
{
    let mut originals = Vec::new(alloc);
    for path in paths {
        add_original(alloc, files, path, &mut originals)?;
    }
    Ok(originals)
}

/// Adds the file at `path` to the `originals`, unless it can't be read.
fn add_original<'a, F: Files>(
    alloc: Global,
    files: &mut F,
    path: &'a str,
    originals: &mut Vec<Original<'a>>,
) -> Result<(), Failure>
    ensures read { OnOk result (WereRead (F.holds files.old) originals.old.items
        → WereRead (F.holds files.old) originals.new.items) }
    ensures kept { F.holds files.new ≡ F.holds files.old }
{
    match read_original(alloc, files, path, LONGEST_READ) {
        Ok(bytes) => add(originals, Original { path, bytes }),
        Err(FileFault::NoMemory) => Err(Failure::NoMemory),
        Err(FileFault::Failed(_)) => Ok(()),
    }
}

fn add<'a>(originals: &mut Vec<Original<'a>>, original: Original<'a>) -> Result<(), Failure>
    ensures { OnOk result (originals.new.items ≡ originals.old.items ++ original.entry ∷ []) }
{
    match originals.push(original) {
        Ok(()) => Ok(()),
        Err(_) => Err(Failure::NoMemory),
    }
}

/// The paths of the files in which the places are that the reply to the command that is `asked` for names.
pub fn paths_of<'a>(alloc: Global, asked: &'a Asked<'a>) -> Result<Vec<&'a str>, AllocError> {
    let mut paths = Vec::new(alloc);
    match &asked.request {
        Request::CheckAll(words) | Request::CheckJson { words, .. } => {
            if let Some((path, _name)) = words.entry.rsplit_once(':') {
                paths.push(path)?;
            }
        }
        Request::Survey(words) | Request::SurveyJson(words) if !asked.fixes => {
            paths.extend_from_slice(words.paths.as_slice())?;
        }
        Request::Survey(_)
        | Request::SurveyJson(_)
        | Request::Check(_)
        | Request::Tic { .. }
        | Request::Print { .. }
        | Request::Common { .. }
        | Request::Neither { .. }
        | Request::Expand(_)
        | Request::Feed { .. }
        | Request::FeedAs(_)
        | Request::Verify(_)
        | Request::Play(_)
        | Request::Show(_) => return Ok(paths),
    }
    paths.extend_from_slice(asked.further.as_slice())?;
    Ok(paths)
}

/// The first `count` bytes of the file at `path`, or all of them if there are fewer.
fn read_original<F: Files>(
    alloc: Global,
    files: &mut F,
    path: &str,
    count: u64,
) -> Result<Vec<u8>, FileFault>
    ensures bytes { IfOk result (λ bytes. AreFirstBytesOf ((F.holds files.old).at path.now) count bytes.items) }
    ensures kept { F.holds files.new ≡ F.holds files.old }
{
    let file = files.reader(path)?;
    let mut bytes = Vec::new(alloc);
    match file.take(count).read_to_end(&mut bytes) {
        Ok(_) => Ok(bytes),
        Err(error) => Err(FileFault::from(error)),
    }
}

/// The texts of the `originals`, cut into lines.
pub fn lined<'a>(
    alloc: Global,
    originals: &'a [Original<'a>],
) -> Result<Vec<LinedFile<'a>>, AllocError> {
    let mut texts = Vec::new(alloc);
    for original in originals {
        texts.push(LinedFile::new(alloc, original.path, original.bytes.as_slice())?)?;
    }
    Ok(texts)
}

/// The files of a command, of which some were read before and aren't read again: one that is no file on a device, such
/// as standard input, gives its bytes only once.
#[derive(Drop)]
pub struct Kept<'a, F> {
    files: &'a mut F,
    originals: &'a [Original<'a>],
}

impl<'a, F> Kept<'a, F> {
    /// The given `files`, of which the `originals` were read.
    pub fn new(files: &'a mut F, originals: &'a [Original<'a>]) -> Kept<'a, F> {
        Kept { files, originals }
    }
}

/// The bytes of the first of the `originals` that was read at `path`.
fn read_at<'a, 'b>(originals: &'a [Original<'b>], path: &str) -> Option<&'a [u8]>
    ensures { option_map (λ bytes. bytes.now) result ≡ bytes_read originals.now path.now }
{
    for original in originals {
        if original.path == path {
            return Some(original.bytes.as_slice());
        }
    }
    None
}

/// Whether none of these `files` has the path of one of the `originals`.
fn are_unread(originals: &[Original<'_>], files: &[NewFile]) -> bool
    ensures { result ≡ spec.are_unread originals.now files.now }
{
    for file in files {
        if read_at(originals, file.path.as_str()).is_some() {
            return false;
        }
    }
    true
}

impl<'a, F: Files> Files for Kept<'a, F> {
    ghost holds = { λ kept. held_before kept.originals.now (F.holds kept.files.now) };

    type File = Opened<F::File, Cursor<&'a [u8]>>;

    fn reader(&mut self, path: &str) -> Result<Opened<F::File, Cursor<&'a [u8]>>, FileFault> {
        match read_at(self.originals, path) {
            Some(bytes) => Ok(Opened::Input(Cursor::new(bytes))),
            None => Ok(Opened::File(self.files.reader(path)?)),
        }
    }

    fn with_paths(&self) -> &[&str] {
        &[]
    }

    fn length_hint(&self) -> u64 {
        0
    }

    /// Stores to no path that was read before: its bytes are still to be given.
    fn store(&mut self, path: &str, bytes: &[u8]) -> Result<(), FileFault> {
        match read_at(self.originals, path) {
            Some(_) => Err(FileFault::Failed(FileCause::Source)),
            None => self.files.store(path, bytes),
        }
    }

    fn store_all(&mut self, new_files: &[NewFile]) -> Result<(), FileFault> {
        if are_unread(self.originals, new_files) {
            self.files.store_all(new_files)
        } else {
            Err(FileFault::Failed(FileCause::Source))
        }
    }
}
