//! The files that a command reads and writes.

ghost use Rattle.std.specs.Prelude.{◌≡◌, ◌≢◌, ℕ, List, IfOk, OnErr, OnOk};
ghost use Rattle.ti_files.specs.{Contents.{AreBytesOf, Held, IsLeft, StoredAll, nothing_held}, Words.{texts_of}};

use std::io;
use std::io::{ErrorKind, Read};

/// Why the system refused a file, as far as it says.
#[derive(Clone, Copy, Debug, PartialEq, Eq)]
pub enum FileCause {
    /// There is no such file or folder.
    Missing,
    /// The path is a folder's.
    Directory,
    /// Permission is denied.
    Denied,
    /// The device is full.
    Full,
    /// The file to be written is one that was read.
    Source,
    /// Anything else.
    Other,
}

impl FileCause {
    /// The words about a path that the system refused for this cause.
    pub fn words(self) -> &'static [u8] {
        match self {
            FileCause::Missing => b": there is no such file or folder",
            FileCause::Directory => b" is a folder",
            FileCause::Denied => b": permission denied",
            FileCause::Full => b": there is no space left for it",
            FileCause::Source => b" is the file that the entry is read from",
            FileCause::Other => b" could not be read or written",
        }
    }
}

/// Why a file could not be read or written.
#[derive(Clone, Copy, Debug, PartialEq, Eq)]
pub enum FileFault {
    /// The system refused.
    Failed(FileCause),
    /// Out of memory.
    NoMemory,
}

impl From<io::Error> for FileFault {
    fn from(error: io::Error) -> FileFault {
        FileFault::of_kind(error.kind())
    }
}

impl FileFault {
    /// The fault for an error of this `kind`.
    fn of_kind(kind: ErrorKind) -> FileFault {
        match kind {
            ErrorKind::OutOfMemory => FileFault::NoMemory,
            ErrorKind::NotFound | ErrorKind::NotADirectory => FileFault::Failed(FileCause::Missing),
            ErrorKind::IsADirectory => FileFault::Failed(FileCause::Directory),
            ErrorKind::PermissionDenied | ErrorKind::ReadOnlyFilesystem => {
                FileFault::Failed(FileCause::Denied)
            }
            ErrorKind::StorageFull | ErrorKind::QuotaExceeded => FileFault::Failed(FileCause::Full),
            _ => FileFault::Failed(FileCause::Other),
        }
    }
}

/// A file to be stored.
#[derive(Debug, Drop)]
pub struct NewFile {
    /// Its path.
    pub path: String,
    /// All of its bytes.
    pub bytes: Vec<u8>,
}

/// The files of a command: the system's, or a test's own in memory.
pub trait Files {
    /// The bytes of the file at each path, if they are known, and the paths of `--with`.
    ghost holds: { Self → Held } = { λ _. nothing_held };

    /// An opened file, read from its start.
    type File: Read + Drop;

    /// Opens the file at `path` for reading: the reader has all of its bytes left.
    fn reader(&mut self, path: &str) -> Result<Self::File, FileFault>
        ensures bytes { IfOk result (λ file. IsLeft ((holds self.old).at path.now) (Self.File.remaining file)) }
        ensures kept { holds self.new ≡ holds self.old };

    /// The paths of the files of `--with`, whose entries those of a source may use, in order.
    fn with_paths(&self) -> &[&str]
        ensures { texts_of result.now ≡ (holds self.now).with_paths };

    /// The expected length in bytes of the file that was opened last, so that room is made at once;
    /// 0 if it isn't known. The bytes that are read don't depend on it.
    fn length_hint(&self) -> u64 {
        0
    }

    /// Makes the file at `path` hold just `bytes`, and changes no other file. After an error each
    /// file is as before.
    fn store(&mut self, path: &str, bytes: &[u8]) -> Result<(), FileFault>
        ensures stored { OnOk result (AreBytesOf ((holds self.new).at path.now) bytes.now) }
        ensures others { OnOk result ((other : List ℕ) → other ≢ path.now
            → (holds self.new).at other ≡ (holds self.old).at other) }
        ensures with_kept { OnOk result ((holds self.new).with_paths ≡ (holds self.old).with_paths) }
        ensures kept { OnErr result (holds self.new ≡ holds self.old) };

    /// Makes each of these files hold just its bytes, and changes no other file. After an error each file is as before.
    /// Files that can't do that for several refuse it.
    fn store_all(&mut self, new_files: &[NewFile]) -> Result<(), FileFault>
        ensures stored { OnOk result (StoredAll (holds self.old) (holds self.new) new_files.now) }
        ensures kept { OnErr result (holds self.new ≡ holds self.old) }
    {
        match new_files {
            [] => Ok(()),
            [only] => self.store(only.path.as_str(), only.bytes.as_slice()),
            [_, _, ..] => Err(FileFault::Failed(FileCause::Other)),
        }
    }
}
