//! The system's files, and standard input as one of them.

ghost use Rattle.std.specs.Prelude.{OnOk};
ghost use Rattle.std.specs.Io.KnownBytes.{Appends};
ghost use Rattle.ticurses.specs.Opened.{left_of};

use crate::batches::Batch;
use std::alloc::Global;
use std::fs::{Metadata, OpenFile, Permissions};
use std::io::{ErrorKind, Read, Write};
use std::os::unix::fs::MetadataExt;
use std::{fs, io, rt};
use ti_files::{FileCause, FileFault, Files, NewFile};

/// The most names that are tried for a temporary file.
const TEMPORARY_NAMES: u32 = 100;

/// The path that is standard input.
const INPUT: &str = "-";

/// Where the system has standard input as a file.
const INPUT_FILE: &str = "/dev/stdin";

/// Files among which a command may be kept from storing to the one that it has read.
pub trait Sources {
    /// From now on a command may also store to the file that it has read.
    fn allow_source(&mut self) {}

    /// Makes a folder at the path, unless something is there.
    fn make_folder(&self, _path: &str) -> Result<(), FileFault> {
        Ok(())
    }
}

/// The system's files for a command to read and write. The path `-` is standard input; a file of
/// that name is `./-`.
#[derive(Drop)]
pub struct Stored<'a, R, I> {
    alloc: Global,
    rt: &'a R,
    /// Standard input, until it is opened.
    input: Option<I>,
    /// The files that were opened, by their devices and their numbers there.
    were_read: Vec<(u64, u64)>,
    /// The length of the file that was opened last, if it has one.
    last_length: u64,
    /// Whether the files that were opened can't be stored to.
    keeps_source: bool,
}

impl<'a, R: rt::Files, I> Stored<'a, R, I> {
    /// The files that `rt` reaches, and `input` as standard input.
    pub fn new(alloc: Global, rt: &'a R, input: I) -> Stored<'a, R, I> {
        Stored {
            alloc,
            rt,
            input: Some(input),
            were_read: Vec::new(alloc),
            last_length: 0,
            keeps_source: true,
        }
    }

    /// Standard input, unless it was opened before.
    fn open_input(&mut self) -> Result<I, FileFault> {
        if let Ok(metadata) = fs::metadata(self.rt, INPUT_FILE) {
            self.remember(&metadata)?;
        }
        self.last_length = 0;
        match self.input.take() {
            Some(input) => Ok(input),
            None => Err(FileFault::Failed(FileCause::Other)),
        }
    }

    /// Remembers a file that was opened.
    fn remember(&mut self, metadata: &Metadata) -> Result<(), FileFault> {
        match self.were_read.push(identity(metadata)) {
            Ok(()) => Ok(()),
            Err(_) => Err(FileFault::NoMemory),
        }
    }

    /// Makes a folder at the path, unless something is there.
    fn make_missing(&self, path: &str) -> Result<(), FileFault> {
        match fs::metadata(self.rt, path) {
            Ok(_) => Ok(()),
            Err(error) if error.kind() == ErrorKind::NotFound => Ok(fs::create_dir(self.rt, path)?),
            Err(error) => Err(FileFault::from(error)),
        }
    }

    /// Makes the folders of the `new_files`, where these are missing.
    fn make_folders(&self, new_files: &[NewFile]) -> Result<(), FileFault> {
        for file in new_files {
            if let Some((folder, _name)) = file.path.as_str().rsplit_once('/') {
                if !folder.is_empty() {
                    self.make_missing(folder)?;
                }
            }
        }
        Ok(())
    }

    /// Makes the `new_files` ready to take their paths.
    fn prepare(&self, batch: &mut Batch<'a, R>, new_files: &[NewFile]) -> Result<(), FileFault> {
        for file in new_files {
            let path = file.path.as_str();
            let bytes = file.bytes.as_slice();
            match fs::metadata(self.rt, path) {
                Ok(metadata) if self.is_kept(&metadata) => {
                    return Err(FileFault::Failed(FileCause::Source));
                }
                Ok(metadata) if metadata.is_file() => {
                    let target = self.rt.canonicalize(self.alloc, path)?.into_string();
                    batch.prepare(target, Some(metadata.permissions()), bytes)?;
                }
                Ok(_) => return Err(FileFault::Failed(FileCause::Other)),
                Err(error) if error.kind() == ErrorKind::NotFound => {
                    let Ok(target) = String::from_str(self.alloc, path) else {
                        return Err(FileFault::NoMemory);
                    };
                    batch.prepare(target, None, bytes)?;
                }
                Err(error) => return Err(FileFault::from(error)),
            }
        }
        Ok(())
    }

    /// Whether a file was read and can't be stored to.
    fn is_kept(&self, metadata: &Metadata) -> bool {
        self.keeps_source && self.were_read.as_slice().contains(&identity(metadata))
    }

    /// Fills a new file beside `path` and renames it, so that `path` has all of `bytes` or is as before.
    fn replace(
        &self,
        path: &str,
        permissions: Option<Permissions>,
        bytes: &[u8],
    ) -> Result<(), FileFault> {
        for number in 0..TEMPORARY_NAMES {
            let Ok(temporary) = format!(in self.alloc; "{path}.tmp{number}") else {
                return Err(FileFault::NoMemory);
            };
            match fs::File::create_new(self.rt, temporary.as_str()) {
                Ok(file) => return self.fill(file, temporary.as_str(), path, permissions, bytes),
                Err(error) if error.kind() == ErrorKind::AlreadyExists => {}
                Err(error) => return Err(FileFault::from(error)),
            }
        }
        Err(FileFault::Failed(FileCause::Other))
    }

    /// Writes `bytes` to the file `file`, whose name is `temporary`, and renames it as `path`.
    fn fill(
        &self,
        mut file: R::File,
        temporary: &str,
        path: &str,
        permissions: Option<Permissions>,
        bytes: &[u8],
    ) -> Result<(), FileFault> {
        let written = write_synced(&mut file, permissions, bytes);
        drop(file);
        let renamed = match written {
            Ok(()) => fs::rename(self.rt, temporary, path),
            Err(error) => Err(error),
        };
        match renamed {
            Ok(()) => Ok(()),
            Err(error) => {
                let _ = fs::remove_file(self.rt, temporary);
                Err(FileFault::from(error))
            }
        }
    }
}

/// Writes `bytes` to the empty file `file`, and waits until the device has them.
pub fn write_synced<F: Write + OpenFile>(
    file: &mut F,
    permissions: Option<Permissions>,
    bytes: &[u8],
) -> io::Result<()>
    ensures { OnOk result (Appends (F.Write.contents file.old) (F.Write.contents file.new) bytes.now) }
{
    file.write_all(bytes)?;
    if let Some(permissions) = permissions {
        file.set_permissions(permissions)?;
    }
    file.sync_all()
}

fn identity(metadata: &Metadata) -> (u64, u64) {
    (metadata.dev(), metadata.ino())
}

/// An opened file, or standard input.
#[derive(Drop)]
pub enum Opened<F, I> {
    /// A file.
    File(F),
    /// Standard input.
    Input(I),
}

impl<F: Read, I: Read> Read for Opened<F, I> {
    ghost remaining = { λ opened. left_of F.remaining I.remaining opened };

    fn read(&mut self, into: &mut [u8]) -> io::Result<usize> {
        match self {
            Opened::File(file) => file.read(into),
            Opened::Input(input) => input.read(into),
        }
    }
}

impl<R: rt::Files, I> Sources for Stored<'_, R, I> {
    fn allow_source(&mut self) {
        self.keeps_source = false;
    }

    fn make_folder(&self, path: &str) -> Result<(), FileFault> {
        self.make_missing(path)
    }
}

impl<R: rt::Files, I: Read + Drop> Files for Stored<'_, R, I> {
    type File = Opened<R::File, I>;

    fn reader(&mut self, path: &str) -> Result<Opened<R::File, I>, FileFault> {
        if path == INPUT {
            return Ok(Opened::Input(self.open_input()?));
        }
        let file = fs::open(self.rt, path)?;
        let metadata = file.metadata()?;
        self.remember(&metadata)?;
        self.last_length = metadata.len();
        Ok(Opened::File(file))
    }

    fn with_paths(&self) -> &[&str] {
        &[]
    }

    fn length_hint(&self) -> u64 {
        self.last_length
    }

    /// A file is replaced as a whole, even through links; anything else, such as a terminal or a
    /// pipe, is written to.
    fn store(&mut self, path: &str, bytes: &[u8]) -> Result<(), FileFault> {
        match fs::metadata(self.rt, path) {
            Ok(metadata) if self.is_kept(&metadata) => Err(FileFault::Failed(FileCause::Source)),
            Ok(metadata) if metadata.is_file() => {
                let target = self.rt.canonicalize(self.alloc, path)?.into_string();
                self.replace(target.as_str(), Some(metadata.permissions()), bytes)
            }
            Ok(_) => Ok(fs::write(self.rt, path, bytes)?),
            Err(error) if error.kind() == ErrorKind::NotFound => self.replace(path, None, bytes),
            Err(error) => Err(FileFault::from(error)),
        }
    }

    /// All files are written beside their paths before the first of them takes its path. A folder of theirs that isn't
    /// there is made.
    fn store_all(&mut self, new_files: &[NewFile]) -> Result<(), FileFault> {
        self.make_folders(new_files)?;
        let mut batch = Batch::new(self.alloc, self.rt);
        match self.prepare(&mut batch, new_files) {
            Ok(()) => batch.commit(),
            Err(fault) => {
                batch.discard(0);
                Err(fault)
            }
        }
    }
}
