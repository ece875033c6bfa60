//! Storing several files at once.

use crate::stored::write_synced;
use std::alloc::Global;
use std::fs::Permissions;
use std::io::ErrorKind;
use std::{fs, rt};
use ti_files::{FileCause, FileFault};

/// The most names that are tried for a file beside another.
const NAMES: u32 = 100;

/// A file that is ready to take its path.
#[derive(Drop)]
struct Ready {
    /// The path that it is to have.
    target: String,
    /// The path that it has.
    temporary: String,
    /// A further path of the file that has the path now, if there is one.
    backup: Option<String>,
}

/// Files that are ready to take their paths, all of them or none.
#[derive(Drop)]
pub struct Batch<'a, R> {
    alloc: Global,
    rt: &'a R,
    ready: Vec<Ready>,
}

impl<'a, R: rt::Files> Batch<'a, R> {
    /// No files yet; they are reached through `rt`.
    pub fn new(alloc: Global, rt: &'a R) -> Batch<'a, R> {
        Batch {
            alloc,
            rt,
            ready: Vec::new(alloc),
        }
    }

    /// Makes a file with these `bytes` ready for the path `target`. The file that is there, if there is one, has these
    /// `permissions`.
    pub fn prepare(
        &mut self,
        target: String,
        permissions: Option<Permissions>,
        bytes: &[u8],
    ) -> Result<(), FileFault> {
        if self.ready.as_slice().iter().any(|one| one.target == target) {
            return Err(FileFault::Failed(FileCause::Other));
        }
        let backup = match &permissions {
            Some(_) => Some(self.backed_up(target.as_str())?),
            None => None,
        };
        let filled = self.filled(target.as_str(), permissions, bytes);
        match filled {
            Ok(temporary) => self.add(Ready {
                target,
                temporary,
                backup,
            }),
            Err(fault) => {
                self.forget(&backup);
                Err(fault)
            }
        }
    }

    fn add(&mut self, ready: Ready) -> Result<(), FileFault> {
        match self.ready.push(ready) {
            Ok(()) => Ok(()),
            Err(refused) => {
                let ready = refused.value;
                let _ = fs::remove_file(self.rt, ready.temporary.as_str());
                self.forget(&ready.backup);
                Err(FileFault::NoMemory)
            }
        }
    }

    /// A further path of the file at `target`.
    fn backed_up(&self, target: &str) -> Result<String, FileFault> {
        for number in 0..NAMES {
            let Ok(backup) = format!(in self.alloc; "{target}.old{number}") else {
                return Err(FileFault::NoMemory);
            };
            match fs::hard_link(self.rt, target, backup.as_str()) {
                Ok(()) => return Ok(backup),
                Err(error) if error.kind() == ErrorKind::AlreadyExists => {}
                Err(error) => return Err(FileFault::from(error)),
            }
        }
        Err(FileFault::Failed(FileCause::Other))
    }

    /// The path of a new file beside `target` that has these `bytes`.
    fn filled(
        &self,
        target: &str,
        permissions: Option<Permissions>,
        bytes: &[u8],
    ) -> Result<String, FileFault> {
        for number in 0..NAMES {
            let Ok(temporary) = format!(in self.alloc; "{target}.tmp{number}") else {
                return Err(FileFault::NoMemory);
            };
            match fs::File::create_new(self.rt, temporary.as_str()) {
                Ok(mut file) => {
                    return match write_synced(&mut file, permissions, bytes) {
                        Ok(()) => Ok(temporary),
                        Err(error) => {
                            let _ = fs::remove_file(self.rt, temporary.as_str());
                            Err(FileFault::from(error))
                        }
                    };
                }
                Err(error) if error.kind() == ErrorKind::AlreadyExists => {}
                Err(error) => return Err(FileFault::from(error)),
            }
        }
        Err(FileFault::Failed(FileCause::Other))
    }

    /// Removes a further path of an old file.
    fn forget(&self, backup: &Option<String>) {
        if let Some(backup) = backup {
            let _ = fs::remove_file(self.rt, backup.as_str());
        }
    }

    /// Gives all files their paths. If one can't have its path, those before it give theirs back.
    pub fn commit(&self) -> Result<(), FileFault> {
        for (number, ready) in self.ready.as_slice().iter().enumerate() {
            match fs::rename(self.rt, ready.temporary.as_str(), ready.target.as_str()) {
                Ok(()) => {}
                Err(error) => {
                    self.give_back(number);
                    self.discard(number);
                    return Err(FileFault::from(error));
                }
            }
        }
        for ready in self.ready.as_slice() {
            self.forget(&ready.backup);
        }
        Ok(())
    }

    /// Gives the first `count` paths back to the files that had them.
    fn give_back(&self, count: usize) {
        for ready in self.ready.as_slice().iter().take(count) {
            let _ = match &ready.backup {
                Some(backup) => fs::rename(self.rt, backup.as_str(), ready.target.as_str()),
                None => fs::remove_file(self.rt, ready.target.as_str()),
            };
        }
    }

    /// Removes the files that are ready, but for the first `count`.
    pub fn discard(&self, count: usize) {
        for ready in self.ready.as_slice().iter().skip(count) {
            let _ = fs::remove_file(self.rt, ready.temporary.as_str());
            self.forget(&ready.backup);
        }
    }
}
