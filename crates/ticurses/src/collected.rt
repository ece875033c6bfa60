//! Files that a command stores, kept for what is made of them.

use std::alloc::{AllocError, Global};
use ti_files::{FileFault, Files, NewFile};

/// The files of a command, with those that it stores: these are kept, and none is changed.
#[derive(Drop)]
pub struct Collected<'a, F> {
    alloc: Global,
    files: &'a mut F,
    /// The files that were stored.
    pub stored: Vec<NewFile>,
}

impl<'a, F> Collected<'a, F> {
    /// The given `files`; none is stored yet.
    pub fn new(alloc: Global, files: &'a mut F) -> Collected<'a, F> {
        Collected {
            alloc,
            files,
            stored: Vec::new(alloc),
        }
    }

    fn add(&mut self, path: &str, bytes: &[u8]) -> Result<(), AllocError> {
        self.stored.push(NewFile {
            path: String::from_str(self.alloc, path)?,
            bytes: Vec::from_slice(self.alloc, bytes)?,
        })?;
        Ok(())
    }
}

impl<F: Files> Files for Collected<'_, F> {
    type File = F::File;

    fn reader(&mut self, path: &str) -> Result<F::File, FileFault> {
        self.files.reader(path)
    }

    fn with_paths(&self) -> &[&str] {
        &[]
    }

    fn length_hint(&self) -> u64 {
        self.files.length_hint()
    }

    fn store(&mut self, path: &str, bytes: &[u8]) -> Result<(), FileFault> {
        match self.add(path, bytes) {
            Ok(()) => Ok(()),
            Err(_refused) => Err(FileFault::NoMemory),
        }
    }

    fn store_all(&mut self, new_files: &[NewFile]) -> Result<(), FileFault> {
        for file in new_files {
            self.store(file.path.as_str(), file.bytes.as_slice())?;
        }
        Ok(())
    }
}
