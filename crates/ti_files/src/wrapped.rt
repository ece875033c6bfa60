//! The files of a command, in which source texts are joined.

ghost use Rattle.std.specs.Prelude.{◌≡◌};
ghost use Rattle.ti_files.specs.Words.{texts_of};
ghost use Rattle.ti_files.specs.Wrapped.{joined_held};

use crate::fronts::read_front;
use crate::texts::{are_read_as_is, read_as, reads_as_is};
use crate::{FileCause, FileFault, Files, NewFile};
use std::alloc::Global;
use std::io::{Chain, Cursor, Read};

/// The given files, in which each source text is read with each of its fields on one line. Compiled files and
/// certificates are read as they are.
#[derive(Drop)]
pub struct Wrapped<'a, F> {
    alloc: Global,
    files: &'a mut F,
}

impl<'a, F> Wrapped<'a, F> {
    /// The given `files`.
    pub fn new(alloc: Global, files: &'a mut F) -> Wrapped<'a, F> {
        Wrapped { alloc, files }
    }
}

impl<F: Files> Files for Wrapped<'_, F> {
    ghost holds = { λ wrapped. joined_held (F.holds wrapped.files.now) };

    type File = Chain<Cursor<Vec<u8>>, F::File>;

    fn reader(&mut self, path: &str) -> Result<Chain<Cursor<Vec<u8>>, F::File>, FileFault> {
        let mut file = self.files.reader(path)?;
        let front = read_front(self.alloc, &mut file)?;
        let Ok(text) = read_as(self.alloc, front) else {
            return Err(FileFault::NoMemory);
        };
        Ok(Cursor::new(text).chain(file))
    }

    fn with_paths(&self) -> &[&str] {
        self.files.with_paths()
    }

    fn length_hint(&self) -> u64 {
        self.files.length_hint()
    }

    /// Stores only what is read as just these bytes, as a certificate, a compiled file and a joined text are.
    fn store(&mut self, path: &str, bytes: &[u8]) -> Result<(), FileFault> {
        match reads_as_is(self.alloc, bytes) {
            Ok(true) => self.files.store(path, bytes),
            Ok(false) => Err(FileFault::Failed(FileCause::Other)),
            Err(_) => Err(FileFault::NoMemory),
        }
    }

    /// Stores only files that are read as just their bytes.
    fn store_all(&mut self, new_files: &[NewFile]) -> Result<(), FileFault> {
        match are_read_as_is(self.alloc, new_files) {
            Ok(true) => self.files.store_all(new_files),
            Ok(false) => Err(FileFault::Failed(FileCause::Other)),
            Err(_) => Err(FileFault::NoMemory),
        }
    }
}
