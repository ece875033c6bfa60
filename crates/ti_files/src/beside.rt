//! The files of a command, with those of `--with`.

ghost use Rattle.std.specs.Prelude.{◌≡◌};
ghost use Rattle.ti_files.specs.Words.{texts_of};
ghost use Rattle.ti_files.specs.Wrapped.{held_beside};

use crate::{FileFault, Files, NewFile};

/// The given files, with the paths of those whose entries others may use.
#[derive(Drop)]
pub struct Beside<'a, F> {
    files: &'a mut F,
    paths: &'a [&'a str],
}

impl<'a, F> Beside<'a, F> {
    /// The given `files`, of which those at these `paths` are the files of `--with`.
    pub fn new(files: &'a mut F, paths: &'a [&'a str]) -> Beside<'a, F> {
        Beside { files, paths }
    }
}

impl<F: Files> Files for Beside<'_, F> {
    ghost holds = { λ beside. held_beside (texts_of beside.paths.now) (F.holds beside.files.now) };

    type File = F::File;

    fn reader(&mut self, path: &str) -> Result<F::File, FileFault> {
        self.files.reader(path)
    }

    fn with_paths(&self) -> &[&str] {
        self.paths
    }

    fn length_hint(&self) -> u64 {
        self.files.length_hint()
    }

    fn store(&mut self, path: &str, bytes: &[u8]) -> Result<(), FileFault> {
        self.files.store(path, bytes)
    }

    fn store_all(&mut self, new_files: &[NewFile]) -> Result<(), FileFault> {
        self.files.store_all(new_files)
    }
}
