//! The number of lines that a command stored.

ghost use Rattle.std.specs.Prelude.{◌≡◌};

use ti_files::{FileFault, Files, NewFile};

/// The files of a command, with the number of lines of the file that it stored last.
#[derive(Drop)]
pub struct Counted<'a, F> {
    files: &'a mut F,
    /// The lines of the file that was stored last, if one was.
    pub lines: Option<usize>,
}

impl<'a, F> Counted<'a, F> {
    /// The given `files`, to which nothing has been stored yet.
    pub fn new(files: &'a mut F) -> Counted<'a, F> {
        Counted { files, lines: None }
    }
}

impl<F: Files> Files for Counted<'_, F> {
    ghost holds = { λ counted. F.holds counted.files.now };

    type File = F::File;

    fn reader(&mut self, path: &str) -> Result<F::File, FileFault> {
        self.files.reader(path)
    }

    fn with_paths(&self) -> &[&str] {
        self.files.with_paths()
    }

    fn length_hint(&self) -> u64 {
        self.files.length_hint()
    }

    fn store(&mut self, path: &str, bytes: &[u8]) -> Result<(), FileFault> {
        self.files.store(path, bytes)?;
        self.lines = Some(bytes.iter().filter(|byte| **byte == b'\n').count());
        Ok(())
    }

    fn store_all(&mut self, new_files: &[NewFile]) -> Result<(), FileFault> {
        self.files.store_all(new_files)
    }
}
