//! A certificate's file, read as it is judged.

ghost use Rattle.std.specs.Prelude.{◌≡◌, ℕ, List, Some};

use std::alloc::Global;
use std::io::Read;
use ti_files::{FileCause, FileFault};
use ti_lines::{ReadFault, Reader};
use ti_words::Seen;

/// A file that gives a certificate. It keeps the lines that it gave last, and the reason of its last failure.
#[derive(Drop)]
pub struct CertificateFile<R> {
    file: R,
    failures: u128,
    fault: FileFault,
    seen: Seen,
}

impl<R: Read> CertificateFile<R> {
    /// The certificate that `file` has left.
    pub fn new(alloc: Global, file: R) -> CertificateFile<R>
        ensures { result.file ≡ file }
    {
        CertificateFile {
            file,
            failures: 0,
            fault: FileFault::Failed(FileCause::Other),
            seen: Seen::new(alloc),
        }
    }

    /// The reason of its last failure.
    pub fn fault(&self) -> FileFault {
        self.fault
    }

    /// The lines that it gave last.
    pub fn seen(&self) -> &Seen {
        &self.seen
    }
}

impl<R: Read> Reader for CertificateFile<R> {
    ghost left = { λ c all. R.remaining c.file ≡ Some all };

    ghost failures = { λ c. c.failures };

    fn take(&mut self, into: &mut [u8]) -> Result<usize, ReadFault> {
        match self.file.read(into) {
            Ok(count) => {
                self.seen.add(&into[..count]);
                Ok(count)
            }
            Err(error) => {
                self.failures = self.failures.saturating_add(1);
                self.fault = FileFault::from(error);
                Err(ReadFault)
            }
        }
    }
}
