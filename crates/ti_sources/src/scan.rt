//! Whether the last field of a line is ended.

ghost use Rattle.std.specs.Prelude.{◌≡◌};
ghost use Rattle.ti_sources.specs.Steps as spec;

use ti_caps::Opener;
use ti_source::is_white;

/// The end of the bytes of a line so far.
#[derive(Clone, Copy)]
pub(crate) struct Scan {
    /// The byte that takes the next one.
    pub(crate) opener: Opener,
    /// Whether there is only white space behind the last comma that ends a field.
    pub(crate) is_blank: bool,
}

impl Scan {
    /// The start of a line.
    pub(crate) fn start() -> Scan
        ensures { result ≡ spec.start }
    {
        Scan {
            opener: Opener::Nothing,
            is_blank: true,
        }
    }

    /// The end after one more byte.
    fn after(self, byte: u8) -> Scan
        ensures { result ≡ spec.scan_byte self byte }
    {
        if self.opener.ends_field(byte) {
            Scan::start()
        } else {
            Scan {
                opener: self.opener.after(byte),
                is_blank: self.is_blank && is_white(byte),
            }
        }
    }

    /// The end after more `bytes`.
    pub(crate) fn over(self, bytes: &[u8]) -> Scan
        ensures { result ≡ spec.scan_from self bytes.now }
    {
        let mut scan = self;
        for byte in bytes {
            scan = scan.after(*byte);
        }
        scan
    }
}
