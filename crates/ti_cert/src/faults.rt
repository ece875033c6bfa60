//! The reasons why a certificate is refused.

ghost use Rattle.std.specs.Prelude.{◌≡◌};
ghost use Rattle.ti_cert.specs.Certificates.{missing_line};

use std::alloc::AllocError;
use ti_caps::Cap;
use ti_lines::LineFault;
use ti_rows::{Params, Row};

/// The fault of a line of a certificate.
#[derive(Debug, Drop, PartialEq, Eq)]
pub enum CertFaultKind {
    /// The line can't be in a certificate of this size, or a line is missing.
    BadLine,
    /// The line of this capability and these parameters must come here, or earlier.
    Missing(Cap, Params),
    /// The line had to come earlier, or is there already.
    OutOfOrder,
    /// The bytes aren't whole control functions.
    NotWhole,
    /// The bytes have no one effect record for all the states they start from.
    NotTame,
    /// The effect isn't the one that the line states, or isn't the one that is asked for.
    NotShown,
    /// The strings that must lead out of any state don't.
    NoResync,
    /// An attribute looks like another one, or a charset that isn't plain can stay active.
    BadLook,
    /// Out of memory.
    NoMemory,
    /// The reader failed.
    ReadFailed,
}

impl CertFaultKind {
    /// The line of this row is missing.
    pub(crate) fn missing(row: Row) -> CertFaultKind
        ensures { result ≡ missing_line row }
    {
        CertFaultKind::Missing(row.cap(), row.params())
    }
}

impl From<AllocError> for CertFaultKind {
    ghost use Rattle.std.specs.Prelude.{◌≡◌};
    ghost use Rattle.ti_cert.specs.declared.faults.CertFaultKind.{CertFaultKind};

    ghost from_gives = { λ _ kind. kind ≡ CertFaultKind.NoMemory };

    fn from(_: AllocError) -> CertFaultKind
        ensures { result ≡ CertFaultKind.NoMemory }
    {
        CertFaultKind::NoMemory
    }
}

/// The first fault of a certificate, with its line, counted from 1.
pub type CertFault = LineFault<CertFaultKind>;

/// The reason why a certificate isn't that of an entry.
#[derive(Debug, Drop)]
pub enum AgreeFault {
    /// The entry sends something else for this capability and these parameters, or isn't fit.
    Disagree { cap: Cap, params: Params },
    /// Out of memory.
    NoMemory,
}

/// The reason why an entry isn't verified.
#[derive(Debug, Drop)]
pub enum VerifyFault {
    /// The certificate has this fault.
    Cert(CertFault),
    /// The certificate is one of another entry.
    Agree(AgreeFault),
}
