//! The explanation of a certificate's refusal.

use std::alloc::{AllocError, Global};
use ti_cert::{CertFault, CertFaultKind};
use ti_files::Remarks;
use ti_words::{Seen, explain_line, first_line_words, missing_line_words};
use vt_term::Size;

/// Adds to `remarks` what the line with `fault` of the certificate at `path` should say, as far as there is memory. The
/// line is shown if `seen` still has it.
pub fn explain_fault(
    alloc: Global,
    path: &str,
    size: Size,
    fault: &CertFault,
    seen: &Seen,
    remarks: &mut Remarks,
) {
    if let Ok(wanted) = wanted(alloc, size, fault) {
        let _ = explain_line(alloc, path, fault.line, seen, wanted.as_slice(), remarks);
    }
}

/// The text that a line should have, or the line's fault.
fn wanted(alloc: Global, size: Size, fault: &CertFault) -> Result<Vec<u8>, AllocError> {
    match &fault.kind {
        CertFaultKind::BadLine if fault.line == 1 => first_line_words(alloc, size),
        CertFaultKind::Missing(cap, params) => missing_line_words(alloc, *cap, params),
        kind => Vec::from_slice(alloc, kind_words(kind)),
    }
}

fn kind_words(kind: &CertFaultKind) -> &'static [u8] {
    match kind {
        CertFaultKind::BadLine =>
            b"a line is written as `cup 0 0 1b5b313b3148 row=0 col=0 nopend`, with parameters that the size allows; \
              the last one is `end`, and each ends with LF",
        CertFaultKind::Missing(_, _) => b"a line has to stand here",
        CertFaultKind::OutOfOrder =>
            b"the lines stand in the byte order of their capabilities, then of their parameters, and each once",
        CertFaultKind::NotWhole => b"the bytes are not text and whole control sequences",
        CertFaultKind::NotTame =>
            b"no single effect describes these bytes in all states of the terminal in which they are sent",
        CertFaultKind::NotShown =>
            b"the effect is not that of the bytes, or not the one that the capability has to have",
        CertFaultKind::NoResync =>
            b"the strings of the certificate do not lead a terminal in an unknown state to a blank screen",
        CertFaultKind::BadLook =>
            b"an attribute looks like another one, or the line drawing set can stay active",
        CertFaultKind::NoMemory => b"out of memory",
        CertFaultKind::ReadFailed => b"the file could not be read",
    }
}
