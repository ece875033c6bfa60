//! The question that a survey asks about each entry.

use ti_sources::LinedFile;
use vt_term::Size;

/// Whether the `certifier` writes a certificate for the `size`; or all faults for it, if `lists_all`. Then an entry
/// that is only there to be used is only named, and that if `names_parts`. The `originals` are the texts of those files
/// whose lines were joined, as they were before.
#[derive(Drop)]
pub struct Asked<'a, C> {
    pub certifier: &'a C,
    pub size: Size,
    pub lists_all: bool,
    pub names_parts: bool,
    pub originals: &'a [LinedFile<'a>],
}
