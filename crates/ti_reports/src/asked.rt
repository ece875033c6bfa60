//! The question that is asked about each entry.

use crate::faults::Subject;
use crate::hints::Hinted;
use ti_caps::Entry;
use ti_sources::LinedFile;
use ti_verdicts::SourcePlace;
use vt_term::Size;

/// The faults that are reported: the first of each entry at this size, or all; the texts of those files whose lines
/// were joined, as they were before; and the form of the reports.
#[derive(Drop)]
pub struct Asked<'a, P> {
    pub form: &'a P,
    pub size: Size,
    pub lists_all: bool,
    pub originals: &'a [LinedFile<'a>],
}

impl<'a, P> Asked<'a, P> {
    ghost use Rattle.std.specs.Prelude.{◌≡◌};

    /// The `entry` of the file at the path `file`, which is at `stands`; with hints about these fields.
    pub fn subject<'b>(
        &self,
        entry: &'a Entry,
        file: &'a str,
        stands: &'a Option<SourcePlace<'a, 'b>>,
        hinted: Hinted,
    ) -> Subject<'a, 'b>
        ensures { result ≡ record {
          entry = entry.entry;
          size = self.now.size;
          lists_all = self.now.lists_all;
          hinted = hinted;
          file = file.entry;
          stands = stands.entry;
          originals = self.now.originals;
        } }
    {
        Subject {
            entry,
            size: self.size,
            lists_all: self.lists_all,
            hinted,
            file,
            stands,
            originals: self.originals,
        }
    }
}
