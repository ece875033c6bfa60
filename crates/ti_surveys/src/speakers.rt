//! Speakers, which report the results about entries.

ghost use Rattle.std.specs.Prelude.{◌<◌, IfOk, IfSome, length, option_map};
ghost use Rattle.ti_surveys.specs.{Lines.{Leaving, Refusing, Saying}, Told.{told_of}};
ghost use Rattle.ti_verdicts.specs.Locations.{place_if};

use crate::said::Said;
use std::alloc::{AllocError, Global};
use ti_caps::Entry;
use ti_files::CommandRefusal;
use ti_verdicts::SourcePlace;

/// An entry that a file has.
#[derive(Drop)]
pub struct FileEntry<'a, 'b> {
    /// The file's path.
    pub path: &'a str,
    /// The place of the entry in the file; `None` if the file is no source.
    pub stands: &'a Option<SourcePlace<'a, 'b>>,
    /// The first of the names that the entry has there.
    pub name: &'a [u8],
    /// The contents of the entry.
    pub entry: &'a Entry,
}

/// An entry that can't be obtained from a file, or a file that has no entries.
#[derive(Drop)]
pub struct Lacking<'a, 'b> {
    /// The file's path.
    pub path: &'a str,
    /// The place of the entry among those of the file and of `--with`, or of the one that hides it; `None` if the file
    /// is no source, or has no entries.
    pub stands: &'a Option<SourcePlace<'a, 'b>>,
    /// The first of the names that the entry has there; `None` if the file has no entries.
    pub name: Option<&'a [u8]>,
    /// The reason.
    pub refusal: &'a CommandRefusal,
}

/// Reports the results about each entry of a file.
pub trait Speaker {
    /// The relation that its statement about an entry satisfies.
    ghost says: { Self → Saying };

    /// The relation that its statement about an entry that can't be obtained, or about a file that has none, satisfies.
    ghost refuses: { Self → Refusing };

    /// The relation that its statement about a file that can't be read satisfies.
    ghost leaves: { Self → Leaving };

    /// Whether hints about the fields of a source text are wanted beside its statements.
    fn hints(&self) -> bool;

    /// Its statement about the entry that was `found`.
    fn say(&self, alloc: Global, found: &FileEntry<'_, '_>) -> Result<Said, AllocError>
        ensures { IfOk result (λ said. says self.now found.now.path.now (place_if found.now.stands.now)
            found.now.name.now found.now.entry.now (told_of said)) };

    /// Its statement about an entry that is `lacking`, or about a file that has no entries.
    fn refuse(&self, alloc: Global, lacking: &Lacking<'_, '_>) -> Result<Said, AllocError>
        ensures { IfOk result (λ said. refuses self.now lacking.now.path.now (place_if lacking.now.stands.now)
            (option_map (λ n. n.now) lacking.now.name) lacking.now.refusal.now (told_of said)) };

    /// Its statement about the file at `path`, which can't be read.
    fn leave(&self, alloc: Global, path: &str) -> Result<Said, AllocError>
        ensures { IfOk result (λ said. leaves self.now path.now (told_of said)) };
}
