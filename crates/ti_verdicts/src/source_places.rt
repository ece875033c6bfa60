//! The place of an entry among those of source files.

ghost use Rattle.std.specs.Prelude.{◌≡◌, ◌<◌, IfOk, length, map};
ghost use Rattle.ti_resolve.specs.Origins.{IsOriginAt};
ghost use Rattle.ti_sources.specs.LinedFiles.{file_text};
ghost use Rattle.ti_verdicts.specs.SourceFiles.{files_of};

use crate::faulty_parts::Judged;
use crate::faulty_regions::faulty_region;
use std::alloc::{AllocError, Global};
use ti_caps::Cap;
use ti_commands::SourceText;
use ti_resolve::{Index, Origin, faulty_use, origin_from};
use ti_source::RawEntry;
use ti_sources::{
    FieldPlace, LinedFile, LinedFiles, Region, lined_files, place_named, region_among,
};

/// The place of an entry among those of source files.
#[derive(Drop)]
pub struct SourcePlace<'a, 'b> {
    /// The file and those of `--with`, with the lines of all fields.
    pub files: LinedFiles<'a, 'b>,
    /// All entries of these files, as they were read.
    pub raws: &'b [RawEntry],
    /// The place of the entry in `raws`.
    pub place: usize,
    /// The entries with the index of their names.
    pub index: &'a Index<'b>,
    ghost same_raws: { index.now.raws.now ≡ raws.now },
    ghost there: { place < length raws.now },
}

impl<'b> SourcePlace<'_, 'b> {
    ghost use Rattle.std.specs.Prelude.{◌≡◌, IfNone, IfOk, IfSome, IsOk, map};
    ghost use Rattle.ti_resolve.specs.{FaultyUses.{IsFaultyUse}, Walk.{walk_at}};
    ghost use Rattle.ti_resolve.specs.Origins.{IsOriginAt};
    ghost use Rattle.ti_verdicts.specs.Locations.{IsFaultyRegion};
    ghost use Rattle.ti_sources.specs.Originals.{region_among};
    ghost use Rattle.ti_sources.specs.LinedFiles.{file_text, line_among, line_of, put_files};

    /// The field that gives the entry its value of `cap`; `None` if it has none.
    ///
    /// # Errors
    /// Out of memory.
    pub fn origin(&self, alloc: Global, cap: Cap) -> Result<Option<Origin>, AllocError>
        ensures { IfOk result (λ found. IsOriginAt self.now.raws.now self.now.place cap found) }
    {
        origin_by(alloc, self.index, self.place, cap)
    }

    /// The use for which the entry can't be resolved, its own or that of an entry that it uses; `None` if it can be.
    ///
    /// # Errors
    /// Out of memory.
    pub fn faulty_use(&self, alloc: Global) -> Result<Option<Origin>, AllocError>
        ensures none { IfOk result (λ found. IfNone found (IsOk (walk_at self.now.raws.now self.now.place))) }
        ensures found { IfOk result (λ found. IfSome found (IsFaultyUse self.now.raws.now self.now.place)) }
    {
        faulty_use(alloc, self.index, self.place)
    }

    /// The file and the line that have the field at `origin`.
    pub fn line(&self, origin: Origin) -> FieldPlace<'b>
        ensures { line_of result ≡ line_among (put_files self.now.files) origin }
    {
        self.files.line(origin)
    }

    /// The region of the first field about `cap` on the line that has the field at `origin`. The `originals` are the
    /// texts of those files whose lines were joined, as they were before.
    pub fn region(&self, originals: &[LinedFile<'_>], origin: Origin, cap: Cap) -> Option<Region>
        ensures { result ≡ region_among (map file_text originals.now) (put_files self.now.files) cap origin }
    {
        region_among(originals, &self.files, origin, cap)
    }

    /// The region of the part of the value that `fault` is about, in the field at `origin`; `None` if no line has the
    /// field, or no smaller part is known than the whole value. The `originals` are the texts of those files whose
    /// lines were joined, as they were before.
    ///
    /// # Errors
    /// Out of memory.
    pub fn faulty_region(
        &self,
        alloc: Global,
        originals: &[LinedFile<'_>],
        origin: Origin,
        fault: &Judged<'_>,
    ) -> Result<Option<Region>, AllocError>
        ensures { IfOk result (λ found. IfSome found
            (IsFaultyRegion (map file_text originals.now) (put_files self.now.files) fault.now.no.now.cap origin)) }
    {
        faulty_region(alloc, originals, &self.files, origin, fault)
    }
}

/// The field that gives `cap` its value in the entry at `place`, which was resolved before.
fn origin_by(
    alloc: Global,
    index: &Index<'_>,
    place: usize,
    cap: Cap,
) -> Result<Option<Origin>, AllocError>
    requires { place < length index.now.raws.now }
    ensures { IfOk result (λ found. IsOriginAt index.now.raws.now place cap found) }
{
    match origin_from(alloc, index, place, cap) {
        Ok(found) => Ok(found),
        // it was resolved before, so memory ran out
        Err(_) => Err(AllocError),
    }
}

/// A source text with the lines of all fields of its files, and with the index of its names.
#[derive(Drop)]
pub struct LinedSource<'b> {
    /// The source.
    pub source: &'b SourceText<'b>,
    files: Vec<LinedFile<'b>>,
    index: Index<'b>,
    ghost same_files: { map file_text files.items ≡ (files_of source.now).texts },
    ghost same_raws: { index.raws.now ≡ source.now.raws.items },
}

impl<'b> LinedSource<'b> {
    ghost use Rattle.std.specs.Prelude.{◌≡◌, IfOk, option_map};
    ghost use Rattle.ti_verdicts.specs.Locations.{named_place, place_in};

    /// The `source`, with these lines and this index.
    ///
    /// # Errors
    /// Out of memory.
    pub fn new(alloc: Global, source: &'b SourceText<'b>) -> Result<LinedSource<'b>, AllocError>
        ensures { IfOk result (λ lined. lined.source.now ≡ source.now) }
    {
        Ok(LinedSource {
            source,
            files: lined_files(
                alloc,
                source.path,
                source.text.as_slice(),
                source.further.as_slice(),
            )?,
            index: Index::new(alloc, source.raws.as_slice())?,
        })
    }

    /// The place of the entry that has the source's name; `None` if no entry has it.
    pub fn stands(&self) -> Option<SourcePlace<'_, 'b>>
        ensures { option_map place_in result ≡ named_place self.now.source.now }
    {
        match place_named(self.source.raws.as_slice(), self.source.name.as_bytes()) {
            Some(place) => Some(SourcePlace {
                files: LinedFiles {
                    files: self.files.as_slice(),
                    counts: self.source.counts.as_slice(),
                },
                raws: self.source.raws.as_slice(),
                place,
                index: &self.index,
            }),
            None => None,
        }
    }
}
