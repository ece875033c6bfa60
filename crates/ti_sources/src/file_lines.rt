//! The files of entries that were put together, and the line and the columns of a field in its file.

ghost use Rattle.std.specs.Prelude.{◌≡◌, IfOk, Some, map, slice_get};
ghost use Rattle.ti_sources.specs.LinedFiles as spec;

use crate::columns::Columns;
use crate::files::FurtherFile;
use crate::lined_texts::LinedText;
use crate::spots::{Spot, spot_of};
use std::alloc::{AllocError, Global};
use ti_caps::Cap;
use ti_resolve::Origin;

/// A file whose entries were put together with others: its path, and its text with the lines of all fields.
#[derive(Drop)]
pub struct LinedFile<'b> {
    /// The file's path.
    pub path: &'b str,
    /// The file's text; empty for a compiled file.
    pub lined: LinedText<'b>,
}

impl<'b> LinedFile<'b> {
    ghost use Rattle.std.specs.Prelude.{◌≡◌, IfOk};
    ghost use Rattle.ti_sources.specs.LinedFiles.{file_text, text_at};

    /// The file at `path` with this `text`.
    ///
    /// # Errors
    /// Out of memory.
    pub fn new(alloc: Global, path: &'b str, text: &'b [u8]) -> Result<LinedFile<'b>, AllocError>
        ensures { IfOk result (λ file. file_text file ≡ text_at path.now text.now) }
    {
        Ok(LinedFile {
            path,
            lined: LinedText::new(alloc, text)?,
        })
    }
}

/// The files whose entries were put together, and how many entries each has.
#[derive(Clone, Copy)]
pub struct LinedFiles<'a, 'b> {
    /// The files, in order.
    pub files: &'a [LinedFile<'b>],
    /// The number of entries of each.
    pub counts: &'b [usize],
}

/// The line of a field.
#[derive(Clone, Copy)]
pub struct FieldPlace<'b> {
    /// The path of the file.
    pub path: &'b str,
    /// The number of the line; 0 if no line has the field, as in a compiled file.
    pub line: usize,
}

impl<'b> LinedFiles<'_, 'b> {
    ghost use Rattle.std.specs.Prelude.{◌≡◌};
    ghost use Rattle.ti_sources.specs.LinedFiles.{columns_among, line_among, line_of, piece_among, put_files};

    /// The file and the line that have the field at `origin`, a place among the entries put together.
    #[tactic(auto, unfolding(crate::specs::LinedFiles::line_among))]
    pub fn line(&self, origin: Origin) -> FieldPlace<'b>
        ensures { line_of result ≡ line_among (put_files self.now) origin }
    {
        match spot_of(self.counts, origin.entry) {
            Some(spot) => line_at_spot(self.files, spot, origin.field),
            None => FieldPlace { path: "", line: 0 },
        }
    }

    /// The columns of the first field about `cap` on the line that has the field at `origin`, a place among the entries
    /// put together; `None` if no line has that field.
    #[tactic(auto, unfolding(crate::specs::LinedFiles::columns_among))]
    pub fn columns(&self, origin: Origin, cap: Cap) -> Option<Columns>
        ensures { result ≡ columns_among (put_files self.now) cap origin }
    {
        match spot_of(self.counts, origin.entry) {
            Some(spot) => columns_at_spot(self.files, spot, origin.field, cap),
            None => None,
        }
    }

    /// The bytes between these `columns` of the line that has the field at `origin`, a place among the entries put
    /// together.
    #[tactic(auto, unfolding(crate::specs::LinedFiles::piece_among))]
    pub fn piece(&self, origin: Origin, columns: Columns) -> &'b [u8]
        ensures { result.now ≡ piece_among (put_files self.now) columns origin }
    {
        match spot_of(self.counts, origin.entry) {
            Some(spot) => piece_at_spot(self.files, spot, origin.field, columns),
            None => &[],
        }
    }
}

/// The bytes between these `columns` of the line of the file at `spot` that has the field at this place of the entry
/// there.
fn piece_at_spot<'b>(
    files: &[LinedFile<'b>],
    spot: Spot,
    field: usize,
    columns: Columns,
) -> &'b [u8]
    ensures { result.now ≡ spec.piece_in (slice_get (map spec.file_text files.now) spot.file) columns
        (spec.origin_of spot.place field) }
{
    match files.get(spot.file) {
        Some(file) => piece_in(file, spot.place, field, columns),
        None => &[],
    }
}

/// The bytes between these `columns` of the line of `file` that has the field at this place of the entry at `entry`.
#[tactic(auto, unfolding(crate::specs::LinedFiles::line_of_field))]
fn piece_in<'b>(file: &LinedFile<'b>, entry: usize, field: usize, columns: Columns) -> &'b [u8]
    ensures { result.now ≡ spec.piece_in (Some (spec.file_text file.now)) columns (spec.origin_of entry field) }
{
    let line = file.lined.line(Origin { entry, field });
    file.lined.piece(line, columns)
}

/// The columns of the first field about `cap` on the line of the file at `spot` that has the field at this place of the
/// entry there.
fn columns_at_spot(files: &[LinedFile<'_>], spot: Spot, field: usize, cap: Cap) -> Option<Columns>
    ensures { result ≡ spec.columns_in (slice_get (map spec.file_text files.now) spot.file) cap
        (spec.origin_of spot.place field) }
{
    match files.get(spot.file) {
        Some(file) => columns_in(file, spot.place, field, cap),
        None => None,
    }
}

/// The columns of the first field about `cap` on the line of `file` that has the field at this place of the entry at
/// `entry`.
#[tactic(auto, unfolding(crate::specs::LinedFiles::line_of_field))]
fn columns_in(file: &LinedFile<'_>, entry: usize, field: usize, cap: Cap) -> Option<Columns>
    ensures { result ≡ spec.columns_in (Some (spec.file_text file.now)) cap (spec.origin_of entry field) }
{
    let line = file.lined.line(Origin { entry, field });
    file.lined.columns(line, cap)
}

/// The file at `spot`, and its line that has the field at this place of the entry there.
fn line_at_spot<'b>(files: &[LinedFile<'b>], spot: Spot, field: usize) -> FieldPlace<'b>
    ensures { spec.line_of result ≡ spec.line_in (slice_get (map spec.file_text files.now) spot.file)
        (spec.origin_of spot.place field) }
{
    match files.get(spot.file) {
        Some(file) => line_in(file, spot.place, field),
        None => FieldPlace { path: "", line: 0 },
    }
}

/// The line of `file` that has the field at this place of the entry at `entry`.
#[tactic(auto, unfolding(crate::specs::LinedFiles::line_of_field))]
fn line_in<'b>(file: &LinedFile<'b>, entry: usize, field: usize) -> FieldPlace<'b>
    ensures { spec.line_of result ≡ spec.line_in (Some (spec.file_text file.now)) (spec.origin_of entry field) }
{
    FieldPlace {
        path: file.path,
        line: file.lined.line(Origin { entry, field }),
    }
}

/// The file at `path` with this `text`, and the `further` files behind it, with the lines of all fields.
///
/// # Errors
/// Out of memory.
pub fn lined_files<'b>(
    alloc: Global,
    path: &'b str,
    text: &'b [u8],
    further: &'b [FurtherFile],
) -> Result<Vec<LinedFile<'b>>, AllocError>
    ensures { IfOk result (λ files. map spec.file_text files.items
        ≡ spec.texts_of_files path.now text.now further.now) }
{
    let mut files = Vec::new(alloc);
    files.push(LinedFile::new(alloc, path, text)?)?;
    for file in further {
        files.push(lined_further(alloc, file)?)?;
    }
    Ok(files)
}

/// A further file, with the lines of all fields.
fn lined_further<'b>(alloc: Global, file: &'b FurtherFile) -> Result<LinedFile<'b>, AllocError>
    ensures { IfOk result (λ lined. spec.file_text lined ≡ spec.further_text file.now) }
{
    LinedFile::new(alloc, file.path.as_str(), file.text())
}
