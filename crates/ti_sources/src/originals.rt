//! The places in a file of what was read from it, where lines of it may have been joined.

ghost use Rattle.std.specs.Prelude.{◌≡◌, map, option_map};
ghost use Rattle.ti_sources.specs.LinedFiles.{file_text, line_of, put_files};
ghost use Rattle.ti_sources.specs.Originals as spec;

use crate::columns::Columns;
use crate::file_lines::{FieldPlace, LinedFile, LinedFiles};
use crate::joined_places::{Region, original_region};
use crate::lined_texts::LinedText;
use ti_caps::Cap;
use ti_resolve::Origin;

/// The first of the `originals` that is at this `path`; `None` for a file that is read as it is.
pub fn original_at<'a, 'b>(originals: &'a [LinedFile<'b>], path: &str) -> Option<&'a LinedText<'b>>
    ensures { option_map (λ text. text.now) result ≡ spec.original_at (map file_text originals.now) path.now }
{
    for file in originals {
        if file.path == path {
            return Some(&file.lined);
        }
    }
    None
}

/// The region in a file of the bytes between these `columns` of the line with this `number` that was read; `original`
/// is the file's text before its lines were joined, if they were.
pub fn region_in(original: Option<&LinedText<'_>>, number: usize, columns: Columns) -> Region
    ensures { result ≡ spec.region_in (option_map (λ text. text.now) original.entry) number columns }
{
    match original {
        None => Region {
            line: number,
            column: columns.start,
            end_line: number,
            end_column: columns.end,
        },
        Some(text) => original_region(text.lines(), number, columns.start, columns.end),
    }
}

/// The region in its file of the bytes between these `columns` of the line at `place`. The `originals` are the texts of
/// those files whose lines were joined, as they were before.
#[tactic(auto, unfolding(crate::specs::Originals::region_at))]
pub fn region_at(originals: &[LinedFile<'_>], place: FieldPlace<'_>, columns: Columns) -> Region
    ensures { result ≡ spec.region_at (map file_text originals.now) (line_of place.entry) columns }
{
    region_in(original_at(originals, place.path), place.line, columns)
}

/// The region of the first field about `cap` on the line that has the field at `origin`, a place among the entries of
/// these `files`; `None` if no line has that field.
#[tactic(auto, unfolding(crate::specs::Originals::region_among))]
pub fn region_among(
    originals: &[LinedFile<'_>],
    files: &LinedFiles<'_, '_>,
    origin: Origin,
    cap: Cap,
) -> Option<Region>
    ensures { result ≡ spec.region_among (map file_text originals.now) (put_files files.now) cap origin }
{
    match files.columns(origin, cap) {
        None => None,
        Some(columns) => Some(region_at(originals, files.line(origin), columns)),
    }
}

/// The line on which a field with this `region` begins; that at `place`, which was read, if the region isn't known.
pub fn begun_line<'b>(place: FieldPlace<'b>, region: Option<Region>) -> FieldPlace<'b>
    ensures { line_of result ≡ spec.begun_line (line_of place.entry) region }
{
    match region {
        None => place,
        Some(region) => FieldPlace {
            path: place.path,
            line: region.line,
        },
    }
}
