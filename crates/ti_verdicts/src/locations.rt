//! The place of a capability's value in a source text.

ghost use Rattle.std.specs.Prelude.{◌≡◌, ◌==◌, ◌++◌, ◌∷◌, IfOk, Option, Some, codes, map};
ghost use Rattle.std.specs.List as List;
ghost use Rattle.ti_resolve.specs.Uses.{names_at};
ghost use Rattle.ti_verdicts.specs.{Excerpts.{IsFaulty, value_in}, Locations.{excerpt_text, value_at}};
ghost use Rattle.ti_verdicts.specs.Locations as spec;
ghost use Rattle.ti_verdicts.specs.Refusals.{no_text};
ghost use Rattle.ti_sources.specs.LinedFiles.{file_text, line_of, piece_among, put_files};
ghost use Rattle.ti_blames.specs.declared.stretches.Stretch.{Stretch};
ghost use Rattle.ti_files.specs.Shown.{shown};

use crate::excerpts::{excerpt, shown_bytes, value_in};
use crate::faulty_parts::{Judged, faulty_part};
use crate::faulty_regions::part_columns;
use crate::refusals::no_words;
use crate::rows::marked_rows;
use crate::source_places::SourcePlace;
use std::alloc::{AllocError, Global};
use ti_blames::Stretch;
use ti_caps::{Cap, name};
use ti_checker::No;
use ti_files::{Made, push_shown};
use ti_resolve::Origin;
use ti_source::RawEntry;
use ti_sources::{
    Columns, FieldPlace, LinedFile, LinedFiles, Region, begun_line, original_at, region_among,
    region_in,
};

/// The end of the first of `names`, if another follows.
fn name_end(names: &[u8]) -> Option<usize>
    ensures { result ≡ List.position (λ byte. byte == 124) names.now }
{
    names.iter().position(|byte| *byte == b'|')
}

/// The first of an entry's `names`.
pub fn first_name(names: &[u8]) -> &[u8]
    ensures { result.now ≡ spec.first_name names.now }
{
    match name_end(names) {
        None => names,
        Some(end) => &names[..end],
    }
}

/// The lines that say where the entry at `stands` has the value that `fault` is about: `FILE:LINE:COLUMN: CAP of NAME`,
/// as far as that can be shown, and the field with marks under the part of the value that is at fault, or under all of
/// it if no part is known. The `originals` are the texts of those files whose lines were joined, as they were before: a
/// field of one stands below its place as it does there, up to the line on which the marked part begins. Empty if the
/// entry is in no source, or has no value.
///
/// # Errors
/// Out of memory.
pub fn location(
    alloc: Global,
    stands: &Option<SourcePlace<'_, '_>>,
    originals: &[LinedFile<'_>],
    fault: &Judged<'_>,
) -> Result<Vec<u8>, AllocError>
    ensures { IfOk result (λ lines.
        spec.IsLocation (map file_text originals.now) (spec.place_if stands.now) fault.now.no.now.cap lines.items) }
{
    match stands {
        None => Ok(Vec::new(alloc)),
        Some(there) => location_at(alloc, there, originals, fault),
    }
}

/// The lines that say where the entry at `there` has the value that `fault` is about; empty if there is no value.
fn location_at(
    alloc: Global,
    there: &SourcePlace<'_, '_>,
    originals: &[LinedFile<'_>],
    fault: &Judged<'_>,
) -> Made
    ensures { IfOk result (λ lines.
        spec.IsLocatedAt (map file_text originals.now) (spec.place_in there.now) fault.now.no.now.cap lines.items) }
{
    match there.origin(alloc, fault.no.cap)? {
        None => Ok(Vec::new(alloc)),
        Some(origin) => origin_lines(alloc, there, originals, fault, origin),
    }
}

/// The lines of the field at `origin`, which `fault` is about, of the entry at `there`.
fn origin_lines(
    alloc: Global,
    there: &SourcePlace<'_, '_>,
    originals: &[LinedFile<'_>],
    fault: &Judged<'_>,
    origin: Origin,
) -> Made
    ensures { IfOk result (λ lines. spec.TellsOrigin (map file_text originals.now) (spec.place_in there.now)
        fault.now.no.now.cap (Some origin) lines.items) }
{
    let field = PutField {
        files: there.files,
        originals,
        raws: there.raws,
        cap: fault.no.cap,
        origin,
    };
    let part = part_at(alloc, &field, fault)?;
    field_lines(alloc, &field, part)
}

/// The part of the value of `field` that is at fault; `None` if no part is known.
#[tactic(auto, unfolding(crate::specs::Locations::value_at))]
fn part_at(
    alloc: Global,
    field: &PutField<'_, '_>,
    fault: &Judged<'_>,
) -> Result<Option<Stretch>, AllocError>
    ensures { IfOk result (IsFaulty (value_at (put_files field.now.files) field.now.cap field.now.origin)) }
{
    match field.files.columns(field.origin, field.cap) {
        None => Ok(None),
        Some(columns) => {
            let piece = field.files.piece(field.origin, columns);
            faulty_part(alloc, value_in(field.cap, piece), fault)
        }
    }
}

/// A field about a capability, in one of the files whose entries were put together.
#[derive(Drop)]
struct PutField<'a, 'b> {
    files: LinedFiles<'a, 'b>,
    /// The texts of those whose lines were joined, as they were before.
    originals: &'a [LinedFile<'a>],
    /// The entries of these files.
    raws: &'b [RawEntry],
    cap: Cap,
    /// The place of the field among the entries.
    origin: Origin,
}

/// The line with the place of `field`, and the field below it, with marks under the `part` of its value that is at
/// fault.
fn field_lines(alloc: Global, field: &PutField<'_, '_>, part: Option<Stretch>) -> Made
    requires { IsFaulty (value_at (put_files field.now.files) field.now.cap field.now.origin) part }
    ensures { IfOk result (λ lines. lines.items ≡ spec.field_text (map file_text field.now.originals.now)
        (put_files field.now.files)
        field.now.raws.now field.now.cap part field.now.origin) }
{
    let words = place_words(alloc, field)?;
    let below = excerpt_lines(alloc, field, part)?;
    let mut lines = Vec::new(alloc);
    push_shown(&mut lines, words.as_slice())?;
    lines.push(b'\n')?;
    lines.extend_from_slice(below.as_slice())?;
    Ok(lines)
}

/// `FILE:LINE:COLUMN: CAP of NAME` of `field`.
#[tactic(auto, unfolding(crate::specs::Locations::place_text))]
fn place_words(alloc: Global, field: &PutField<'_, '_>) -> Made
    ensures { IfOk result (λ words. words.items ≡ spec.place_text (map file_text field.now.originals.now)
        (put_files field.now.files)
        field.now.raws.now field.now.cap field.now.origin) }
{
    let region = region_among(field.originals, &field.files, field.origin, field.cap);
    let place = begun_line(field.files.line(field.origin), region);
    let names = names_of(field.raws, field.origin.entry);
    numbered_words(alloc, place, region, field.cap, names)
}

/// `FILE:LINE:COLUMN: CAP of NAME` of a field at `place` with this `region`, which is about `cap`, of the entry with
/// these `names`.
#[tactic(auto, unfolding(crate::specs::Locations::numbered_text))]
fn numbered_words(
    alloc: Global,
    place: FieldPlace<'_>,
    region: Option<Region>,
    cap: Cap,
    names: &[u8],
) -> Made
    ensures { IfOk result (λ words. words.items ≡ spec.numbered_text (line_of place.entry) region cap names.now) }
{
    let mut words = Vec::from_slice(alloc, place.path.as_bytes())?;
    words.extend_from_slice(number_words(alloc, place.line)?.as_slice())?;
    words.extend_from_slice(column_words(alloc, region)?.as_slice())?;
    words.extend_from_slice(b": ")?;
    words.extend_from_slice(name(cap))?;
    words.extend_from_slice(b" of ")?;
    words.extend_from_slice(first_name(names))?;
    Ok(words)
}

/// A colon and the number of a line; nothing for 0, in a file without lines.
fn number_words(alloc: Global, number: usize) -> Made
    ensures { IfOk result (λ words. words.items ≡ spec.number_text number) }
{
    if number == 0 {
        return Ok(Vec::new(alloc));
    }
    Vec::from_slice(alloc, format!(in alloc; ":{number}")?.as_bytes())
}

/// A colon and the first column of the `region`; nothing if it isn't known.
fn column_words(alloc: Global, region: Option<Region>) -> Made
    ensures { IfOk result (λ words. words.items ≡ spec.column_text region) }
{
    match region {
        None => Ok(Vec::new(alloc)),
        Some(region) => {
            let column = region.column;
            Vec::from_slice(alloc, format!(in alloc; ":{column}")?.as_bytes())
        }
    }
}

/// The bytes of `field` in its file, with marks under the `part` of its value that is at fault; nothing if no line has
/// it.
#[tactic(auto, unfolding(crate::specs::Locations::excerpt_text, crate::specs::Locations::value_at))]
fn excerpt_lines(alloc: Global, field: &PutField<'_, '_>, part: Option<Stretch>) -> Made
    requires { IsFaulty (value_at (put_files field.now.files) field.now.cap field.now.origin) part }
    ensures { IfOk result (λ lines. lines.items ≡ spec.excerpt_text (map file_text field.now.originals.now)
        (put_files field.now.files)
        field.now.cap part field.now.origin) }
{
    match field.files.columns(field.origin, field.cap) {
        None => Ok(Vec::new(alloc)),
        Some(columns) => shown_field(alloc, field, columns, part),
    }
}

/// The bytes of `field` in its file, which were read between these `columns`, with marks under the `part` of its value
/// that is at fault.
fn shown_field(
    alloc: Global,
    field: &PutField<'_, '_>,
    columns: Columns,
    part: Option<Stretch>,
) -> Made
    requires { IsFaulty
        (value_in field.now.cap (piece_among (put_files field.now.files) columns field.now.origin)) part }
    ensures { IfOk result (λ lines. lines.items ≡ spec.piece_text (map file_text field.now.originals.now)
        (put_files field.now.files) field.now.cap field.now.origin part (Some columns)) }
{
    let piece = field.files.piece(field.origin, columns);
    let place = field.files.line(field.origin);
    match original_at(field.originals, place.path) {
        None => excerpt(alloc, field.cap, piece, part),
        Some(text) => {
            let marked = marked_columns(value_in(field.cap, piece), columns, part);
            let whole = region_in(Some(text), place.line, columns);
            let part = region_in(Some(text), place.line, marked);
            marked_rows(alloc, text, whole, part)
        }
    }
}

/// The columns of the `part` of `value` that is at fault, or of all of it, where it ends with these `columns`.
fn marked_columns(value: &[u8], columns: Columns, part: Option<Stretch>) -> Columns
    ensures { result ≡ spec.marked_columns part value.now columns }
{
    match part {
        None => Columns {
            start: columns.end.saturating_sub(value.len()),
            end: columns.end,
        },
        Some(part) => part_columns(value, columns, part),
    }
}

/// A fault at its place in a source.
#[derive(Drop)]
pub struct PlacedFault {
    /// `FILE:LINE:COLUMN: CAP of ENTRY: `, as far as it can be shown, where ENTRY has the value.
    pub place: Vec<u8>,
    /// The name of the entry that has the fault.
    pub name: Vec<u8>,
    /// A space, the words of the fault, the end of the line, and the field with marks under the part of its value that
    /// is at fault.
    pub fault: Vec<u8>,
}

/// The fault of the entry of this `name` at the place of the value that it is about, where the entry is at `stands`.
/// The `originals` are the texts of those files whose lines were joined, as they were before. `None` if the entry is in
/// no source, or has no value.
///
/// # Errors
/// Out of memory.
pub fn placed(
    alloc: Global,
    stands: &Option<SourcePlace<'_, '_>>,
    originals: &[LinedFile<'_>],
    name: &[u8],
    fault: &Judged<'_>,
) -> Result<Option<PlacedFault>, AllocError>
    ensures { IfOk result (λ found. spec.IsPlaced (map file_text originals.now)
        (spec.place_if stands.now) name.now fault.now.no.now
        (spec.placed_if found)) }
{
    match stands {
        None => Ok(None),
        Some(stands) => placed_in(alloc, stands, originals, name, fault),
    }
}

/// The fault of the entry of this name at `stands`.
fn placed_in(
    alloc: Global,
    stands: &SourcePlace<'_, '_>,
    originals: &[LinedFile<'_>],
    name: &[u8],
    fault: &Judged<'_>,
) -> Result<Option<PlacedFault>, AllocError>
    ensures { IfOk result (λ found. spec.IsPlacedIn (map file_text originals.now)
        (spec.place_in stands.now) name.now fault.now.no.now
        (spec.placed_if found)) }
{
    match stands.origin(alloc, fault.no.cap)? {
        None => Ok(None),
        Some(origin) => {
            let field = PutField {
                files: stands.files,
                originals,
                raws: stands.raws,
                cap: fault.no.cap,
                origin,
            };
            Ok(Some(placed_at(alloc, &field, name, fault)?))
        }
    }
}

/// The fault of the entry of this name, in `field`.
fn placed_at(
    alloc: Global,
    field: &PutField<'_, '_>,
    name: &[u8],
    fault: &Judged<'_>,
) -> Result<PlacedFault, AllocError>
    requires { field.now.cap ≡ fault.now.no.now.cap }
    ensures { IfOk result (λ placed. (part : Option Stretch)
        × IsFaulty (value_at (put_files field.now.files) fault.now.no.now.cap field.now.origin) part
        × (spec.placed_in placed ≡ spec.fault_at (map file_text field.now.originals.now)
        (put_files field.now.files) field.now.raws.now name.now
        fault.now.no.now part field.now.origin)) }
{
    let part = part_at(alloc, field, fault)?;
    let mut words = place_words(alloc, field)?;
    words.extend_from_slice(b": ")?;
    Ok(PlacedFault {
        place: shown_bytes(alloc, words.as_slice())?,
        name: shown_bytes(alloc, name)?,
        fault: fault_lines(alloc, field, fault.no, part)?,
    })
}

/// A space, the words of `no`, the end of the line, and the `field` with marks under the `part` of its value that is at
/// fault.
fn fault_lines(alloc: Global, field: &PutField<'_, '_>, no: &No, part: Option<Stretch>) -> Made
    requires cap { field.now.cap ≡ no.now.cap }
    requires part { IsFaulty (value_at (put_files field.now.files) field.now.cap field.now.origin) part }
    ensures { IfOk result (λ lines. lines.items ≡ shown (codes " " ++ no_text no.now)
        ++ 10 ∷ excerpt_text (map file_text field.now.originals.now)
        (put_files field.now.files) no.now.cap part field.now.origin) }
{
    let mut words = Vec::from_slice(alloc, b" ")?;
    words.extend_from_slice(no_words(alloc, no)?.as_slice())?;
    let mut lines = shown_bytes(alloc, words.as_slice())?;
    lines.push(b'\n')?;
    lines.extend_from_slice(excerpt_lines(alloc, field, part)?.as_slice())?;
    Ok(lines)
}

/// The names of the entry at `place`; none if there is no such entry.
#[tactic(auto, unfolding(ti_resolve::specs::Uses::names_at))]
pub fn names_of(raws: &[RawEntry], place: usize) -> &[u8]
    ensures { result.now ≡ names_at raws.now place }
{
    match raws.get(place) {
        Some(raw) => raw.names.as_slice(),
        None => &[],
    }
}
