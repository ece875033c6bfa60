//! The place of a value in a source text.

ghost use Rattle.std.specs.Prelude.{◌≡◌, ◌==◌, IfOk, IfSome, None, Some, if◌then◌else◌, map, option_map};
ghost use Rattle.ti_reports.specs.Names.{IsNameOf};
ghost use Rattle.ti_reports.specs.Sources as spec;
ghost use Rattle.ti_resolve.specs.Uses.{names_at};
ghost use Rattle.ti_verdicts.specs.Locations.{first_name, place_if, place_in};
ghost use Rattle.ti_sources.specs.LinedFiles.{file_text, line_of};

use crate::names::name_of;
use crate::written::Written;
use std::alloc::{AllocError, Global};
use ti_caps::Cap;
use ti_files::CommandRefusal;
use ti_resolve::Origin;
use ti_source::RawEntry;
use ti_sources::{FieldPlace, LinedFile, Region, begun_line};
use ti_verdicts::{Judged, SourcePlace, first_name, names_of};

/// The region of the part of a value that is at fault, if it is known; or that memory ran out.
pub type FaultyPart = Result<Option<Region>, AllocError>;

/// The place of a capability's value in a source text.
#[derive(Debug, Drop)]
pub struct ValuePlace {
    /// The line of the field that gives the value; `None` if there is no source or no value, or if the file is
    /// compiled.
    pub line: Option<usize>,
    /// The region of this field in its file, if it is known.
    pub region: Option<Region>,
    /// The path of the file that has this field.
    pub file: Option<String>,
    /// The first name of the entry that has this field.
    pub entry: Option<Written>,
}

impl ValuePlace {
    /// No place.
    pub fn nowhere() -> ValuePlace
        ensures { spec.IsNowhere result }
    {
        ValuePlace {
            line: None,
            region: None,
            file: None,
            entry: None,
        }
    }
}

/// The place at which `refusal` finds its reason: the line of a fault of a source text, if the path `file` of the text
/// is known, or the use for which the entry at `stands` can't be resolved; else nowhere.
pub fn refusal_place(
    alloc: Global,
    stands: &Option<SourcePlace<'_, '_>>,
    file: Option<&str>,
    refusal: &CommandRefusal,
) -> Result<ValuePlace, AllocError>
    ensures { IfOk result (λ place. spec.IsRefusalPlace (place_if stands.now) (option_map (λ f. f.now) file.entry)
        refusal.now place) }
{
    match refusal {
        CommandRefusal::Source(fault) => on_line(alloc, file, fault.line as usize),
        CommandRefusal::Size | CommandRefusal::Escape(_) | CommandRefusal::Parm(_) => {
            Ok(ValuePlace::nowhere())
        }
        CommandRefusal::Resolve(_) => use_place(alloc, stands),
        CommandRefusal::Token(_) | CommandRefusal::Stuck(_) => Ok(ValuePlace::nowhere()),
        CommandRefusal::Pack(_) | CommandRefusal::Verdict(_) => Ok(ValuePlace::nowhere()),
    }
}

/// The place of the use for which the entry at `stands` can't be resolved; nowhere if it can be, or if its place isn't
/// known.
fn use_place(alloc: Global, stands: &Option<SourcePlace<'_, '_>>) -> Result<ValuePlace, AllocError>
    ensures { IfOk result (λ place. spec.IsUsePlace (place_if stands.now) place) }
{
    match stands {
        Some(there) => use_at(alloc, there),
        None => Ok(ValuePlace::nowhere()),
    }
}

/// The place of the use for which the entry at `there` can't be resolved; nowhere if it can be.
fn use_at(alloc: Global, there: &SourcePlace<'_, '_>) -> Result<ValuePlace, AllocError>
    ensures { IfOk result (λ place. spec.IsUsePlace (Some (place_in there.now)) place) }
{
    match there.faulty_use(alloc)? {
        Some(origin) => field_place(alloc, there.line(origin), None, there.raws, origin),
        None => Ok(ValuePlace::nowhere()),
    }
}

/// The line of the file at the path `file`, whichever entry has it; nowhere if the file isn't known.
fn on_line(alloc: Global, file: Option<&str>, line: usize) -> Result<ValuePlace, AllocError>
    ensures { IfOk result (λ place. spec.IsOnLine (option_map (λ f. f.now) file.entry) line place) }
{
    match file {
        Some(path) => Ok(ValuePlace {
            line: number_of(line),
            region: None,
            file: Some(String::from_str(alloc, path)?),
            entry: None,
        }),
        None => Ok(ValuePlace::nowhere()),
    }
}

/// The place of the value of `cap` of the entry at `stands`; nowhere if there is no source or no value. The `originals`
/// are the texts of those files whose lines were joined.
pub fn value_place(
    alloc: Global,
    stands: &Option<SourcePlace<'_, '_>>,
    originals: &[LinedFile<'_>],
    cap: Cap,
) -> Result<ValuePlace, AllocError>
    ensures { IfOk result (λ place. spec.IsValuePlace (map file_text originals.now) (place_if stands.now) cap place) }
{
    match stands {
        None => Ok(ValuePlace::nowhere()),
        Some(there) => place_at(alloc, there, originals, cap),
    }
}

/// The place of the value of `cap` of the entry at `there`.
fn place_at(
    alloc: Global,
    there: &SourcePlace<'_, '_>,
    originals: &[LinedFile<'_>],
    cap: Cap,
) -> Result<ValuePlace, AllocError>
    ensures { IfOk result (λ place. spec.IsPlaceAt (map file_text originals.now) (place_in there.now) cap place) }
{
    match there.origin(alloc, cap)? {
        Some(origin) => {
            let region = there.region(originals, origin, cap);
            field_place(alloc, there.line(origin), region, there.raws, origin)
        }
        None => Ok(ValuePlace::nowhere()),
    }
}

/// The region of the part of the value that `fault` is about, of the entry at `stands`; `None` if there is no source or
/// no value, or no smaller part is known than the whole value. The `originals` are the texts of those files whose lines
/// were joined.
pub fn faulty_region(
    alloc: Global,
    stands: &Option<SourcePlace<'_, '_>>,
    originals: &[LinedFile<'_>],
    fault: &Judged<'_>,
) -> FaultyPart
    ensures { IfOk result (λ found. IfSome found
        (spec.IsFaultyAt (map file_text originals.now) (place_if stands.now) fault.now.no.now.cap)) }
{
    match stands {
        None => Ok(None),
        Some(there) => faulty_at(alloc, there, originals, fault),
    }
}

/// The region of the part of the value that `fault` is about, of the entry at `there`.
fn faulty_at(
    alloc: Global,
    there: &SourcePlace<'_, '_>,
    originals: &[LinedFile<'_>],
    fault: &Judged<'_>,
) -> FaultyPart
    ensures { IfOk result (λ found. IfSome found
        (spec.IsFaultyOf (map file_text originals.now) (place_in there.now) fault.now.no.now.cap)) }
{
    match there.origin(alloc, fault.no.cap)? {
        Some(origin) => there.faulty_region(alloc, originals, origin, fault),
        None => Ok(None),
    }
}

/// The place of the field at `origin`, which was read on the line at `there` and has this `region`, among the entries
/// `raws`.
fn field_place(
    alloc: Global,
    there: FieldPlace<'_>,
    region: Option<Region>,
    raws: &[RawEntry],
    origin: Origin,
) -> Result<ValuePlace, AllocError>
    ensures { IfOk result (λ place. spec.IsHeldAt (line_of there.entry) region raws.now origin place) }
{
    let begun = begun_line(there, region);
    Ok(ValuePlace {
        line: number_of(begun.line),
        region,
        file: Some(String::from_str(alloc, begun.path)?),
        entry: Some(holder(alloc, raws, origin)?),
    })
}

/// The number of a line, if its file has lines.
fn number_of(line: usize) -> Option<usize>
    ensures { result ≡ (if line == 0 then None else Some line) }
{
    if line == 0 { None } else { Some(line) }
}

/// The first name of the entry of `raws` that has the field at `origin`.
pub fn holder(alloc: Global, raws: &[RawEntry], origin: Origin) -> Result<Written, AllocError>
    ensures { IfOk result (λ name. IsNameOf (first_name (names_at raws.now origin.entry)) name) }
{
    name_of(alloc, first_name(names_of(raws, origin.entry)))
}
