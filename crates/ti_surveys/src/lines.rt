//! The lines of a survey: one for each entry of a file, or for each of its faults, and the places of these.

ghost use Rattle.std.specs.Prelude.{◌≡◌, ◌≢◌, ◌<◌, ◌++◌, IfOk, IfSome, OnOk, codes, length, map, option_map};
ghost use Rattle.std.specs.List.{flat_map};
ghost use Rattle.ti_surveys.specs.Told.{told_of};
ghost use Rattle.ti_surveys.specs.Answers as spec;
ghost use Rattle.ti_verdicts.specs.Parts.{HasParts};
ghost use Rattle.ti_verdicts.specs.{Locations.{place_if, placed_if, placed_in}, Refusals.{no_text}};
ghost use Rattle.ti_sources.specs.LinedFiles.{file_text};

use crate::asked::Asked;
use crate::kinds::{EntryKind, answers_of, kind_of};
use crate::openings::openings_of;
use crate::said::Said;
use crate::speakers::{FileEntry, Lacking, Speaker};
use std::alloc::{AllocError, Global};
use ti_caps::Entry;
use ti_checker::{Cause, No};
use ti_faults::{faults, must_claim};
use ti_files::{CommandRefusal, push_shown, refusal_words};
use ti_grades::{Grade, grade_of};
use ti_verdicts::{Answer, Certifier, Judged, PlacedFault, no_words, placed};

impl<'a, C: Certifier> Speaker for Asked<'a, C> {
    ghost says = { λ asked path. spec.SaysTo C.certifies C.refuses asked path };

    ghost refuses = { λ _. spec.IsRefused };

    ghost leaves = { λ _. spec.SaysNothing };

    fn hints(&self) -> bool {
        self.lists_all
    }

    fn say(&self, alloc: Global, found: &FileEntry<'_, '_>) -> Result<Said, AllocError> {
        if self.lists_all {
            all_faults(alloc, self, found)
        } else {
            answer_line(alloc, self, found.name, found.entry)
        }
    }

    fn refuse(&self, alloc: Global, lacking: &Lacking<'_, '_>) -> Result<Said, AllocError> {
        let name = name_or(lacking.name, lacking.path);
        refused_line(alloc, name, lacking.refusal)
    }

    fn leave(&self, alloc: Global, _path: &str) -> Result<Said, AllocError> {
        Ok(Said::new(alloc))
    }
}

/// The `name`, or else the `path`.
fn name_or<'a>(name: Option<&'a [u8]>, path: &'a str) -> &'a [u8]
    ensures { result.now ≡ spec.name_or path.now (option_map (λ n. n.now) name.entry) }
{
    match name {
        Some(name) => name,
        None => path.as_bytes(),
    }
}

/// The line of `name`, with the `words` about it. Each byte outside 32 to 126 is in octal.
fn line(alloc: Global, name: &[u8], words: &[u8]) -> Result<Vec<u8>, AllocError>
    ensures { IfOk result (λ line. line.items ≡ spec.line_of name.now words.now) }
{
    let mut text = Vec::from_slice(alloc, name)?;
    text.extend_from_slice(words)?;
    let mut line = Vec::new(alloc);
    push_shown(&mut line, text.as_slice())?;
    line.push(b'\n')?;
    Ok(line)
}

/// The line of `name` alone, with the `words` about it and its `answer`.
fn one_line(alloc: Global, name: &[u8], words: &[u8], answer: Answer) -> Result<Said, AllocError>
    ensures { IfOk result (λ said. told_of said ≡ spec.one_line name.now words.now answer) }
{
    let line = line(alloc, name, words)?;
    Said::of_line(alloc, line, answer)
}

/// The words of `no` about its entry.
fn words_of(alloc: Global, no: &No) -> Result<Vec<u8>, AllocError>
    ensures { IfOk result (λ words. words.items ≡ codes " " ++ no_text no.now) }
{
    let mut words = Vec::from_slice(alloc, b" ")?;
    words.extend_from_slice(no_words(alloc, no)?.as_slice())?;
    Ok(words)
}

/// The words for an entry or a file that can't be obtained, with the `refusal` that says why.
fn refused(alloc: Global, refusal: &CommandRefusal) -> Result<Vec<u8>, AllocError>
    ensures { IfOk result (λ words. words.items ≡ spec.refusal_text refusal.now) }
{
    let why = refusal_words(alloc, refusal)?;
    let mut words = Vec::from_slice(alloc, b" refused: ")?;
    words.extend_from_slice(why.as_slice())?;
    Ok(words)
}

/// All faults of the entry that was `found`, as the survey is `asked` for them.
fn all_faults<C: Certifier>(
    alloc: Global,
    asked: &Asked<'_, C>,
    found: &FileEntry<'_, '_>,
) -> Result<Said, AllocError>
    ensures { IfOk result (λ said. spec.HasAllFaults asked.now.size.rows asked.now.size.cols asked.now.names_parts
        (map file_text asked.now.originals.now)
        (place_if found.now.stands.now) found.now.name.now found.now.entry.now (told_of said)) }
{
    let nos = faults(alloc, found.entry, asked.size)?;
    let kind = kind_of(true, found.entry, nos.as_slice());
    let answers = answers_of(alloc, kind, nos.as_slice())?;
    let opened = openings_of(alloc, kind, found.entry, asked.size, nos.as_slice())?;
    let (lines, placed) = told(alloc, asked, kind, found, nos.as_slice())?;
    let GradedFaults { places, grades } = placed;
    Ok(Said {
        lines,
        places,
        answers,
        grades,
        opened,
    })
}

/// The lines of the faults `nos` of the entry that was `found` and is of this `kind`, as the survey is `asked` for
/// them, and those of the faults that have a place.
fn told<C>(
    alloc: Global,
    asked: &Asked<'_, C>,
    kind: EntryKind,
    found: &FileEntry<'_, '_>,
    nos: &[No],
) -> Result<(Vec<u8>, GradedFaults), AllocError>
    ensures { IfOk result (λ told. spec.TellsFaults kind asked.now.names_parts (map file_text asked.now.originals.now)
        (place_if found.now.stands.now) found.now.name.now nos.now told.0.items (map placed_in told.1.places.items)) }
{
    match kind {
        EntryKind::Part => {
            let lines = part_lines(alloc, asked.names_parts, found.name)?;
            Ok((lines, GradedFaults::none(alloc)))
        }
        EntryKind::Other => {
            let lines = line(alloc, found.name, b" no: OtherKind")?;
            Ok((lines, GradedFaults::none(alloc)))
        }
        EntryKind::Usual => {
            let lines = listed(alloc, found.name, nos)?;
            let placed = places_of(alloc, asked, found, nos)?;
            Ok((lines, placed))
        }
    }
}

/// The lines about the entry of this `name`, which is only there to be used: one if `names_parts`, else none.
fn part_lines(alloc: Global, names_parts: bool, name: &[u8]) -> Result<Vec<u8>, AllocError>
    ensures { IfOk result (λ lines. lines.items ≡ spec.part_lines names_parts name.now) }
{
    if names_parts {
        line(alloc, name, b" part")
    } else {
        Ok(Vec::new(alloc))
    }
}

/// Faults at their places, as far as they have one, and the grades of them all.
#[derive(Drop)]
struct GradedFaults {
    places: Vec<PlacedFault>,
    grades: Vec<Grade>,
}

impl GradedFaults {
    ghost use Rattle.std.specs.Prelude.{◌≡◌, []};

    /// No faults.
    fn none(alloc: Global) -> GradedFaults
        ensures { result.places.items ≡ [] }
    {
        GradedFaults {
            places: Vec::new(alloc),
            grades: Vec::new(alloc),
        }
    }
}

/// The faults `nos` of the entry that was `found`, with their grades: each at the place of the field at fault, as the
/// survey is `asked` for them.
fn places_of<C>(
    alloc: Global,
    asked: &Asked<'_, C>,
    found: &FileEntry<'_, '_>,
    nos: &[No],
) -> Result<GradedFaults, AllocError>
    ensures { IfOk result (λ placed. HasParts
        (spec.IsPlacedMore (map file_text asked.now.originals.now) (place_if found.now.stands.now) found.now.name.now)
        nos.now (map placed_in placed.places.items)) }
{
    let mut places = Vec::new(alloc);
    let mut grades = Vec::new(alloc);
    for no in nos {
        let grade = grade_of(alloc, found.entry, asked.size, no, nos.len() == 1)?;
        grades.push(grade)?;
        let own = graded_place(alloc, asked, found, no, grade)?;
        push_if(&mut places, own)?;
    }
    Ok(GradedFaults { places, grades })
}

/// The fault `no` of the entry that was `found` at the place of the field at fault, with a line that has its `grade`;
/// `None` if there is no such place.
fn graded_place<C>(
    alloc: Global,
    asked: &Asked<'_, C>,
    found: &FileEntry<'_, '_>,
    no: &No,
    grade: Grade,
) -> Result<Option<PlacedFault>, AllocError>
    ensures { IfOk result (λ own. spec.IsPlacedMore (map file_text asked.now.originals.now)
        (place_if found.now.stands.now) found.now.name.now no.now (placed_if own)) }
{
    let fault = Judged {
        no,
        size: asked.size,
    };
    let bare = placed(alloc, found.stands, asked.originals, found.name, &fault)?;
    let line = grade_line(alloc, grade)?;
    with_line(bare, line.as_slice())
}

/// The line with this `grade`, after four spaces.
fn grade_line(alloc: Global, grade: Grade) -> Result<Vec<u8>, AllocError> {
    let mut line = Vec::from_slice(alloc, b"    grade: ")?;
    line.extend_from_slice(grade.name().as_bytes())?;
    line.push(b'\n')?;
    Ok(line)
}

/// The fault at its place, if there is one, with this `line` below its field.
fn with_line(bare: Option<PlacedFault>, line: &[u8]) -> Result<Option<PlacedFault>, AllocError>
    ensures { IfOk result (λ more. placed_if more ≡ map (spec.with_line line.now) (placed_if bare)) }
{
    match bare {
        None => Ok(None),
        Some(mut placed) => {
            placed.fault.extend_from_slice(line)?;
            Ok(Some(placed))
        }
    }
}

/// Adds `own` to `places`, if it is there.
fn push_if(places: &mut Vec<PlacedFault>, own: Option<PlacedFault>) -> Result<(), AllocError>
    ensures { OnOk result (map placed_in places.new.items ≡ map placed_in places.old.items ++ placed_if own) }
{
    if let Some(own) = own {
        places.push(own)?;
    }
    Ok(())
}

/// The lines of the faults `nos` of the entry of this `name`, or the line ` yes` if there are none.
fn listed(alloc: Global, name: &[u8], nos: &[No]) -> Result<Vec<u8>, AllocError>
    ensures { IfOk result (λ lines. lines.items ≡ spec.fault_lines name.now nos.now) }
{
    match nos {
        [] => line(alloc, name, b" yes"),
        [_, ..] => fault_lines(alloc, name, nos),
    }
}

/// A line for each of `nos`, after the `name` of their entry.
fn fault_lines(alloc: Global, name: &[u8], nos: &[No]) -> Result<Vec<u8>, AllocError>
    ensures { IfOk result (λ lines. lines.items ≡ flat_map (spec.fault_line name.now) nos.now) }
{
    let mut lines = Vec::new(alloc);
    for no in nos {
        let own = fault_line(alloc, name, no)?;
        lines.extend_from_slice(own.as_slice())?;
    }
    Ok(lines)
}

/// The line of `no` after the `name` of its entry.
fn fault_line(alloc: Global, name: &[u8], no: &No) -> Result<Vec<u8>, AllocError>
    ensures { IfOk result (λ line. line.items ≡ spec.fault_line name.now no.now) }
{
    let words = words_of(alloc, no)?;
    line(alloc, name, words.as_slice())
}

/// The line of `entry` under its `name`, with the certifier's answer.
fn answer_line<C: Certifier>(
    alloc: Global,
    asked: &Asked<'_, C>,
    name: &[u8],
    entry: &Entry,
) -> Result<Said, AllocError>
    ensures { IfOk result (λ said. spec.HasAnswer (C.certifies asked.now.certifier.now)
        (C.refuses asked.now.certifier.now) asked.now.size.rows asked.now.size.cols
        name.now entry.now (told_of said)) }
{
    match asked.certifier.certify(alloc, entry, asked.size) {
        Ok(_text) => one_line(alloc, name, b" yes", Answer::Yes),
        Err(no) => no_line(alloc, name, &no),
    }
}

/// The line of `no` about the entry of this `name`. Fails if `no` is out of memory, which is no answer.
fn no_line(alloc: Global, name: &[u8], no: &No) -> Result<Said, AllocError>
    ensures claims { IfOk result (λ said. no.now.cause ≢ Cause.NoMemory) }
    ensures says { IfOk result (λ said. told_of said
        ≡ spec.one_line name.now (codes " " ++ no_text no.now) (Answer.No no.now.cause)) }
{
    must_claim(no.cause)?;
    let words = words_of(alloc, no)?;
    one_line(alloc, name, words.as_slice(), Answer::No(no.cause))
}

/// The line of `name`, whose entry or file can't be obtained, with the `refusal` that says why.
fn refused_line(alloc: Global, name: &[u8], refusal: &CommandRefusal) -> Result<Said, AllocError>
    ensures { IfOk result (λ said. told_of said
        ≡ spec.one_line name.now (spec.refusal_text refusal.now) Answer.Refused) }
{
    let words = refused(alloc, refusal)?;
    one_line(alloc, name, words.as_slice(), Answer::Refused)
}
