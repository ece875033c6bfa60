//! The notes of a survey: faults at their places, how many have which grade, and how many entries open.

ghost use Rattle.std.specs.Prelude.{IfOk, map};
ghost use Rattle.ti_surveys.specs.Surveys.{HasNotes};
ghost use Rattle.ti_verdicts.specs.Locations.{placed_in};

use crate::openings::{Opened, openings_line};
use crate::places::places_lines;
use std::alloc::{AllocError, Global};
use ti_grades::Grade;
use ti_verdicts::{Lines, PlacedFault};

/// The grades in the order in which they are counted.
const GRADES: [Grade; 4] = [
    Grade::Broken,
    Grade::Contradicts,
    Grade::Wrong,
    Grade::Unknown,
];

/// The lines of `places`, each once; behind these how many of the `grades` there are, and how many entries `opened`.
pub(crate) fn notes_text(
    alloc: Global,
    places: &[PlacedFault],
    grades: &[Grade],
    opened: Opened<'_>,
) -> Lines
    ensures { IfOk result (λ notes. HasNotes (map placed_in places.now) notes.items) }
{
    let mut notes = places_lines(alloc, places)?;
    let counts = counts_lines(alloc, grades, opened)?;
    notes.extend_from_slice(counts.as_slice())?;
    Ok(notes)
}

/// The lines of counts: of the `grades`, and of the entries that `opened`.
fn counts_lines(alloc: Global, grades: &[Grade], opened: Opened<'_>) -> Lines {
    let mut lines = counts_line(alloc, grades)?;
    let openings = openings_line(alloc, opened)?;
    lines.extend_from_slice(openings.as_slice())?;
    Ok(lines)
}

/// The line with the number of these `grades`, kind by kind; none without any.
fn counts_line(alloc: Global, grades: &[Grade]) -> Lines {
    let mut line = Vec::new(alloc);
    if grades.is_empty() {
        return Ok(line);
    }
    line.extend_from_slice(b"grades:")?;
    let mut mark = "";
    for grade in GRADES {
        let count = count_of(grades, grade);
        if 0 < count {
            let words = counted(alloc, mark, grade, count)?;
            line.extend_from_slice(words.as_bytes())?;
            mark = ",";
        }
    }
    line.push(b'\n')?;
    Ok(line)
}

/// How many of the `grades` are `wanted`.
fn count_of(grades: &[Grade], wanted: Grade) -> usize {
    let mut count = 0_usize;
    for grade in grades {
        if *grade == wanted {
            count = count.saturating_add(1);
        }
    }
    count
}

/// The words that there are so many of `grade`, behind a `mark`.
fn counted(alloc: Global, mark: &str, grade: Grade, count: usize) -> Result<String, AllocError> {
    let name = grade.name();
    format!(in alloc; "{mark} {name} {count}")
}
