//! The lines about what is still wrong with entries of the new texts.

ghost use Rattle.std.specs.Prelude.{◌≡◌, ◌<◌, ◌≤◌, ◌++◌, IfOk, OnOk, codes, length, true};
ghost use Rattle.std.specs.List.{AllByRecursion, flat_map};
ghost use Rattle.ti_commands.specs.Findings.{ResolvesAt};
ghost use Rattle.ti_files.specs.Refusals.{refusal_text_of};
ghost use Rattle.ti_repairs.specs.Notes as spec;
ghost use Rattle.ti_source.specs.Raw.{IsRaw};
ghost use Rattle.ti_verdicts.specs.Refusals.{no_text};

use crate::notes::own_name;
use std::alloc::{AllocError, Global};
use ti_caps::Entry;
use ti_checker::No;
use ti_faults::faults;
use ti_files::{CommandRefusal, push_shown, refusal_words};
use ti_resolve::{Index, ResolveFault, resolve_from};
use ti_source::RawEntry;
use ti_verdicts::{Added, Lines, no_words};
use vt_term::Size;

/// An entry's faults, or why it can't be resolved.
pub type StillWrong = Result<Vec<No>, CommandRefusal>;

/// Appends the line with the words after the `label`.
fn push_line(alloc: Global, lines: &mut Vec<u8>, label: &[u8], words: &[u8]) -> Added
    ensures { OnOk result (lines.new.items ≡ lines.old.items ++ spec.wrong_line label.now words.now) }
{
    let mut line = Vec::from_slice(alloc, label)?;
    line.extend_from_slice(words)?;
    lines.extend_from_slice(b"left: ")?;
    push_shown(lines, line.as_slice())?;
    lines.push(b'\n')?;
    Ok(())
}

/// A line for each of the faults.
fn fault_lines(alloc: Global, label: &[u8], nos: &[No]) -> Lines
    ensures { IfOk result (λ lines. lines.items ≡ flat_map (λ no. spec.wrong_line label.now (no_text no)) nos.now) }
{
    let mut lines = Vec::new(alloc);
    for no in nos {
        let words = no_words(alloc, no)?;
        push_line(alloc, &mut lines, label, words.as_slice())?;
    }
    Ok(lines)
}

/// The line of an entry that can't be resolved.
fn refused_line(alloc: Global, label: &[u8], refusal: &CommandRefusal) -> Lines
    ensures { IfOk result
        (λ lines. lines.items ≡ spec.wrong_line label.now (codes "refused: " ++ refusal_text_of refusal.now)) }
{
    let mut words = Vec::from_slice(alloc, b"refused: ")?;
    let kind = refusal_words(alloc, refusal)?;
    words.extend_from_slice(kind.as_slice())?;
    let mut lines = Vec::new(alloc);
    push_line(alloc, &mut lines, label, words.as_slice())?;
    Ok(lines)
}

/// The lines about what is `wrong` with an entry, each with the `label` before its words.
pub fn wrong_lines(alloc: Global, label: &[u8], wrong: &StillWrong) -> Lines
    ensures { IfOk result (λ text. text.items ≡ spec.wrong_lines label.now wrong.now) }
{
    match wrong {
        Ok(nos) => fault_lines(alloc, label, nos.as_slice()),
        Err(refusal) => refused_line(alloc, label, refusal),
    }
}

/// The entry at `place`, or the reason why it can't be resolved.
#[tactic(auto, using(ti_resolve::proofs::Taken::raws_fields, ti_resolve::proofs::Taken::names_fit_at))]
fn entry_at(
    alloc: Global,
    index: &Index<'_>,
    place: usize,
) -> Result<Result<Entry, CommandRefusal>, AllocError>
    requires fit { AllByRecursion IsRaw index.now.raws.now }
    requires there { place < length index.now.raws.now }
    ensures { IfOk result (λ entry. ResolvesAt index.now.raws.now place entry) }
{
    match resolve_from(alloc, index, place) {
        Ok(entry) => Ok(Ok(entry)),
        Err(ResolveFault::NoMemory) => Err(AllocError),
        Err(fault) => Ok(Err(CommandRefusal::Resolve(fault))),
    }
}

/// The faults of an entry that was found, or why one can't be resolved.
fn wrong_of(
    alloc: Global,
    size: Size,
    found: Result<Entry, CommandRefusal>,
) -> Result<StillWrong, AllocError>
    ensures { IfOk result (spec.IsWrongOf size.rows size.cols found) }
{
    match found {
        Ok(entry) => Ok(Ok(faults(alloc, &entry, size)?)),
        Err(refusal) => Ok(Err(refusal)),
    }
}

/// The faults of the entry at `place`, or why it can't be resolved.
fn wrong_at(
    alloc: Global,
    index: &Index<'_>,
    size: Size,
    place: usize,
) -> Result<StillWrong, AllocError>
    requires fit { AllByRecursion IsRaw index.now.raws.now }
    requires there { place < length index.now.raws.now }
    ensures { IfOk result (spec.IsStillWrong index.now.raws.now size.rows size.cols place) }
{
    let found = entry_at(alloc, index, place)?;
    wrong_of(alloc, size, found)
}

/// The faults of the entry at `place` among the `raws`, or why it can't be resolved.
pub fn still_wrong(
    alloc: Global,
    raws: &[RawEntry],
    size: Size,
    place: usize,
) -> Result<StillWrong, AllocError>
    requires fit { AllByRecursion IsRaw raws.now }
    requires there { place < length raws.now }
    ensures { IfOk result (spec.IsStillWrong raws.now size.rows size.cols place) }
{
    let index = Index::new(alloc, raws)?;
    wrong_at(alloc, &index, size, place)
}

/// The name of an entry, and a space.
fn label_of(alloc: Global, name: &[u8]) -> Result<Vec<u8>, AllocError>
    ensures { IfOk result (λ label. label.items ≡ spec.label_of true name.now) }
{
    let mut label = Vec::from_slice(alloc, name)?;
    label.push(b' ')?;
    Ok(label)
}

/// The lines about what is wrong with the entry at `place`, with its name.
fn lines_at(alloc: Global, index: &Index<'_>, size: Size, place: usize) -> Lines
    requires fit { AllByRecursion IsRaw index.now.raws.now }
    requires there { place < length index.now.raws.now }
    ensures { IfOk result (λ text. spec.AreWrongLines index.now.raws.now size.rows size.cols place text.items) }
{
    let label = label_of(alloc, own_name(index.raws, place))?;
    let wrong = wrong_at(alloc, index, size, place)?;
    wrong_lines(alloc, label.as_slice(), &wrong)
}

/// The lines about what is wrong with the first `count` entries of the index.
fn all_lines(alloc: Global, index: &Index<'_>, size: Size, count: usize) -> Lines
    requires fit { AllByRecursion IsRaw index.now.raws.now }
    requires there { count ≤ length index.now.raws.now }
    ensures { IfOk result (λ text. spec.AreStillWrong index.now.raws.now size.rows size.cols count text.items) }
{
    let mut lines = Vec::new(alloc);
    for place in 0..count {
        let own = lines_at(alloc, index, size, place)?;
        lines.extend_from_slice(own.as_slice())?;
    }
    Ok(lines)
}

/// The lines about what is wrong with the first `count` of the `raws`.
pub fn all_still_wrong(alloc: Global, raws: &[RawEntry], size: Size, count: usize) -> Lines
    requires fit { AllByRecursion IsRaw raws.now }
    requires there { count ≤ length raws.now }
    ensures { IfOk result (λ text. spec.AreStillWrong raws.now size.rows size.cols count text.items) }
{
    let index = Index::new(alloc, raws)?;
    all_lines(alloc, &index, size, count)
}
