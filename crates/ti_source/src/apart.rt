//! Reading the entries of a source text one by one.

ghost use Rattle.std.specs.Prelude.{◌≡◌, ◌≢◌, ◌≤◌, ◌+◌, ◌++◌, ◌∷◌, [], None, Ok, IfOk, IfErr, OnOk, length, map};
ghost use Rattle.std.specs.List.{AllByRecursion};
ghost use Rattle.ti_source.specs.Apart.{FaultlessIsApart, IsApart, WholeIsTogether, add_line, alone, apart_of};
ghost use Rattle.ti_source.specs.Apart.{entry_alone, front_fault, further_of, names_on, stretch_at, stretches_from};
ghost use Rattle.ti_source.specs.{Fitting.{FieldsFit, NamesFit}, Fields.{new_entry}, Layout.{lines_of}};
ghost use Rattle.ti_source.specs.Source.{FailsBy};

use crate::draft::{Draft, entry_on};
use crate::layout::{cut_field, cut_line};
use crate::lines::begins_entry;
use crate::source::{MAX_SOURCE, is_passed};
use crate::types::{FaultKind, RawEntry, SourceFault};
use std::alloc::{AllocError, Global};

/// The entries of a source text, each read by itself.
#[derive(Debug, Drop)]
pub struct Apart {
    /// The entries, in the order of the text. An entry that can't be read has only its names.
    pub raws: Vec<RawEntry>,
    /// The fault of each entry; `None` if it can be read.
    pub faults: Vec<Option<SourceFault>>,
}

/// The fault of the first line that would continue an entry before there is one.
fn front_fault(text: &[u8]) -> Option<SourceFault>
    requires { length text.now ≤ 16777216 }
    ensures { result ≡ front_fault 1 (stretches_from 1 (lines_of text.now)).ahead }
{
    let mut rest = text;
    let mut number = 1;
    while let Some((line, behind)) = cut_line(rest) {
        if begins_entry(line) {
            return None;
        }
        if !is_passed(line) {
            return Some(SourceFault {
                line: number,
                kind: FaultKind::NoName,
            });
        }
        rest = behind;
        number += 1;
    }
    None
}

/// Adds a line that doesn't begin an entry to `draft`.
#[tactic(auto, unfolding(crate::specs::Apart::add_line))]
fn add_line(draft: &mut Draft, alloc: Global, number: u32, line: &[u8]) -> Result<(), SourceFault>
    ensures ok { OnOk result (add_line number line.now draft.old ≡ Ok draft.new) }
    ensures line { IfErr result (λ e. e.line ≡ number) }
    ensures kind { IfErr result (λ e. FailsBy e.kind e.kind (add_line number line.now draft.old)) }
{
    if is_passed(line) {
        return Ok(());
    }
    match draft.add_parts(alloc, number, line) {
        Ok(()) => Ok(()),
        Err(kind) => Err(SourceFault { line: number, kind }),
    }
}

/// The entry of `draft` with the lines of `text`, the first of which has the number `first`, up to the one that
/// begins another entry.
fn further_of(alloc: Global, first: u32, text: &[u8], draft: Draft) -> Result<RawEntry, SourceFault>
    requires { first + length text.now ≤ 4294967295 }
    ensures ok { IfOk result (λ raw. further_of first (stretches_from first (lines_of text.now)).ahead draft ≡ Ok raw) }
    ensures fault { IfErr result (λ e. FailsBy e.kind e
        (further_of first (stretches_from first (lines_of text.now)).ahead draft)) }
{
    let mut draft = draft;
    let mut rest = text;
    let mut number = first;
    while let Some((line, behind)) = cut_line(rest) {
        if begins_entry(line) {
            return Ok(draft.into_entry());
        }
        if let Err(fault) = add_line(&mut draft, alloc, number, line) {
            return Err(fault);
        }
        rest = behind;
        number += 1;
    }
    Ok(draft.into_entry())
}

/// The entry that begins on `line`, or the first fault in its lines.
fn entry_alone(
    alloc: Global,
    number: u32,
    line: &[u8],
    behind: &[u8],
) -> Result<RawEntry, SourceFault>
    requires { number + 1 + length behind.now ≤ 4294967295 }
    ensures ok { IfOk result (λ raw. entry_alone
        (stretch_at number line.now (stretches_from (number + 1) (lines_of behind.now)).ahead) ≡ Ok raw) }
    ensures fault { IfErr result (λ e. FailsBy e.kind e (entry_alone
        (stretch_at number line.now (stretches_from (number + 1) (lines_of behind.now)).ahead))) }
{
    match entry_on(alloc, number, line) {
        Ok(draft) => further_of(alloc, number + 1, behind, draft),
        Err(kind) => Err(SourceFault { line: number, kind }),
    }
}

/// The names on the first line of an entry that can't be read.
#[tactic(auto, unfolding(crate::specs::Apart::names_on))]
fn names_on(line: &[u8]) -> &[u8]
    ensures { result.now ≡ names_on line.now }
{
    match cut_field(line) {
        None => line,
        Some((names, _behind)) => names,
    }
}

/// An entry with only the names on `line`.
fn unread(alloc: Global, number: u32, line: &[u8]) -> Result<RawEntry, AllocError>
    ensures { IfOk result (λ raw. raw ≡ new_entry number (names_on line.now)) }
{
    let draft = Draft::new(alloc, number, names_on(line))?;
    Ok(draft.into_entry())
}

impl Apart {
    fn push(&mut self, raw: RawEntry, fault: Option<SourceFault>) -> Result<(), AllocError>
        ensures raws { OnOk result (self.new.raws.items ≡ self.old.raws.items ++ raw ∷ []) }
        ensures faults { OnOk result (self.new.faults.items ≡ self.old.faults.items ++ fault ∷ []) }
    {
        self.raws.push(raw)?;
        self.faults.push(fault)?;
        Ok(())
    }

    /// Adds the entry that begins on `line`.
    fn add(
        &mut self,
        alloc: Global,
        number: u32,
        line: &[u8],
        behind: &[u8],
    ) -> Result<(), AllocError>
        requires { number + 1 + length behind.now ≤ 4294967295 }
        ensures raws { OnOk result (self.new.raws.items ≡ self.old.raws.items ++ (alone
            (stretch_at number line.now (stretches_from (number + 1) (lines_of behind.now)).ahead)).raw ∷ []) }
        ensures faults { OnOk result (self.new.faults.items ≡ self.old.faults.items ++ (alone
            (stretch_at number line.now (stretches_from (number + 1) (lines_of behind.now)).ahead)).fault ∷ []) }
    {
        match entry_alone(alloc, number, line, behind) {
            Ok(raw) => self.push(raw, None),
            Err(fault) => {
                fault.kind.must_claim()?;
                let raw = unread(alloc, number, line)?;
                self.push(raw, Some(fault))
            }
        }
    }
}

/// The entries of `text`, which must not be too long or have a fault before the first of them.
fn entries_of(alloc: Global, text: &[u8]) -> Result<Apart, AllocError>
    requires { length text.now ≤ 16777216 }
    ensures raws { IfOk result (λ apart. apart.raws.items
        ≡ map (λ s. (alone s).raw) (stretches_from 1 (lines_of text.now)).entries) }
    ensures faults { IfOk result (λ apart. apart.faults.items
        ≡ map (λ s. (alone s).fault) (stretches_from 1 (lines_of text.now)).entries) }
{
    let mut apart = Apart {
        raws: Vec::new(alloc),
        faults: Vec::new(alloc),
    };
    let mut rest = text;
    let mut number = 1;
    while let Some((line, behind)) = cut_line(rest) {
        if begins_entry(line) {
            apart.add(alloc, number, line, behind)?;
        }
        rest = behind;
        number += 1;
    }
    Ok(apart)
}

/// The entries of the source text `text` of terminfo(5), each read by itself: from a line that begins in column one
/// up to the next. An entry that can't be read hides no other; it has only its names, and its first fault in `faults`.
///
/// Goes over the text at most three times, and takes as much memory as `read`.
///
/// # Errors
/// `TooLong` for line 0 if the text has more than 16777216 bytes; `NoName` for a line that would continue
/// an entry before the first one; out of memory, for any line.
#[tactic(auto, unfolding(crate::specs::Apart::apart_of))]
pub fn read_apart(alloc: Global, text: &[u8]) -> Result<Apart, SourceFault>
    ensures entries { IfOk result (λ apart. IsApart text.now apart.raws.items apart.faults.items) }
    ensures fault { IfErr result (λ e. FailsBy e.kind e (apart_of text.now)) }
    ensures fields { IfOk result (λ apart. AllByRecursion FieldsFit apart.raws.items) }
    ensures names { IfOk result (λ apart. NamesFit apart.raws.items apart.faults.items) }
{
    if text.len() > MAX_SOURCE {
        return Err(SourceFault {
            line: 0,
            kind: FaultKind::TooLong,
        });
    }
    if let Some(fault) = front_fault(text) {
        return Err(fault);
    }
    match entries_of(alloc, text) {
        Ok(apart) => Ok(apart),
        Err(AllocError) => Err(SourceFault {
            line: 0,
            kind: FaultKind::NoMemory,
        }),
    }
}

/// Law: reading a whole text is reading its entries one by one, up to the first fault; so a text without a fault
/// gives the same entries either way.
pub fn whole_is_together()
    ensures whole { WholeIsTogether }
    ensures faultless { FaultlessIsApart }
{}
