//! Writing the text of a certificate, line by line.

ghost use Rattle.std.specs.Prelude.{◌≡◌, ◌<◌, ◌≤◌, ◌+◌, ◌++◌, ◌∷◌, ℕ, List, [], length, IfErr, IfOk, OnOk};
ghost use Rattle.ti_caps.specs.Entry.{string_at};
ghost use Rattle.ti_cert.specs.{Basic.{IsBasic}, Known.{with_change}};
ghost use Rattle.ti_checker.specs.{Kept.{every}, Limit.{AddsLine, IsFullText, most}};
ghost use Rattle.ti_checker.specs.First as told;
ghost use Rattle.ti_checker.specs.No as spec;
ghost use Rattle.ti_checker.specs.{Switches.{IsSeen, IsSeenToo}, Taught.{IsTaught}};
ghost use Rattle.ti_lines.specs.{Heads.{acsc_text, end_text, size_text}, RowLines.{line_text}};
ghost use Rattle.ti_lines.specs.Texts.{acsc_lines, ended};
ghost use Rattle.ti_rows.specs.{Lists.{Follows, IsFirst, IsInRange}, Names.{order, capabilities}};
ghost use Rattle.ti_conforms.specs.{Conforms.{IsFit}, Charsets.{joined, reach_of}, Table.{settles}};
ghost use Rattle.ti_conforms.specs.Entries as entries;
ghost use Rattle.vt_effects.specs.Effect.{unchanged};
ghost use Rattle.vt_term.specs.Text.{Splits};

use crate::causes::{Cause, No};
use crate::judgements::Judge;
use crate::switches::Seen;
use std::alloc::{AllocError, Global};
use ti_caps::Entry;
use ti_conforms::{acsc, checked_string};
use ti_forms::{push_row_line, standard_text};
use ti_lines::push_hex;
use ti_rows::{CAPABILITIES, Looks, NO_LOOKS, Row};
use vt_effects::Effect;
use vt_term::Size;

/// A certificate's text so far, and the memory in which its lines are made.
#[derive(Drop)]
struct Draft {
    text: Vec<u8>,
    /// Judges the rows.
    judge: Judge,
    /// The words of the current row's effect.
    words: Vec<u8>,
    /// The changes of the charsets by the strings of the lines so far.
    seen: Seen,
}

/// The most bytes that a certificate may have before its last line.
const MOST: usize = 67_108_860;

/// Room for the certificate of a common screen, so that it isn't copied as it grows.
const ROOM: usize = 163_840;

/// Adds to `text` the first line, which has the size.
fn push_size(alloc: Global, size: Size, text: &mut Vec<u8>) -> Result<(), AllocError>
    ensures { OnOk result (text.new.items ≡ text.old.items ++ (size_text size.rows size.cols ++ 10 ∷ [])) }
{
    let rows = size.rows;
    let cols = size.cols;
    let first = format!(in alloc; "ticert 2 {rows} {cols}\n")?;
    text.extend_from_slice(first.as_bytes())
}

/// Adds to `text` the line of the alternate characters `pairs`.
fn push_pairs(pairs: &[u8], text: &mut Vec<u8>) -> Result<(), AllocError>
    ensures { OnOk result (text.new.items ≡ text.old.items ++ (acsc_text pairs.now ++ 10 ∷ [])) }
{
    text.extend_from_slice(b"acsc ")?;
    push_hex(pairs, text)?;
    text.push(b'\n')?;
    Ok(())
}

/// Adds to `text` the lines that come before those about capabilities.
fn push_head(alloc: Global, entry: &Entry, size: Size, text: &mut Vec<u8>) -> Result<(), AllocError>
    ensures { OnOk result (text.new.items ≡ text.old.items
        ++ ended (size_text size.rows size.cols ∷ acsc_lines (string_at entry.now entries.acsc))) }
{
    push_size(alloc, size, text)?;
    match entry.get_string(acsc()) {
        Some(pairs) => push_pairs(pairs, text),
        None => Ok(()),
    }
}

impl Draft {
    /// A draft with the lines that come before those about capabilities.
    fn new(alloc: Global, entry: &Entry, size: Size) -> Result<Draft, AllocError>
        ensures drafted { IfOk result (λ draft. told.IsDrafted entry.now size.rows size.cols (λ row. order row < 0)
            draft.text.items) }
        ensures seen { IfOk result (λ draft. IsSeen entry.now size.rows size.cols every draft.seen.reach
            draft.seen.changes.items 0 0) }
    {
        // only this call's contract says that the entry's strings fit
        let _ = entry.names();
        let mut text = Vec::with_capacity(alloc, ROOM)?;
        push_head(alloc, entry, size, &mut text)?;
        let seen = Seen::new(alloc);
        Ok(Draft {
            text,
            judge: Judge::new(alloc)?,
            words: Vec::new(alloc),
            seen,
        })
    }

    /// Adds the changes of the charsets by the bytes of `row`, the row judged last, whose effect is `effect`.
    fn learn(&mut self, row: Row, effect: &Effect) -> Result<(), Cause>
        ensures text { self.new.text.items ≡ self.old.text.items }
        ensures bytes { self.new.judge.bytes.items ≡ self.old.judge.bytes.items }
        ensures reach { OnOk result ((tokens : List (List ℕ)) → Splits self.old.judge.bytes.items tokens []
            → self.new.seen.reach ≡ joined self.old.seen.reach (reach_of tokens)) }
        ensures changes { OnOk result (self.new.seen.changes.items
            ≡ with_change (settles row) self.old.seen.changes.items effect.now.charset) }
        ensures fault { IfErr result (spec.IsNotWhole self.old.judge.bytes.items) }
    {
        self.judge.add_marks(row, &mut self.seen.reach)?;
        match self.seen.add_change(row, effect.charset) {
            Ok(()) => Ok(()),
            Err(_) => Err(Cause::NoMemory),
        }
    }

    /// Adds the line of `row`, the row judged last, whose effect is `effect`.
    fn push_line(&mut self, row: Row, effect: &Effect) -> Result<(), AllocError>
        ensures text { OnOk result (self.new.text.items ≡ self.old.text.items
            ++ (line_text (record { row = row; bytes = self.old.judge.bytes.items; effect = effect.now }) ++ 10 ∷ [])) }
        ensures seen { self.new.seen ≡ self.old.seen }
    {
        push_row_line(
            row,
            self.judge.bytes(),
            effect,
            &mut self.words,
            &mut self.text,
        )?;
        self.text.push(b'\n')?;
        Ok(())
    }

    /// Adds `line`, the text of the line of `row`, whose string is the standard's: it changes no character set.
    fn push_text(&mut self, row: Row, line: &[u8]) -> Result<(), AllocError>
        ensures text { OnOk result (self.new.text.items ≡ self.old.text.items ++ (line.now ++ 10 ∷ [])) }
        ensures reach { self.new.seen.reach ≡ self.old.seen.reach }
        ensures changes { OnOk result (self.new.seen.changes.items
            ≡ with_change (settles row) self.old.seen.changes.items unchanged.charset) }
    {
        self.text.extend_from_slice(line)?;
        self.text.push(b'\n')?;
        self.seen.add_change(row, Effect::unchanged().charset)
    }

    /// Refuses a text that leaves no room for the last line.
    fn check_length(&self) -> Result<(), Cause>
        ensures short { OnOk result (length self.now.text.items ≤ most) }
        ensures long { IfErr result (λ cause. (cause ≡ Cause.TooLong) × (most < length self.now.text.items)) }
    {
        if self.text.len() <= MOST {
            Ok(())
        } else {
            Err(Cause::TooLong)
        }
    }
}

/// Judges `string` for `row`, and adds the row's line. `looks` must have the looks that the string's rows before this
/// one teach; those that this one shows are added.
fn push_row(
    alloc: Global,
    string: &[u8],
    row: Row,
    size: Size,
    draft: &mut Draft,
    looks: &mut Looks,
) -> Result<(), Cause>
    requires range { IsInRange size.rows size.cols row }
    requires taught { IsTaught size.rows size.cols string.now row looks.now }
    ensures right { OnOk result (told.SendsAsked size.rows size.cols string.now row) }
    ensures adds { OnOk result (AddsLine size.rows size.cols string.now row draft.old.text.items draft.new.text.items) }
    ensures seen { OnOk result (IsSeenToo string.now row draft.old.seen.reach draft.old.seen.changes.items
        draft.new.seen.reach draft.new.seen.changes.items) }
    ensures short { OnOk result (length draft.new.text.items ≤ most) }
    ensures refused { IfErr result (λ cause. spec.IsRowRefused size.rows size.cols string.now row draft.old.text.items
        cause) }
    ensures taught { OnOk result ((next : Row) → Follows size.rows size.cols row next
        → IsTaught size.rows size.cols string.now next looks.new) }
{
    // nothing of the standard's strings has to be run or judged
    if let Some(line) = standard_text(string, row) {
        return match draft.push_text(row, line.as_slice()) {
            Ok(()) => draft.check_length(),
            Err(_) => Err(Cause::NoMemory),
        };
    }
    let effect = draft.judge.judge_row(alloc, string, row, size, looks)?;
    draft.learn(row, &effect)?;
    match draft.push_line(row, &effect) {
        Ok(()) => draft.check_length(),
        Err(_) => Err(Cause::NoMemory),
    }
}

/// Adds the lines of the capability whose first row is `first`, if the entry has it and it is checked.
fn push_cap(
    alloc: Global,
    entry: &Entry,
    first: Row,
    size: Size,
    draft: &mut Draft,
) -> Result<(), No>
    requires first { IsFirst size.rows size.cols first }
    requires drafted { told.IsDrafted entry.now size.rows size.cols (λ row. order row < order first)
        draft.old.text.items }
    requires seen { IsSeen entry.now size.rows size.cols every draft.old.seen.reach draft.old.seen.changes.items
        (order first) 0 }
    ensures drafted { OnOk result (told.IsDrafted entry.now size.rows size.cols (λ row. order row < order first + 1)
        draft.new.text.items) }
    ensures seen { OnOk result (IsSeen entry.now size.rows size.cols every draft.new.seen.reach
        draft.new.seen.changes.items (order first + 1) 0) }
    ensures refused { IfErr result (spec.IsOfRow entry.now size.rows size.cols) }
{
    let Some(string) = checked_string(entry, first) else {
        return Ok(());
    };
    let mut looks = NO_LOOKS;
    let mut row = first;
    loop {
        match push_row(alloc, string, row, size, draft, &mut looks) {
            Ok(()) => (),
            Err(cause) => return Err(No::at(row, cause)),
        }
        match row.next(size) {
            Some(next) => row = next,
            None => return Ok(()),
        }
    }
}

/// Adds the lines of the capability at `place` in the order of names.
fn push_at(
    alloc: Global,
    entry: &Entry,
    place: usize,
    size: Size,
    draft: &mut Draft,
) -> Result<(), No>
    requires place { place < capabilities }
    requires drafted { told.IsDrafted entry.now size.rows size.cols (λ row. order row < place) draft.old.text.items }
    requires seen { IsSeen entry.now size.rows size.cols every draft.old.seen.reach draft.old.seen.changes.items
        place 0 }
    ensures drafted { OnOk result (told.IsDrafted entry.now size.rows size.cols (λ row. order row < place + 1)
        draft.new.text.items) }
    ensures seen { OnOk result (IsSeen entry.now size.rows size.cols every draft.new.seen.reach
        draft.new.seen.changes.items (place + 1) 0) }
    ensures refused { IfErr result (spec.IsOfRow entry.now size.rows size.cols) }
{
    match Row::first(place) {
        Some(first) => push_cap(alloc, entry, first, size, draft),
        None => Ok(()),
    }
}

/// Adds the lines of all checked capabilities of the entry.
fn push_caps(alloc: Global, entry: &Entry, size: Size, draft: &mut Draft) -> Result<(), No>
    requires drafted { told.IsDrafted entry.now size.rows size.cols (λ row. order row < 0) draft.old.text.items }
    requires seen { IsSeen entry.now size.rows size.cols every draft.old.seen.reach draft.old.seen.changes.items 0 0 }
    ensures drafted { OnOk result (told.IsDrafted entry.now size.rows size.cols (λ row. order row < capabilities)
        draft.new.text.items) }
    ensures seen { OnOk result (IsSeen entry.now size.rows size.cols every draft.new.seen.reach
        draft.new.seen.changes.items capabilities 0) }
    ensures refused { IfErr result (spec.IsOfRow entry.now size.rows size.cols) }
{
    for place in 0..CAPABILITIES {
        push_at(alloc, entry, place, size, draft)?;
    }
    Ok(())
}

/// The text of all lines of an entry, and the changes of the charsets by their strings.
#[derive(Drop)]
pub(crate) struct Written {
    pub text: Vec<u8>,
    pub seen: Seen,
}

/// The whole text of `draft`, with the last line added.
fn finished(draft: Draft) -> Result<Written, AllocError>
    ensures text { IfOk result (λ written. written.text.items ≡ draft.text.items ++ (end_text ++ 10 ∷ [])) }
    ensures seen { IfOk result (λ written. written.seen ≡ draft.seen) }
{
    let mut text = draft.text;
    text.extend_from_slice(b"end\n")?;
    text.shrink_to_fit();
    Ok(Written {
        text,
        seen: draft.seen,
    })
}

/// Judges each row of `entry`, which must be fit, and writes the text of all lines. The error is the first refusal
/// about a row, or out of memory.
#[tactic(auto, using(crate::proofs::Together::memory_of_part))]
pub(crate) fn draft_of(alloc: Global, entry: &Entry, size: Size) -> Result<Written, No>
    requires { IsFit entry.now }
    ensures written { IfOk result (λ _. told.EachWritten entry.now size.rows size.cols) }
    ensures text { IfOk result (λ written. IsFullText entry.now size.rows size.cols written.text.items) }
    ensures seen { IfOk result (λ written. IsSeen entry.now size.rows size.cols every written.seen.reach
        written.seen.changes.items capabilities 0) }
    ensures basic { IsBasic entry.now size.rows size.cols → IfErr result (λ refusal. refusal.cause ≡ Cause.NoMemory) }
    ensures refused { IfErr result (spec.IsOfPart entry.now size.rows size.cols) }
{
    let Ok(mut draft) = Draft::new(alloc, entry, size) else {
        return Err(no_memory());
    };
    push_caps(alloc, entry, size, &mut draft)?;
    match finished(draft) {
        Ok(written) => Ok(written),
        Err(_) => Err(no_memory()),
    }
}

fn no_memory() -> No
    ensures { result.cause ≡ Cause.NoMemory }
{
    No::of(Row::Clear.cap(), Cause::NoMemory)
}
