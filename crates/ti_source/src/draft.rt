//! An entry while it is read.

ghost use Rattle.std.specs.{Prelude.{◌≡◌, ◌<◌, ◌∷◌, [], replicate, OnOk, IfOk, nat_lt}, List.{list_any}};
ghost use Rattle.ti_source.specs.declared.types.NoteKind.TheVariants.{OddEscape};
ghost use Rattle.ti_source.specs.Fields.{cap_of, is_told, repeats, note, with_notes, with_field, with_said};
ghost use Rattle.ti_source.specs.Fields.{with_reading, add_field, add_last, add_cut, is_no_name, begins_unnamed};
ghost use Rattle.ti_source.specs.{Fields.{new_entry, named_entry, open_names, entry_on}, Layout.{cut_of}};
ghost use Rattle.ti_source.specs.Source.{Gives};

use crate::layout::{cut_field, is_blank};
use crate::parts::{Reading, ended_reading, reading_of};
use crate::types::{FaultKind, Field, Fields, Note, NoteKind, Notes, RawEntry};
use std::alloc::{AllocError, Global};
use std::marker::Model;
use ti_caps::{Bytes, CAPABILITIES, Cap, LONGEST};

/// An entry as far as it has been read, and the capabilities that its fields are about.
#[derive(Drop)]
pub(crate) struct Draft {
    entry: RawEntry,
    seen: [bool; CAPABILITIES],
}

impl Model for Draft {
    ghost use Rattle.ti_source.specs.declared.types.RawEntry.{RawEntry};

    ghost Value = { RawEntry };

    ghost use Rattle.ti_source.specs.Drafts.{IsSeen};

    ghost view = { λ d. d.entry };

    ghost invariant = { λ d. IsSeen d.entry.fields d.seen };
}

/// The capability that a field is about.
fn cap_of(field: &Field) -> Option<Cap>
    ensures { result ≡ cap_of field.now }
{
    match field {
        Field::Set(cap, _) => Some(*cap),
        Field::Cancel(cap) => Some(*cap),
        Field::Include(_) => None,
    }
}

impl Draft {
    /// An entry without fields.
    pub(crate) fn new(alloc: Global, line: u32, names: &[u8]) -> Result<Draft, AllocError>
        ensures { IfOk result (λ draft. draft ≡ new_entry line names.now) }
    {
        let entry = RawEntry {
            line,
            names: Bytes::from_slice(alloc, names)?,
            fields: Fields::new(alloc),
            notes: Notes::new(alloc),
        };
        Ok(Draft {
            entry,
            seen: [false; CAPABILITIES],
        })
    }

    pub(crate) fn into_entry(self) -> RawEntry
        ensures { result ≡ self }
    {
        self.entry
    }

    /// Whether a field is about the capability `cap`.
    fn is_told(&self, cap: Cap) -> bool
        ensures { result ≡ is_told self.now.fields cap }
    {
        self.seen[cap.place()]
    }

    fn repeats(&self, field: &Field) -> bool
        ensures { result ≡ repeats self.now.fields (cap_of field.now) }
    {
        match cap_of(field) {
            None => false,
            Some(cap) => self.is_told(cap),
        }
    }

    fn add_note(&mut self, line: u32, kind: NoteKind) -> Result<(), AllocError>
        ensures { OnOk result (self.new ≡ with_notes self.old (note line kind ∷ [])) }
    {
        self.entry.notes.push(Note { line, kind })
    }

    fn add_odd(&mut self, line: u32, odd: usize) -> Result<(), AllocError>
        ensures { OnOk result (self.new ≡ with_notes self.old (replicate odd (note line OddEscape))) }
    {
        for _ in 0..odd {
            self.add_note(line, NoteKind::OddEscape)?;
        }
        Ok(())
    }

    fn add_field(&mut self, field: Field) -> Result<(), AllocError>
        ensures { OnOk result (self.new ≡ with_field self.old field) }
    {
        let cap = cap_of(&field);
        self.entry.fields.push(field)?;
        if let Some(cap) = cap {
            self.seen[cap.place()] = true;
        }
        Ok(())
    }

    fn add_said(&mut self, line: u32, field: Field) -> Result<(), AllocError>
        ensures { OnOk result (self.new ≡ with_said (repeats self.old.fields (cap_of field)) line self.old field) }
    {
        if self.repeats(&field) {
            self.add_note(line, NoteKind::Duplicate)
        } else {
            self.add_field(field)
        }
    }

    #[tactic(auto, unfolding(crate::specs::Fields::with_reading))]
    fn add_reading(&mut self, line: u32, reading: Reading) -> Result<(), AllocError>
        ensures { OnOk result (self.new ≡ with_reading line self.old reading) }
    {
        match reading {
            Reading::Skipped => Ok(()),
            Reading::Unknown => self.add_note(line, NoteKind::UnknownName),
            Reading::Says(field, odd) => {
                self.add_said(line, field)?;
                self.add_odd(line, odd)
            }
        }
    }

    /// Adds a field that has a comma after it.
    #[tactic(auto, unfolding(crate::specs::Fields::add_field))]
    fn add_part(&mut self, alloc: Global, line: u32, part: &[u8]) -> Result<(), FaultKind>
        ensures { Gives (λ _. self.new) result (add_field line self.old part.now) }
    {
        let reading = ended_reading(alloc, part)?;
        self.add_reading(line, reading)
            .map_err(|_| FaultKind::NoMemory)
    }

    /// Checks the text after the last comma.
    #[tactic(auto, unfolding(crate::specs::Fields::add_last))]
    fn add_last(&self, alloc: Global, part: &[u8]) -> Result<(), FaultKind>
        ensures { Gives (λ _. self.now) result (add_last self.now part.now) }
    {
        if is_blank(part) {
            return Ok(());
        }
        let _ = reading_of(alloc, part)?;
        Err(FaultKind::OpenField)
    }

    /// Adds the fields of a further line, or those after the names.
    pub(crate) fn add_parts(
        &mut self,
        alloc: Global,
        line: u32,
        text: &[u8],
    ) -> Result<(), FaultKind>
        ensures { Gives (λ _. self.new) result (add_cut line self.old (cut_of text.now)) }
    {
        let mut rest = text;
        while let Some((part, behind)) = cut_field(rest) {
            self.add_part(alloc, line, part)?;
            rest = behind;
        }
        self.add_last(alloc, rest)
    }
}

fn begins_unnamed(names: &[u8]) -> bool
    ensures { result ≡ begins_unnamed names.now }
{
    match names {
        [] => true,
        [first, ..] => *first == b'|',
    }
}

/// Whether a control character is among the names.
fn has_control(names: &[u8]) -> bool
    ensures { result ≡ list_any (λ b. nat_lt b 32) names.now }
{
    names.iter().any(|byte| *byte < 32)
}

#[tactic(auto, unfolding(crate::specs::Fields::is_no_name))]
fn is_no_name(names: &[u8]) -> bool
    ensures { result ≡ is_no_name names.now }
{
    begins_unnamed(names) || has_control(names)
}

/// The entry with `names`, which a comma ends.
#[tactic(auto, unfolding(crate::specs::Fields::named_entry))]
fn named_entry(alloc: Global, line: u32, names: &[u8]) -> Result<Draft, FaultKind>
    ensures { Gives (λ draft. draft) result (named_entry line names.now) }
{
    if is_no_name(names) {
        return Err(FaultKind::NoName);
    }
    if names.len() > LONGEST {
        return Err(FaultKind::TooLong);
    }
    Draft::new(alloc, line, names).map_err(|_| FaultKind::NoMemory)
}

/// The fault of names without a comma after them.
fn open_names(names: &[u8]) -> Result<Draft, FaultKind>
    ensures { Gives (λ draft. draft) result (open_names names.now) }
{
    if is_no_name(names) {
        return Err(FaultKind::NoName);
    }
    Err(FaultKind::OpenField)
}

/// The entry that begins on the line `text`, with the fields on it.
#[tactic(auto, unfolding(crate::specs::Fields::entry_on))]
pub(crate) fn entry_on(alloc: Global, line: u32, text: &[u8]) -> Result<Draft, FaultKind>
    ensures { Gives (λ draft. draft) result (entry_on line text.now) }
{
    match cut_field(text) {
        None => open_names(text),
        Some((names, behind)) => {
            let mut draft = named_entry(alloc, line, names)?;
            draft.add_parts(alloc, line, behind)?;
            Ok(draft)
        }
    }
}
