//! The lines of the fields of an entry.

ghost use Rattle.std.specs.Prelude.{◌≡◌, ◌≤◌, ◌+◌, ◌++◌, ◌∷◌, [], Some, None, IfOk, IfSome, IfNone, OnOk, length};
ghost use Rattle.ti_source.specs.Blocks.{AreFlags, entry_block, fields_from, further_lines, is_held, with_line};
ghost use Rattle.ti_source.specs.{Blocks.{with_lines, with_part}, Layout.{cut_of, lines_of}};
ghost use Rattle.ti_source.specs.Lines.{LinesAreOfFields, after_names, begins_entry, blocks_from, field_lines_of};
ghost use Rattle.ti_source.specs.Lines.{firsts, is_further, marked_line, named_line, part_line, part_lines};

use crate::layout::{Mark, cut_field, cut_line, marked, skip_white, trim_end};
use crate::parts::{is_skipped, is_use};
use crate::source::{begins_white, is_passed};
use std::alloc::{AllocError, Global};
use std::marker::Model;
use ti_caps::{CAPABILITIES, Cap, by_name};

/// The line of a field of an entry.
#[derive(Clone, Copy, Debug, PartialEq, Eq)]
pub struct FieldLine {
    /// The line of the text, from 1.
    pub line: usize,
    /// The capability that the field sets or cancels; `None` if it includes an entry.
    pub cap: Option<Cap>,
}

fn named_line(line: usize, found: Option<Cap>) -> Option<FieldLine>
    ensures { result ≡ named_line line found }
{
    match found {
        None => None,
        Some(cap) => Some(FieldLine {
            line,
            cap: Some(cap),
        }),
    }
}

/// A field with a mark after its name; `None` if the name is unknown.
fn marked_line(line: usize, mark: Mark, name: &[u8]) -> Option<FieldLine>
    ensures { result ≡ marked_line line mark name.now }
{
    if mark == Mark::Equals && is_use(name) {
        return Some(FieldLine { line, cap: None });
    }
    named_line(line, by_name(name))
}

/// The field before a comma; `None` if there is none whose name is known.
#[tactic(auto, unfolding(crate::specs::Lines::part_line))]
fn part_line(line: usize, part: &[u8]) -> Option<FieldLine>
    ensures { result ≡ part_line line part.now }
{
    let field = skip_white(part);
    if is_skipped(field) {
        return None;
    }
    match marked(field) {
        None => named_line(line, by_name(trim_end(field))),
        Some((name, mark, _)) => marked_line(line, mark, name),
    }
}

/// Whether `line` begins an entry: it is neither blank nor a comment, and has no white space in its first column,
/// terminfo(5).
pub fn begins_entry(line: &[u8]) -> bool
    ensures { result ≡ begins_entry line.now }
{
    !is_passed(line) && !begins_white(line)
}

/// Whether `line` continues an entry: it is neither blank nor a comment, and begins with white space, terminfo(5).
pub fn is_further(line: &[u8]) -> bool
    ensures { result ≡ is_further line.now }
{
    !is_passed(line) && begins_white(line)
}

/// The fields of an entry that count so far, and the capabilities that they are about.
#[derive(Drop)]
struct Block {
    fields: Vec<FieldLine>,
    seen: [bool; CAPABILITIES],
}

impl Model for Block {
    ghost use Rattle.std.specs.Prelude.{List};
    ghost use Rattle.ti_source.specs.declared.lines.FieldLine.{FieldLine};

    ghost Value = { List FieldLine };

    ghost use Rattle.ti_source.specs.Blocks.{AreFlags};

    ghost view = { λ b. b.fields.items };

    ghost invariant = { λ b. AreFlags b.fields.items b.seen };
}

impl Block {
    fn new(alloc: Global) -> Block
        ensures { result ≡ [] }
    {
        Block {
            fields: Vec::new(alloc),
            seen: [false; CAPABILITIES],
        }
    }

    fn into_fields(self) -> Vec<FieldLine>
        ensures { result.items ≡ self }
    {
        self.fields
    }

    /// Whether a field is about the capability `cap`.
    fn is_held(&self, cap: Option<Cap>) -> bool
        ensures { result ≡ is_held self.now cap }
    {
        match cap {
            None => false,
            Some(cap) => self.seen[cap.place()],
        }
    }

    fn push(&mut self, field: FieldLine) -> Result<(), AllocError>
        ensures { OnOk result (self.new ≡ self.old ++ field ∷ []) }
    {
        let cap = field.cap;
        self.fields.push(field)?;
        if let Some(cap) = cap {
            self.seen[cap.place()] = true;
        }
        Ok(())
    }

    /// Adds a field, if it counts.
    fn add(&mut self, field: FieldLine) -> Result<(), AllocError>
        ensures { OnOk result (self.new ≡ with_line self.old field) }
    {
        if self.is_held(field.cap) {
            Ok(())
        } else {
            self.push(field)
        }
    }

    /// Adds the field before a comma, if it counts.
    fn add_part(&mut self, line: usize, part: &[u8]) -> Result<(), AllocError>
        ensures { OnOk result (self.new ≡ with_part self.old (part_line line part.now)) }
    {
        match part_line(line, part) {
            None => Ok(()),
            Some(field) => self.add(field),
        }
    }

    /// Adds the fields that commas end, if they count.
    fn add_parts(&mut self, line: usize, text: &[u8]) -> Result<(), AllocError>
        ensures { OnOk result (self.new ≡ with_lines self.old (part_lines line (cut_of text.now).ended)) }
    {
        let mut rest = text;
        while let Some((part, behind)) = cut_field(rest) {
            self.add_part(line, part)?;
            rest = behind;
        }
        Ok(())
    }

    /// Adds the fields after the names, if they count.
    fn add_first(&mut self, line: usize, text: &[u8]) -> Result<(), AllocError>
        ensures { OnOk result (self.new ≡ with_lines self.old (part_lines line (after_names (cut_of text.now).ended))) }
    {
        match cut_field(text) {
            None => Ok(()),
            Some((_names, behind)) => self.add_parts(line, behind),
        }
    }

    /// Adds the fields of a line that doesn't begin an entry.
    fn add_further(&mut self, number: usize, line: &[u8]) -> Result<(), AllocError>
        ensures { OnOk result (self.new ≡ with_lines self.old (further_lines number line.now)) }
    {
        if is_further(line) {
            self.add_parts(number, line)
        } else {
            Ok(())
        }
    }

    /// Adds the fields of the lines from the number `first` on, up to the one that begins another entry.
    fn add_lines(&mut self, first: usize, text: &[u8]) -> Result<(), AllocError>
        requires { first + length text.now ≤ 18446744073709551615 }
        ensures { OnOk result (self.new ≡ with_lines self.old (blocks_from first (lines_of text.now)).ahead) }
    {
        let mut rest = text;
        let mut number = first;
        while let Some((line, behind)) = cut_line(rest) {
            if begins_entry(line) {
                break;
            }
            self.add_further(number, line)?;
            rest = behind;
            number += 1;
        }
        Ok(())
    }
}

/// The first line of an entry, and the lines after it.
#[derive(Clone, Copy)]
struct Start<'t> {
    number: usize,
    line: &'t [u8],
    behind: &'t [u8],
}

/// The first line of the entry with the number `entry`, and the lines after it.
fn start_of(text: &[u8], entry: usize) -> Option<Start<'_>>
    ensures found { IfSome result (λ s.
        entry_block text.now entry ≡ Some (fields_from s.number s.line.now s.behind.now)) }
    ensures range { IfSome result (λ s. s.number + 1 + length s.behind.now ≤ 18446744073709551615) }
    ensures none { IfNone result (entry_block text.now entry ≡ None) }
{
    let mut left = entry;
    let mut rest = text;
    let mut number = 1;
    while let Some((line, behind)) = cut_line(rest) {
        if begins_entry(line) {
            if left == 0 {
                return Some(Start {
                    number,
                    line,
                    behind,
                });
            }
            left -= 1;
        }
        rest = behind;
        number += 1;
    }
    None
}

/// The fields that count of the entry that begins on `line`.
fn lines_from(
    alloc: Global,
    number: usize,
    line: &[u8],
    behind: &[u8],
) -> Result<Vec<FieldLine>, AllocError>
    requires { number + 1 + length behind.now ≤ 18446744073709551615 }
    ensures { IfOk result (λ lines. lines.items ≡ firsts (fields_from number line.now behind.now)) }
{
    let mut block = Block::new(alloc);
    block.add_first(number, line)?;
    block.add_lines(number + 1, behind)?;
    Ok(block.into_fields())
}

/// The lines of the fields of an entry of a source text, in the order of the fields. `entry` is its place among the
/// entries that `read` returns for `text`, and its fields are those that `read` returns.
///
/// Reads the text up to the end of that entry, without its values. An entry that doesn't exist has no fields. Fails
/// only when out of memory.
pub fn field_lines(alloc: Global, text: &[u8], entry: usize) -> Result<Vec<FieldLine>, AllocError>
    ensures { IfOk result (λ lines. lines.items ≡ field_lines_of text.now entry) }
{
    match start_of(text, entry) {
        None => Ok(Vec::new(alloc)),
        Some(start) => {
            let lines = lines_from(alloc, start.number, start.line, start.behind)?;
            Ok(lines)
        }
    }
}

/// Law: if a text can be read, its field lines are those of the fields of each entry, one for one.
#[tactic(auto, using(crate::proofs::FieldLines::lines_are_of_fields))]
pub fn field_lines_are_of_fields()
    ensures { LinesAreOfFields }
{}
