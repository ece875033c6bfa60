//! The lines of a source text that have the fields of its entries.

ghost use Rattle.std.specs.{Prelude.{◌≡◌, ◌≤◌, ◌+◌, IfOk, length, map, slice_get}, List.{AllByRecursion}};
ghost use Rattle.ti_source.specs.{Layout.{lines_of}, Lines.{field_lines_of}};
ghost use Rattle.ti_sources.specs.Columns.{columns_of, line_in, or_empty, piece_of};
ghost use Rattle.ti_sources.specs.LinedTexts as spec;

use crate::columns::{Columns, columns_on, piece_on};
use std::alloc::{AllocError, Global};
use std::marker::Model;
use ti_caps::Cap;
use ti_resolve::Origin;
use ti_source::{FieldLine, begins_entry, cut_line, field_lines};

/// A source text, in which the line of each field was found beforehand. Contracts see the text.
#[derive(Drop)]
pub struct LinedText<'a> {
    text: &'a [u8],
    /// For each entry the lines of its fields.
    lines: Vec<Vec<usize>>,
    /// All lines.
    all: Vec<&'a [u8]>,
}

impl<'a> Model for LinedText<'a> {
    ghost use Rattle.std.specs.Prelude.{◌≡◌, List, map, ℕ};
    ghost use Rattle.ti_sources.specs.LinedTexts.{numbers_of};
    ghost use Rattle.ti_source.specs.Layout.{lines_of};

    ghost Value = { List ℕ };

    ghost view = { λ t. t.text.now };

    ghost invariant = { λ t. (map (λ own. own.items) t.lines.items ≡ numbers_of t.text.now)
        × (map (λ line. line.now) t.all.items ≡ lines_of t.text.now) };
}

impl<'a> LinedText<'a> {
    /// The `text`, which is read once for all fields, without their values.
    ///
    /// # Errors
    /// Out of memory.
    pub fn new(alloc: Global, text: &'a [u8]) -> Result<Self, AllocError>
        ensures { IfOk result (λ lined. lined ≡ text.now) }
    {
        let lines = numbers_of(alloc, text)?;
        let all = text_lines(alloc, text)?;
        Ok(LinedText { text, lines, all })
    }

    /// The lines of the text, without their ends.
    pub fn lines(&self) -> &[&'a [u8]]
        ensures { map (λ line. line.now) result.now ≡ lines_of self.now }
    {
        self.all.as_slice()
    }

    /// The line of the text that has the field at `origin`; 0 if there is no such field.
    pub fn line(&self, origin: Origin) -> usize
        ensures { result ≡ spec.line_at (field_lines_of self.now origin.entry) origin.field }
    {
        match self.lines.get(origin.entry) {
            Some(own) => number_at(own.as_slice(), origin.field),
            None => 0,
        }
    }

    /// The columns of the first field about `cap` on the line with this `number`; `None` if there is no such field.
    #[tactic(auto, unfolding(crate::specs::Columns::columns_of))]
    pub fn columns(&self, number: usize, cap: Cap) -> Option<Columns>
        ensures { result ≡ columns_of self.now number cap }
    {
        columns_on(line_at(self.all.as_slice(), number), cap)
    }

    /// The bytes between these `columns` of the line with this `number`, as far as the text has them.
    #[tactic(auto, unfolding(crate::specs::Columns::piece_of))]
    pub fn piece(&self, number: usize, columns: Columns) -> &'a [u8]
        ensures { result.now ≡ piece_of self.now number columns }
    {
        piece_on(line_at(self.all.as_slice(), number), columns)
    }
}

/// The line with this `number`, counted from 1; empty if there is no such line.
#[tactic(auto, using(crate::proofs::NumberedLines::line_numbered))]
pub fn line_at<'a>(lines: &[&'a [u8]], number: usize) -> &'a [u8]
    ensures { result.now ≡ line_in (map (λ line. line.now) lines.now) number }
{
    if number == 0 {
        return &[];
    }
    line_or_empty(lines, number - 1)
}

/// The line at a place of these; empty if there is none.
fn line_or_empty<'a>(lines: &[&'a [u8]], place: usize) -> &'a [u8]
    ensures { result.now ≡ or_empty (slice_get (map (λ line. line.now) lines.now) place) }
{
    match lines.get(place) {
        Some(line) => *line,
        None => &[],
    }
}

/// The lines of `text`, without their ends.
///
/// # Errors
/// Out of memory.
#[tactic(auto, using(crate::proofs::NumberedLines::one_more, crate::proofs::NumberedLines::all_of))]
pub fn text_lines<'a>(alloc: Global, text: &'a [u8]) -> Result<Vec<&'a [u8]>, AllocError>
    ensures { IfOk result (λ all. map (λ line. line.now) all.items ≡ lines_of text.now) }
{
    let mut all = Vec::new(alloc);
    let mut rest = text;
    while let Some((line, behind)) = cut_line(rest) {
        all.push(line)?;
        rest = behind;
    }
    Ok(all)
}

/// The number at a place of these; 0 if there is none.
fn number_at(numbers: &[usize], place: usize) -> usize
    ensures { result ≡ spec.or_zero (slice_get numbers.now place) }
{
    match numbers.get(place) {
        Some(number) => *number,
        None => 0,
    }
}

/// The lines of the fields of each entry of `text`.
fn numbers_of(alloc: Global, text: &[u8]) -> Result<Vec<Vec<usize>>, AllocError>
    ensures { IfOk result (λ all. map (λ own. own.items) all.items ≡ spec.numbers_of text.now) }
{
    let mut all = Vec::new(alloc);
    let mut rest = text;
    let mut before = 0;
    while let Some((line, behind)) = cut_line(rest) {
        if begins_entry(line) {
            let own = first_numbers(alloc, before, rest)?;
            all.push(own)?;
        }
        rest = behind;
        before += 1;
    }
    Ok(all)
}

/// The lines of the fields of the first entry of `text`, if this number of lines comes `before` it. Reads the text up
/// to the end of that entry.
fn first_numbers(alloc: Global, before: usize, text: &[u8]) -> Result<Vec<usize>, AllocError>
    requires { before + length text.now ≤ 18446744073709551615 }
    ensures { IfOk result (λ own. own.items ≡ map (spec.line_behind before) (field_lines_of text.now 0)) }
{
    let fields = field_lines(alloc, text, 0)?;
    lines_behind(alloc, before, fields.as_slice())
}

/// The lines of these `fields`, if this number of lines comes `before` those that were counted.
fn lines_behind(
    alloc: Global,
    before: usize,
    fields: &[FieldLine],
) -> Result<Vec<usize>, AllocError>
    requires { AllByRecursion (λ field. spec.line_behind before field ≤ 18446744073709551615) fields.now }
    ensures { IfOk result (λ own. own.items ≡ map (spec.line_behind before) fields.now) }
{
    let mut own = Vec::new(alloc);
    for field in fields {
        own.push(before + field.line)?;
    }
    Ok(own)
}
