//! Hints about fields of a source text that do nothing, or not what they seem to.

ghost use Rattle.std.specs.Prelude.{◌≡◌, ◌⊎◌, ◌≤◌, ◌+◌, IfOk, IfSome, None, OnOk, Some, map, slice_get};
ghost use Rattle.std.specs.List.{AllByRecursion};
ghost use Rattle.ti_hints.specs.Places as spec;

use crate::carets::hinted;
use crate::fields::{FieldText, cut_comma};
use crate::places::{PlacedField, first_rest, placed};
use std::alloc::{AllocError, Global};
use ti_caps::{CAPABILITIES, Cap, by_name};
use ti_source::RawEntry;
use ti_sources::{Columns, line_at};

/// The kind of a hint.
#[derive(Clone, Copy, Debug, PartialEq, Eq)]
pub enum HintKind {
    /// The field's name is that of no capability.
    UnknownName,
    /// The entry had a field of this name before, which counts.
    Duplicate,
    /// The string has a backslash before a byte that has no meaning there.
    OddEscape,
    /// The string has `%^`, which is read as `%` and a control character.
    PercentCaret,
    /// Further fields of the entry have hints, which are counted together.
    FurtherFields,
}

/// The most fields of an entry that have a hint each; the others are counted.
const MOST_HINTS: usize = 1000;

/// A hint about a field of a source text.
#[derive(Debug, Drop)]
pub struct FieldHint {
    /// The kind of the hint.
    pub kind: HintKind,
    /// The place, among the entries of the text, of the entry that has the field.
    pub entry: usize,
    /// The number of the field's line, from 1.
    pub line: usize,
    /// The columns of the field in this line; `None` if they aren't known.
    pub columns: Option<Columns>,
    /// The capability of this name, if there is one.
    pub cap: Option<Cap>,
    /// The words, which begin with the field's name, or with the number of further fields.
    pub words: Vec<u8>,
}

/// The hints about the entry at `place` among `raws`, the entries of a source text that has these `lines`: about each
/// field that has a name of no capability, a name that its entry has had before, an escape without a meaning, or `%^`;
/// of a field that has several of these about the first one. They are in the order of the fields. If there are more
/// than a thousand, the last hint has the number of the others.
///
/// # Errors
/// Out of memory.
pub fn entry_hints(
    alloc: Global,
    lines: &[&[u8]],
    raws: &[RawEntry],
    place: usize,
) -> Result<Vec<FieldHint>, AllocError>
    ensures { IfOk result (λ hints. AllByRecursion
        (spec.IsHintOf (map (λ line. line.now) lines.now) raws.now place) hints.items) }
{
    match raws.get(place) {
        Some(raw) => hints_from(alloc, lines, raws, place, raw.line as usize),
        None => Ok(Vec::new(alloc)),
    }
}

/// The hints about the entry at `place`, whose names stand on the line `first`.
fn hints_from(
    alloc: Global,
    lines: &[&[u8]],
    raws: &[RawEntry],
    place: usize,
    first: usize,
) -> Result<Vec<FieldHint>, AllocError>
    requires { IfSome (slice_get raws.now place) (λ raw. raw.line ≡ first) }
    ensures { IfOk result (λ hints. AllByRecursion
        (spec.IsHintOf (map (λ line. line.now) lines.now) raws.now place) hints.items) }
{
    let mut hints = Vec::new(alloc);
    let mut told = Told::new();
    let mut further = None;
    for number in first..end_line(lines, raws, place) {
        let line = EntryLine {
            place,
            number,
            text: line_at(lines, number),
            begins: number == first,
        };
        let mut own = line_hints(alloc, line, &mut told)?;
        hints.append(&mut own)?;
        further = further_line(further, told.left_out, number);
    }
    match further {
        Some(number) => {
            hints.push(further_hint(alloc, place, number, told.left_out)?)?;
            Ok(hints)
        }
        None => Ok(hints),
    }
}

/// The line from which on hints are left out: `further`, or the line `number` if this many are `left_out` by now.
fn further_line(further: Option<usize>, left_out: usize, number: usize) -> Option<usize>
    ensures { (result ≡ further) ⊎ (result ≡ Some number) }
{
    match further {
        None if left_out > 0 => Some(number),
        None | Some(_) => further,
    }
}

/// The hint that from the line `number` on this `count` of fields of the entry at `place` have hints too.
fn further_hint(
    alloc: Global,
    place: usize,
    number: usize,
    count: usize,
) -> Result<FieldHint, AllocError>
    ensures entry { IfOk result (λ hint. hint.entry ≡ place) }
    ensures line { IfOk result (λ hint. hint.line ≡ number) }
    ensures columns { IfOk result (λ hint. hint.columns ≡ None) }
{
    let words = format!(in alloc; "{count} further fields of the entry have hints too")?;
    Ok(FieldHint {
        kind: HintKind::FurtherFields,
        entry: place,
        line: number,
        columns: None,
        cap: None,
        words: words.into_bytes(),
    })
}

/// The number of the line behind the last one of the entry at `place`: that of the names of the next entry, or the one
/// behind all `lines`.
fn end_line(lines: &[&[u8]], raws: &[RawEntry], place: usize) -> usize
    ensures { IfSome (slice_get raws.now (place + 1)) (λ next. result ≤ next.line) }
{
    match raws.get(place.saturating_add(1)) {
        Some(next) => next.line as usize,
        None => lines.len().saturating_add(1),
    }
}

/// A line of an entry.
#[derive(Clone, Copy)]
struct EntryLine<'a> {
    /// The place of the entry.
    place: usize,
    /// The number of the line, from 1.
    number: usize,
    /// The line, without its end.
    text: &'a [u8],
    /// Whether it has the names of the entry.
    begins: bool,
}

/// The fields of an entry so far.
#[derive(Drop)]
struct Told {
    /// Whether one of them was about the capability at this place of the table.
    seen: [bool; CAPABILITIES],
    /// How many fields more can have a hint.
    room: usize,
    /// How many fields have a hint that is left out.
    left_out: usize,
}

impl Told {
    /// No fields.
    fn new() -> Told {
        Told {
            seen: [false; CAPABILITIES],
            room: MOST_HINTS,
            left_out: 0,
        }
    }
}

/// The hints about the fields of `line`; `told` has those before it in its entry.
fn line_hints(
    alloc: Global,
    line: EntryLine<'_>,
    told: &mut Told,
) -> Result<Vec<FieldHint>, AllocError>
    ensures { IfOk result (λ hints. AllByRecursion (spec.IsOn line.entry) hints.items) }
{
    match first_rest(line.text, line.begins) {
        Some((before, first)) => hints_behind(alloc, line, before, first, told),
        None => Ok(Vec::new(alloc)),
    }
}

/// The hints about the fields of `first`, the part of `line` behind this number of bytes `before` it.
fn hints_behind(
    alloc: Global,
    line: EntryLine<'_>,
    before: usize,
    first: &[u8],
    told: &mut Told,
) -> Result<Vec<FieldHint>, AllocError>
    requires { spec.IsRest line.text.now before first.now }
    ensures { IfOk result (λ hints. AllByRecursion (spec.IsOn line.entry) hints.items) }
{
    let mut hints = Vec::new(alloc);
    let mut passed = before;
    let mut rest = first;
    while let Some((part, behind)) = cut_comma(rest) {
        add_hint(alloc, line, &placed(passed, part), told, &mut hints)?;
        passed = passed + part.len() + 1;
        rest = behind;
    }
    add_hint(alloc, line, &placed(passed, rest), told, &mut hints)?;
    Ok(hints)
}

/// Adds to `hints` the one about the field `it` of `line`, if it has one and there is room; `told` has the fields
/// before it in its entry.
fn add_hint(
    alloc: Global,
    line: EntryLine<'_>,
    it: &PlacedField<'_>,
    told: &mut Told,
    hints: &mut Vec<FieldHint>,
) -> Result<(), AllocError>
    requires stands { spec.IsFieldOn line.text.now it.now.columns }
    requires before { AllByRecursion (spec.IsOn line) hints.old.items }
    ensures { OnOk result (AllByRecursion (spec.IsOn line.entry) hints.new.items) }
{
    match told_kind(&it.field, told) {
        Some(kind) => {
            let hint = field_hint(alloc, line, it, kind)?;
            hints.push(hint)?;
            Ok(())
        }
        None => Ok(()),
    }
}

/// The kind of the hint about `field`, if it has one and there is room; otherwise it is counted. `told` has the fields
/// before it in its entry.
fn told_kind(field: &FieldText<'_>, told: &mut Told) -> Option<HintKind> {
    let kind = hint_kind(field, told)?;
    if told.room == 0 {
        told.left_out = told.left_out.saturating_add(1);
        return None;
    }
    told.room -= 1;
    Some(kind)
}

/// The kind of the hint about `field`, if it has one; `told` has the fields before it in its entry.
fn hint_kind(field: &FieldText<'_>, told: &mut Told) -> Option<HintKind> {
    if field.is_unknown() {
        Some(HintKind::UnknownName)
    } else if is_repeated(field, told) {
        Some(HintKind::Duplicate)
    } else if field.odd_escape().is_some() {
        Some(HintKind::OddEscape)
    } else if hinted(field.text).is_some() {
        Some(HintKind::PercentCaret)
    } else {
        None
    }
}

/// Whether a field before `field` was about its capability; from then on one was.
fn is_repeated(field: &FieldText<'_>, told: &mut Told) -> bool {
    if field.is_left_out() {
        return false;
    }
    match by_name(field.name) {
        Some(cap) => {
            let place = cap.place();
            let before = told.seen[place];
            told.seen[place] = true;
            before
        }
        None => false,
    }
}

/// The hint of this `kind` about the field `it` of `line`.
fn field_hint(
    alloc: Global,
    line: EntryLine<'_>,
    it: &PlacedField<'_>,
    kind: HintKind,
) -> Result<FieldHint, AllocError>
    requires { spec.IsFieldOn line.text.now it.now.columns }
    ensures { IfOk result (spec.IsOn line.entry) }
{
    let words = hint_words(alloc, &it.field, kind)?;
    Ok(FieldHint {
        kind,
        entry: line.place,
        line: line.number,
        columns: Some(it.columns),
        cap: by_name(it.field.name),
        words,
    })
}

/// The words of the hint of this `kind` about `field`.
fn hint_words(alloc: Global, field: &FieldText<'_>, kind: HintKind) -> Result<Vec<u8>, AllocError> {
    let behind: &[u8] = match kind {
        HintKind::UnknownName => b" is no capability",
        HintKind::Duplicate => b" stands in the entry before, where the first one counts",
        HintKind::OddEscape => return escape_words(alloc, field),
        HintKind::PercentCaret => return caret_words(alloc, field.name),
        HintKind::FurtherFields => b" is one of several",
    };
    let mut words = Vec::from_slice(alloc, field.name)?;
    words.extend_from_slice(behind)?;
    Ok(words)
}

/// The words that the string of `field` has a backslash before a byte without a meaning there.
fn escape_words(alloc: Global, field: &FieldText<'_>) -> Result<Vec<u8>, AllocError> {
    let mut words = Vec::from_slice(alloc, field.name)?;
    words.extend_from_slice(b" has `\\")?;
    if let Some(letter) = field.odd_escape() {
        words.push(letter)?;
    }
    words.extend_from_slice(b"`, which is no escape and stands for the byte behind the backslash")?;
    Ok(words)
}

/// The words that the string of this name has `%^`: by the rules of escapes it is `%` and a control character, but
/// ncurses takes no caret behind a `%` for an escape.
pub(crate) fn caret_words(alloc: Global, name: &[u8]) -> Result<Vec<u8>, AllocError> {
    let mut words = Vec::from_slice(alloc, b"in ")?;
    words.extend_from_slice(name)?;
    words.extend_from_slice(
        b" `%^` is read as `%` and a control character, by ncurses as exclusive or, which is written `%\\^`",
    )?;
    Ok(words)
}
