//! The places of `%^` in a source text.

ghost use Rattle.std.specs.Prelude.{◌≡◌, ◌++◌, IfOk, OnOk};
ghost use Rattle.ti_hints.specs.Carets.{has_percent_caret, hint_at, hinted, hinted_by, hinted_cap, hints_of};
ghost use Rattle.ti_hints.specs.Carets.{is_percent, line_hints, part_hints};
ghost use Rattle.ti_source.specs.Layout.{cut_of};

use std::alloc::{AllocError, Global};
use ti_caps::{Cap, Kind, Opener, by_name, is_kind};
use ti_source::{
    Mark, begins_white, cut_field, cut_line, is_passed, is_skipped, marked, skip_white,
};

/// A string capability whose value in a source text has `%^`.
#[derive(Clone, Copy, Debug, PartialEq, Eq)]
pub(crate) struct PercentCaret {
    /// The line of the text, from 1.
    pub(crate) line: usize,
    /// The capability.
    pub(crate) cap: Cap,
}

/// Whether `byte` is a `%` that isn't taken by a backslash or caret before it.
fn is_percent(opener: Opener, byte: u8) -> bool
    ensures { result ≡ is_percent opener byte }
{
    match opener {
        Opener::Nothing => byte == b'%',
        Opener::Backslash | Opener::Caret => false,
    }
}

/// Whether `value` has a caret right after a `%` that no backslash or caret takes.
#[tactic(auto, unfolding(crate::specs::Carets::has_percent_caret))]
fn has_percent_caret(value: &[u8]) -> bool
    ensures { result ≡ has_percent_caret value.now }
{
    let mut opener = Opener::Nothing;
    let mut percent = false;
    for byte in value {
        if percent && *byte == b'^' {
            return true;
        }
        percent = is_percent(opener, *byte);
        opener = opener.after(*byte);
    }
    false
}

/// The capability `cap`, if it is a string and `value` has `%^`.
fn hinted_cap(cap: Cap, value: &[u8]) -> Option<Cap>
    ensures { result ≡ hinted_cap cap value.now }
{
    if is_kind(cap, Kind::String) && has_percent_caret(value) {
        Some(cap)
    } else {
        None
    }
}

/// The capability of a field with this mark and value, if it is a string whose value has `%^`.
fn hinted_by(mark: Mark, found: Option<Cap>, value: &[u8]) -> Option<Cap>
    ensures { result ≡ hinted_by mark found value.now }
{
    match (mark, found) {
        (Mark::Equals, Some(cap)) => hinted_cap(cap, value),
        (Mark::Equals, None) | (Mark::At | Mark::Hash, _) => None,
    }
}

/// The capability of the field `part`, if it is a string whose value has `%^`.
#[tactic(auto, unfolding(crate::specs::Carets::hinted))]
pub(crate) fn hinted(part: &[u8]) -> Option<Cap>
    ensures { result ≡ hinted part.now }
{
    let field = skip_white(part);
    if is_skipped(field) {
        return None;
    }
    match marked(field) {
        None => None,
        Some((name, mark, value)) => hinted_by(mark, by_name(name), value),
    }
}

/// Adds the hint on one field, if it has one.
fn add_part(hints: &mut Vec<PercentCaret>, line: usize, part: &[u8]) -> Result<(), AllocError>
    ensures { OnOk result (hints.new.items ≡ hints.old.items ++ hint_at line (hinted part.now)) }
{
    match hinted(part) {
        None => Ok(()),
        Some(cap) => {
            hints.push(PercentCaret { line, cap })?;
            Ok(())
        }
    }
}

/// Adds the hints on the fields that commas end.
fn add_parts(hints: &mut Vec<PercentCaret>, line: usize, text: &[u8]) -> Result<(), AllocError>
    ensures { OnOk result (hints.new.items ≡ hints.old.items ++ part_hints line (cut_of text.now).ended) }
{
    let mut rest = text;
    while let Some((part, behind)) = cut_field(rest) {
        add_part(hints, line, part)?;
        rest = behind;
    }
    Ok(())
}

/// Adds the hints on a line.
#[tactic(auto, unfolding(crate::specs::Carets::line_hints))]
fn add_line(hints: &mut Vec<PercentCaret>, number: usize, line: &[u8]) -> Result<(), AllocError>
    ensures { OnOk result (hints.new.items ≡ hints.old.items ++ line_hints number line.now) }
{
    if is_passed(line) {
        Ok(())
    } else if begins_white(line) {
        add_parts(hints, number, line)
    } else {
        match cut_field(line) {
            None => Ok(()),
            Some((_names, behind)) => add_parts(hints, number, behind),
        }
    }
}

/// The string capabilities of a source text whose values have `%^`, each with its line, in their order.
///
/// terminfo(5) reads `%^x` as `%` and the control character of `x`; the code for exclusive or is written `%\^`. Other
/// readers take `%^` for that code, so a `text` that has it may mean something else to them than to `read`. Each
/// field that a comma ends counts, even one that `read` notes as a duplicate.
///
/// Fails only when out of memory.
#[tactic(auto, unfolding(crate::specs::Carets::hints_of))]
pub(crate) fn percent_carets(alloc: Global, text: &[u8]) -> Result<Vec<PercentCaret>, AllocError>
    ensures { IfOk result (λ hints. hints.items ≡ hints_of text.now) }
{
    let mut hints = Vec::new(alloc);
    let mut rest = text;
    let mut number = 1;
    while let Some((line, behind)) = cut_line(rest) {
        add_line(&mut hints, number, line)?;
        rest = behind;
        number += 1;
    }
    Ok(hints)
}
