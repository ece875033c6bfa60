//! Texts in which no field continues on the next line.

ghost use Rattle.std.specs.{Prelude.{◌≡◌, ◌∷◌, length}, List.{list_all}};
ghost use Rattle.ti_source.specs.Layout.{cut_of, is_white, lines_of};
ghost use Rattle.ti_sources.specs.Joins as spec;

use ti_source::{cut_field, cut_line, is_comment, is_further, is_white};

/// The part of `line` behind its last comma.
fn last_part(line: &[u8]) -> &[u8]
    ensures { result.now ≡ (cut_of line.now).last }
{
    let mut rest = line;
    while let Some((_, behind)) = cut_field(rest) {
        rest = behind;
    }
    rest
}

/// Whether all bytes are white space.
fn is_blank(bytes: &[u8]) -> bool
    ensures { result ≡ list_all is_white bytes.now }
{
    bytes.iter().all(|byte| is_white(*byte))
}

/// Whether the last field of `line` isn't ended.
#[tactic(auto, unfolding(crate::specs::Joins::is_open))]
fn is_open(line: &[u8]) -> bool
    ensures { result ≡ spec.is_open line.now }
{
    !is_comment(line) && !is_blank(last_part(line))
}

/// Whether a field of `line` continues on the `next` one.
fn continues(line: &[u8], next: &[u8]) -> bool
    ensures { result ≡ spec.continues line.now next.now }
{
    is_open(line) && is_further(next)
}

/// Whether no field of the line `first` and of those of `behind` continues on the next one.
fn none_continues(first: &[u8], behind: &[u8]) -> bool
    ensures { result ≡ spec.none_continues (first.now ∷ lines_of behind.now) }
{
    let mut line = first;
    let mut rest = behind;
    while let Some((next, after)) = cut_line(rest) {
        if continues(line, next) {
            return false;
        }
        line = next;
        rest = after;
    }
    true
}

/// Whether no field of a source `text` continues on the next line, so that joining its lines changes none.
pub fn is_joined(text: &[u8]) -> bool
    ensures { result ≡ spec.none_continues (lines_of text.now) }
{
    match cut_line(text) {
        None => true,
        Some((first, behind)) => none_continues(first, behind),
    }
}
