//! Joining the lines of a source text.

ghost use Rattle.std.specs.{Prelude.{◌≡◌, [], ◌∷◌, IfOk}, List.{flat_map}};
ghost use Rattle.ti_sources.specs.Joins as joins;
ghost use Rattle.ti_sources.specs.Steps as spec;
ghost use Rattle.ti_source.specs.Layout.{lines_of};

use crate::line_ends::push_ended;
use crate::scan::Scan;
use std::alloc::{AllocError, Global};
use ti_source::{cut_line, is_comment, is_further, skip_white};

/// A text that is joined line by line.
#[derive(Drop)]
struct Joiner {
    /// The text before the current line.
    done: Vec<u8>,
    /// The current line, with what was joined to it.
    line: Vec<u8>,
    /// A line feed for each line that was joined to it.
    blanks: Vec<u8>,
    /// The end of the current line.
    scan: Scan,
}

/// The source text `text` of terminfo(5) with each field on one line. Where a field isn't ended and the next line
/// begins with white space and is neither blank nor a comment, that line continues the field, without its leading white
/// space; it leaves a blank line behind. So each line keeps its number, and each field is on the line on which it
/// begins.
///
/// Goes over the text once. Fails only when out of memory.
#[tactic(auto, unfolding(crate::specs::Joins::joined_text))]
pub fn joined(alloc: Global, text: &[u8]) -> Result<Vec<u8>, AllocError>
    ensures { IfOk result (λ joined. joined.items ≡ joins.joined_text text.now) }
{
    match cut_line(text) {
        None => Ok(Vec::new(alloc)),
        Some((line, behind)) => joined_from(alloc, line, behind),
    }
}

/// The text of `line` and of the lines of `behind`, joined.
#[tactic(auto, using(crate::proofs::Texts::begun_text, crate::proofs::Texts::advanced_text))]
fn joined_from(alloc: Global, line: &[u8], behind: &[u8]) -> Result<Vec<u8>, AllocError>
    ensures { IfOk result (λ joined. joined.items
        ≡ flat_map joins.ended (joins.joined_lines (line.now ∷ lines_of behind.now))) }
{
    let mut joiner = first_joiner(alloc, line)?;
    let mut rest = behind;
    while let Some((next, after)) = cut_line(rest) {
        joiner = advanced(joiner, next)?;
        rest = after;
    }
    finished(joiner)
}

/// A text whose first line is `line`.
#[tactic(auto, unfolding(crate::specs::Steps::scan_of))]
fn first_joiner(alloc: Global, line: &[u8]) -> Result<Joiner, AllocError>
    ensures scanned { IfOk result (λ joiner. joiner.scan ≡ spec.scan_of joiner.line.items) }
    ensures state { IfOk result (λ joiner. spec.state_of joiner ≡ record { done = []; line = line.now; blanks = [] }) }
{
    Ok(Joiner {
        done: Vec::new(alloc),
        line: Vec::from_slice(alloc, line)?,
        blanks: Vec::new(alloc),
        scan: Scan::start().over(line),
    })
}

/// The text after the line `next`.
#[tactic(auto, unfolding(crate::specs::Steps::advance))]
fn advanced(joiner: Joiner, next: &[u8]) -> Result<Joiner, AllocError>
    requires { joiner.scan ≡ spec.scan_of joiner.line.items }
    ensures scanned { IfOk result (λ after. after.scan ≡ spec.scan_of after.line.items) }
    ensures state { IfOk result (λ after. spec.state_of after ≡ spec.advance (spec.state_of joiner) next.now) }
{
    if is_open(&joiner) && is_further(next) {
        with_taken(joiner, next)
    } else {
        with_begun(joiner, next)
    }
}

/// Whether the last field of the current line isn't ended.
fn is_open(joiner: &Joiner) -> bool
    requires { joiner.now.scan ≡ spec.scan_of joiner.now.line.items }
    ensures { result ≡ joins.is_open joiner.now.line.items }
{
    !is_comment(joiner.line.as_slice()) && !joiner.scan.is_blank
}

/// The text with `next` joined to the current line.
fn with_taken(joiner: Joiner, next: &[u8]) -> Result<Joiner, AllocError>
    requires { joiner.scan ≡ spec.scan_of joiner.line.items }
    ensures scanned { IfOk result (λ after. after.scan ≡ spec.scan_of after.line.items) }
    ensures state { IfOk result (λ after. spec.state_of after ≡ spec.with_taken (spec.state_of joiner) next.now) }
{
    let more = skip_white(next);
    let mut joiner = joiner;
    joiner.line.extend_from_slice(more)?;
    joiner.blanks.push(b'\n')?;
    joiner.scan = joiner.scan.over(more);
    Ok(joiner)
}

/// The text with the current line behind it, and `next` as the current line.
#[tactic(auto, unfolding(crate::specs::Steps::scan_of))]
fn with_begun(joiner: Joiner, next: &[u8]) -> Result<Joiner, AllocError>
    ensures scanned { IfOk result (λ after. after.scan ≡ spec.scan_of after.line.items) }
    ensures state { IfOk result (λ after. spec.state_of after ≡ spec.with_begun (spec.state_of joiner) next.now) }
{
    let mut joiner = joiner;
    push_ended(&mut joiner.done, joiner.line.as_slice())?;
    joiner.done.extend_from_slice(joiner.blanks.as_slice())?;
    joiner.line.clear();
    joiner.line.extend_from_slice(next)?;
    joiner.blanks.clear();
    joiner.scan = Scan::start().over(next);
    Ok(joiner)
}

/// The text with the current line as its last.
fn finished(joiner: Joiner) -> Result<Vec<u8>, AllocError>
    ensures { IfOk result (λ text. text.items ≡ spec.text_from (spec.state_of joiner) []) }
{
    let mut done = joiner.done;
    push_ended(&mut done, joiner.line.as_slice())?;
    done.extend_from_slice(joiner.blanks.as_slice())?;
    Ok(done)
}
