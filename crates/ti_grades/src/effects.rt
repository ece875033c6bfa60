//! The effects of what an entry's strings send, and what they have of marks, erasures and moves.

ghost use Rattle.std.specs.Prelude.{◌≡◌, IfOk, Some, option_copied, option_map};
ghost use Rattle.ti_conforms.specs.Entries.{string_of};
ghost use Rattle.ti_grades.specs.FaultRuns as runs;
ghost use Rattle.ti_grades.specs.Odds as spec;

use crate::fault_runs::tokens_by;
use std::alloc::{AllocError, Global};
use ti_caps::Entry;
use ti_rows::Row;
use vt_effects::{Effect, Erasure, Move, Region, Rendering, Switch, effect_of};
use vt_term::{Size, Token};

/// An effect, if there is one record of it; or that memory ran out.
type FoundEffect = Result<Option<Effect>, AllocError>;

/// The effects that decide a grade, where there are records of them.
#[derive(Clone, Copy)]
pub(crate) struct Runs {
    /// The effect of the bytes that the string sends for the row.
    pub(crate) own: Option<Effect>,
    /// The effect of those that it sends with a `%i` in front of it.
    pub(crate) counted: Option<Effect>,
    /// The effect of the entry's `smcup`.
    pub(crate) enters: Option<Effect>,
    /// The effect of the entry's `rmcup`.
    pub(crate) leaves: Option<Effect>,
}

/// The effect of `tokens` from the starts of `row`, if there are tokens and they have a record.
fn effect_by(size: Size, row: Row, tokens: &Option<Vec<Token>>) -> Option<Effect>
    ensures { result ≡ runs.effect_of size.rows size.cols row (option_map (λ them. them.items) tokens.now) }
{
    match tokens {
        Some(tokens) => effect_of(tokens.as_slice(), size, &row.start(size)),
        None => None,
    }
}

/// The effect of what `string` sends for `row` from the row's starts, if it has a record.
fn effect_with(alloc: Global, size: Size, string: &[u8], row: Row) -> FoundEffect
    ensures { IfOk result (λ effect. runs.HasEffect size.rows size.cols string.now row effect) }
{
    let tokens = tokens_by(alloc, string, row)?;
    Ok(effect_by(size, row, &tokens))
}

/// The effect of what `string` sends for `row`, where there are both.
fn effect_for(alloc: Global, size: Size, row: Option<Row>, string: Option<&[u8]>) -> FoundEffect
    ensures { IfOk result (λ effect.
        runs.IsEffectFor size.rows size.cols row (option_copied string.entry) effect) }
{
    match row {
        Some(row) => match string {
            Some(string) => effect_with(alloc, size, string, row),
            None => Ok(None),
        },
        None => Ok(None),
    }
}

/// The `string` with a `%i` in front of it.
fn incremented(alloc: Global, string: &[u8]) -> Result<Vec<u8>, AllocError>
    ensures { IfOk result (λ text. text.items ≡ runs.incremented string.now) }
{
    let mut text = Vec::from_slice(alloc, b"%i")?;
    text.extend_from_slice(string)?;
    Ok(text)
}

/// The effect of what `string` sends for `row` with a `%i` in front of it, where there are both.
fn counted_effect(alloc: Global, size: Size, row: Option<Row>, string: Option<&[u8]>) -> FoundEffect
    ensures { IfOk result (λ effect. runs.IsEffectFor size.rows size.cols row
        (option_map runs.incremented (option_copied string.entry)) effect) }
{
    match string {
        Some(string) => {
            let text = incremented(alloc, string)?;
            effect_for(alloc, size, row, Some(text.as_slice()))
        }
        None => effect_for(alloc, size, row, None),
    }
}

/// The effect of what the entry's string for `row` sends.
fn effect_in(alloc: Global, size: Size, entry: &Entry, row: Row) -> FoundEffect
    ensures { IfOk result (λ effect.
        runs.IsEffectFor size.rows size.cols (Some row) (string_of entry.now row) effect) }
{
    effect_for(alloc, size, Some(row), entry.get_string(row.cap()))
}

/// The effects that decide the grade of a fault of the entry's `string` for `row`.
pub(crate) fn runs_of(
    alloc: Global,
    size: Size,
    entry: &Entry,
    row: Option<Row>,
    string: Option<&[u8]>,
) -> Result<Runs, AllocError>
    ensures { IfOk result (runs.AreRuns size.rows size.cols entry.now row (option_copied string.entry)) }
{
    Ok(Runs {
        own: effect_for(alloc, size, row, string)?,
        counted: counted_effect(alloc, size, row, string)?,
        enters: effect_in(alloc, size, entry, Row::Smcup)?,
        leaves: effect_in(alloc, size, entry, Row::Rmcup)?,
    })
}

fn is_off(mark: Switch) -> bool
    ensures { result ≡ spec.is_off mark }
{
    match mark {
        Switch::Kept | Switch::On => false,
        Switch::Off => true,
    }
}

fn takes_mark(rendition: Rendering) -> bool
    ensures { result ≡ spec.takes_mark rendition }
{
    is_off(rendition.bold)
        || is_off(rendition.faint)
        || is_off(rendition.underline)
        || is_off(rendition.blink)
        || is_off(rendition.negative)
        || is_off(rendition.concealed)
}

/// Whether the effect takes off a mark of the rendition.
pub(crate) fn takes_rendition(effect: Option<Effect>) -> bool
    ensures { result ≡ spec.takes_rendition effect }
{
    match effect {
        Some(effect) => takes_mark(effect.rendition),
        None => false,
    }
}

fn is_screen(erasure: Erasure) -> bool
    ensures { result ≡ spec.is_screen erasure }
{
    match erasure {
        Erasure::Screen => true,
        Erasure::Nothing | Erasure::Tail | Erasure::Head => false,
        Erasure::Rest | Erasure::Next(_) => false,
    }
}

/// Whether a row or a column of the cursor is `wanted` in the end, wherever it was.
fn is_to(wanted: u16, way: Move) -> bool
    ensures { result ≡ spec.is_to wanted way }
{
    match way {
        Move::To(place) => place == wanted,
        Move::Kept | Move::Back(_) | Move::Forward(_) => false,
    }
}

fn goes_home(effect: Effect) -> bool
    ensures { result ≡ spec.goes_home effect }
{
    is_to(0, effect.row) && is_to(0, effect.col)
}

/// Whether the effect erases every cell, and takes the cursor to the first row and column.
pub(crate) fn clears(effect: Option<Effect>) -> bool
    ensures { result ≡ spec.clears effect }
{
    match effect {
        Some(effect) => is_screen(effect.erasure) && goes_home(effect),
        None => false,
    }
}

/// Whether the effect erases every cell, and leaves the cursor elsewhere than at the first row and column.
pub(crate) fn erases_away(effect: Option<Effect>) -> bool
    ensures { result ≡ spec.erases_away effect }
{
    match effect {
        Some(effect) => is_screen(effect.erasure) && !goes_home(effect),
        None => false,
    }
}

/// Whether the cursor is in `row` in the end.
pub(crate) fn ends_in_row(row: u16, effect: Option<Effect>) -> bool
    ensures { result ≡ spec.ends_in_row row effect }
{
    match effect {
        Some(effect) => is_to(row, effect.row),
        None => false,
    }
}

/// Whether the cursor is in the column `col` in the end.
pub(crate) fn ends_in_col(col: u16, effect: Option<Effect>) -> bool
    ensures { result ≡ spec.ends_in_col col effect }
{
    match effect {
        Some(effect) => is_to(col, effect.col),
        None => false,
    }
}

fn is_region(top: u16, bottom: u16, region: Option<Region>) -> bool
    ensures { result ≡ spec.is_region top bottom region }
{
    match region {
        Some(region) => region.top == top && region.bottom == bottom,
        None => false,
    }
}

/// Whether the effect sets these margins.
pub(crate) fn bounds(top: u16, bottom: u16, effect: Option<Effect>) -> bool
    ensures { result ≡ spec.bounds top bottom effect }
{
    match effect {
        Some(effect) => is_region(top, bottom, effect.margins),
        None => false,
    }
}
