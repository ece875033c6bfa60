//! Whether a parameter string serves as `cup`: whether it moves the cursor to every place of the screen, wherever the
//! cursor was before.

ghost use Rattle.std.specs.Prelude.{◌≡◌, ◌<◌, ◌≤◌, false, IfErr, IfOk, IsTrue, Ok, OnOk};
ghost use Rattle.ti_parm.specs.Meaning.{sent};
ghost use Rattle.ti_conforms.specs.CupReach as spec;
ghost use Rattle.vt_term.specs.Run as run;

use std::alloc::Global;
use ti_parm::{Param, ParmFault};
use vt_effects::{Effect, Margins, Move, Start, effect_of};
use vt_term::{Size, Token, TokenFaultKind, place_after, tokens};

/// The reason why a string doesn't reach a place.
#[derive(Clone, Copy, Debug, PartialEq, Eq)]
pub enum MissKind {
    /// The string can't be expanded for this place.
    Parm,
    /// The expanded bytes end inside a sequence, or one of them can neither continue nor begin a token.
    Token,
    /// From some state at rest, the bytes leave the cursor elsewhere.
    Misses,
    /// Nothing is known: the effect of the bytes differs between states at rest, or no record can describe it, and
    /// they don't end in CUP.
    Undecided,
    /// Out of memory.
    NoMemory,
}

/// The first place that a string isn't known to reach: row by row, each from column 0.
#[derive(Clone, Copy, Debug, PartialEq, Eq)]
pub struct Miss {
    /// The row, from 0.
    pub row: usize,
    /// The column, from 0.
    pub col: usize,
    /// The reason.
    pub kind: MissKind,
}

/// Nothing if all these places are reached, or else the first one that isn't known to be.
pub type Reached = Result<(), Miss>;

/// Nothing if a place is reached, or else the reason why it isn't known to be.
type Hit = Result<(), MissKind>;

/// A place of the screen.
#[derive(Clone, Copy)]
struct Place {
    /// The row, from 0.
    row: usize,
    /// The column, from 0.
    col: usize,
}

/// Whether `string` serves as `cup` on a terminal of this `size` (terminfo(5), "Cursor Motions").
///
/// Ok is proved: for each row and column the string expands to whole tokens, and from every state at rest they leave
/// the cursor there. The errors `Parm`, `Token` and `Misses` are proved too, each for its place, and all places
/// before that one are reached. `Undecided` says that the tokens have no effect record from all states at rest, and
/// that the last one isn't CUP.
pub fn reach_cup(alloc: Global, string: &[u8], size: Size) -> Reached
    ensures reached { OnOk result (spec.ServesAsCup string.now size.rows size.cols) }
    ensures row { IfErr result (λ miss. miss.row < size.rows) }
    ensures col { IfErr result (λ miss. miss.col < size.cols) }
    ensures first { IfErr result (λ miss. spec.ReachesBefore string.now size.rows size.cols miss.row miss.col) }
    ensures why { IfErr result (λ miss. spec.TellsWhy string.now size.rows size.cols miss.row miss.col miss.kind) }
{
    let mut bytes = Vec::new(alloc);
    for row in 0..size.rows {
        reach_row(alloc, string, size, row, &mut bytes)?;
    }
    Ok(())
}

/// Checks that the string reaches each place of one row. `bytes` is room for the bytes sent for one place.
fn reach_row(alloc: Global, string: &[u8], size: Size, row: usize, bytes: &mut Vec<u8>) -> Reached
    requires { row < size.rows }
    ensures reached { OnOk result (spec.ReachesInRow string.now size.rows size.cols row size.cols) }
    ensures row { IfErr result (λ miss. miss.row ≡ row) }
    ensures col { IfErr result (λ miss. miss.col < size.cols) }
    ensures first { IfErr result (λ miss. spec.ReachesInRow string.now size.rows size.cols row miss.col) }
    ensures why { IfErr result (λ miss. spec.TellsWhy string.now size.rows size.cols row miss.col miss.kind) }
{
    for col in 0..size.cols {
        match reach_place(alloc, string, size, Place { row, col }, bytes) {
            Ok(()) => {}
            Err(kind) => return Err(Miss { row, col, kind }),
        }
    }
    Ok(())
}

/// Checks that the string reaches one place.
fn reach_place(alloc: Global, string: &[u8], size: Size, place: Place, bytes: &mut Vec<u8>) -> Hit
    requires row_in { place.row < size.rows }
    requires col_in { place.col < size.cols }
    ensures reached { OnOk result (spec.StringReaches string.now size.rows size.cols place.row place.col) }
    ensures why { IfErr result (λ kind. spec.TellsWhy string.now size.rows size.cols place.row place.col kind) }
{
    send(alloc, string, place, bytes)?;
    check_bytes(alloc, bytes.as_slice(), size, place)
}

/// Replaces the contents of `bytes` by what the string sends for one place.
fn send(alloc: Global, string: &[u8], place: Place, bytes: &mut Vec<u8>) -> Hit
    requires row_in { place.row < 500 }
    requires col_in { place.col < 500 }
    ensures sends { OnOk result (sent string.now (spec.place place.row place.col) ≡ Ok bytes.new.items) }
    ensures why { IfErr result (λ kind. spec.TellsWhyUnsent string.now place.row place.col kind) }
{
    bytes.clear();
    let params = [
        Param::Number(place.row as i32),
        Param::Number(place.col as i32),
    ];
    match ti_parm::sent(alloc, string, &params, bytes) {
        Ok(()) => Ok(()),
        Err(ParmFault::NoMemory) => Err(MissKind::NoMemory),
        Err(_) => Err(MissKind::Parm),
    }
}

/// Checks that the bytes `sent` are whole tokens that leave the cursor at the place.
fn check_bytes(alloc: Global, sent: &[u8], size: Size, place: Place) -> Hit
    requires row_in { place.row < size.rows }
    requires col_in { place.col < size.cols }
    ensures whole { OnOk result (spec.IsWhole sent.now) }
    ensures leads { OnOk result (run.Reaches size.rows size.cols sent.now place.row place.col) }
    ensures why { IfErr result (λ kind. spec.IsMiss size.rows size.cols sent.now place.row place.col kind) }
{
    match tokens(alloc, sent) {
        Ok(found) => check_tokens(&found, size, place),
        Err(fault) => Err(match fault.kind {
            TokenFaultKind::NoMemory => MissKind::NoMemory,
            TokenFaultKind::Unfinished | TokenFaultKind::Stuck => MissKind::Token,
        }),
    }
}

/// Checks that these tokens leave the cursor at the place, by their effect from rest, or else by the last one.
fn check_tokens(tokens: &[Token], size: Size, place: Place) -> Hit
    ensures leads { OnOk result (spec.TokensReach size.rows size.cols tokens.now place.row place.col) }
    ensures why { IfErr result (λ kind. spec.TokensMiss size.rows size.cols tokens.now place.row place.col kind) }
{
    match effect_of(tokens, size, &at_rest(size)) {
        Some(effect) => check_effect(&effect, size, place),
        None => match place_after(tokens, size) {
            Some(end) if end == (place.row, place.col) => Ok(()),
            Some(_) => Err(MissKind::Misses),
            None => Err(MissKind::Undecided),
        },
    }
}

/// Checks that an effect leaves every cursor at the place.
fn check_effect(effect: &Effect, size: Size, place: Place) -> Hit
    ensures reached { OnOk result (spec.EndsThere size.rows size.cols effect.now place.row place.col) }
    ensures why { IfErr result (λ kind. spec.EndsElsewhere size.rows size.cols effect.now place.row place.col kind) }
{
    if leads_all(effect.row, size.rows, place.row) && leads_all(effect.col, size.cols, place.col) {
        Ok(())
    } else {
        Err(MissKind::Misses)
    }
}

/// Whether a move leads from each of `count` rows or columns to `to`. It suffices to test the first and the last.
fn leads_all(way: Move, count: usize, to: usize) -> bool
    requires some { 1 ≤ count }
    requires small { count ≤ 500 }
    ensures all { IsTrue result → spec.LeadsAll way count to }
    ensures some { result ≡ false → spec.MissesFromSome way count to }
{
    way.leads_from(0) == to && way.leads_from((count - 1) as u16) == to
}

/// All states at rest.
fn at_rest(size: Size) -> Start
    ensures { result ≡ spec.at_rest size.rows size.cols }
{
    Start {
        row_min: 0,
        row_max: (size.rows - 1) as u16,
        col_min: 0,
        col_max: (size.cols - 1) as u16,
        pending: true,
        margins: Margins::Whole,
    }
}
