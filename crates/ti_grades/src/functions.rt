//! Strings that send functions which the terminal hasn't.

ghost use Rattle.std.specs.{List.{list_any}, Prelude.{◌≡◌, ◌<◌, IfOk, option_copied, option_map, true, false}};
ghost use Rattle.ti_grades.specs.Functions as spec;
ghost use Rattle.ti_rows.specs.Lists.{IsFirst};
ghost use Rattle.ti_rows.specs.Names.{order, capabilities};

use crate::fault_runs::tokens_by;
use std::alloc::{AllocError, Global};
use ti_checker::Cause;
use ti_rows::Row;
use vt_states::ignores;
use vt_term::{Size, Token};

/// An answer, or that memory ran out.
type Answer = Result<bool, AllocError>;

/// Whether a token with these bytes is NUL, BEL or DEL.
fn is_silent(bytes: &[u8]) -> bool
    ensures { result ≡ spec.is_silent bytes.now }
{
    matches!(bytes, [0 | 7 | 127])
}

/// Whether the terminal has no such function as `token`, or not with one of its numbers.
fn is_unknown(token: &Token) -> bool
    ensures { result ≡ spec.is_unknown token.now }
{
    ignores(token.function()) && !is_silent(token.bytes())
}

fn any_unknown(tokens: &[Token]) -> bool
    ensures { result ≡ list_any spec.is_unknown tokens.now }
{
    tokens.iter().any(|token| is_unknown(token))
}

/// Whether there are no whole `tokens`, or one that the terminal hasn't.
fn has_unknown(tokens: &Option<Vec<Token>>) -> bool
    ensures { result ≡ spec.has_unknown (option_map (λ them. them.items) tokens.now) }
{
    match tokens {
        Some(tokens) => any_unknown(tokens.as_slice()),
        None => true,
    }
}

/// Whether `string` sends no whole tokens for `row`, or one that the terminal hasn't.
fn sends_unknown(alloc: Global, string: &[u8], row: Row) -> Answer
    ensures unknown { IfOk result (λ so. so ≡ true → spec.SendsUnknown string.now row) }
    ensures known { IfOk result (λ so. so ≡ false → spec.SendsKnown string.now row) }
{
    let tokens = tokens_by(alloc, string, row)?;
    Ok(has_unknown(&tokens))
}

/// Whether this is so for each parameter list of the capability of the row `first`, its first one.
fn never_known_from(alloc: Global, size: Size, string: &[u8], first: Row) -> Answer
    requires { IsFirst size.rows size.cols first }
    ensures { IfOk result (λ so. spec.IsNeverKnown size.rows size.cols string.now first so) }
{
    let mut row = first;
    loop {
        if !sends_unknown(alloc, string, row)? {
            return Ok(false);
        }
        match row.next(size) {
            Some(next) => row = next,
            None => return Ok(true),
        }
    }
}

/// The row of the capability at `place` in the order of names with its first parameter list.
#[tactic(auto, using(crate::proofs::Lists::has_first, crate::proofs::Lists::first_order))]
fn first_row(size: Size, place: usize) -> Row
    requires { place < capabilities }
    ensures of_cap { order result ≡ place }
    ensures first { IsFirst size.rows size.cols result }
{
    Row::first(place).unwrap()
}

/// Whether this is so for each parameter list of the capability of `row`.
#[tactic(auto, using(crate::proofs::Lists::of_same_cap))]
fn never_known(alloc: Global, size: Size, string: &[u8], row: Row) -> Answer
    ensures { IfOk result (λ so. spec.IsNeverKnown size.rows size.cols string.now row so) }
{
    let first = first_row(size, row.order());
    never_known_from(alloc, size, string, first)
}

/// Whether this is so for each parameter list, where there are a row and a string.
fn never_known_for(alloc: Global, size: Size, row: Option<Row>, string: Option<&[u8]>) -> Answer
    ensures { IfOk result (λ so.
        spec.IsNeverKnownFor size.rows size.cols row (option_copied string.entry) so) }
{
    match row {
        Some(row) => match string {
            Some(string) => never_known(alloc, size, string, row),
            None => Ok(false),
        },
        None => Ok(false),
    }
}

/// Whether this is so for a fault with this `cause`, if it is a wrong effect.
pub(crate) fn is_beyond(
    alloc: Global,
    size: Size,
    cause: Cause,
    row: Option<Row>,
    string: Option<&[u8]>,
) -> Answer
    ensures { IfOk result (λ so.
        spec.IsBeyond size.rows size.cols cause row (option_copied string.entry) so) }
{
    match cause {
        Cause::WrongEffect(_) => never_known_for(alloc, size, row, string),
        Cause::FlagOut | Cause::Absent | Cause::AcsByte | Cause::Parm(_) => Ok(false),
        Cause::StaticRead | Cause::Unfinished | Cause::Stuck => Ok(false),
        Cause::NotTame | Cause::BadLook | Cause::NotShown => Ok(false),
        Cause::TooLong | Cause::NoResync | Cause::NoMemory => Ok(false),
    }
}
