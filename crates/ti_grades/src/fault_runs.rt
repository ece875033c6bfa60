//! The row that a fault is about, and what the entry's string sends for it.

ghost use Rattle.std.specs.Prelude.{◌≡◌, IfOk, option_and_then, option_copied, option_map};
ghost use Rattle.ti_caps.specs.Table.{name_at};
ghost use Rattle.ti_grades.specs.FaultRuns as spec;
ghost use Rattle.ti_rows.specs.Params.{with_params};

use std::alloc::{AllocError, Global};
use ti_caps::{Cap, name};
use ti_checker::No;
use ti_conforms::{SendFault, send};
use ti_rows::Row;
use vt_term::{Token, TokenFaultKind, tokens};

/// Bytes, if there are any; or that memory ran out.
type Found = Result<Option<Vec<u8>>, AllocError>;

/// Tokens, if whole ones are sent; or that memory ran out.
type FoundTokens = Result<Option<Vec<Token>>, AllocError>;

/// The row of the table with the capability and the parameters of `no`; `None` if there is none.
pub fn row_of(no: &No) -> Option<Row>
    ensures { spec.IsRowFor no.now result }
{
    with_params(first_row(no.cap), no.params.as_slice())
}

/// The first row of `cap`.
fn first_row(cap: Cap) -> Option<Row>
    ensures { spec.IsNamed (name_at cap) result }
{
    Row::named(name(cap))
}

/// The `row` with these parameters.
fn with_params(row: Option<Row>, numbers: &[u16]) -> Option<Row>
    ensures { result ≡ option_and_then (λ it. with_params it numbers.now) row }
{
    match row {
        Some(row) => row.with_params(numbers),
        None => None,
    }
}

/// The bytes that `string` sends for `row`, where there are both; `None` where it can't be expanded.
///
/// # Errors
/// Out of memory.
pub fn sent_for(alloc: Global, row: Option<Row>, string: Option<&[u8]>) -> Found
    ensures { IfOk result (λ sent. spec.IsSentFor row (option_copied string.entry)
        (option_map (λ bytes. bytes.items) sent)) }
{
    match row {
        Some(row) => match string {
            Some(string) => sent_by(alloc, string, row),
            None => Ok(None),
        },
        None => Ok(None),
    }
}

/// The bytes that `string` sends for `row`; `None` where it can't be expanded.
#[tactic(auto, using(crate::proofs::Sends::unsent_sends_nothing))]
fn sent_by(alloc: Global, string: &[u8], row: Row) -> Found
    ensures { IfOk result (λ sent. spec.IsSentBy string.now row (option_map (λ bytes. bytes.items) sent)) }
{
    match send(alloc, string, row) {
        Ok(bytes) => Ok(Some(bytes)),
        Err(SendFault::NoMemory) => Err(AllocError),
        Err(SendFault::Fault(_) | SendFault::StaticRead) => Ok(None),
    }
}

/// The tokens that `string` sends for `row`; `None` where it sends no whole ones.
#[tactic(auto, using(crate::proofs::Sends::sent_tokens))]
pub(crate) fn tokens_by(alloc: Global, string: &[u8], row: Row) -> FoundTokens
    ensures { IfOk result (λ found. spec.AreTokensOf string.now row (option_map (λ them. them.items) found)) }
{
    match send(alloc, string, row) {
        Ok(bytes) => whole_tokens(alloc, bytes.as_slice()),
        Err(SendFault::NoMemory) => Err(AllocError),
        Err(SendFault::Fault(_fault)) => Ok(None),
        Err(SendFault::StaticRead) => Ok(None),
    }
}

/// The tokens of `bytes`; `None` if they aren't whole tokens.
#[tactic(auto, using(crate::proofs::Sends::unwhole))]
fn whole_tokens(alloc: Global, bytes: &[u8]) -> FoundTokens
    ensures { IfOk result (λ found. spec.AreWhole bytes.now (option_map (λ them. them.items) found)) }
{
    match tokens(alloc, bytes) {
        Ok(found) => Ok(Some(found)),
        Err(fault) => match fault.kind {
            TokenFaultKind::NoMemory => Err(AllocError),
            TokenFaultKind::Unfinished | TokenFaultKind::Stuck => Ok(None),
        },
    }
}
