//! Whether a text has one effect at all sizes.

ghost use Rattle.std.specs.Prelude.{IsTrue, IfOk};
ghost use Rattle.ti_sizes.specs.Steady as spec;

use crate::steps::{greatest, is_steady_step};
use std::alloc::{AllocError, Global};
use ti_rows::Row;
use vt_effects::effect_of;
use vt_term::{Token, TokenFaultKind, tokens};

/// Whether `tokens` have the record of the greatest size at each size that allows `row`.
fn are_steady(row: Row, tokens: &[Token]) -> bool
    ensures { IsTrue result → spec.IsSteady row tokens.now }
{
    let size = greatest();
    let start = row.start(size);
    for count in 0..tokens.len() {
        let Some(effect) = effect_of(&tokens[..count], size, &start) else {
            return false;
        };
        if !is_steady_step(row, tokens[count].function(), &effect) {
            return false;
        }
    }
    true
}

/// Whether `text` is whole tokens that have the record of the greatest size at each size that allows `row`.
pub(crate) fn is_steady(alloc: Global, row: Row, text: &[u8]) -> Result<bool, AllocError>
    ensures { IfOk result (λ yes. IsTrue yes → spec.IsSteadyText row text.now) }
{
    match tokens(alloc, text) {
        Ok(found) => Ok(are_steady(row, found.as_slice())),
        Err(fault) => match fault.kind {
            TokenFaultKind::NoMemory => Err(AllocError),
            TokenFaultKind::Unfinished | TokenFaultKind::Stuck => Ok(false),
        },
    }
}
