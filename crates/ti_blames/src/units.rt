//! The units of what a string sends: each control function, and of SGR each parameter.

ghost use Rattle.std.specs.Prelude.{◌≤◌, ◌+◌, length};

use crate::Stretch;
use std::alloc::{AllocError, Global};
use vt_effects::{Effect, Start, effect_of};
use vt_term::{Function, Size, Token, TokenFaultKind, tokens};

/// A unit.
#[derive(Drop)]
pub(crate) struct Unit {
    /// Its bytes.
    pub(crate) bytes: Stretch,
    /// The bytes that are sent up to its end, as whole control functions.
    pub(crate) front: Vec<u8>,
}

/// The units of what splits into `tokens`, in their order.
pub(crate) fn units(alloc: Global, tokens: &[Token]) -> Result<Vec<Unit>, AllocError> {
    let mut units = Vec::new(alloc);
    let mut front = Vec::new(alloc);
    for token in tokens {
        if let Function::SelectRendition(_) = token.function() {
            push_parameters(alloc, front.as_slice(), token.bytes(), &mut units)?;
        } else {
            units.push(whole_unit(alloc, front.as_slice(), token.bytes())?)?;
        }
        front.extend_from_slice(token.bytes())?;
    }
    Ok(units)
}

/// The unit of a whole `token` behind what was sent `before`.
fn whole_unit(alloc: Global, before: &[u8], token: &[u8]) -> Result<Unit, AllocError> {
    let mut front = Vec::from_slice(alloc, before)?;
    front.extend_from_slice(token)?;
    let bytes = Stretch {
        from: before.len(),
        to: front.len(),
    };
    Ok(Unit { bytes, front })
}

/// Adds the units of the parameters of SGR, the `token` behind what was sent `before`. A parameter that is left out has
/// the bytes of the whole token.
fn push_parameters(
    alloc: Global,
    before: &[u8],
    token: &[u8],
    units: &mut Vec<Unit>,
) -> Result<(), AllocError> {
    let mut start = 2;
    for (at, byte) in token.iter().enumerate() {
        if *byte == b';' || *byte == b'm' {
            let parameter = if start < at {
                Stretch {
                    from: start,
                    to: at,
                }
            } else {
                Stretch {
                    from: 0,
                    to: token.len(),
                }
            };
            units.push(Unit {
                bytes: moved(parameter, before.len()),
                front: cut_short(alloc, before, &token[..at])?,
            })?;
            start = at + 1;
        }
    }
    Ok(())
}

/// `stretch`, shifted right by `before` bytes.
pub(crate) fn moved(stretch: Stretch, before: usize) -> Stretch {
    Stretch {
        from: before.saturating_add(stretch.from),
        to: before.saturating_add(stretch.to),
    }
}

/// The bytes `before`, and SGR with the parameters of `begun`.
fn cut_short(alloc: Global, before: &[u8], begun: &[u8]) -> Result<Vec<u8>, AllocError> {
    let mut front = Vec::from_slice(alloc, before)?;
    front.extend_from_slice(begun)?;
    front.push(b'm')?;
    Ok(front)
}

/// The tokens of `bytes`, or the stretch that isn't one: a byte without meaning, or the sequence that has no end.
pub(crate) fn tokens_of(
    alloc: Global,
    bytes: &[u8],
) -> Result<Result<Vec<Token>, Stretch>, AllocError> {
    match tokens(alloc, bytes) {
        Ok(found) => Ok(Ok(found)),
        Err(fault) => match fault.kind {
            TokenFaultKind::NoMemory => Err(AllocError),
            TokenFaultKind::Stuck => Ok(Err(Stretch {
                from: fault.at,
                to: fault.at.saturating_add(1),
            })),
            TokenFaultKind::Unfinished => Ok(Err(Stretch {
                from: fault.at,
                to: bytes.len(),
            })),
        },
    }
}

/// The effect of `bytes` from every state that `start` allows; `None` if they have no record.
pub(crate) fn effect_in(
    alloc: Global,
    bytes: &[u8],
    size: Size,
    start: &Start,
) -> Result<Option<Effect>, AllocError> {
    match tokens_of(alloc, bytes)? {
        Ok(found) => Ok(effect_of(found.as_slice(), size, start)),
        Err(_) => Ok(None),
    }
}
