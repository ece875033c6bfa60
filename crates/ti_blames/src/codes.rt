//! The codes of a parameter string, by the places where they end.

ghost use Rattle.std.specs.Prelude.{IfOk, All};
ghost use Rattle.ti_blames.specs.Stretches.{IsWithin};

use crate::stretches::Stretch;
use std::alloc::{AllocError, Global};
use ti_parm::{ParmFault, reads_unset};

/// Whether `front`, which begins a string, ends with a whole code: the front of a code has no meaning of its own.
fn ends_code(alloc: Global, front: &[u8]) -> Result<bool, AllocError> {
    match reads_unset(alloc, front, &[]) {
        Ok(_) => Ok(true),
        Err(ParmFault::BadCode) => Ok(false),
        Err(ParmFault::NoMemory) => Err(AllocError),
        Err(ParmFault::BadNest | ParmFault::Underflow | ParmFault::Overflow) => Ok(true),
        Err(ParmFault::BadChar | ParmFault::WrongKind) => Ok(true),
    }
}

/// The codes of `string` in their order, up to the first that isn't one; a byte that is written as it is is a code too.
pub(crate) fn codes(alloc: Global, string: &[u8]) -> Result<Vec<Stretch>, AllocError>
    ensures { IfOk result (λ codes. All (IsWithin string.now) codes.items) }
{
    let mut codes = Vec::new(alloc);
    let mut from = 0;
    for last in 0..string.len() {
        let to = last + 1;
        if ends_code(alloc, &string[..to])? {
            codes.push(Stretch { from, to })?;
            from = to;
        }
    }
    Ok(codes)
}
