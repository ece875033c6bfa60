//! The kind of a sequence that the terminal ignores.

ghost use Rattle.std.specs.Prelude.{◌≡◌, ◌++◌, IfOk, OnOk, Some};
ghost use Rattle.vt_states.specs.Kinds as spec;

use crate::ignored::{Lack, is_numeral};
use std::alloc::{AllocError, Global};

/// The kind of a control sequence with these bytes between ESC `[` and its final byte, of which T lacks this: the
/// sequence without its numbers, but for the one that is lacking. Fails only when out of memory.
pub(crate) fn control_kind(
    alloc: Global,
    lack: Lack,
    front: &[u8],
    last: u8,
) -> Result<Vec<u8>, AllocError>
    ensures { IfOk result (λ kind. kind.items ≡ spec.control_kind (Some lack) front.now last) }
{
    let mut kind = Vec::from_slice(alloc, b"\x1b[")?;
    push_marks(&mut kind, front)?;
    push_number(alloc, lack, &mut kind)?;
    kind.push(last)?;
    Ok(kind)
}

/// Adds the bytes that are neither digits nor semicolons.
fn push_marks(kind: &mut Vec<u8>, front: &[u8]) -> Result<(), AllocError>
    ensures { OnOk result (kind.new.items ≡ kind.old.items ++ spec.marks front.now) }
{
    for byte in front {
        push_mark(kind, *byte)?;
    }
    Ok(())
}

fn push_mark(kind: &mut Vec<u8>, byte: u8) -> Result<(), AllocError>
    ensures { OnOk result (kind.new.items ≡ kind.old.items ++ spec.mark byte) }
{
    if is_numeral(byte) {
        Ok(())
    } else {
        kind.extend_from_slice(&[byte])
    }
}

/// Adds the number that is lacking.
fn push_number(alloc: Global, lack: Lack, kind: &mut Vec<u8>) -> Result<(), AllocError>
    ensures { OnOk result (kind.new.items ≡ kind.old.items ++ spec.number_text (Some lack)) }
{
    match lack {
        Lack::Sequence => Ok(()),
        Lack::Number(number) => {
            let digits = format!(in alloc; "{number}")?;
            kind.extend_from_slice(digits.as_bytes())
        }
    }
}
