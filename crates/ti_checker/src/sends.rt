//! The bytes that a string sends for a row, or its fault.

ghost use Rattle.std.specs.Prelude.{IfErr, IfOk, OnOk};
ghost use Rattle.ti_checker.specs.No as spec;
ghost use Rattle.ti_conforms.specs.Sends as sends;

use crate::causes::Cause;
use std::alloc::Global;
use ti_conforms::SendFault;
use ti_forms::send_into;
use ti_rows::Row;

/// Replaces `bytes` by the bytes that `string` sends for `row`.
pub(crate) fn sent_into(
    alloc: Global,
    string: &[u8],
    row: Row,
    bytes: &mut Vec<u8>,
) -> Result<(), Cause>
    ensures sends { OnOk result (sends.Sends string.now row bytes.new.items) }
    ensures unsent { IfErr result (λ cause. spec.IsUnsendable string.now row cause) }
{
    match send_into(alloc, string, row, bytes) {
        Ok(()) => Ok(()),
        Err(SendFault::NoMemory) => Err(Cause::NoMemory),
        Err(SendFault::StaticRead) => Err(Cause::StaticRead),
        Err(SendFault::Fault(fault)) => Err(Cause::Parm(fault)),
    }
}

/// The bytes that `string` sends for `row`.
pub(crate) fn sent(alloc: Global, string: &[u8], row: Row) -> Result<Vec<u8>, Cause>
    ensures sends { IfOk result (λ bytes. sends.Sends string.now row bytes.items) }
    ensures unsent { IfErr result (λ cause. spec.IsUnsendable string.now row cause) }
{
    let mut bytes = Vec::new(alloc);
    sent_into(alloc, string, row, &mut bytes)?;
    Ok(bytes)
}
