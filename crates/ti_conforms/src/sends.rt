//! The bytes that a string sends for a row.

ghost use Rattle.std.specs.Prelude.{◌≡◌, IfErr, IfOk, OnOk};
ghost use Rattle.ti_parm.specs.Value.{values_of};
ghost use Rattle.ti_conforms.specs.Sends as spec;

use arrayvec::ArrayVec;
use std::alloc::Global;
use ti_parm::{Param, ParmFault, sent_and_reads_unset};
use ti_rows::Row;

/// Why a string sends nothing for a row.
#[derive(Clone, Copy, Debug, PartialEq, Eq)]
pub enum SendFault {
    /// The string can't be expanded with these parameters.
    Fault(ParmFault),
    /// The string reads a static variable before it sets it.
    StaticRead,
    /// Out of memory.
    NoMemory,
}

/// The row's parameters, as a string takes them.
fn values(row: Row) -> ArrayVec<Param<'static>, 9>
    ensures { values_of result.items ≡ spec.values row }
{
    let params = row.params();
    let mut values = ArrayVec::new();
    for number in params.as_slice() {
        values.push(Param::Number(i32::from(*number)));
    }
    values
}

/// Replaces the content of `out` by the bytes that `string` sends for `row`: the string expanded with the
/// row's parameters, from static variables that are all 0, without its delays (terminfo(5), "Parameterized
/// Strings" and "Delays and Padding"). Memory is requested if `out` has to grow, and for a deep stack.
///
/// # Errors
/// `Fault` if the string can't be expanded; `StaticRead` if it reads a static variable before it sets it, so
/// that its bytes would depend on earlier strings; or `NoMemory`. The content of `out` is then unspecified.
pub fn send_into(alloc: Global, string: &[u8], row: Row, out: &mut Vec<u8>) -> Result<(), SendFault>
    ensures sends { OnOk result (spec.Sends string.now row out.new.items) }
    ensures unsent { IfErr result (λ why. spec.IsUnsent string.now row why) }
{
    let values = values(row);
    out.clear();
    let reads = match sent_and_reads_unset(alloc, string, values.as_slice(), out) {
        Ok(reads) => reads,
        Err(ParmFault::NoMemory) => return Err(SendFault::NoMemory),
        Err(fault) => return Err(SendFault::Fault(fault)),
    };
    if reads {
        return Err(SendFault::StaticRead);
    }
    Ok(())
}

/// The bytes that `string` sends for `row`, in a new vector.
///
/// # Errors
/// As for [`send_into`].
pub fn send(alloc: Global, string: &[u8], row: Row) -> Result<Vec<u8>, SendFault>
    ensures sends { IfOk result (λ bytes. spec.Sends string.now row bytes.items) }
    ensures unsent { IfErr result (λ why. spec.IsUnsent string.now row why) }
{
    let mut bytes = Vec::new(alloc);
    match send_into(alloc, string, row, &mut bytes) {
        Ok(()) => Ok(bytes),
        Err(why) => Err(why),
    }
}
