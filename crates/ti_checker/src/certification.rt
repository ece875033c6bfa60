//! An entry's checked strings, or the reason why it has no certificate.

ghost use Rattle.std.specs.Prelude.{◌≡◌, IfErr, IfOk};
ghost use Rattle.ti_caps.specs.Entry.{string_at};
ghost use Rattle.ti_cert.specs.{Basic.{IsBasic}, Table.{table_of}, Verified.{Resyncs}};
ghost use Rattle.ti_checker.specs.Owned as spec;
ghost use Rattle.ti_checker.specs.No.{IsNo};
ghost use Rattle.ti_conforms.specs.{Conforms.{Conforms}, Entries.{EntryAgrees, acsc}};

use crate::{Cause, No, check};
use std::alloc::Global;
use ti_caps::Entry;
use ti_cert::{Checked, VerifyFault, verify};
use ti_rows::Row;
use vt_term::Size;

/// The strings of `entry` for `size`: those of the certificate that `crate::check` writes, as `ti_cert::verify`
/// accepts it. For most entries no text is made: each string is judged once, and all strings together at the end. An
/// entry that `ti_cert::certify` refuses, as it does when the lines may be too long, is checked and verified.
///
/// # Errors
/// The refusal of `check`, for the same first reason. An entry that has a certificate is refused only when memory runs
/// out.
pub fn certify(alloc: Global, entry: &Entry, size: Size) -> Result<Checked, No>
    ensures own { IfOk result (spec.IsOwnTable entry.now size.rows size.cols) }
    ensures conforms { IfOk result (λ _. Conforms entry.now size.rows size.cols) }
    ensures rows { IfOk result (λ checked. checked.known.strings.rows ≡ size.rows) }
    ensures cols { IfOk result (λ checked. checked.known.strings.cols ≡ size.cols) }
    ensures sends { IfOk result (λ checked. EntryAgrees size.rows size.cols entry.now (table_of checked).line_of) }
    ensures acsc { IfOk result (λ checked. checked.acsc ≡ string_at entry.now acsc) }
    ensures resyncs { IfOk result (λ checked. Resyncs (table_of checked)) }
    ensures basic { IsBasic entry.now size.rows size.cols
        → IfErr result (λ refusal. refusal.cause ≡ Cause.NoMemory) }
    ensures refused { IfErr result (IsNo entry.now size.rows size.cols) }
{
    if let Ok(checked) = ti_cert::certify(alloc, entry, size) {
        return Ok(checked);
    }
    let text = check(alloc, entry, size)?;
    match verify(alloc, entry, size, text.as_slice()) {
        Ok(checked) => Ok(checked),
        Err(fault) => Err(out_of_memory(fault)),
    }
}

/// The refusal for want of memory, the only `fault` for which an entry's own certificate isn't accepted.
fn out_of_memory(fault: VerifyFault) -> No
    requires { spec.IsMemory fault }
    ensures { result.cause ≡ Cause.NoMemory }
{
    let _ = fault;
    No::of(Row::Clear.cap(), Cause::NoMemory)
}
