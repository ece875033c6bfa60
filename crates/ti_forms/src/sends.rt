//! The bytes that a string sends for a row.

ghost use Rattle.std.specs.Prelude.{◌≡◌, ◌<◌, IfErr, IfOk, IfSome, OnOk, false, true};
ghost use Rattle.ti_conforms.specs.Sends.{IsUnsent, Sends};
ghost use Rattle.ti_forms.specs.Forms.{IsStandardFor, IsStandardSent, bytes_of};

use crate::forms::{Form, form_of, form_sent, is_standard};
use std::alloc::{AllocError, Global};
use ti_conforms::SendFault;
use ti_rows::Row;

/// Replaces the content of `bytes` by a control sequence, whose numbers must be below 1000.
pub(crate) fn form_into(form: Form, bytes: &mut Vec<u8>) -> Result<(), AllocError>
    requires first { form.first < 1000 }
    requires second { IfSome form.second (λ number. number < 1000) }
    ensures { OnOk result (bytes.new.items ≡ bytes_of form) }
{
    bytes.clear();
    bytes.extend_from_slice(form.bytes().as_slice())
}

/// Replaces the content of `out` by the bytes that `string` sends for `row`, as `send_into` of `ti_conforms` does.
/// A string that is the standard's for the row's capability isn't run.
///
/// # Errors
/// `Fault` if the string can't be expanded; `StaticRead` if it reads a static variable before it sets it; or
/// `NoMemory`. The content of `out` is then unspecified.
pub fn send_into(alloc: Global, string: &[u8], row: Row, out: &mut Vec<u8>) -> Result<(), SendFault>
    ensures sends { OnOk result (Sends string.now row out.new.items) }
    ensures unsent { IfErr result (λ why. IsUnsent string.now row why) }
{
    match form_sent(string, row) {
        Some(form) => match form_into(form, out) {
            Ok(()) => Ok(()),
            Err(_) => Err(SendFault::NoMemory),
        },
        None => ti_conforms::send_into(alloc, string, row, out),
    }
}

/// Whether `string` is the standard's for the row's capability, and the row's numbers are ones that a screen can have:
/// then the content of `bytes` is replaced by what it sends for `row`, which has the row's standard effect. If not,
/// `bytes` stays.
///
/// # Errors
/// Fails if memory runs out. The content of `bytes` is then unspecified.
pub fn standard_into(string: &[u8], row: Row, bytes: &mut Vec<u8>) -> Result<bool, AllocError>
    ensures sent { IfOk result (λ standard. standard ≡ true → IsStandardSent row string.now bytes.new.items) }
    ensures other { IfOk result (λ standard. standard ≡ false → IsStandardFor row string.now → ⊥) }
    ensures kept { IfOk result (λ standard. standard ≡ false → bytes.new ≡ bytes.old) }
{
    let Some(form) = form_of(row) else {
        return Ok(false);
    };
    if !is_standard(string, row) {
        return Ok(false);
    }
    form_into(form, bytes)?;
    Ok(true)
}
