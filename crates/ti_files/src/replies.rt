//! How a reply is written.

ghost use Rattle.std.specs.{Prelude.{◌≡◌, None, IfErr, OnErr, OnOk, true}, Io.KnownBytes.{Appends}};
ghost use Rattle.ti_files.specs.Status.{EndsAs, IsUnwritten};

use crate::failure::{Failure, Reply};
use crate::output::Output;

/// Writes the text of `reply` to `out`, even if the reply has a failure. The reply's own failure comes before
/// a failure of the output.
pub fn write_reply<O: Output>(out: &mut O, reply: Reply) -> Result<(), Failure>
    ensures done { OnOk result (reply.failure ≡ None) }
    ensures written { OnOk result (Appends (O.contents out.old) (O.contents out.new) reply.text.items) }
    ensures failure { IfErr result (λ failure. EndsAs reply.failure
        (Appends (O.contents out.old) (O.contents out.new) reply.text.items) (O.has_failed out.new) failure) }
{
    let Reply {
        notes: _notes,
        text,
        failure,
    } = reply;
    let written = write_text(out, text.as_slice());
    match failure {
        None => written,
        Some(failure) => Err(unwritten(failure, written.is_err())),
    }
}

/// `failure`; a refusal also says that the output failed, if `is_unwritten`.
fn unwritten(failure: Failure, is_unwritten: bool) -> Failure
    ensures { IsUnwritten failure is_unwritten result }
{
    match failure {
        Failure::Refused(refusal) if is_unwritten => Failure::RefusedUnwritten(refusal),
        other => other,
    }
}

/// Writes all of `bytes` to `out`; fails if the output does.
pub fn write_text<O: Output>(out: &mut O, bytes: &[u8]) -> Result<(), Failure>
    ensures written { OnOk result (Appends (O.contents out.old) (O.contents out.new) bytes.now) }
    ensures failure { IfErr result (λ failure. failure ≡ Failure.Output) }
    ensures failed { OnErr result (O.has_failed out.new ≡ true) }
{
    out.put(bytes).map_err(|_| Failure::Output)
}
