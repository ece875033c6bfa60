//! Ringing the bell.
ghost use Rattle.std.specs.Prelude.{◌≡◌, true};
ghost use Rattle.cur_paint.specs.declared.updates.Status.TheVariants.{Lost};
ghost use Rattle.cur_update.specs.Beep.{Rings};

use cur_drawing::Refusal;
use cur_paint::{Knowledge, Status};
use cur_steps::{Wire, WireFault, send_all};
use ti_conforms::Certificate;
use ti_rows::Row;

/// Why nothing, or not all, was sent.
#[derive(Clone, Copy)]
pub enum Unsent {
    /// The call is refused.
    Refused(Refusal),
    /// The wire failed.
    Wire(WireFault),
}

/// Rings the bell. Fails with `NoCap` if the entry has no `bel`, then with `IsLost` if `session` is lost; nothing was
/// sent then. If the wire fails, a prefix of the string went out, and the session is lost.
pub(crate) fn ring<C: Certificate, W: Wire>(
    checked: &C,
    session: &mut Knowledge,
    wire: &mut W,
) -> Result<(), Unsent>
    ensures rings { Rings W.went W.failures wire.old wire.new result (C.table checked.now) session.old session.new }
{
    // only this call's contract says that the certificate is verified
    let _ = checked.rows();
    let Some(line) = checked.line(Row::Bel) else {
        return Err(Unsent::Refused(Refusal::NoCap));
    };
    if is_lost(session.status) {
        return Err(Unsent::Refused(Refusal::IsLost));
    }
    match send_all(wire, line) {
        Ok(()) => Ok(()),
        Err(fault) => {
            session.status = Status::Lost;
            Err(Unsent::Wire(fault))
        }
    }
}

/// Whether `status` is that of a lost session.
fn is_lost(status: Status) -> bool
    ensures so { result ≡ true → status ≡ Lost }
    ensures only { status ≡ Lost → result ≡ true }
{
    matches!(status, Status::Lost)
}
