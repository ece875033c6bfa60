//! The end of a program's screen.
ghost use Rattle.std.specs.Prelude.{◌≡◌};
ghost use Rattle.cur_steps.specs.Wire.{Sends};
ghost use Rattle.cur_paint.specs.declared.updates.Status.TheVariants.{Lost};
ghost use Rattle.cur_paint.specs.Finish.{Finishes, end_text, finish_text};

use crate::updates::{Knowledge, Status};
use cur_steps::{Wire, WireFault, send_all, send_rows};
use ti_conforms::Certificate;
use ti_rows::Row;

/// Turns all attributes off, makes the plain set the active one, moves the cursor to the last line, makes it visible,
/// and brings back the screen from before.
fn send_end<C: Certificate, W: Wire>(checked: &C, wire: &mut W) -> Result<(), WireFault>
    ensures sends { Sends W.went W.failures wire.old wire.new (end_text (C.table checked.now)) result }
{
    let last = Row::Cup(checked.rows() as u16 - 1, 0);
    let rows = [Row::Sgr0, Row::Rmacs, last, Row::Cnorm, Row::Rmcup];
    send_rows(checked, &rows, wire)
}

/// Resynchronizes, and goes on as `send_end` does.
fn send_anew<C: Certificate, W: Wire>(checked: &C, wire: &mut W) -> Result<(), WireFault>
    ensures sends { Sends W.went W.failures wire.old wire.new (finish_text (C.table checked.now) Lost) result }
{
    send_all(wire, checked.resync())?;
    send_end(checked, wire)
}

/// Sends the end of a session of this `status`.
fn send_finish<C: Certificate, W: Wire>(
    checked: &C,
    status: Status,
    wire: &mut W,
) -> Result<(), WireFault>
    ensures sends { Sends W.went W.failures wire.old wire.new (finish_text (C.table checked.now) status) result }
{
    match status {
        Status::Fresh => Ok(()),
        Status::Known => send_end(checked, wire),
        Status::Lost => send_anew(checked, wire),
    }
}

/// Ends a program's screen: sends `sgr0`, `rmacs`, `cup` to the last line's first column, `cnorm` and `rmcup`, those
/// that the entry has, after the resynchronization if `session` is lost; nothing if it is fresh. The session is then
/// fresh. If `wire` fails, a proper prefix of this went out, and the session is lost.
pub fn finish<C: Certificate, W: Wire>(
    checked: &C,
    session: &mut Knowledge,
    wire: &mut W,
) -> Result<(), WireFault>
    ensures finishes { Finishes W.went W.failures wire.old wire.new result (C.table checked.now)
        session.old session.new }
{
    // only this call's contract says that the certificate is verified
    let _ = checked.rows();
    let status = session.status;
    session.status = Status::Lost;
    send_finish(checked, status, wire)?;
    session.status = Status::Fresh;
    Ok(())
}
