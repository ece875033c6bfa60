//! The calls that make windows.
ghost use Rattle.cur_play.specs.Groups.{Makes, making};
ghost use Rattle.cur_play.specs.Windows as spec;

use crate::answers::Outcome;
use cur_pads::{newpad, subpad};
use cur_scripts::{Call, PartCall};
use cur_windows::Desk;

/// Makes a window in `desk`, if that is what `call` does; `None` for any other call.
pub(crate) fn make(desk: &mut Desk, call: &Call<'_>) -> Option<Outcome>
    ensures { Makes desk.old desk.new result (spec.takes_memory call.now) (making desk.old call.now) }
{
    match call {
        Call::Newwin {
            window,
            lines,
            cols,
            y,
            x,
        } => Some(desk.newwin(*window, *lines, *cols, *y, *x)),
        Call::Newpad {
            window,
            lines,
            cols,
        } => Some(newpad(desk, *window, *lines, *cols)),
        Call::Part {
            call,
            window,
            parent,
            lines,
            cols,
            y,
            x,
        } => Some(match call {
            PartCall::Subwin => desk.subwin(*window, *parent, *lines, *cols, *y, *x),
            PartCall::Derwin => desk.derwin(*window, *parent, *lines, *cols, *y, *x),
            PartCall::Subpad => subpad(desk, *window, *parent, *lines, *cols, *y, *x),
        }),
        Call::Dupwin { window, source } => Some(desk.dupwin(*window, *source)),
        _ => None,
    }
}
