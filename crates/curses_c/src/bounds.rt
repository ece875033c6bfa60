//! The bound of a refresh as a number.
ghost use Rattle.std.specs.Prelude.{◌≡◌};
ghost use Rattle.ti_cert.specs.Table.{certified};
ghost use Rattle.ti_conforms.specs.Certified.{cell_limit};
ghost use Rattle.curses_c.specs.Sessions.{Counts, most_of};

use crate::handles::Handle;
use std::alloc::Global;

/// The most bytes that a cell takes, with its move and all changes of its look; 0 if `handle` is closed.
#[unsafe(no_mangle)]
pub extern "C" fn ticurses_raw_cell_limit(alloc: Global, handle: &mut Handle) -> usize
    ensures { Counts (λ h. cell_limit (certified h.session.painter.checked)) (handle.old).slot.held result
        (handle.new).slot.held }
{
    let Some(held) = handle.take(alloc) else {
        return 0;
    };
    let limit = held.session.cell_limit();
    handle.put(held);
    limit
}

/// The most bytes that the call `doupdate` adds to those that wait if it comes next; 0 if `handle` is closed.
#[unsafe(no_mangle)]
pub extern "C" fn ticurses_raw_most(alloc: Global, handle: &mut Handle) -> usize
    ensures { Counts most_of (handle.old).slot.held result (handle.new).slot.held }
{
    let Some(held) = handle.take(alloc) else {
        return 0;
    };
    let most = held.session.most();
    handle.put(held);
    most
}
