//! The strings that a session goes without.
ghost use Rattle.std.specs.Prelude.{◌≡◌, ◌++◌, IfOk, OnOk};
ghost use Rattle.curses_c.specs.LeftOut as spec;
ghost use Rattle.curses_c.specs.Sessions.{TellsHeld};

use crate::codes::{Failure, failure_code};
use crate::handles::Handle;
use crate::verdicts::fill;
use std::alloc::{AllocError, Global};
use ti_caps::name;
use ti_verdicts::cause_name;
use ti_without::LeftOut;

/// A line `CAP FAULTY CAUSE` for each of the capabilities in `left`: its name, that of the capability at fault, which
/// is the same or the other one of `smcup` and `rmcup`, and the cause. Fails if memory runs out.
pub fn left_lines(alloc: Global, left: &[LeftOut]) -> Result<Vec<u8>, AllocError>
    ensures { IfOk result (λ lines. lines.items ≡ spec.left_text left.now) }
{
    let mut lines = Vec::new(alloc);
    for one in left {
        push_left(one, &mut lines)?;
    }
    Ok(lines)
}

fn push_left(one: &LeftOut, lines: &mut Vec<u8>) -> Result<(), AllocError>
    ensures { OnOk result (lines.new.items ≡ lines.old.items ++ spec.left_line one.now) }
{
    lines.extend_from_slice(name(one.cap))?;
    lines.push(b' ')?;
    lines.extend_from_slice(name(one.at_fault))?;
    lines.push(b' ')?;
    lines.extend_from_slice(cause_name(one.cause))?;
    Ok(lines.push(b'\n')?)
}

/// Writes to the start of `room` a line for each capability that the session goes without: its name, that of the
/// capability at fault, which is the same or the other one of `smcup` and `rmcup`, and the cause, as `check` names it.
/// `needed` is their length; 0 if nothing is left out. Returns 0, or the number of `NoRoom` if `room` is too short, or
/// of `Closed`.
#[unsafe(no_mangle)]
pub extern "C" fn ticurses_raw_left_out(
    alloc: Global,
    handle: &mut Handle,
    room: &mut [u8],
    needed: &mut usize,
) -> i32
    ensures { TellsHeld (λ h. h.left_out.items) (handle.old).slot.held (handle.new).slot.held room.old room.new
        needed.new result }
{
    let Some(held) = handle.take(alloc) else {
        *needed = 0;
        return failure_code(Failure::Closed);
    };
    *needed = held.left_out.len();
    let code = fill(held.left_out.as_slice(), room);
    handle.put(held);
    code
}
