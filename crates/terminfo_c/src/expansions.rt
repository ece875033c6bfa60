//! The expansion of strings.
ghost use Rattle.std.specs.Prelude.{◌≡◌, Ok, Some};
ghost use Rattle.ti_parm.specs.Value.{values_of};
ghost use Rattle.terminfo_c.specs.Answers.{Delivers, asked};
ghost use Rattle.terminfo_c.specs.Expansions.{Expands, ExpandsTo};
ghost use Rattle.terminfo_c.specs.Parameters.{numbers_given, values_given};

use crate::answers::{deliver, fill};
use crate::codes::{Failure, string_code};
use crate::handles::Handle;
use crate::held::Held;
use crate::parameters::{PARAMS, Parameter, are_good, from_given, from_numbers};
use std::alloc::Global;
use ti_parm::Param;

/// Expands `string` for `numbers`, at most nine, and 0 for those missing: writes the bytes to the start of `room`, and
/// sets the static variables of `handle` as the string does. `needed` is the number of bytes.
///
/// Returns 0, or the number of `NoRoom` if `room` is too short: the variables are set then, and the bytes kept. All
/// other numbers are of failures after which nothing has changed, and `needed` is 0: `BadParam` if there are more than
/// nine, `Closed`, the string's first fault, `NoMemory`.
#[unsafe(no_mangle)]
pub extern "C" fn ticurses_raw_terminfo_expand(
    alloc: Global,
    handle: &mut Handle,
    string: &[u8],
    numbers: &[i32],
    room: &mut [u8],
    needed: &mut usize,
) -> i32
    ensures { Expands string.now (numbers_given numbers.now) (handle.old).slot.held (handle.new).slot.held
        room.old room.new needed.new result }
{
    if numbers.len() > PARAMS {
        return deliver(Err(Failure::BadParam), room, needed);
    }
    let params = from_numbers(numbers);
    expand(
        alloc,
        handle,
        string,
        &params[..numbers.len()],
        room,
        needed,
    )
}

/// Expands `string` for the numbers and texts `given`, like `ticurses_raw_terminfo_expand`. A text that is longer than
/// 4095 bytes is a `BadParam` too.
#[unsafe(no_mangle)]
pub extern "C" fn ticurses_raw_terminfo_expand_texts(
    alloc: Global,
    handle: &mut Handle,
    string: &[u8],
    given: &[Parameter<'_>],
    room: &mut [u8],
    needed: &mut usize,
) -> i32
    ensures { Expands string.now (values_given given.now) (handle.old).slot.held (handle.new).slot.held
        room.old room.new needed.new result }
{
    if !are_good(given) {
        return deliver(Err(Failure::BadParam), room, needed);
    }
    let params = from_given(given);
    expand(alloc, handle, string, &params[..given.len()], room, needed)
}

/// Expands `string` for `params`, and writes the bytes to the start of `room`.
fn expand(
    alloc: Global,
    handle: &mut Handle,
    string: &[u8],
    params: &[Param<'_>],
    room: &mut [u8],
    needed: &mut usize,
) -> i32
    ensures { Expands string.now (Some (values_of params.now)) (handle.old).slot.held (handle.new).slot.held
        room.old room.new needed.new result }
{
    let Some(held) = handle.take(alloc) else {
        return deliver(Err(Failure::Closed), room, needed);
    };
    let mut held = held;
    let code = expand_in(alloc, &mut held, string, params, room, needed);
    handle.put(held);
    code
}

/// Expands `string` for `params` with the static variables of `held`, and writes the bytes to the start of `room`.
fn expand_in(
    alloc: Global,
    held: &mut Held,
    string: &[u8],
    params: &[Param<'_>],
    room: &mut [u8],
    needed: &mut usize,
) -> i32
    ensures { ExpandsTo string.now (values_of params.now) held.old held.new room.old room.new needed.new result }
{
    match held.expand(alloc, string, params) {
        Ok(()) => {
            *needed = held.output.len();
            fill(held.output.as_slice(), room)
        }
        Err(fault) => {
            *needed = 0;
            string_code(fault)
        }
    }
}

/// Writes the bytes of the last expansion that was done to the start of `room`. `needed` is their number, or 0 if the
/// handle is closed or nothing was expanded. Returns 0, or the number of `Closed`, or of `NoRoom` if `room` is too
/// short.
#[unsafe(no_mangle)]
pub extern "C" fn ticurses_raw_terminfo_expanded(
    alloc: Global,
    handle: &mut Handle,
    room: &mut [u8],
    needed: &mut usize,
) -> i32
    ensures held { (handle.new).slot.held ≡ (handle.old).slot.held }
    ensures answer { Delivers (asked (λ h. Ok h.output.items) (handle.old).slot.held) room.old room.new needed.new
        result }
{
    let Some(held) = handle.take(alloc) else {
        return deliver(Err(Failure::Closed), room, needed);
    };
    let code = deliver(Ok(held.output.as_slice()), room, needed);
    handle.put(held);
    code
}
