//! Opening and closing an entry.
ghost use Rattle.std.specs.Prelude.{◌≡◌, None, Ok, IfErr, IfOk};
ghost use Rattle.ti_caps.specs.Entry.{bare_entry};
ghost use Rattle.terminfo_c.specs.Answers.{Delivers, asked};
ghost use Rattle.terminfo_c.specs.Entries as spec;

use crate::answers::deliver;
use crate::codes::{Failure, OK, file_code};
use crate::handles::Handle;
use crate::held::Held;
use std::alloc::{AllocError, Global};
use ti_caps::Entry;
use ti_compiled::{PackFault, decode};

/// Opens `handle` for the entry of the compiled file `file`, with all static variables 0. An entry that was open is
/// closed; if none can be opened, it stays open. Returns 0, or the number of the file's first fault, of `TooLarge` or
/// `BadNames` if an entry can't have its contents, or of `NoMemory`.
#[unsafe(no_mangle)]
pub extern "C" fn ticurses_raw_terminfo_open(alloc: Global, handle: &mut Handle, file: &[u8]) -> i32
    ensures { spec.Opens file.now (handle.old).slot.held result (handle.new).slot.held }
{
    match open(alloc, file) {
        Ok(held) => {
            let _ = handle.take(alloc);
            handle.put(held);
            OK
        }
        Err(fault) => file_code(fault),
    }
}

fn open(alloc: Global, file: &[u8]) -> Result<Box<Held, Global>, PackFault>
    ensures opened { IfOk result (λ b. spec.IsOpened file.now b.value) }
    ensures lacks { IfErr result (spec.Lacks file.now) }
{
    let entry = decode(file)?.to_entry(alloc)?;
    match Box::new(alloc, Held::new(alloc, entry)) {
        Ok(held) => Ok(held),
        Err(_) => Err(PackFault::NoMemory),
    }
}

/// Opens `handle` for an entry that has the name `unknown` and no capabilities, for expansions alone. An entry that was
/// open is closed; if there is no memory, it stays open. Returns 0, or the number of `NoMemory`.
#[unsafe(no_mangle)]
pub extern "C" fn ticurses_raw_terminfo_bare(alloc: Global, handle: &mut Handle) -> i32
    ensures { spec.OpensBare (handle.old).slot.held result (handle.new).slot.held }
{
    match bare(alloc) {
        Ok(held) => {
            let _ = handle.take(alloc);
            handle.put(held);
            OK
        }
        Err(_) => file_code(PackFault::NoMemory),
    }
}

fn bare(alloc: Global) -> Result<Box<Held, Global>, AllocError>
    ensures { IfOk result (λ b. spec.IsFresh (bare_entry spec.unknown) b.value) }
{
    let entry = Entry::new(alloc, b"unknown")?;
    match Box::new(alloc, Held::new(alloc, entry)) {
        Ok(held) => Ok(held),
        Err(_) => Err(AllocError),
    }
}

/// Closes the entry of `handle`; a handle that holds none stays as it is.
#[unsafe(no_mangle)]
pub extern "C" fn ticurses_raw_terminfo_close(alloc: Global, handle: &mut Handle)
    ensures { (handle.new).slot.held ≡ None }
{
    let _ = handle.take(alloc);
}

/// Writes the names of the entry, separated by `|`, to the start of `room`. `needed` is their length, or 0 if the
/// handle is closed. Returns 0, or the number of `Closed`, or of `NoRoom` if `room` is too short.
#[unsafe(no_mangle)]
pub extern "C" fn ticurses_raw_terminfo_names(
    alloc: Global,
    handle: &mut Handle,
    room: &mut [u8],
    needed: &mut usize,
) -> i32
    ensures held { (handle.new).slot.held ≡ (handle.old).slot.held }
    ensures answer { Delivers (asked (λ h. Ok h.entry.names) (handle.old).slot.held) room.old room.new needed.new
        result }
{
    let Some(held) = handle.take(alloc) else {
        return deliver(Err(Failure::Closed), room, needed);
    };
    let code = deliver(Ok(held.entry.names()), room, needed);
    handle.put(held);
    code
}
