//! The calls on sessions.
ghost use Rattle.std.specs.Prelude.{◌≡◌, None, IfErr, IfOk, length, pos};
ghost use Rattle.cur_scripts.specs.declared.calls.Call.TheVariants.{Addstr, Cell, Number, Numbers};
ghost use Rattle.cur_scripts.specs.declared.groups.AttrsCall.TheVariants.{Attroff, Attron, Attrset};
ghost use Rattle.cur_scripts.specs.declared.groups.CellCall.TheVariants.{Addch};
ghost use Rattle.cur_scripts.specs.declared.groups.NumberCall.TheVariants.{ColorSet};
ghost use Rattle.cur_scripts.specs.declared.groups.NumbersCall.TheVariants.{Move};
ghost use Rattle.curses_c.specs.Entries.{IsShown};
ghost use Rattle.curses_c.specs.Held.{CopiesLinesAs, Does, Loses, MakesAlone, RecolorsAs, Says, Styles};
ghost use Rattle.curses_c.specs.Requests.{put_of};
ghost use Rattle.curses_c.specs.Sessions.{Answers, Fetches, Holds, IsOpened, IsOpenedLess, IsTableFor, IsUnopened};
ghost use Rattle.curses_c.specs.Sessions.{LacksChecked, LacksLess, Opens, OpensLess, closed};

use crate::codes::{Failure, OK, answer_code, failure_code};
use crate::entries::{Described, Subject, checked_by, checked_by_own, checked_less, describe};
use crate::handles::Handle;
use crate::held::Held;
use crate::left_out::left_lines;
use crate::queries::Standing;
use crate::requests::{Request, put_of};
use cur_scripts::AttrsCall;
use std::alloc::Global;
use ti_cert::Checked;
use ti_without::Without;

// Makes `$call` with what `$handle` holds, which is named `$held` there, and gives its number; that of `Closed` if the
// handle is closed.
macro_rules! with_held {
    ($alloc:ident, $handle:ident, $held:ident => $call:expr) => {{
        let Some(opened) = $handle.take($alloc) else {
            return failure_code(Failure::Closed);
        };
        let mut $held = opened;
        let code = $call;
        $handle.put($held);
        code
    }};
}

/// Opens a session on a terminal of `rows` and `cols` for an entry: that of the compiled file `entry`, or of `name` in
/// the source text `entry`. If `certificate` is empty, it makes one. A session that was open is closed; if none can be
/// opened, it stays open. Returns 0, or the number of `BadSize`, of `BadEntry` if the entry can't be read, of
/// `NoCertificate` if none can be made, of `BadCertificate` if it isn't the entry's, or of `NoMemory`.
#[unsafe(no_mangle)]
pub extern "C" fn ticurses_raw_open(
    alloc: Global,
    handle: &mut Handle,
    entry: &[u8],
    name: &[u8],
    rows: u16,
    cols: u16,
    certificate: &[u8],
) -> i32
    ensures { Opens entry.now name.now rows cols certificate.now (handle.old).slot.held result (handle.new).slot.held }
{
    let subject = Subject {
        bytes: entry,
        name,
        rows,
        cols,
    };
    hold(alloc, handle, open(alloc, &subject, certificate))
}

/// Opens a session on a terminal of `rows` and `cols` for an entry, that of the compiled file `entry` or of `name` in
/// the source text `entry`, without those of its strings that are at fault: `ticurses_raw_left_out` tells which they
/// are. An entry with a certificate keeps all of its strings. A session that was open is closed; if none can be opened,
/// it stays open. Returns 0, or the number of `BadSize`, of `BadEntry` if the entry can't be read, of `NoCertificate`
/// if a string at fault can't be left out, or of `NoMemory`.
#[unsafe(no_mangle)]
pub extern "C" fn ticurses_raw_open_without(
    alloc: Global,
    handle: &mut Handle,
    entry: &[u8],
    name: &[u8],
    rows: u16,
    cols: u16,
) -> i32
    ensures { OpensLess entry.now name.now rows cols (handle.old).slot.held result (handle.new).slot.held }
{
    let subject = Subject {
        bytes: entry,
        name,
        rows,
        cols,
    };
    hold(alloc, handle, open_less(alloc, &subject))
}

/// Has `handle` hold what was `opened`, in place of what it held, and gives 0; or the number of the failure.
fn hold(alloc: Global, handle: &mut Handle, opened: Result<Box<Held, Global>, Failure>) -> i32
    ensures { Holds (λ b. b.value) opened (handle.old).slot.held result (handle.new).slot.held }
{
    match opened {
        Ok(held) => {
            let _ = handle.take(alloc);
            handle.put(held);
            OK
        }
        Err(failure) => failure_code(failure),
    }
}

fn open(
    alloc: Global,
    subject: &Subject<'_>,
    certificate: &[u8],
) -> Result<Box<Held, Global>, Failure>
    ensures opened { IfOk result (λ b. IsOpened subject.now.bytes.now subject.now.name.now subject.now.rows
        subject.now.cols certificate.now b.value) }
    ensures unopened { IfErr result (IsUnopened subject.now.bytes.now subject.now.name.now subject.now.rows
        subject.now.cols certificate.now) }
{
    let described = describe(alloc, subject)?;
    let checked = checked_for(alloc, &described, certificate)?;
    Ok(Held::open(alloc, checked, Vec::new(alloc))?)
}

fn open_less(alloc: Global, subject: &Subject<'_>) -> Result<Box<Held, Global>, Failure>
    ensures opened { IfOk result (λ b. IsOpenedLess subject.now.bytes.now subject.now.name.now subject.now.rows
        subject.now.cols b.value) }
    ensures unopened { IfErr result (LacksLess subject.now.bytes.now subject.now.name.now subject.now.rows
        subject.now.cols) }
{
    let described = describe(alloc, subject)?;
    let Without { checked, left_out } = checked_less(alloc, &described)?;
    let lines = left_lines(alloc, left_out.as_slice())?;
    Ok(Held::open(alloc, checked, lines)?)
}

/// Verifies `certificate` for the entry of `described`; if it is empty, makes the entry's own and verifies that.
fn checked_for(alloc: Global, described: &Described, certificate: &[u8]) -> Result<Checked, Failure>
    ensures shown { IfOk result (IsShown described.now.entry described.now.size.rows described.now.size.cols) }
    ensures accepted { IfOk result (IsTableFor described.now.entry described.now.size.rows described.now.size.cols
        certificate.now) }
    ensures lacks { IfErr result (LacksChecked described.now.entry described.now.size.rows
        described.now.size.cols certificate.now) }
{
    match certificate {
        [] => checked_by_own(alloc, described),
        _ => checked_by(alloc, described, certificate),
    }
}

/// Closes the session of `handle`; a handle that holds none stays as it is. Nothing is sent: `endwin` comes before it.
#[unsafe(no_mangle)]
pub extern "C" fn ticurses_raw_close(alloc: Global, handle: &mut Handle)
    ensures { (handle.new).slot.held ≡ None }
{
    let _ = handle.take(alloc);
}

/// Does the calls of the script `text` up to the first that isn't done. The bytes that they send wait to be taken.
/// Returns 0 if all were done, else the number of that call's answer, of the text's fault, or of `Closed`.
#[unsafe(no_mangle)]
pub extern "C" fn ticurses_raw_call(alloc: Global, handle: &mut Handle, text: &[u8]) -> i32
    ensures { Answers closed (Says text.now) (handle.old).slot.held result (handle.new).slot.held }
{
    with_held!(alloc, handle, held => held.script(alloc, text))
}

/// Does `addstr` in `window`, with any bytes as `text`. Returns the number of the answer, or of `Closed`.
#[unsafe(no_mangle)]
pub extern "C" fn ticurses_raw_addstr(
    alloc: Global,
    handle: &mut Handle,
    window: usize,
    text: &[u8],
) -> i32
    ensures { Answers closed (MakesAlone (Addstr window text.now)) (handle.old).slot.held result
        (handle.new).slot.held }
{
    with_held!(alloc, handle, held => answer_code(held.addstr(window, text)))
}

/// Does `addch` in `window` of the character `byte` with the attributes `attrs`, a set from 0 to 255, and the color
/// pair `pair`. Returns the number of the answer, or of `Closed`.
#[unsafe(no_mangle)]
pub extern "C" fn ticurses_raw_addch(
    alloc: Global,
    handle: &mut Handle,
    window: usize,
    byte: u8,
    attrs: u8,
    pair: u8,
) -> i32
    ensures { Answers closed
        (MakesAlone (Cell Addch window (put_of (record { byte = byte; attrs = attrs; pair = pair }))))
        (handle.old).slot.held result (handle.new).slot.held }
{
    with_held!(alloc, handle, held => answer_code(held.addch(window, put_of(Standing { byte, attrs, pair }))))
}

/// Does `move` in `window`. Returns the number of the answer, or of `Closed`.
#[unsafe(no_mangle)]
pub extern "C" fn ticurses_raw_move(
    alloc: Global,
    handle: &mut Handle,
    window: usize,
    row: i32,
    col: i32,
) -> i32
    ensures { Answers closed (MakesAlone (Numbers Move window row col)) (handle.old).slot.held result
        (handle.new).slot.held }
{
    with_held!(alloc, handle, held => answer_code(held.move_to(window, row, col)))
}

/// Does `color_set` of `pair` in `window`. Returns the number of the answer, or of `Closed`.
#[unsafe(no_mangle)]
pub extern "C" fn ticurses_raw_color_set(
    alloc: Global,
    handle: &mut Handle,
    window: usize,
    pair: i32,
) -> i32
    ensures { Answers closed (MakesAlone (Number ColorSet window pair)) (handle.old).slot.held result
        (handle.new).slot.held }
{
    with_held!(alloc, handle, held => answer_code(held.color_set(window, pair)))
}

/// Does `attron` of the set `attrs` in `window`. Returns the number of the answer, of `BadCall` if `attrs` isn't 0 to
/// 255, or of `Closed`.
#[unsafe(no_mangle)]
pub extern "C" fn ticurses_raw_attron(
    alloc: Global,
    handle: &mut Handle,
    window: usize,
    attrs: i32,
) -> i32
    ensures { Answers closed (Styles Attron window attrs) (handle.old).slot.held result
        (handle.new).slot.held }
{
    with_held!(alloc, handle, held => held.attributes(AttrsCall::Attron, window, attrs))
}

/// Does `attroff` of the set `attrs` in `window`. Returns the number of the answer, of `BadCall` if `attrs` isn't 0 to
/// 255, or of `Closed`.
#[unsafe(no_mangle)]
pub extern "C" fn ticurses_raw_attroff(
    alloc: Global,
    handle: &mut Handle,
    window: usize,
    attrs: i32,
) -> i32
    ensures { Answers closed (Styles Attroff window attrs) (handle.old).slot.held result
        (handle.new).slot.held }
{
    with_held!(alloc, handle, held => held.attributes(AttrsCall::Attroff, window, attrs))
}

/// Does `attrset` of the set `attrs` in `window`. Returns the number of the answer, of `BadCall` if `attrs` isn't 0 to
/// 255, or of `Closed`.
#[unsafe(no_mangle)]
pub extern "C" fn ticurses_raw_attrset(
    alloc: Global,
    handle: &mut Handle,
    window: usize,
    attrs: i32,
) -> i32
    ensures { Answers closed (Styles Attrset window attrs) (handle.old).slot.held result
        (handle.new).slot.held }
{
    with_held!(alloc, handle, held => held.attributes(AttrsCall::Attrset, window, attrs))
}

/// Does the call that the numbers of `request` encode. The bytes that it sends wait to be taken. Returns the number of
/// its answer, of `BadCall` if the numbers encode no call, or of `Closed`.
#[unsafe(no_mangle)]
pub extern "C" fn ticurses_raw_make(alloc: Global, handle: &mut Handle, request: &Request) -> i32
    ensures { Answers closed (Does request.now) (handle.old).slot.held result (handle.new).slot.held }
{
    with_held!(alloc, handle, held => held.make(request))
}

/// Sets the colors of `pair`, 1 to 63, to `foreground` and `background`, each 0 to 7, or -1 for the terminal's default
/// color. Returns the number of the answer, or of `Closed`.
#[unsafe(no_mangle)]
pub extern "C" fn ticurses_raw_init_pair_or_default(
    alloc: Global,
    handle: &mut Handle,
    pair: i32,
    foreground: i32,
    background: i32,
) -> i32
    ensures { Answers closed (RecolorsAs pair foreground background) (handle.old).slot.held result
        (handle.new).slot.held }
{
    with_held!(alloc, handle, held => answer_code(held.init_pair_or_default(pair, foreground, background)))
}

/// Copies the lines `top` to `bottom` of `window` to the virtual screen, as `noutrefresh` copies all of its lines.
/// Nothing is sent. Returns the number of the answer, or of `Closed`.
#[unsafe(no_mangle)]
pub extern "C" fn ticurses_raw_noutrefresh_lines(
    alloc: Global,
    handle: &mut Handle,
    window: usize,
    top: i32,
    bottom: i32,
) -> i32
    ensures { Answers closed (CopiesLinesAs window top bottom) (handle.old).slot.held result (handle.new).slot.held }
{
    with_held!(alloc, handle, held => answer_code(held.noutrefresh_lines(window, top, bottom)))
}

/// The number of bytes that wait; 0 if `handle` is closed.
#[unsafe(no_mangle)]
pub extern "C" fn ticurses_raw_waiting(alloc: Global, handle: &mut Handle) -> usize
    ensures { Answers 0 (λ h count k. (k ≡ h) × (count ≡ length h.outbox.waiting)) (handle.old).slot.held result
        (handle.new).slot.held }
{
    let Some(held) = handle.take(alloc) else {
        return 0;
    };
    let count = held.outbox.len();
    handle.put(held);
    count
}

/// Moves the first of the waiting bytes to the start of `room`, as many as it has room for, and returns their number: 0
/// if `handle` is closed. The rest of the room stays as it is.
#[unsafe(no_mangle)]
pub extern "C" fn ticurses_raw_output(alloc: Global, handle: &mut Handle, room: &mut [u8]) -> usize
    ensures { Fetches (handle.old).slot.held room.old (result, room.new) (handle.new).slot.held }
{
    let Some(held) = handle.take(alloc) else {
        return 0;
    };
    let mut held = held;
    let count = held.take_into(room);
    handle.put(held);
    count
}

/// Throws away the waiting bytes and makes the next refresh begin anew, since not all sent bytes reached the terminal.
/// Returns 0, or the number of `Closed`.
#[unsafe(no_mangle)]
pub extern "C" fn ticurses_raw_lost(alloc: Global, handle: &mut Handle) -> i32
    ensures { Answers closed (λ h code k. Loses h k × (code ≡ pos 0)) (handle.old).slot.held result
        (handle.new).slot.held }
{
    let Some(held) = handle.take(alloc) else {
        return failure_code(Failure::Closed);
    };
    let mut held = held;
    held.lose();
    handle.put(held);
    OK
}
