//! The questions of programs about a window.
ghost use Rattle.std.specs.Prelude.{◌≡◌, Ok};
ghost use Rattle.cur_windows.specs.{Queries.{window_of}, Sizes.{window_size}, Views.{seen}};
ghost use Rattle.curses_c.specs.Queries.{Asks, Tells, cell_seen, cursor_in};

use crate::codes::{Failure, OK, failure_code, refusal_code};
use crate::handles::Handle;
use bitflags::Flags;
use cur_drawing::Cell;
use cur_windows::{Desk, Refusal, View};
use std::alloc::Global;

/// The contents of one place.
#[repr(C)]
#[derive(Clone, Copy)]
pub struct Standing {
    pub byte: u8,
    pub attrs: u8,
    pub pair: u8,
}

/// Writes to `line` the line, from 1, of the last text of calls that wasn't done; 0 if all of it was, or if no line is
/// at fault. Returns 0, or the number of `Closed`.
#[unsafe(no_mangle)]
pub extern "C" fn ticurses_raw_failed(alloc: Global, handle: &mut Handle, line: &mut usize) -> i32
    ensures { Asks (λ h. Ok h.failed) (handle.old).slot.held (handle.new).slot.held line.old line.new result }
{
    let Some(held) = handle.take(alloc) else {
        return failure_code(Failure::Closed);
    };
    *line = held.failed;
    handle.put(held);
    OK
}

/// Writes the place of the cursor of `window`, counted in the window, to `row` and `col` (`getyx`). Returns 0, or the
/// number of `Closed` or of a refusal if there is no such window; nothing is written then.
#[unsafe(no_mangle)]
pub extern "C" fn ticurses_raw_cursor(
    alloc: Global,
    handle: &mut Handle,
    window: usize,
    row: &mut u16,
    col: &mut u16,
) -> i32
    ensures { Asks (λ h. cursor_in (window_of h.session.desk window)) (handle.old).slot.held (handle.new).slot.held
        (row.old, col.old) (row.new, col.new) result }
{
    let Some(held) = handle.take(alloc) else {
        return failure_code(Failure::Closed);
    };
    let answer = cursor_of(held.session.desk(), window);
    handle.put(held);
    tell_two(answer, row, col)
}

fn cursor_of(desk: &Desk, window: usize) -> Result<(u16, u16), Refusal>
    ensures { result ≡ cursor_in (window_of desk.now window) }
{
    let window = desk.window(window)?;
    Ok((window.row, window.col))
}

/// Writes the numbers of lines and columns of `window` to `rows` and `cols` (`getmaxyx`). Returns 0, or the number of
/// `Closed` or of a refusal if there is no such window; nothing is written then.
#[unsafe(no_mangle)]
pub extern "C" fn ticurses_raw_size(
    alloc: Global,
    handle: &mut Handle,
    window: usize,
    rows: &mut u16,
    cols: &mut u16,
) -> i32
    ensures { Asks (λ h. window_size h.session.desk window) (handle.old).slot.held (handle.new).slot.held
        (rows.old, cols.old) (rows.new, cols.new) result }
{
    let Some(held) = handle.take(alloc) else {
        return failure_code(Failure::Closed);
    };
    let answer = held.session.desk().window_size(window);
    handle.put(held);
    tell_two(answer, rows, cols)
}

/// Writes the two numbers of `answer` to `first` and `second`, if it has them, and gives the number of the answer.
fn tell_two(answer: Result<(u16, u16), Refusal>, first: &mut u16, second: &mut u16) -> i32
    ensures { Tells answer (first.old, second.old) (first.new, second.new) result }
{
    match answer {
        Ok((one, other)) => {
            *first = one;
            *second = other;
            OK
        }
        Err(refusal) => refusal_code(refusal),
    }
}

/// Writes the content of line `row` and column `col` of `window` to `cell` (`mvwinch`, except that the cursor stays).
/// Returns 0, or the number of `Closed` or of a refusal if there is no such window or place; nothing is written then.
#[unsafe(no_mangle)]
pub extern "C" fn ticurses_raw_cell(
    alloc: Global,
    handle: &mut Handle,
    window: usize,
    row: u16,
    col: u16,
    cell: &mut Standing,
) -> i32
    ensures { Asks (λ h. cell_seen (seen h.session.desk window) row col) (handle.old).slot.held (handle.new).slot.held
        cell.old cell.new result }
{
    let Some(held) = handle.take(alloc) else {
        return failure_code(Failure::Closed);
    };
    let answer = standing_at(held.session.desk(), window, row, col);
    handle.put(held);
    match answer {
        Ok(found) => {
            *cell = found;
            OK
        }
        Err(refusal) => refusal_code(refusal),
    }
}

fn standing_at(desk: &Desk, window: usize, row: u16, col: u16) -> Result<Standing, Refusal>
    ensures { result ≡ cell_seen (seen desk.now window) row col }
{
    let part = desk.view(window)?;
    if row >= part.rows() {
        return Err(Refusal::OutOfWindow);
    }
    let line = part.row(row);
    if col as usize >= line.len() {
        return Err(Refusal::OutOfWindow);
    }
    let cell = line[col as usize];
    Ok(Standing {
        byte: cell.byte(),
        attrs: cell.attrs().bits(),
        pair: cell.pair(),
    })
}
