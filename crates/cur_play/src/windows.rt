//! The calls that change windows, or delete one.
ghost use Rattle.std.specs.Prelude.{◌≡◌};
ghost use Rattle.cur_windows.specs.{Copies.{common_part}, TouchedWindows.{KeepsShown}};
ghost use Rattle.cur_windows.specs.Desks as desks;
ghost use Rattle.cur_play.specs.Groups.{Does, changing, shaping};
ghost use Rattle.cur_play.specs.Windows as spec;

use crate::answers::Outcome;
use cur_screens::Touched;
use cur_scripts::{
    Attrs, AttrsCall, Call, CellCall, FlagCall, LayCall, LineCall, NumberCall, NumbersCall,
    PlainCall, Put,
};
use cur_windows::Desk;

/// Does a call that changes windows; `None` for a call that doesn't, or that does more. Marks in `touched` the places
/// where a grid or its position may have changed.
pub(crate) fn change(desk: &mut Desk, touched: &mut Touched, call: &Call<'_>) -> Option<Outcome>
    ensures does { Does desk.old desk.new result (changing desk.old call.now) }
    ensures touched { KeepsShown touched.old desk.old touched.new desk.new }
{
    match call {
        Call::Plain { call, window } => Some(plain_marked(desk, touched, *call, *window)),
        Call::Number {
            call,
            window,
            number,
        } => Some(number_call(desk, touched, *call, *window, *number)),
        Call::Numbers {
            call,
            window,
            first,
            second,
        } => Some(numbers_call(desk, touched, *call, *window, (*first, *second))),
        Call::Flag { call, window, on } => Some(flag(desk, *call, *window, *on)),
        Call::Attributes {
            call,
            window,
            attrs,
        } => Some(attributes(desk, *call, *window, *attrs)),
        Call::Cell { call, window, put } => Some(cell(desk, touched, *call, *window, *put)),
        Call::Addstr { window, text } => Some(desk.addstr_marked(
            *window,
            text.as_slice(),
            touched,
        )),
        _ => shape_marked(desk, touched, call),
    }
}

/// As `shape`; also marks in `touched` every place that `call` may change.
fn shape_marked(desk: &mut Desk, touched: &mut Touched, call: &Call<'_>) -> Option<Outcome>
    ensures does { Does desk.old desk.new result (shaping desk.old call.now) }
    ensures touched { KeepsShown touched.old desk.old touched.new desk.new }
{
    match call {
        Call::Line { window, .. } => {
            desk.mark_window(*window, touched);
            shape(desk, call)
        }
        Call::DrawBorder { window, .. } => {
            desk.mark_window(*window, touched);
            shape(desk, call)
        }
        Call::DrawBox { window, .. } => {
            desk.mark_window(*window, touched);
            shape(desk, call)
        }
        Call::Lay { .. } => {
            touched.mark_all();
            shape(desk, call)
        }
        Call::Copywin { .. } => {
            touched.mark_all();
            shape(desk, call)
        }
        _ => None,
    }
}

/// Does `call` in `desk` if it draws lines or copies from one window to another; `None` for any other call.
fn shape(desk: &mut Desk, call: &Call<'_>) -> Option<Outcome>
    ensures { Does desk.old desk.new result (shaping desk.old call.now) }
{
    match call {
        Call::Line {
            call,
            window,
            put,
            count,
        } => Some(line(desk, *call, *window, *put, *count)),
        Call::DrawBorder { window, border } => Some(desk.border(*window, border)),
        Call::DrawBox {
            window,
            vertical,
            horizontal,
        } => Some(desk.draw_box(*window, *vertical, *horizontal)),
        Call::Lay {
            call,
            source,
            target,
        } => Some(lay(desk, *call, *source, *target)),
        Call::Copywin {
            skip,
            source,
            target,
            from_row,
            from_col,
            row,
            col,
            last_row,
            last_col,
        } => {
            Some(desk.copywin(
                *source, *target, *from_row, *from_col, *row, *col, *last_row, *last_col, *skip,
            ))
        }
        _ => None,
    }
}

/// As `plain`; also marks in `touched` every place that the call may change.
fn plain_marked(desk: &mut Desk, touched: &mut Touched, call: PlainCall, window: usize) -> Outcome
    ensures step { desks.step desk.new result ≡ spec.plain_step call desk.old window }
    ensures touched { KeepsShown touched.old desk.old touched.new desk.new }
{
    if let PlainCall::Delwin = call {
        touched.mark_all();
        return plain(desk, call, window);
    }
    desk.mark_window(window, touched);
    plain(desk, call, window)
}

fn plain(desk: &mut Desk, call: PlainCall, window: usize) -> Outcome
    ensures { desks.step desk.new result ≡ spec.plain_step call desk.old window }
{
    match call {
        PlainCall::Delwin => desk.delwin(window),
        PlainCall::Delch => desk.delch(window),
        PlainCall::Insertln => desk.insertln(window),
        PlainCall::Deleteln => desk.deleteln(window),
        PlainCall::Clrtoeol => desk.clrtoeol(window),
        PlainCall::Clrtobot => desk.clrtobot(window),
        PlainCall::Erase => desk.erase(window),
        PlainCall::Clear => desk.clear(window),
        PlainCall::Touchwin => desk.touchwin(window),
    }
}

pub(crate) fn number_call(
    desk: &mut Desk,
    touched: &mut Touched,
    call: NumberCall,
    window: usize,
    number: i32,
) -> Outcome
    ensures step { desks.step desk.new result ≡ spec.number_step call desk.old window number }
    ensures touched { KeepsShown touched.old desk.old touched.new desk.new }
{
    match call {
        NumberCall::Scroll => {
            desk.mark_window(window, touched);
            desk.scroll(window, number)
        }
        NumberCall::ColorSet => desk.color_set(window, number),
    }
}

pub(crate) fn numbers_call(
    desk: &mut Desk,
    touched: &mut Touched,
    call: NumbersCall,
    window: usize,
    numbers: (i32, i32),
) -> Outcome
    ensures step { desks.step desk.new result ≡ spec.numbers_step call desk.old window numbers.0 numbers.1 }
    ensures touched { KeepsShown touched.old desk.old touched.new desk.new }
{
    let (first, second) = numbers;
    match call {
        NumbersCall::Mvwin => {
            touched.mark_all();
            desk.mvwin(window, first, second)
        }
        NumbersCall::Move => desk.move_to(window, first, second),
        NumbersCall::Setscrreg => desk.setscrreg(window, first, second),
        NumbersCall::Touchline => desk.touchline(window, first, second),
    }
}

fn flag(desk: &mut Desk, call: FlagCall, window: usize, on: bool) -> Outcome
    ensures { desks.step desk.new result ≡ spec.flag_step call desk.old window on }
{
    match call {
        FlagCall::Scrollok => desk.scrollok(window, on),
        FlagCall::Leaveok => desk.leaveok(window, on),
        FlagCall::Clearok => desk.clearok(window, on),
        FlagCall::Idlok => desk.idlok(window, on),
    }
}

pub(crate) fn attributes(desk: &mut Desk, call: AttrsCall, window: usize, attrs: Attrs) -> Outcome
    ensures { desks.step desk.new result ≡ spec.attributes_step call desk.old window attrs }
{
    match call {
        AttrsCall::Attron => desk.attron(window, attrs),
        AttrsCall::Attroff => desk.attroff(window, attrs),
        AttrsCall::Attrset => desk.attrset(window, attrs),
    }
}

fn cell(desk: &mut Desk, touched: &mut Touched, call: CellCall, window: usize, put: Put) -> Outcome
    ensures step { desks.step desk.new result ≡ spec.cell_step call desk.old window put }
    ensures touched { KeepsShown touched.old desk.old touched.new desk.new }
{
    match call {
        CellCall::Addch => desk.addch_marked(window, put, touched),
        CellCall::Insch => {
            desk.mark_window(window, touched);
            desk.insch(window, put)
        }
        CellCall::Bkgdset => desk.bkgdset(window, put),
        CellCall::Bkgd => {
            desk.mark_window(window, touched);
            desk.bkgd(window, put)
        }
    }
}

fn line(desk: &mut Desk, call: LineCall, window: usize, put: Put, count: i32) -> Outcome
    ensures { desks.step desk.new result ≡ spec.line_step call desk.old window put count }
{
    match call {
        LineCall::Hline => desk.hline(window, put, count),
        LineCall::Vline => desk.vline(window, put, count),
    }
}

fn lay(desk: &mut Desk, call: LayCall, source: usize, target: usize) -> Outcome
    ensures { desks.step desk.new result ≡ common_part (spec.skips call) desk.old source target }
{
    match call {
        LayCall::Overlay => desk.overlay(source, target),
        LayCall::Overwrite => desk.overwrite(source, target),
    }
}
