//! Calls as numbers, which include/ticurses.h fills in.
ghost use Rattle.std.specs.Prelude.{◌≡◌};
ghost use Rattle.cur_scripts.specs.{Arguments.{default_of}, Numbers.{as_flag}};
ghost use Rattle.curses_c.specs.Requests as spec;

use crate::queries::Standing;
use bitflags::Flags;
use cur_drawing::{Attrs, Border, Put};
use cur_scripts::{
    AttrsCall, Call, CellCall, FlagCall, LayCall, LineCall, NumberCall, NumbersCall, PadCall,
    PartCall, PlainCall, ScreenCall, ShowCall,
};

/// The cells of a border. A cell whose members are all 0 is the default cell.
#[repr(C)]
#[derive(Clone, Copy)]
pub struct Frame {
    pub left: Standing,
    pub right: Standing,
    pub top: Standing,
    pub bottom: Standing,
    pub top_left: Standing,
    pub top_right: Standing,
    pub bottom_left: Standing,
    pub bottom_right: Standing,
}

/// A call with its arguments. Members that its row of `specs/Requests` doesn't name are ignored.
#[repr(C)]
#[derive(Clone, Copy)]
pub struct Request {
    /// The kind of the call, from 1 to 48.
    pub kind: u32,
    /// An option, or whether spaces are skipped: 0 or 1.
    pub flag: i32,
    /// The window, or the one that is copied from.
    pub window: usize,
    /// The window that a new one is a part or a copy of, or the one that is copied to.
    pub other: usize,
    /// A set of attributes, from 0 to 255.
    pub attrs: i32,
    /// The numbers of a call in the order of its arguments.
    pub first: i32,
    pub second: i32,
    pub third: i32,
    pub fourth: i32,
    pub fifth: i32,
    pub sixth: i32,
    /// A character.
    pub cell: Standing,
    /// A border. `box` has its left and its upper side.
    pub frame: Frame,
}

/// The call that the numbers of `request` encode, if they encode one.
#[tactic(auto, using(crate::proofs::Rows::made_alone, crate::proofs::Rows::written_alone, crate::proofs::Rows::styled_alone, crate::proofs::Rows::shown_alone))]
pub(crate) fn call_of<'a>(request: &Request) -> Option<Call<'a>>
    ensures { result ≡ spec.call_of request.now }
{
    if request.kind <= 8 {
        made(request)
    } else if request.kind <= 24 {
        written(request)
    } else if request.kind <= 33 {
        styled(request)
    } else {
        shown(request)
    }
}

/// Making, moving and deleting windows.
fn made<'a>(request: &Request) -> Option<Call<'a>>
    ensures { result ≡ spec.call_in spec.rows_made request.now }
{
    match request.kind {
        1 => newwin(request),
        2 => newpad(request),
        3 => part(PartCall::Subwin, request),
        4 => part(PartCall::Derwin, request),
        5 => part(PartCall::Subpad, request),
        6 => dupwin(request),
        7 => plain(PlainCall::Delwin, request),
        8 => numbers(NumbersCall::Mvwin, request),
        _ => None,
    }
}

/// Characters, lines and borders.
fn written<'a>(request: &Request) -> Option<Call<'a>>
    ensures { result ≡ spec.call_in spec.rows_written request.now }
{
    match request.kind {
        9 => numbers(NumbersCall::Move, request),
        10 => cell(CellCall::Addch, request),
        11 => cell(CellCall::Insch, request),
        12 => plain(PlainCall::Delch, request),
        13 => plain(PlainCall::Insertln, request),
        14 => plain(PlainCall::Deleteln, request),
        15 => plain(PlainCall::Clrtoeol, request),
        16 => plain(PlainCall::Clrtobot, request),
        17 => plain(PlainCall::Erase, request),
        18 => plain(PlainCall::Clear, request),
        19 => line(LineCall::Hline, request),
        20 => line(LineCall::Vline, request),
        21 => draw_border(request),
        22 => draw_box(request),
        23 => number(NumberCall::Scroll, request),
        24 => numbers(NumbersCall::Setscrreg, request),
        _ => None,
    }
}

/// The call of a `request` about attributes, backgrounds or copies between windows; `None` for other kinds.
fn styled<'a>(request: &Request) -> Option<Call<'a>>
    ensures { result ≡ spec.call_in spec.rows_styled request.now }
{
    match request.kind {
        25 => attributes(AttrsCall::Attron, request),
        26 => attributes(AttrsCall::Attroff, request),
        27 => attributes(AttrsCall::Attrset, request),
        28 => number(NumberCall::ColorSet, request),
        29 => cell(CellCall::Bkgdset, request),
        30 => cell(CellCall::Bkgd, request),
        31 => lay(LayCall::Overlay, request),
        32 => lay(LayCall::Overwrite, request),
        33 => copywin(request),
        _ => None,
    }
}

/// Options, and showing.
fn shown<'a>(request: &Request) -> Option<Call<'a>>
    ensures { result ≡ spec.call_in spec.rows_shown request.now }
{
    match request.kind {
        34 => flag(FlagCall::Scrollok, request),
        35 => flag(FlagCall::Leaveok, request),
        36 => flag(FlagCall::Clearok, request),
        37 => flag(FlagCall::Idlok, request),
        38 => plain(PlainCall::Touchwin, request),
        39 => numbers(NumbersCall::Touchline, request),
        40 => show(ShowCall::Noutrefresh, request),
        41 => show(ShowCall::Refresh, request),
        42 => screen(ScreenCall::Doupdate, request),
        43 => show_pad(PadCall::Pnoutrefresh, request),
        44 => show_pad(PadCall::Prefresh, request),
        45 => curs_set(request),
        46 => init_pair(request),
        47 => screen(ScreenCall::Beep, request),
        48 => screen(ScreenCall::Endwin, request),
        _ => None,
    }
}

fn newwin<'a>(request: &Request) -> Option<Call<'a>>
    ensures { result ≡ spec.newwin request.now }
{
    Some(Call::Newwin {
        window: request.window,
        lines: request.first,
        cols: request.second,
        y: request.third,
        x: request.fourth,
    })
}

fn newpad<'a>(request: &Request) -> Option<Call<'a>>
    ensures { result ≡ spec.newpad request.now }
{
    Some(Call::Newpad {
        window: request.window,
        lines: request.first,
        cols: request.second,
    })
}

fn part<'a>(call: PartCall, request: &Request) -> Option<Call<'a>>
    ensures { result ≡ spec.part call request.now }
{
    Some(Call::Part {
        call,
        window: request.window,
        parent: request.other,
        lines: request.first,
        cols: request.second,
        y: request.third,
        x: request.fourth,
    })
}

fn dupwin<'a>(request: &Request) -> Option<Call<'a>>
    ensures { result ≡ spec.dupwin request.now }
{
    Some(Call::Dupwin {
        window: request.window,
        source: request.other,
    })
}

fn plain<'a>(call: PlainCall, request: &Request) -> Option<Call<'a>>
    ensures { result ≡ spec.plain call request.now }
{
    Some(Call::Plain {
        call,
        window: request.window,
    })
}

fn number<'a>(call: NumberCall, request: &Request) -> Option<Call<'a>>
    ensures { result ≡ spec.number call request.now }
{
    Some(Call::Number {
        call,
        window: request.window,
        number: request.first,
    })
}

fn numbers<'a>(call: NumbersCall, request: &Request) -> Option<Call<'a>>
    ensures { result ≡ spec.numbers call request.now }
{
    Some(Call::Numbers {
        call,
        window: request.window,
        first: request.first,
        second: request.second,
    })
}

fn flag<'a>(call: FlagCall, request: &Request) -> Option<Call<'a>>
    ensures { result ≡ spec.flag call request.now }
{
    Some(Call::Flag {
        call,
        window: request.window,
        on: flag_in(request.flag)?,
    })
}

fn attributes<'a>(call: AttrsCall, request: &Request) -> Option<Call<'a>>
    ensures { result ≡ spec.attributes call request.now }
{
    Some(Call::Attributes {
        call,
        window: request.window,
        attrs: attrs_in(request.attrs)?,
    })
}

fn cell<'a>(call: CellCall, request: &Request) -> Option<Call<'a>>
    ensures { result ≡ spec.cell call request.now }
{
    Some(Call::Cell {
        call,
        window: request.window,
        put: put_of(request.cell),
    })
}

fn line<'a>(call: LineCall, request: &Request) -> Option<Call<'a>>
    ensures { result ≡ spec.line call request.now }
{
    Some(Call::Line {
        call,
        window: request.window,
        put: put_or(default_of(call), request.cell),
        count: request.first,
    })
}

fn draw_border<'a>(request: &Request) -> Option<Call<'a>>
    ensures { result ≡ spec.draw_border request.now }
{
    Some(Call::DrawBorder {
        window: request.window,
        border: border_of(&request.frame),
    })
}

fn draw_box<'a>(request: &Request) -> Option<Call<'a>>
    ensures { result ≡ spec.draw_box request.now }
{
    Some(Call::DrawBox {
        window: request.window,
        vertical: put_or(Put::vertical_line(), request.frame.left),
        horizontal: put_or(Put::horizontal_line(), request.frame.top),
    })
}

fn lay<'a>(call: LayCall, request: &Request) -> Option<Call<'a>>
    ensures { result ≡ spec.lay call request.now }
{
    Some(Call::Lay {
        call,
        source: request.window,
        target: request.other,
    })
}

fn copywin<'a>(request: &Request) -> Option<Call<'a>>
    ensures { result ≡ spec.copywin request.now }
{
    Some(Call::Copywin {
        skip: flag_in(request.flag)?,
        source: request.window,
        target: request.other,
        from_row: request.first,
        from_col: request.second,
        row: request.third,
        col: request.fourth,
        last_row: request.fifth,
        last_col: request.sixth,
    })
}

fn show<'a>(call: ShowCall, request: &Request) -> Option<Call<'a>>
    ensures { result ≡ spec.show call request.now }
{
    Some(Call::Show {
        call,
        window: request.window,
    })
}

fn show_pad<'a>(call: PadCall, request: &Request) -> Option<Call<'a>>
    ensures { result ≡ spec.show_pad call request.now }
{
    Some(Call::ShowPad {
        call,
        window: request.window,
        row: request.first,
        col: request.second,
        top: request.third,
        left: request.fourth,
        bottom: request.fifth,
        right: request.sixth,
    })
}

fn screen<'a>(call: ScreenCall, _request: &Request) -> Option<Call<'a>>
    ensures { result ≡ spec.screen call _request.now }
{
    Some(Call::Screen(call))
}

fn curs_set<'a>(request: &Request) -> Option<Call<'a>>
    ensures { result ≡ spec.curs_set request.now }
{
    Some(Call::CursSet {
        mode: request.first,
    })
}

fn init_pair<'a>(request: &Request) -> Option<Call<'a>>
    ensures { result ≡ spec.init_pair request.now }
{
    Some(Call::InitPair {
        pair: request.first,
        foreground: request.second,
        background: request.third,
    })
}

fn border_of(frame: &Frame) -> Border
    ensures { result ≡ spec.border_of frame.now }
{
    let lines = Border::lines();
    Border {
        left: put_or(lines.left, frame.left),
        right: put_or(lines.right, frame.right),
        top: put_or(lines.top, frame.top),
        bottom: put_or(lines.bottom, frame.bottom),
        top_left: put_or(lines.top_left, frame.top_left),
        top_right: put_or(lines.top_right, frame.top_right),
        bottom_left: put_or(lines.bottom_left, frame.bottom_left),
        bottom_right: put_or(lines.bottom_right, frame.bottom_right),
    }
}

fn default_of(call: LineCall) -> Put
    ensures { result ≡ default_of call }
{
    match call {
        LineCall::Hline => Put::horizontal_line(),
        LineCall::Vline => Put::vertical_line(),
    }
}

/// The character that a caller passes.
pub(crate) fn put_of(cell: Standing) -> Put
    ensures { result ≡ spec.put_of cell }
{
    Put {
        byte: cell.byte,
        attrs: Attrs::from_bits_retain(cell.attrs),
        pair: cell.pair,
    }
}

/// The cell of a line or a border: `default` if all members of `cell` are 0.
fn put_or(default: Put, cell: Standing) -> Put
    ensures { result ≡ spec.put_or default cell }
{
    if cell.byte == 0 && cell.attrs == 0 && cell.pair == 0 {
        default
    } else {
        put_of(cell)
    }
}

/// `number`, 0 or 1, as a flag; none for any other number.
fn flag_in(number: i32) -> Option<bool>
    ensures { result ≡ as_flag number }
{
    match number {
        0 => Some(false),
        1 => Some(true),
        _ => None,
    }
}

/// The attributes that `number` encodes, if it is 0 to 255.
pub(crate) fn attrs_in(number: i32) -> Option<Attrs>
    ensures { result ≡ spec.attrs_in number }
{
    if 0 <= number && number <= 255 {
        Some(Attrs::from_bits_retain(number as u8))
    } else {
        None
    }
}
