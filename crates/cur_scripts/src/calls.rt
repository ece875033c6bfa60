//! A call with its arguments.
ghost use Rattle.std.specs.Prelude.{◌≡◌};
ghost use Rattle.cur_scripts.specs.Names.{call_name};

use crate::groups::{
    AttrsCall, CellCall, FlagCall, LayCall, LineCall, NumberCall, NumbersCall, PadCall, PartCall,
    PlainCall, ScreenCall, ShowCall,
};
use crate::texts::Text;
use cur_drawing::{Attrs, Border, Put};

/// A call of curses. Numbers name windows and pads; a row comes before its column, as in curses.
#[derive(Drop)]
pub enum Call<'a> {
    /// `newwin`: the window's number, its size, and its place on the screen.
    Newwin {
        window: usize,
        lines: i32,
        cols: i32,
        y: i32,
        x: i32,
    },
    /// `newpad`: the pad's number and its size.
    Newpad {
        window: usize,
        lines: i32,
        cols: i32,
    },
    /// `subwin`, `derwin`, `subpad`: the part's number, the window or pad of which it is a part,
    /// its size and its place.
    Part {
        call: PartCall,
        window: usize,
        parent: usize,
        lines: i32,
        cols: i32,
        y: i32,
        x: i32,
    },
    /// `dupwin`: the copy's number, and the window that is copied.
    Dupwin {
        window: usize,
        source: usize,
    },
    /// `delwin`, `delch`, `insertln`, `deleteln`, `clrtoeol`, `clrtobot`, `erase`, `clear`, `touchwin`.
    Plain {
        call: PlainCall,
        window: usize,
    },
    /// `scroll`, `color_set`.
    Number {
        call: NumberCall,
        window: usize,
        number: i32,
    },
    /// `mvwin`, `move`, `setscrreg`, `touchline`.
    Numbers {
        call: NumbersCall,
        window: usize,
        first: i32,
        second: i32,
    },
    /// `scrollok`, `leaveok`, `clearok`, `idlok`.
    Flag {
        call: FlagCall,
        window: usize,
        on: bool,
    },
    /// `attron`, `attroff`, `attrset`.
    Attributes {
        call: AttrsCall,
        window: usize,
        attrs: Attrs,
    },
    /// `addch`, `insch`, `bkgdset`, `bkgd`.
    Cell {
        call: CellCall,
        window: usize,
        put: Put,
    },
    /// `addstr`.
    Addstr {
        window: usize,
        text: Text<'a>,
    },
    /// `hline`, `vline`: at most `count` cells.
    Line {
        call: LineCall,
        window: usize,
        put: Put,
        count: i32,
    },
    /// `border`.
    DrawBorder {
        window: usize,
        border: Border,
    },
    /// `box`.
    DrawBox {
        window: usize,
        vertical: Put,
        horizontal: Put,
    },
    /// `overlay`, `overwrite`.
    Lay {
        call: LayCall,
        source: usize,
        target: usize,
    },
    /// `copywin`: whether spaces are skipped, the place of the source from which it copies, and the
    /// target's rows `row` to `last_row` and columns `col` to `last_col`.
    Copywin {
        skip: bool,
        source: usize,
        target: usize,
        from_row: i32,
        from_col: i32,
        row: i32,
        col: i32,
        last_row: i32,
        last_col: i32,
    },
    /// `noutrefresh`, `refresh`.
    Show {
        call: ShowCall,
        window: usize,
    },
    /// `pnoutrefresh`, `prefresh`: the place of the pad from which it copies, and the screen's rows
    /// `top` to `bottom` and columns `left` to `right`.
    ShowPad {
        call: PadCall,
        window: usize,
        row: i32,
        col: i32,
        top: i32,
        left: i32,
        bottom: i32,
        right: i32,
    },
    /// `doupdate`, `beep`, `endwin`.
    Screen(ScreenCall),
    /// `curs_set`.
    CursSet {
        mode: i32,
    },
    /// `init_pair`.
    InitPair {
        pair: i32,
        foreground: i32,
        background: i32,
    },
}

impl<'a> Call<'a> {
    /// The call's name in curses.
    pub fn name(&self) -> &'static str
        ensures { result.now ≡ call_name self.now }
    {
        match self {
            Call::Newwin { .. } => "newwin",
            Call::Newpad { .. } => "newpad",
            Call::Part { call, .. } => call.name(),
            Call::Dupwin { .. } => "dupwin",
            Call::Plain { call, .. } => call.name(),
            Call::Number { call, .. } => call.name(),
            Call::Numbers { call, .. } => call.name(),
            Call::Flag { call, .. } => call.name(),
            Call::Attributes { call, .. } => call.name(),
            Call::Cell { call, .. } => call.name(),
            Call::Addstr { .. } => "addstr",
            Call::Line { call, .. } => call.name(),
            Call::DrawBorder { .. } => "border",
            Call::DrawBox { .. } => "box",
            Call::Lay { call, .. } => call.name(),
            Call::Copywin { .. } => "copywin",
            Call::Show { call, .. } => call.name(),
            Call::ShowPad { call, .. } => call.name(),
            Call::Screen(call) => call.name(),
            Call::CursSet { .. } => "curs_set",
            Call::InitPair { .. } => "init_pair",
        }
    }
}
