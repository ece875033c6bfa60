//! Calls that take the same arguments, and their names.
ghost use Rattle.std.specs.Prelude.{◌≡◌};
ghost use Rattle.cur_scripts.specs.Names as spec;

/// Calls that make a window as a part of another one.
#[derive(Clone, Copy, Debug, PartialEq, Eq)]
pub enum PartCall {
    Subwin,
    Derwin,
    Subpad,
}

/// Calls on a window, without further arguments, that show nothing.
#[derive(Clone, Copy, Debug, PartialEq, Eq)]
pub enum PlainCall {
    Delwin,
    Delch,
    Insertln,
    Deleteln,
    Clrtoeol,
    Clrtobot,
    Erase,
    Clear,
    Touchwin,
}

/// Calls on a window with one number.
#[derive(Clone, Copy, Debug, PartialEq, Eq)]
pub enum NumberCall {
    Scroll,
    ColorSet,
}

/// Calls on a window with two numbers: a row and a column, a first and a last line, or a line and a count.
#[derive(Clone, Copy, Debug, PartialEq, Eq)]
pub enum NumbersCall {
    Mvwin,
    Move,
    Setscrreg,
    Touchline,
}

/// Calls that set an option of a window.
#[derive(Clone, Copy, Debug, PartialEq, Eq)]
pub enum FlagCall {
    Scrollok,
    Leaveok,
    Clearok,
    Idlok,
}

/// Calls that set a window's attributes.
#[derive(Clone, Copy, Debug, PartialEq, Eq)]
pub enum AttrsCall {
    Attron,
    Attroff,
    Attrset,
}

/// Calls on a window with one character.
#[derive(Clone, Copy, Debug, PartialEq, Eq)]
pub enum CellCall {
    Addch,
    Insch,
    Bkgdset,
    Bkgd,
}

/// Calls that draw a line of one character.
#[derive(Clone, Copy, Debug, PartialEq, Eq)]
pub enum LineCall {
    Hline,
    Vline,
}

/// Calls that lay one window on another.
#[derive(Clone, Copy, Debug, PartialEq, Eq)]
pub enum LayCall {
    Overlay,
    Overwrite,
}

/// Calls that show a window.
#[derive(Clone, Copy, Debug, PartialEq, Eq)]
pub enum ShowCall {
    Noutrefresh,
    Refresh,
}

/// Calls that show a part of a pad.
#[derive(Clone, Copy, Debug, PartialEq, Eq)]
pub enum PadCall {
    Pnoutrefresh,
    Prefresh,
}

/// Calls without arguments.
#[derive(Clone, Copy, Debug, PartialEq, Eq)]
pub enum ScreenCall {
    Doupdate,
    Beep,
    Endwin,
}

impl PartCall {
    /// The call's name in curses.
    pub fn name(self) -> &'static str
        ensures { result.now ≡ spec.part_name self }
    {
        match self {
            PartCall::Subwin => "subwin",
            PartCall::Derwin => "derwin",
            PartCall::Subpad => "subpad",
        }
    }
}

impl PlainCall {
    /// The call's name in curses.
    pub fn name(self) -> &'static str
        ensures { result.now ≡ spec.plain_name self }
    {
        match self {
            PlainCall::Delwin => "delwin",
            PlainCall::Delch => "delch",
            PlainCall::Insertln => "insertln",
            PlainCall::Deleteln => "deleteln",
            PlainCall::Clrtoeol => "clrtoeol",
            PlainCall::Clrtobot => "clrtobot",
            PlainCall::Erase => "erase",
            PlainCall::Clear => "clear",
            PlainCall::Touchwin => "touchwin",
        }
    }
}

impl NumberCall {
    /// The call's name in curses.
    pub fn name(self) -> &'static str
        ensures { result.now ≡ spec.number_name self }
    {
        match self {
            NumberCall::Scroll => "scroll",
            NumberCall::ColorSet => "color_set",
        }
    }
}

impl NumbersCall {
    /// The call's name in curses.
    pub fn name(self) -> &'static str
        ensures { result.now ≡ spec.numbers_name self }
    {
        match self {
            NumbersCall::Mvwin => "mvwin",
            NumbersCall::Move => "move",
            NumbersCall::Setscrreg => "setscrreg",
            NumbersCall::Touchline => "touchline",
        }
    }
}

impl FlagCall {
    /// The call's name in curses.
    pub fn name(self) -> &'static str
        ensures { result.now ≡ spec.flag_name self }
    {
        match self {
            FlagCall::Scrollok => "scrollok",
            FlagCall::Leaveok => "leaveok",
            FlagCall::Clearok => "clearok",
            FlagCall::Idlok => "idlok",
        }
    }
}

impl AttrsCall {
    /// The call's name in curses.
    pub fn name(self) -> &'static str
        ensures { result.now ≡ spec.attrs_name self }
    {
        match self {
            AttrsCall::Attron => "attron",
            AttrsCall::Attroff => "attroff",
            AttrsCall::Attrset => "attrset",
        }
    }
}

impl CellCall {
    /// The call's name in curses.
    pub fn name(self) -> &'static str
        ensures { result.now ≡ spec.cell_name self }
    {
        match self {
            CellCall::Addch => "addch",
            CellCall::Insch => "insch",
            CellCall::Bkgdset => "bkgdset",
            CellCall::Bkgd => "bkgd",
        }
    }
}

impl LineCall {
    /// The call's name in curses.
    pub fn name(self) -> &'static str
        ensures { result.now ≡ spec.line_name self }
    {
        match self {
            LineCall::Hline => "hline",
            LineCall::Vline => "vline",
        }
    }
}

impl LayCall {
    /// The call's name in curses.
    pub fn name(self) -> &'static str
        ensures { result.now ≡ spec.lay_name self }
    {
        match self {
            LayCall::Overlay => "overlay",
            LayCall::Overwrite => "overwrite",
        }
    }
}

impl ShowCall {
    /// The call's name in curses.
    pub fn name(self) -> &'static str
        ensures { result.now ≡ spec.show_name self }
    {
        match self {
            ShowCall::Noutrefresh => "noutrefresh",
            ShowCall::Refresh => "refresh",
        }
    }
}

impl PadCall {
    /// The call's name in curses.
    pub fn name(self) -> &'static str
        ensures { result.now ≡ spec.pad_name self }
    {
        match self {
            PadCall::Pnoutrefresh => "pnoutrefresh",
            PadCall::Prefresh => "prefresh",
        }
    }
}

impl ScreenCall {
    /// The call's name in curses.
    pub fn name(self) -> &'static str
        ensures { result.now ≡ spec.screen_name self }
    {
        match self {
            ScreenCall::Doupdate => "doupdate",
            ScreenCall::Beep => "beep",
            ScreenCall::Endwin => "endwin",
        }
    }
}
