//! Effect records and their parts.
ghost use Rattle.std.specs.Prelude.{◌≡◌};
ghost use Rattle.vt_effects.specs.Effect as spec;
ghost use Rattle.vt_effects.specs.Record as records;

use vt_term::Color;

/// A change of the cursor's row or column.
#[derive(Clone, Copy, Debug, PartialEq, Eq)]
pub enum Move {
    Kept,
    /// To this row or column, whatever it was.
    To(u16),
    /// Up, or left, by this many.
    Back(u16),
    /// Down, or right, by this many.
    Forward(u16),
}

/// The cells that are erased, relative to the cursor before it moves.
#[derive(Clone, Copy, Debug, PartialEq, Eq)]
pub enum Erasure {
    Nothing,
    /// Every cell.
    Screen,
    /// From the cursor to the line's end.
    Tail,
    /// From the line's start to the cursor.
    Head,
    /// From the cursor to the screen's end.
    Rest,
    /// This many cells from the cursor on, at most to the line's end.
    Next(u16),
}

/// The direction in which the region scrolls by one line.
#[derive(Clone, Copy, Debug, PartialEq, Eq)]
pub enum Scroll {
    Still,
    Up,
    Down,
}

/// A change of something that is on or off.
#[derive(Clone, Copy, Debug, PartialEq, Eq)]
pub enum Switch {
    Kept,
    On,
    Off,
}

/// A change of a color.
#[derive(Clone, Copy, Debug, PartialEq, Eq)]
pub enum Ink {
    Kept,
    /// The terminal's default.
    Default,
    Color(Color),
}

/// A change of the rendition, part by part (ECMA-48 8.3.117, SGR).
#[derive(Clone, Copy, Debug, PartialEq, Eq)]
pub struct Rendering {
    pub bold: Switch,
    pub faint: Switch,
    pub underline: Switch,
    pub blink: Switch,
    pub negative: Switch,
    pub concealed: Switch,
    pub foreground: Ink,
    pub background: Ink,
}

/// A change of the character sets: a set is on if it is the graphic one, the shift if G1 is active.
#[derive(Clone, Copy, Debug, PartialEq, Eq)]
pub struct Sets {
    pub g0_graphic: Switch,
    pub g1_graphic: Switch,
    pub shifted_out: Switch,
}

/// The first and the last line of the region that scrolls; lines count from 0.
#[derive(Clone, Copy, Debug, PartialEq, Eq)]
pub struct Region {
    pub top: u16,
    pub bottom: u16,
}

/// The effect of a string on the terminal. First cells are erased and the region scrolls, with the cursor and the
/// background from before; then everything else changes.
#[derive(Clone, Copy, Debug, PartialEq, Eq)]
pub struct Effect {
    pub row: Move,
    pub col: Move,
    /// Whether the pending wrap is cleared.
    pub ends_pending: bool,
    pub erasure: Erasure,
    pub scroll: Scroll,
    pub rendition: Rendering,
    pub charset: Sets,
    /// The new margins, if they are set.
    pub margins: Option<Region>,
    pub visible: Switch,
}

impl Switch {
    /// The switch that turns on or off.
    pub fn set_to(on: bool) -> Switch
        ensures { result ≡ records.switch_of on }
    {
        if on { Switch::On } else { Switch::Off }
    }
}

impl Rendering {
    /// The rendering that changes nothing.
    pub fn kept() -> Rendering
        ensures { result ≡ spec.nothing_rendered }
    {
        Rendering::all(Switch::Kept, Ink::Kept)
    }

    /// The rendering that turns all marks off and sets the default colors.
    pub fn all_off() -> Rendering
        ensures { result ≡ records.all_off }
    {
        Rendering::all(Switch::Off, Ink::Default)
    }

    /// The rendering with one switch for every mark, and one ink for both colors.
    fn all(mark: Switch, color: Ink) -> Rendering
        ensures { result ≡ spec.all_rendered mark color }
    {
        Rendering {
            bold: mark,
            faint: mark,
            underline: mark,
            blink: mark,
            negative: mark,
            concealed: mark,
            foreground: color,
            background: color,
        }
    }
}

impl Effect {
    /// The effect that changes nothing.
    pub fn unchanged() -> Effect
        ensures { result ≡ spec.unchanged }
    {
        Effect {
            row: Move::Kept,
            col: Move::Kept,
            ends_pending: false,
            erasure: Erasure::Nothing,
            scroll: Scroll::Still,
            rendition: Rendering::kept(),
            charset: Sets {
                g0_graphic: Switch::Kept,
                g1_graphic: Switch::Kept,
                shifted_out: Switch::Kept,
            },
            margins: None,
            visible: Switch::Kept,
        }
    }
}
