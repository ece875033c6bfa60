//! Colors, and the rendition of characters.

ghost use Rattle.std.specs.Prelude.{◌≡◌, ◌<◌};
ghost use Rattle.vt_screen.specs.Color.{color};
ghost use Rattle.vt_screen.specs.Rendition as spec;

/// One of the eight colors of ECMA-48's SGR 30 to 37 and 40 to 47, in their order.
#[derive(Clone, Copy, Debug, PartialEq, Eq)]
pub enum Color {
    Black,
    Red,
    Green,
    Yellow,
    Blue,
    Magenta,
    Cyan,
    White,
}

impl Color {
    ghost use Rattle.vt_screen.specs.Color.{color_number};

    /// The number that SGR adds to 30 and to 40, 0 to 7.
    pub fn number(self) -> u8
        ensures value { result ≡ color_number self }
        ensures small { result < 8 }
    {
        match self {
            Color::Black => 0,
            Color::Red => 1,
            Color::Green => 2,
            Color::Yellow => 3,
            Color::Blue => 4,
            Color::Magenta => 5,
            Color::Cyan => 6,
            Color::White => 7,
        }
    }
}

/// The color for a number of SGR less 30 or 40; white for 7 and above.
pub fn color_of(number: u16) -> Color
    ensures { result ≡ color number }
{
    match number {
        0 => Color::Black,
        1 => Color::Red,
        2 => Color::Green,
        3 => Color::Yellow,
        4 => Color::Blue,
        5 => Color::Magenta,
        6 => Color::Cyan,
        _ => Color::White,
    }
}

/// How characters are shown. A color of `None` is the terminal's default.
#[derive(Clone, Copy, Debug, PartialEq, Eq)]
pub struct Rendition {
    pub bold: bool,
    pub faint: bool,
    pub underline: bool,
    pub blink: bool,
    pub negative: bool,
    pub concealed: bool,
    pub foreground: Option<Color>,
    pub background: Option<Color>,
}

impl Rendition {
    ghost use Rattle.vt_screen.specs.Look.{plain};

    /// No marks and the default colors.
    pub fn plain() -> Rendition
        ensures { result ≡ plain }
    {
        Rendition {
            bold: false,
            faint: false,
            underline: false,
            blink: false,
            negative: false,
            concealed: false,
            foreground: None,
            background: None,
        }
    }
}

/// A change of the rendition that one number of SGR makes (ECMA-48 8.3.117).
#[derive(Clone, Copy, Debug, PartialEq, Eq)]
pub enum RenditionChange {
    /// No marks and the default colors.
    Plain,
    Bold,
    Faint,
    Underline,
    Blink,
    Negative,
    Concealed,
    /// Neither bold nor faint.
    NormalIntensity,
    NotUnderlined,
    Steady,
    Positive,
    Revealed,
    /// `None` is the default color.
    Foreground(Option<Color>),
    /// `None` is the default color.
    Background(Option<Color>),
}

impl RenditionChange {
    /// The change that a number of SGR asks for; `None` for a number that changes nothing here.
    #[inline(always)]
    pub fn of(number: u16) -> Option<RenditionChange>
        ensures { result ≡ spec.change_of number }
    {
        Some(match number {
            0 => RenditionChange::Plain,
            1 => RenditionChange::Bold,
            2 => RenditionChange::Faint,
            4 => RenditionChange::Underline,
            5 => RenditionChange::Blink,
            7 => RenditionChange::Negative,
            8 => RenditionChange::Concealed,
            22 => RenditionChange::NormalIntensity,
            24 => RenditionChange::NotUnderlined,
            25 => RenditionChange::Steady,
            27 => RenditionChange::Positive,
            28 => RenditionChange::Revealed,
            30..=37 => RenditionChange::Foreground(Some(color_of(number - 30))),
            39 => RenditionChange::Foreground(None),
            40..=47 => RenditionChange::Background(Some(color_of(number - 40))),
            49 => RenditionChange::Background(None),
            _ => return None,
        })
    }
}

impl Rendition {
    /// The rendition after a change.
    pub fn changed(self, change: RenditionChange) -> Rendition
        ensures { result ≡ spec.changed change self }
    {
        let mut changed = self;
        match change {
            RenditionChange::Plain => changed = Rendition::plain(),
            RenditionChange::Bold => changed.bold = true,
            RenditionChange::Faint => changed.faint = true,
            RenditionChange::Underline => changed.underline = true,
            RenditionChange::Blink => changed.blink = true,
            RenditionChange::Negative => changed.negative = true,
            RenditionChange::Concealed => changed.concealed = true,
            RenditionChange::NormalIntensity => {
                changed.bold = false;
                changed.faint = false;
            }
            RenditionChange::NotUnderlined => changed.underline = false,
            RenditionChange::Steady => changed.blink = false,
            RenditionChange::Positive => changed.negative = false,
            RenditionChange::Revealed => changed.concealed = false,
            RenditionChange::Foreground(color) => changed.foreground = color,
            RenditionChange::Background(color) => changed.background = color,
        }
        changed
    }
}
