//! The effect of SGR on a rendition, as part of an effect record.
ghost use Rattle.std.specs.Prelude.{◌≡◌};
ghost use Rattle.vt_effects.specs.Record as spec;

use crate::effects::{Ink, Rendering, Switch};
use vt_term::{Color, RenditionChange};

/// The ink for a color of SGR, where `None` is the default color.
fn ink_of(color: Option<Color>) -> Ink
    ensures { result ≡ spec.ink_of color }
{
    match color {
        None => Ink::Default,
        Some(color) => Ink::Color(color),
    }
}

/// A rendering, and then one change.
fn changing(now: Rendering, change: RenditionChange) -> Rendering
    ensures { result ≡ spec.changing change now }
{
    let mut then = now;
    match change {
        RenditionChange::Plain => then = Rendering::all_off(),
        RenditionChange::Bold => then.bold = Switch::On,
        RenditionChange::Faint => then.faint = Switch::On,
        RenditionChange::Underline => then.underline = Switch::On,
        RenditionChange::Blink => then.blink = Switch::On,
        RenditionChange::Negative => then.negative = Switch::On,
        RenditionChange::Concealed => then.concealed = Switch::On,
        RenditionChange::NormalIntensity => {
            then.bold = Switch::Off;
            then.faint = Switch::Off;
        }
        RenditionChange::NotUnderlined => then.underline = Switch::Off,
        RenditionChange::Steady => then.blink = Switch::Off,
        RenditionChange::Positive => then.negative = Switch::Off,
        RenditionChange::Revealed => then.concealed = Switch::Off,
        RenditionChange::Foreground(color) => then.foreground = ink_of(color),
        RenditionChange::Background(color) => then.background = ink_of(color),
    }
    then
}

/// A rendering, and then one number of SGR; a number that makes no change is ignored.
fn rendering(now: Rendering, number: u16) -> Rendering
    ensures { result ≡ spec.rendering number now }
{
    match RenditionChange::of(number) {
        None => now,
        Some(change) => changing(now, change),
    }
}

/// A rendering, and then all numbers of an SGR.
pub(crate) fn all_renderings(mut now: Rendering, numbers: &[Option<u16>]) -> Rendering
    ensures { result ≡ spec.all_renderings numbers.now now }
{
    for number in numbers {
        now = rendering(now, number.unwrap_or(0));
    }
    now
}
