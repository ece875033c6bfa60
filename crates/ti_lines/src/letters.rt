//! The letters for switches and colors.

ghost use Rattle.std.specs.{Prelude.{◌≡◌}, List.{list_all}};
ghost use Rattle.ti_lines.specs.EffectText as texts;
ghost use Rattle.ti_lines.specs.EffectReader as spec;

use vt_effects::{Ink, Switch};
use vt_term::color_of;

/// The letter `on`, the letter `off`, or a dot if the switch is kept.
pub(crate) fn switch_letter(on: u8, off: u8, switch: Switch) -> u8
    ensures { result ≡ texts.switch_letter on off switch }
{
    match switch {
        Switch::Kept => b'.',
        Switch::On => on,
        Switch::Off => off,
    }
}

pub(crate) fn ink_letter(ink: Ink) -> u8
    ensures { result ≡ texts.ink_letter ink }
{
    match ink {
        Ink::Kept => b'.',
        Ink::Default => b'd',
        Ink::Color(color) => b'0' + color.number(),
    }
}

/// The switch that `letter` says: on for the letter `on`, off for `off`, kept for a dot.
pub(crate) fn switch_at(on: u8, off: u8, letter: u8) -> Option<Switch>
    ensures { result ≡ spec.switch_at on off letter }
{
    if letter == on {
        Some(Switch::On)
    } else if letter == off {
        Some(Switch::Off)
    } else if letter == b'.' {
        Some(Switch::Kept)
    } else {
        None
    }
}

pub(crate) fn ink_at(letter: u8) -> Option<Ink>
    ensures { result ≡ spec.ink_at letter }
{
    match letter {
        b'0'..=b'7' => Some(Ink::Color(color_of(u16::from(letter - b'0')))),
        b'd' => Some(Ink::Default),
        b'.' => Some(Ink::Kept),
        _ => None,
    }
}

pub(crate) fn are_dots(letters: &[u8]) -> bool
    ensures { result ≡ list_all texts.is_dot letters.now }
{
    letters.iter().all(|letter| *letter == b'.')
}
