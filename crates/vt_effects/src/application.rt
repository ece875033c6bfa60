//! Applying an effect to a terminal.
ghost use Rattle.std.specs.Prelude.{◌≡◌, ◌<◌, ◌≤◌};
ghost use Rattle.vt_effects.specs.Effect as spec;
ghost use Rattle.vt_term.specs.Look.{blank};

use crate::effects::{Effect, Erasure, Ink, Move, Region, Rendering, Scroll, Sets, Switch};
use vt_term::{Charset, Color, EraseExtent, Function, Rendition, Settings, Terminal};

/// Applies `effect` to `terminal`; an open sequence stays open. The moves must stay on the screen, and margins that
/// the effect sets must be in order and on the screen.
pub fn apply(effect: &Effect, terminal: &mut Terminal)
    requires { spec.Applies effect.now terminal.old.screen }
    ensures { terminal.new ≡ record terminal.old { screen = spec.applied effect.now terminal.old.screen } }
{
    // here the prover learns the invariant of the terminal
    let _ = terminal.size();
    erase(effect.erasure, terminal);
    scroll(effect.scroll, terminal);
    let now = terminal.settings();
    let region = after_margins(effect.margins, now.top, now.bottom);
    terminal.set(Settings {
        row: after_move(effect.row, now.row),
        col: after_move(effect.col, now.col),
        pending: now.pending && !effect.ends_pending,
        rendition: after_rendering(effect.rendition, now.rendition),
        charset: after_sets(effect.charset, now.charset),
        top: region.0,
        bottom: region.1,
        visible: after_switch(effect.visible, now.visible),
    });
}

fn erase(erasure: Erasure, terminal: &mut Terminal)
    ensures { let s = terminal.old.screen in terminal.new ≡
        record terminal.old {
          screen = record s { grid = spec.erased erasure s.row s.col (blank s.rendition) s.grid };
        } }
{
    match erasure {
        Erasure::Nothing => {}
        Erasure::Screen => terminal.act(Function::EraseDisplay(EraseExtent::Whole)),
        Erasure::Tail => terminal.act(Function::EraseLine(EraseExtent::ToEnd)),
        Erasure::Head => terminal.act(Function::EraseLine(EraseExtent::FromStart)),
        Erasure::Rest => terminal.act(Function::EraseDisplay(EraseExtent::ToEnd)),
        Erasure::Next(n) => terminal.act(Function::EraseCells(n)),
    }
}

fn scroll(scroll: Scroll, terminal: &mut Terminal)
    ensures { let s = terminal.old.screen in terminal.new ≡
        record terminal.old {
          screen = record s { grid = spec.scrolled scroll s.top s.bottom (blank s.rendition) s.grid };
        } }
{
    match scroll {
        Scroll::Still => {}
        Scroll::Up => terminal.act(Function::ScrollUp(1)),
        Scroll::Down => terminal.act(Function::ScrollDown(1)),
    }
}

fn after_move(way: Move, from: usize) -> usize
    requires { from ≤ 500 }
    ensures { result ≡ spec.moved way from }
{
    match way {
        Move::Kept => from,
        Move::To(k) => usize::from(k),
        Move::Back(k) => from.saturating_sub(usize::from(k)),
        Move::Forward(k) => from + usize::from(k),
    }
}

fn after_margins(margins: Option<Region>, top: usize, bottom: usize) -> (usize, usize)
    ensures top { result.0 ≡ spec.top_of margins top }
    ensures bottom { result.1 ≡ spec.bottom_of margins bottom }
{
    match margins {
        None => (top, bottom),
        Some(region) => (usize::from(region.top), usize::from(region.bottom)),
    }
}

fn after_switch(switch: Switch, now: bool) -> bool
    ensures { result ≡ spec.switched switch now }
{
    match switch {
        Switch::Kept => now,
        Switch::On => true,
        Switch::Off => false,
    }
}

fn after_ink(ink: Ink, now: Option<Color>) -> Option<Color>
    ensures { result ≡ spec.inked ink now }
{
    match ink {
        Ink::Kept => now,
        Ink::Default => None,
        Ink::Color(color) => Some(color),
    }
}

fn after_rendering(rendering: Rendering, now: Rendition) -> Rendition
    ensures { result ≡ spec.rendered rendering now }
{
    Rendition {
        bold: after_switch(rendering.bold, now.bold),
        faint: after_switch(rendering.faint, now.faint),
        underline: after_switch(rendering.underline, now.underline),
        blink: after_switch(rendering.blink, now.blink),
        negative: after_switch(rendering.negative, now.negative),
        concealed: after_switch(rendering.concealed, now.concealed),
        foreground: after_ink(rendering.foreground, now.foreground),
        background: after_ink(rendering.background, now.background),
    }
}

fn after_sets(sets: Sets, now: Charset) -> Charset
    ensures { result ≡ spec.designated sets now }
{
    Charset {
        g0_graphic: after_switch(sets.g0_graphic, now.g0_graphic),
        g1_graphic: after_switch(sets.g1_graphic, now.g1_graphic),
        shifted_out: after_switch(sets.shifted_out, now.shifted_out),
    }
}
