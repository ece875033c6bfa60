//! Two effects, one after the other, as one.
ghost use Rattle.std.specs.Prelude.{◌≡◌, IfSome};
ghost use Rattle.vt_effects.specs.Compose as spec;

use crate::effects::{Effect, Erasure, Ink, Move, Rendering, Scroll, Sets, Switch};
use crate::moves::{and_back, and_forward};
use crate::records::{cells_erased, display_erased, is_still, keeps_background, screen_erased};
use vt_term::EraseExtent;

/// The effect of `first` and then `second` as one: from every state on which `first` applies and then `second`, it
/// does what they do. `None` if no such record is found: if cells are erased after the cursor moved, after other
/// cells were erased or after the background was set; if the region scrolls twice, or after its margins or the
/// background were set; or if a move passes the first row or column from everywhere.
pub fn compose(first: &Effect, second: &Effect) -> Option<Effect>
    ensures record { result ≡ spec.composed first.now second.now }
    ensures both { IfSome result (spec.Composes first.now second.now) }
{
    composed(first, second)
}

fn composed(first: &Effect, second: &Effect) -> Option<Effect>
    ensures { result ≡ spec.composed first.now second.now }
{
    let erased = then_erased(*first, second.erasure)?;
    let cells = then_scrolled(first, erased, second.scroll)?;
    let row = then_moved(first.row, second.row)?;
    let col = then_moved(first.col, second.col)?;
    Some(Effect {
        row,
        col,
        ends_pending: first.ends_pending || second.ends_pending,
        erasure: cells.erasure,
        scroll: cells.scroll,
        rendition: then_rendered(first.rendition, second.rendition),
        charset: then_designated(first.charset, second.charset),
        margins: second.margins.or(first.margins),
        visible: then_switched(first.visible, second.visible),
    })
}

fn then_erased(effect: Effect, erasure: Erasure) -> Option<Effect>
    ensures { result ≡ spec.then_erased effect erasure }
{
    match erasure {
        Erasure::Nothing => Some(effect),
        Erasure::Screen => screen_erased(effect),
        Erasure::Rest => display_erased(effect, EraseExtent::ToEnd),
        Erasure::Tail | Erasure::Head | Erasure::Next(_) => cells_erased(effect, erasure),
    }
}

fn then_scrolled(first: &Effect, here: Effect, scroll: Scroll) -> Option<Effect>
    ensures { result ≡ spec.then_scrolled first.now here scroll }
{
    if matches!(scroll, Scroll::Still) {
        return Some(here);
    }
    if first.margins.is_none() && keeps_background(first) && is_still(here.scroll) {
        Some(Effect { scroll, ..here })
    } else {
        None
    }
}

fn then_moved(first: Move, second: Move) -> Option<Move>
    ensures { result ≡ spec.then_moved first second }
{
    match second {
        Move::Kept => Some(first),
        Move::To(k) => Some(Move::To(k)),
        Move::Back(n) if goes_back(first, n) => Some(and_back(first, n)),
        Move::Forward(n) if goes_forward(first, n) => Some(and_forward(first, n)),
        Move::Back(_) | Move::Forward(_) => None,
    }
}

fn goes_back(way: Move, n: u16) -> bool
    ensures { result ≡ spec.goes_back way n }
{
    match way {
        Move::To(k) => n <= k,
        Move::Back(k) => u32::from(k) + u32::from(n) <= 65535,
        Move::Kept | Move::Forward(_) => true,
    }
}

fn goes_forward(way: Move, n: u16) -> bool
    ensures { result ≡ spec.goes_forward way n }
{
    match way {
        Move::To(k) | Move::Forward(k) => u32::from(k) + u32::from(n) <= 65535,
        Move::Kept | Move::Back(_) => true,
    }
}

fn then_switched(first: Switch, second: Switch) -> Switch
    ensures { result ≡ spec.then_switched first second }
{
    match second {
        Switch::Kept => first,
        Switch::On | Switch::Off => second,
    }
}

fn then_inked(first: Ink, second: Ink) -> Ink
    ensures { result ≡ spec.then_inked first second }
{
    match second {
        Ink::Kept => first,
        Ink::Default | Ink::Color(_) => second,
    }
}

fn then_rendered(first: Rendering, second: Rendering) -> Rendering
    ensures { result ≡ spec.then_rendered first second }
{
    Rendering {
        bold: then_switched(first.bold, second.bold),
        faint: then_switched(first.faint, second.faint),
        underline: then_switched(first.underline, second.underline),
        blink: then_switched(first.blink, second.blink),
        negative: then_switched(first.negative, second.negative),
        concealed: then_switched(first.concealed, second.concealed),
        foreground: then_inked(first.foreground, second.foreground),
        background: then_inked(first.background, second.background),
    }
}

fn then_designated(first: Sets, second: Sets) -> Sets
    ensures { result ≡ spec.then_designated first second }
{
    Sets {
        g0_graphic: then_switched(first.g0_graphic, second.g0_graphic),
        g1_graphic: then_switched(first.g1_graphic, second.g1_graphic),
        shifted_out: then_switched(first.shifted_out, second.shifted_out),
    }
}
