//! The effect that the table asks for, row by row.
ghost use Rattle.std.specs.Prelude.{◌≡◌, ◌&&◌, ◌||◌};
ghost use Rattle.ti_rows.specs.Asked as spec;
ghost use Rattle.ti_rows.specs.Looks as looks;

use crate::rows::{
    Attributes, BLINK, BOLD, CONCEALED, FAINT, Looks, Marks, NEGATIVE, Row, UNDERLINE,
};
use vt_effects::{Effect, Erasure, Ink, Move, Region, Rendering, Scroll, Switch};

impl Looks {
    /// The marks of a set of attributes: the union of what each of them shows alone.
    pub fn shown(self, attributes: Attributes) -> Marks
        ensures { result ≡ looks.shown self attributes }
    {
        let all = self.standout;
        let on = attributes.standout;
        Marks {
            bold: is_shown(attributes.bold, self.bold, on, all.bold),
            faint: is_shown(attributes.dim, self.dim, on, all.faint),
            underline: is_shown(attributes.underline, self.underline, on, all.underline),
            blink: is_shown(attributes.blink, self.blink, on, all.blink),
            negative: is_shown(attributes.reverse, self.reverse, on, all.negative),
            concealed: is_shown(attributes.invisible, self.invisible, on, all.concealed),
        }
    }
}

/// Whether a mark is on: its own attribute shows it, or standout does.
fn is_shown(own: bool, look: bool, standout: bool, mark: bool) -> bool
    ensures { result ≡ ((own && look) || (standout && mark)) }
{
    (own && look) || (standout && mark)
}

impl Row {
    /// The effect that the table asks of this row. Its free parts are taken from `effect`.
    pub fn asked(self, looks: Looks, effect: &Effect) -> Effect
        ensures { result ≡ spec.asked looks self effect.now }
    {
        match self {
            Row::Clear => clearing(),
            Row::Cup(row, col) => at(row, col),
            Row::Home => at(0, 0),
            Row::Cr => at_col(0),
            Row::Hpa(col) => at_col(col),
            Row::Vpa(row) => at_row(row),
            Row::Cub1 => by_cols(Move::Back(1), effect),
            Row::Cuf1 => by_cols(Move::Forward(1), effect),
            Row::Cuu1 => by_rows(Move::Back(1), effect),
            Row::Cud1 => by_rows(Move::Forward(1), effect),
            Row::Cub(n) => by_cols(Move::Back(n), effect),
            Row::Cuf(n) => by_cols(Move::Forward(n), effect),
            Row::Cuu(n) => by_rows(Move::Back(n), effect),
            Row::Cud(n) => by_rows(Move::Forward(n), effect),
            Row::El => erasing(Erasure::Tail, effect),
            Row::El1 => erasing(Erasure::Head, effect),
            Row::Ed => erasing(Erasure::Rest, effect),
            Row::Ech(n) => erasing(Erasure::Next(n), effect),
            Row::Csr(top, bottom) => bounding(top, bottom, effect),
            Row::Ind => scrolling(Scroll::Up, effect),
            Row::Ri => scrolling(Scroll::Down, effect),
            Row::Civis => showing(Switch::Off),
            Row::Cnorm => showing(Switch::On),
            Row::Cvvis => showing(on_or_kept(is_on(effect.visible))),
            Row::Smcup | Row::Rmcup => entering(effect),
            Row::Enacs | Row::Smacs | Row::Rmacs => choosing(effect),
            Row::Bel => Effect::unchanged(),
            Row::Sgr(_) | Row::Sgr0 | Row::Smso => asked_of_rendition(self, looks, effect),
            Row::Setaf(_) | Row::Setab(_) | Row::Op => asked_of_rendition(self, looks, effect),
            Row::Smul | Row::Rev | Row::Blink => asked_of_rendition(self, looks, effect),
            Row::Dim | Row::Bold | Row::Invis => asked_of_rendition(self, looks, effect),
        }
    }
}

/// The effect asked for in the rows about the rendition.
fn asked_of_rendition(row: Row, looks: Looks, effect: &Effect) -> Effect
    ensures { result ≡ spec.asked_of_rendition looks row effect.now }
{
    match row {
        Row::Sgr(attributes) => {
            let plain = defaults_both_inks(effect.rendition);
            rendering(just(looks.shown(attributes), plain), effect)
        }
        Row::Sgr0 => rendering(Rendering::all_off(), effect),
        Row::Setaf(color) => inking(Ink::Color(color), Ink::Kept),
        Row::Setab(color) => inking(Ink::Kept, Ink::Color(color)),
        Row::Op => inking(Ink::Default, Ink::Default),
        Row::Smul => turning_on(UNDERLINE, effect),
        Row::Rev => turning_on(NEGATIVE, effect),
        Row::Blink => turning_on(BLINK, effect),
        Row::Dim => turning_on(FAINT, effect),
        Row::Bold => turning_on(BOLD, effect),
        Row::Invis => turning_on(CONCEALED, effect),
        Row::Smso => turning_on(looks.standout, effect),
        _ => Effect::unchanged(),
    }
}

/// The cursor goes to a place, wherever it was.
fn at(row: u16, col: u16) -> Effect
    ensures { result ≡ spec.at row col }
{
    Effect {
        row: Move::To(row),
        ..at_col(col)
    }
}

/// The cursor goes home, and all cells are erased.
fn clearing() -> Effect
    ensures { result ≡ spec.clearing }
{
    Effect {
        erasure: Erasure::Screen,
        ..at(0, 0)
    }
}

fn at_col(col: u16) -> Effect
    ensures { result ≡ spec.at_col col }
{
    Effect {
        col: Move::To(col),
        ends_pending: true,
        ..Effect::unchanged()
    }
}

fn at_row(row: u16) -> Effect
    ensures { result ≡ spec.at_row row }
{
    Effect {
        row: Move::To(row),
        ends_pending: true,
        ..Effect::unchanged()
    }
}

/// The cursor moves up or down, or left or right. Each start of such a row has no pending wrap, so
/// whether the effect would end one is free; so it is for erasures and scrolls.
fn by_rows(way: Move, effect: &Effect) -> Effect
    ensures { result ≡ spec.by_rows way effect.now }
{
    Effect {
        row: way,
        ends_pending: effect.ends_pending,
        ..Effect::unchanged()
    }
}

fn by_cols(way: Move, effect: &Effect) -> Effect
    ensures { result ≡ spec.by_cols way effect.now }
{
    Effect {
        col: way,
        ends_pending: effect.ends_pending,
        ..Effect::unchanged()
    }
}

fn erasing(erasure: Erasure, effect: &Effect) -> Effect
    ensures { result ≡ spec.erasing erasure effect.now }
{
    Effect {
        erasure,
        ends_pending: effect.ends_pending,
        ..Effect::unchanged()
    }
}

fn scrolling(scroll: Scroll, effect: &Effect) -> Effect
    ensures { result ≡ spec.scrolling scroll effect.now }
{
    Effect {
        scroll,
        ends_pending: effect.ends_pending,
        ..Effect::unchanged()
    }
}

/// The margins are these lines; the cursor may go anywhere.
fn bounding(top: u16, bottom: u16, effect: &Effect) -> Effect
    ensures { result ≡ spec.bounding top bottom effect.now }
{
    Effect {
        row: effect.row,
        col: effect.col,
        ends_pending: effect.ends_pending,
        margins: Some(Region { top, bottom }),
        ..Effect::unchanged()
    }
}

/// Margins and visibility stay and nothing scrolls; all else is free.
fn entering(effect: &Effect) -> Effect
    ensures { result ≡ spec.entering effect.now }
{
    Effect {
        scroll: Scroll::Still,
        margins: None,
        visible: Switch::Kept,
        ..*effect
    }
}

/// The character sets are free, and nothing else changes.
fn choosing(effect: &Effect) -> Effect
    ensures { result ≡ spec.choosing effect.now }
{
    Effect {
        charset: effect.charset,
        ..Effect::unchanged()
    }
}

fn showing(visible: Switch) -> Effect
    ensures { result ≡ spec.showing visible }
{
    Effect {
        visible,
        ..Effect::unchanged()
    }
}

/// The rendition changes as given, and the character sets change as in `effect`.
fn rendering(rendition: Rendering, effect: &Effect) -> Effect
    ensures { result ≡ spec.rendering rendition effect.now }
{
    Effect {
        rendition,
        charset: effect.charset,
        ..Effect::unchanged()
    }
}

fn inking(foreground: Ink, background: Ink) -> Effect
    ensures { result ≡ spec.inking foreground background }
{
    Effect {
        rendition: Rendering {
            foreground,
            background,
            ..Rendering::kept()
        },
        ..Effect::unchanged()
    }
}

/// These marks are turned on, and the others stay.
fn turning_on(marks: Marks, effect: &Effect) -> Effect
    ensures { result ≡ spec.rendering (spec.with_marks_on marks) effect.now }
{
    let rendition = Rendering {
        bold: on_or_kept(marks.bold),
        faint: on_or_kept(marks.faint),
        underline: on_or_kept(marks.underline),
        blink: on_or_kept(marks.blink),
        negative: on_or_kept(marks.negative),
        concealed: on_or_kept(marks.concealed),
        ..Rendering::kept()
    };
    rendering(rendition, effect)
}

/// Just these marks are on. Both colors become default, or both stay.
fn just(marks: Marks, plain: bool) -> Rendering
    ensures { result ≡ spec.just marks (spec.ink_of plain) }
{
    let ink = if plain { Ink::Default } else { Ink::Kept };
    Rendering {
        bold: Switch::set_to(marks.bold),
        faint: Switch::set_to(marks.faint),
        underline: Switch::set_to(marks.underline),
        blink: Switch::set_to(marks.blink),
        negative: Switch::set_to(marks.negative),
        concealed: Switch::set_to(marks.concealed),
        foreground: ink,
        background: ink,
    }
}

fn on_or_kept(on: bool) -> Switch
    ensures { result ≡ spec.on_or_kept on }
{
    if on { Switch::On } else { Switch::Kept }
}

pub(crate) fn is_on(switch: Switch) -> bool
    ensures { result ≡ spec.is_on switch }
{
    matches!(switch, Switch::On)
}

fn defaults_both_inks(rendition: Rendering) -> bool
    ensures { result ≡ spec.defaults_both_inks rendition }
{
    matches!(rendition.foreground, Ink::Default) && matches!(rendition.background, Ink::Default)
}
