//! The single steps of a painter. Each sends at most one line or one character, but attributes may take several lines
//! if the entry has no `sgr`.
ghost use Rattle.std.specs.Prelude.{◌≡◌, ◌+◌, ℕ, Bool, true, false, Option, Some, None, IfSome, OnOk};
ghost use Rattle.vt_term.specs.{Color.{Color}, Look.{IsPrinted}};
ghost use Rattle.ti_rows.specs.declared.rows.Row.TheVariants.{Op, Sgr, Smacs};
ghost use Rattle.ti_conforms.specs.Certified.{IsChecked, has};
ghost use Rattle.cur_steps.specs.{Inks.{in_default_colors, put_at}, Beliefs.{moves, IsNext, set_row}};
ghost use Rattle.cur_steps.specs.Grounds.{color_limit, color_of, color_row, with_color};
ghost use Rattle.cur_steps.specs.{Sets.{EndsUncolored, FixesRendition}, declared.inks.Brush.{Brush}};
ghost use Rattle.cur_steps.specs.Steps.{IsGoal, Keeps, Makes};

use crate::beliefs::Place;
use crate::inks::{Brush, Ground, Ink, same_color};
use crate::lines::{send_line, send_line_of};
use crate::looks::look_alike;
use crate::pens::{Pen, Sent};
use crate::sets::{fixes_rendition, set_behind};
use crate::{Wire, send_all};
use ti_conforms::Certificate;
use ti_rows::{Attributes, Row};
use vt_term::Color;

impl<W: Wire> Pen<W> {
    /// Makes the colors the default ones.
    pub fn colors_off<C: Certificate>(&mut self, checked: &C) -> Sent
        requires checked { IsChecked (C.table checked.now) }
        ensures belief { self.new.belief ≡ record self.old.belief
            { brush = record self.old.belief.brush { foreground = None; background = None } } }
        ensures step { Keeps W.went W.failures self.old self.new result (C.table checked.now)
            (C.table checked.now).longest.op }
    {
        let plain = is_uncolored(self.belief.brush);
        self.belief.brush.foreground = None;
        self.belief.brush.background = None;
        if plain {
            return Ok(());
        }
        send_line_of(checked, Row::Op, &mut self.wire)
    }

    /// Makes the attributes `wanted`; sends nothing if the believed attributes look alike. The colors must be the
    /// default ones, and stay so.
    pub fn attributes_as<C: Certificate>(&mut self, checked: &C, wanted: Attributes) -> Sent
        requires checked { IsChecked (C.table checked.now) }
        requires foreground { self.old.belief.brush.foreground ≡ None }
        requires background { self.old.belief.brush.background ≡ None }
        ensures brush { OnOk result (self.new.belief.brush ≡ in_default_colors wanted) }
        ensures place { OnOk result (self.new.belief.place ≡ self.old.belief.place) }
        ensures step { Keeps W.went W.failures self.old self.new result (C.table checked.now)
            (C.table checked.now).longest.sgr }
        ensures mode { OnOk result (self.new.belief.mode ≡ self.old.belief.mode) }
    {
        if look_alike(checked, self.belief.brush.attributes, wanted) {
            self.belief.brush.attributes = wanted;
            return Ok(());
        }
        match checked.line(Row::Sgr(wanted)) {
            Some(line) => self.attributes_at_once(checked, line, wanted),
            None => self.attributes_singly(checked, wanted),
        }
    }

    /// Makes the attributes `wanted` and the colors the default ones by one string, `line`. The colors must be the
    /// default ones already, or `line` must lead to one rendition.
    pub fn attributes_at_once<C: Certificate>(
        &mut self,
        checked: &C,
        line: &[u8],
        wanted: Attributes,
    ) -> Sent
        requires checked { IsChecked (C.table checked.now) }
        requires line { (C.table checked.now).line_of (Sgr wanted) ≡ Some line.now }
        requires colors { EndsUncolored (C.table checked.now) line.now self.old.belief.brush }
        ensures brush { self.new.belief.brush ≡ in_default_colors wanted }
        ensures place { self.new.belief.place ≡ self.old.belief.place }
        ensures step { Keeps W.went W.failures self.old self.new result (C.table checked.now)
            (C.table checked.now).longest.sgr }
        ensures mode { OnOk result (self.new.belief.mode ≡ self.old.belief.mode) }
    {
        self.belief.brush = Brush {
            attributes: wanted,
            foreground: None,
            background: None,
        };
        self.belief.graphic = set_behind(checked, line, self.belief.graphic);
        send_line(checked, Row::Sgr(wanted), line, &mut self.wire)
    }

    /// Makes the color that `ground` names `wanted`. If that is none, the color must be the default one already.
    pub fn color_as<C: Certificate>(
        &mut self,
        checked: &C,
        ground: Ground,
        wanted: Option<Color>,
    ) -> Sent
        requires checked { IsChecked (C.table checked.now) }
        requires now { wanted ≡ None → color_of ground self.old.belief.brush ≡ None }
        requires colors { has (C.table checked.now) Op ≡ false → wanted ≡ None }
        ensures belief { self.new.belief
            ≡ record self.old.belief { brush = with_color ground wanted self.old.belief.brush } }
        ensures step { Keeps W.went W.failures self.old self.new result (C.table checked.now)
            (color_limit (C.table checked.now) ground) }
    {
        let same = same_color(color_of(self.belief.brush, ground), wanted);
        self.belief.brush = with_color(self.belief.brush, ground, wanted);
        if same {
            return Ok(());
        }
        let Some(color) = wanted else {
            return Ok(());
        };
        send_line_of(checked, row_of_color(ground, color), &mut self.wire)
    }

    /// Makes the graphic set active if `graphic`, else the plain one; sends nothing if it is known to be active.
    pub fn set_as<C: Certificate>(&mut self, checked: &C, graphic: bool) -> Sent
        requires checked { IsChecked (C.table checked.now) }
        requires lines { has (C.table checked.now) Smacs ≡ false → graphic ≡ false }
        ensures belief { self.new.belief ≡ record self.old.belief { graphic = Some graphic } }
        ensures step { Keeps W.went W.failures self.old self.new result (C.table checked.now)
            (C.table checked.now).longest.sets }
    {
        if is_active(self.belief.graphic, graphic) {
            return Ok(());
        }
        self.belief.graphic = Some(graphic);
        send_line_of(checked, row_of_set(graphic), &mut self.wire)
    }

    /// Prints `ink` at `at`, where the next character must be known to go. The known brush and set must be those of
    /// `ink`.
    pub fn print_at<C: Certificate>(&mut self, checked: &C, at: Place, ink: Ink) -> Sent
        requires goal { IsGoal (C.table checked.now) at }
        requires printed { IsPrinted ink.byte }
        requires place { IsNext (C.table checked.now).cols self.old.belief.place at.row at.col }
        requires brush { self.old.belief.brush ≡ ink.brush }
        requires set { self.old.belief.graphic ≡ Some ink.graphic }
        ensures belief { self.new.belief
            ≡ record self.old.belief { place = record { row = at.row; col = at.col + 1 } } }
        ensures step { Makes W.went W.failures self.old self.new result (C.table checked.now) 1
            (put_at at.row at.col ink) }
    {
        self.belief.place = Place {
            row: at.row,
            col: at.col + 1,
        };
        send_all(&mut self.wire, &[ink.byte])
    }
}

/// Whether `place` is `at`.
pub fn stands(place: Place, at: Place) -> bool
    ensures here { result ≡ true → place ≡ at }
    ensures counted { result ≡ false → moves place at.row at.col ≡ 1 }
    ensures known { place ≡ at → result ≡ true }
{
    place.row == at.row && place.col == at.col
}

/// Whether `brush` has the default colors.
fn is_uncolored(brush: Brush) -> bool
    ensures foreground { result ≡ true → brush.foreground ≡ None }
    ensures background { result ≡ true → brush.background ≡ None }
{
    matches!((brush.foreground, brush.background), (None, None))
}

/// The string of `sgr` for the attributes `wanted`, if it is known to make the colors the default ones, whatever they
/// were. None if `now` looks as wanted, or has the default colors already.
pub fn resetting_line<'a, C: Certificate>(
    checked: &'a C,
    now: Brush,
    wanted: Attributes,
) -> Option<&'a [u8]>
    requires checked { IsChecked (C.table checked.now) }
    ensures line { IfSome result (λ line. (C.table checked.now).line_of (Sgr wanted) ≡ Some line.now) }
    ensures fixed { IfSome result (λ line. FixesRendition (C.table checked.now) line.now) }
{
    if is_uncolored(now) || look_alike(checked, now.attributes, wanted) {
        return None;
    }
    match checked.line(Row::Sgr(wanted)) {
        Some(line) if fixes_rendition(checked, line) => Some(line),
        _ => None,
    }
}

/// The color of `brush` that `ground` names.
fn color_of(brush: Brush, ground: Ground) -> Option<Color>
    ensures { result ≡ color_of ground brush }
{
    match ground {
        Ground::Fore => brush.foreground,
        Ground::Back => brush.background,
    }
}

/// The `brush` with `color` as the color that `ground` names.
fn with_color(brush: Brush, ground: Ground, color: Option<Color>) -> Brush
    ensures { result ≡ with_color ground color brush }
{
    let mut brush = brush;
    match ground {
        Ground::Fore => brush.foreground = color,
        Ground::Back => brush.background = color,
    }
    brush
}

/// The row whose line sets `color` as the color that `ground` names.
fn row_of_color(ground: Ground, color: Color) -> Row
    ensures { result ≡ color_row ground color }
{
    match ground {
        Ground::Fore => Row::Setaf(color),
        Ground::Back => Row::Setab(color),
    }
}

/// The row whose line makes a set active: the graphic set if `graphic`, else the plain one.
fn row_of_set(graphic: bool) -> Row
    ensures { result ≡ set_row graphic }
{
    if graphic { Row::Smacs } else { Row::Rmacs }
}

/// Whether the active set `now` is known, and is the graphic one if `graphic`, else the plain one.
pub fn is_active(now: Option<bool>, graphic: bool) -> bool
    ensures active { result ≡ true → now ≡ Some graphic }
    ensures known { now ≡ Some graphic → result ≡ true }
{
    matches!(now, Some(active) if active == graphic)
}
