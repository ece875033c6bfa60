//! Printing a cell, in as few single steps as its look needs.
ghost use Rattle.std.specs.Prelude.{◌≡◌, ◌<◌, ◌≤◌, ℕ, length, true, Some, None, OnOk, IfOk};
ghost use Rattle.ti_rows.specs.declared.rows.Row.TheVariants.{Sgr0};
ghost use Rattle.ti_conforms.specs.Certified.{IsChecked, cell_limit, text_of};
ghost use Rattle.cur_steps.specs.Inks.{CanShow, IsInk, IsColored, in_default_colors, put_at, plain_brush};
ghost use Rattle.cur_steps.specs.Beliefs.{IsNext, plain_limit, colors_limit, brush_limit, ready_limit, stamp_limit};
ghost use Rattle.cur_steps.specs.{Beliefs.{ink_limit}, Steps.{IsGoal, KeepsFrom, KeepsWithin, Makes, MakesFrom}};

use crate::routes::is_alike;
use crate::targets::Target;
use cur_steps::{
    Brush, Ground, Ink, Pen, Picture, Place, Sent, Wire, look_alike, resetting_line,
    same_attributes, stands,
};
use ti_conforms::Certificate;
use ti_rows::{Attributes, Row};
use vt_term::Color;

impl<C: Certificate, N: Picture> Target<'_, C, N> {
    /// Moves the cursor to `at`, and makes the brush `wanted`. The line must already show the target up to `at`.
    pub(crate) fn reach_in_brush<W: Wire>(&self, pen: &mut Pen<W>, at: Place, wanted: Brush) -> Sent
        requires goal { IsGoal (C.table self.now.checked.now) at }
        requires drawable { CanShow (C.table self.now.checked.now) (N.cells self.now.shown.now) }
        requires colored { IsColored (C.table self.now.checked.now) wanted }
        ensures brush { OnOk result (pen.new.belief.brush ≡ wanted) }
        ensures place { OnOk result (pen.new.belief.place ≡ at) }
        ensures step { KeepsFrom W.went W.failures pen.old pen.new result (C.table self.now.checked.now)
            (ready_limit (C.table self.now.checked.now)) (N.cells self.now.shown.now) at }
        ensures mode { OnOk result (pen.new.belief.mode ≡ pen.old.belief.mode) }
    {
        self.reach(pen, at)?;
        brush_as(self.checked, pen, wanted)
    }

    /// Makes the next character go to `at`. The line must already show the target up to `at`.
    fn approach<W: Wire>(&self, pen: &mut Pen<W>, at: Place) -> Sent
        requires goal { IsGoal (C.table self.now.checked.now) at }
        requires drawable { CanShow (C.table self.now.checked.now) (N.cells self.now.shown.now) }
        ensures place { OnOk result (IsNext (C.table self.now.checked.now).cols pen.new.belief.place at.row at.col) }
        ensures step { KeepsFrom W.went W.failures pen.old pen.new result (C.table self.now.checked.now)
            (C.table self.now.checked.now).longest.cup (N.cells self.now.shown.now) at }
        ensures mode { OnOk result (pen.new.belief.mode ≡ pen.old.belief.mode) }
    {
        if stands(pen.belief.place, at) {
            return Ok(());
        }
        if wraps_to(pen.belief.place, self.checked.cols(), at) {
            return Ok(());
        }
        self.reach(pen, at)
    }

    /// Prints `ink` at `at`. The line must already show the target up to `at`.
    pub fn put_cell<W: Wire>(&self, pen: &mut Pen<W>, at: Place, ink: Ink) -> Sent
        requires drawable { CanShow (C.table self.now.checked.now) (N.cells self.now.shown.now) }
        requires row { at.row < (C.table self.now.checked.now).rows }
        requires col { at.col < (C.table self.now.checked.now).cols }
        requires ink { IsInk (C.table self.now.checked.now) ink }
        ensures step { MakesFrom W.went W.failures pen.old pen.new result (C.table self.now.checked.now)
            (cell_limit (C.table self.now.checked.now)) (N.cells self.now.shown.now) at (put_at at.row at.col ink) }
        ensures mode { OnOk result (pen.new.belief.mode ≡ pen.old.belief.mode) }
    {
        // only this call's contract says that the certificate is verified
        let _ = self.checked.rows();
        self.approach(pen, at)?;
        put_here(self.checked, pen, at, ink)
    }
}

/// Makes the attributes `wanted`, and the colors the default ones: by the string for the attributes alone if that
/// resets the colors.
fn plainly_as<C: Certificate, W: Wire>(checked: &C, pen: &mut Pen<W>, wanted: Attributes) -> Sent
    requires checked { IsChecked (C.table checked.now) }
    ensures brush { OnOk result (pen.new.belief.brush ≡ in_default_colors wanted) }
    ensures place { OnOk result (pen.new.belief.place ≡ pen.old.belief.place) }
    ensures step { KeepsWithin W.went W.failures pen.old pen.new result (C.table checked.now) plain_limit }
    ensures mode { OnOk result (pen.new.belief.mode ≡ pen.old.belief.mode) }
{
    match resetting_line(checked, pen.belief.brush, wanted) {
        Some(line) => pen.attributes_at_once(checked, line, wanted),
        None => {
            pen.colors_off(checked)?;
            pen.attributes_as(checked, wanted)
        }
    }
}

/// Makes the colors those of `wanted`. The attributes must be those of `wanted` already, and no color may become the
/// default one.
fn colors_as<C: Certificate, W: Wire>(checked: &C, pen: &mut Pen<W>, wanted: Brush) -> Sent
    requires checked { IsChecked (C.table checked.now) }
    requires attributes { pen.old.belief.brush.attributes ≡ wanted.attributes }
    requires foreground { wanted.foreground ≡ None → pen.old.belief.brush.foreground ≡ None }
    requires background { wanted.background ≡ None → pen.old.belief.brush.background ≡ None }
    requires colored { IsColored (C.table checked.now) wanted }
    ensures brush { OnOk result (pen.new.belief.brush ≡ wanted) }
    ensures place { OnOk result (pen.new.belief.place ≡ pen.old.belief.place) }
    ensures step { KeepsWithin W.went W.failures pen.old pen.new result (C.table checked.now) colors_limit }
    ensures mode { OnOk result (pen.new.belief.mode ≡ pen.old.belief.mode) }
{
    pen.color_as(checked, Ground::Fore, wanted.foreground)?;
    pen.color_as(checked, Ground::Back, wanted.background)
}

/// Whether the color `wanted` isn't the default one, or `now` is the default one already.
fn needs_no_default(now: Option<Color>, wanted: Option<Color>) -> bool
    ensures { result ≡ true → wanted ≡ None → now ≡ None }
{
    matches!((now, wanted), (None, _) | (_, Some(_)))
}

/// Whether no color of the brush `now` becomes the default one in `wanted`.
fn needs_no_defaults(now: Brush, wanted: Brush) -> bool
    ensures foreground { result ≡ true → wanted.foreground ≡ None → now.foreground ≡ None }
    ensures background { result ≡ true → wanted.background ≡ None → now.background ≡ None }
{
    needs_no_default(now.foreground, wanted.foreground)
        && needs_no_default(now.background, wanted.background)
}

/// Whether the brush `now` becomes `wanted` by its colors alone, none of which becomes the default one.
fn is_recolored(now: Brush, wanted: Brush) -> bool
    ensures attributes { result ≡ true → now.attributes ≡ wanted.attributes }
    ensures foreground { result ≡ true → wanted.foreground ≡ None → now.foreground ≡ None }
    ensures background { result ≡ true → wanted.background ≡ None → now.background ≡ None }
{
    same_attributes(now.attributes, wanted.attributes) && needs_no_defaults(now, wanted)
}

/// Makes the brush `wanted`, which must have the default colors if the entry can't set others.
pub fn brush_as<C: Certificate, W: Wire>(checked: &C, pen: &mut Pen<W>, wanted: Brush) -> Sent
    requires checked { IsChecked (C.table checked.now) }
    requires colored { IsColored (C.table checked.now) wanted }
    ensures brush { OnOk result (pen.new.belief.brush ≡ wanted) }
    ensures place { OnOk result (pen.new.belief.place ≡ pen.old.belief.place) }
    ensures step { KeepsWithin W.went W.failures pen.old pen.new result (C.table checked.now) brush_limit }
    ensures mode { OnOk result (pen.new.belief.mode ≡ pen.old.belief.mode) }
{
    if is_recolored(pen.belief.brush, wanted) {
        return colors_as(checked, pen, wanted);
    }
    plainly_as(checked, pen, wanted.attributes)?;
    colors_as(checked, pen, wanted)
}

/// Whether characters printed in `brush` are known to look as in the plain one. No clause says that this is right.
fn looks_plain<C: Certificate>(checked: &C, brush: Brush) -> bool
    requires checked { IsChecked (C.table checked.now) }
{
    let plain = Brush::plain();
    needs_no_defaults(brush, plain) && look_alike(checked, brush.attributes, plain.attributes)
}

/// Whether `sgr0` has no more bytes than the string that `sgr` sends for no attributes, or there is no such string.
fn has_short_plain<C: Certificate>(checked: &C) -> bool
    requires checked { IsChecked (C.table checked.now) }
    ensures short { result ≡ true → length (text_of (C.table checked.now) Sgr0) ≤ (C.table checked.now).longest.sgr }
{
    let plain = checked.line(Row::Sgr0).unwrap().len();
    match checked.line(Row::Sgr(Brush::plain().attributes)) {
        Some(line) => plain <= line.len(),
        None => true,
    }
}

/// Makes the brush the plain one: by nothing if it looks so, else by `sgr0`, unless the other strings for that have
/// fewer bytes.
pub fn make_plain<C: Certificate, W: Wire>(checked: &C, pen: &mut Pen<W>) -> Sent
    requires checked { IsChecked (C.table checked.now) }
    ensures brush { OnOk result (pen.new.belief.brush ≡ plain_brush) }
    ensures place { OnOk result (pen.new.belief.place ≡ pen.old.belief.place) }
    ensures step { KeepsWithin W.went W.failures pen.old pen.new result (C.table checked.now) plain_limit }
    ensures mode { OnOk result (pen.new.belief.mode ≡ pen.old.belief.mode) }
{
    if looks_plain(checked, pen.belief.brush) || !has_short_plain(checked) {
        return plainly_as(checked, pen, Brush::plain().attributes);
    }
    pen.strip(checked)
}

/// Prints `ink` in its set at `at`, where the next character must be known to go. The known brush must be that of
/// `ink`.
fn print_in_set<C: Certificate, W: Wire>(checked: &C, pen: &mut Pen<W>, at: Place, ink: Ink) -> Sent
    requires goal { IsGoal (C.table checked.now) at }
    requires ink { IsInk (C.table checked.now) ink }
    requires place { IsNext (C.table checked.now).cols pen.old.belief.place at.row at.col }
    requires brush { pen.old.belief.brush ≡ ink.brush }
    ensures step { Makes W.went W.failures pen.old pen.new result (C.table checked.now)
        (stamp_limit (C.table checked.now)) (put_at at.row at.col ink) }
    ensures mode { OnOk result (pen.new.belief.mode ≡ pen.old.belief.mode) }
{
    pen.set_as(checked, ink.graphic)?;
    pen.print_at(checked, at, ink)
}

/// Whether the cursor is at `place` with a wrap pending that takes the next character to `at`, on a screen of `cols`
/// columns.
fn wraps_to(place: Place, cols: usize, at: Place) -> bool
    ensures { result ≡ true → IsNext cols place at.row at.col }
{
    at.col == 0 && at.row > 0 && place.row == at.row - 1 && place.col == cols
}

/// Prints `ink` at `at`, where the next character must be known to go.
fn put_here<C: Certificate, W: Wire>(checked: &C, pen: &mut Pen<W>, at: Place, ink: Ink) -> Sent
    requires goal { IsGoal (C.table checked.now) at }
    requires ink { IsInk (C.table checked.now) ink }
    requires place { IsNext (C.table checked.now).cols pen.old.belief.place at.row at.col }
    ensures step { Makes W.went W.failures pen.old pen.new result (C.table checked.now)
        (ink_limit (C.table checked.now)) (put_at at.row at.col ink) }
    ensures mode { OnOk result (pen.new.belief.mode ≡ pen.old.belief.mode) }
{
    if is_alike(&pen.belief, ink) {
        return pen.print_at(checked, at, ink);
    }
    brush_as(checked, pen, ink.brush)?;
    print_in_set(checked, pen, at, ink)
}
