//! Attributes by strings of their own, for entries without `sgr`.
ghost use Rattle.std.specs.Prelude.{◌≡◌, ◌<◌, ℕ, false, Option, Some, None, OnOk, length};
ghost use Rattle.ti_rows.specs.declared.rows.Row.TheVariants.{Sgr, Sgr0};
ghost use Rattle.ti_conforms.specs.Certified.{IsChecked, has, text_of, lengths};
ghost use Rattle.cur_steps.specs.Inks.{in_default_colors, no_attributes, plain_brush};
ghost use Rattle.cur_steps.specs.declared.inks.Brush.{Brush};
ghost use Rattle.cur_steps.specs.Singles as spec;
ghost use Rattle.cur_steps.specs.Steps.{Keeps};

use crate::Wire;
use crate::inks::Brush;
use crate::lines::{send_line, send_line_of};
use crate::pens::{Pen, Sent};
use crate::sets::set_behind;
use ti_conforms::Certificate;
use ti_rows::{Attributes, Row};

/// An attribute that a string of its own turns on.
#[derive(Clone, Copy)]
enum Single {
    Standout,
    Underline,
    Reverse,
    Blink,
    Dim,
    Bold,
    Invisible,
}

/// The attribute that the string of `row` turns on, if it turns on one alone.
fn single_of(row: Row) -> Option<Single>
    ensures { result ≡ spec.single_of row }
{
    match row {
        Row::Smso => Some(Single::Standout),
        Row::Smul => Some(Single::Underline),
        Row::Rev => Some(Single::Reverse),
        Row::Blink => Some(Single::Blink),
        Row::Dim => Some(Single::Dim),
        Row::Bold => Some(Single::Bold),
        Row::Invis => Some(Single::Invisible),
        Row::Clear | Row::Cup(_, _) | Row::Home | Row::Cr | Row::Hpa(_) | Row::Vpa(_) => None,
        Row::Cub1 | Row::Cuf1 | Row::Cuu1 | Row::Cud1 => None,
        Row::Cub(_) | Row::Cuf(_) | Row::Cuu(_) | Row::Cud(_) => None,
        Row::El | Row::El1 | Row::Ed | Row::Ech(_) => None,
        Row::Sgr(_) | Row::Sgr0 | Row::Setaf(_) | Row::Setab(_) | Row::Op => None,
        Row::Enacs | Row::Smacs | Row::Rmacs | Row::Csr(_, _) | Row::Ind | Row::Ri => None,
        Row::Civis | Row::Cnorm | Row::Cvvis | Row::Smcup | Row::Rmcup | Row::Bel => None,
    }
}

/// Whether `single` is among `attributes`.
fn is_among(single: Single, attributes: Attributes) -> bool
    ensures { result ≡ spec.is_among single attributes }
{
    match single {
        Single::Standout => attributes.standout,
        Single::Underline => attributes.underline,
        Single::Reverse => attributes.reverse,
        Single::Blink => attributes.blink,
        Single::Dim => attributes.dim,
        Single::Bold => attributes.bold,
        Single::Invisible => attributes.invisible,
    }
}

/// Whether the string of `row` turns on one attribute alone, which is among `attributes`.
fn has_single(attributes: Attributes, row: Row) -> bool
    ensures { result ≡ spec.has_single row attributes }
{
    match single_of(row) {
        Some(single) => is_among(single, attributes),
        None => false,
    }
}

/// The `attributes`, and `single` too.
fn with_one(attributes: Attributes, single: Single) -> Attributes
    ensures { result ≡ spec.with_one single attributes }
{
    let mut attributes = attributes;
    match single {
        Single::Standout => attributes.standout = true,
        Single::Underline => attributes.underline = true,
        Single::Reverse => attributes.reverse = true,
        Single::Blink => attributes.blink = true,
        Single::Dim => attributes.dim = true,
        Single::Bold => attributes.bold = true,
        Single::Invisible => attributes.invisible = true,
    }
    attributes
}

/// The `attributes`, and also the one that the string of `row` turns on, if it turns on one alone.
fn turned_on(attributes: Attributes, row: Row) -> Attributes
    ensures { result ≡ spec.turned_on row attributes }
{
    match single_of(row) {
        Some(single) => with_one(attributes, single),
        None => attributes,
    }
}

impl<W: Wire> Pen<W> {
    /// Makes attributes and colors plain by `sgr0`.
    pub fn strip<C: Certificate>(&mut self, checked: &C) -> Sent
        requires checked { IsChecked (C.table checked.now) }
        ensures belief { self.new.belief
            ≡ record self.old.belief { brush = plain_brush; graphic = self.new.belief.graphic } }
        ensures step { Keeps W.went W.failures self.old self.new result (C.table checked.now)
            (length (text_of (C.table checked.now) Sgr0)) }
    {
        let line = checked.line(Row::Sgr0).unwrap();
        self.belief.brush = Brush::plain();
        self.belief.graphic = set_behind(checked, line, self.belief.graphic);
        send_line(checked, Row::Sgr0, line, &mut self.wire)
    }

    /// Turns on the attribute of the string of `row`, if it is `wanted`. Without such a string the attribute can't be
    /// seen, and nothing is sent.
    fn add_single<C: Certificate>(&mut self, checked: &C, wanted: Attributes, row: Row) -> Sent
        requires checked { IsChecked (C.table checked.now) }
        requires sgr { has (C.table checked.now) (Sgr no_attributes) ≡ false }
        requires set { self.old.belief.graphic ≡ None }
        ensures belief { self.new.belief ≡ record self.old.belief {
          brush = record self.old.belief.brush
              { attributes = spec.with_single wanted row self.old.belief.brush.attributes };
        } }
        ensures step { Keeps W.went W.failures self.old self.new result (C.table checked.now)
            (length (text_of (C.table checked.now) row)) }
    {
        if !has_single(wanted, row) {
            return Ok(());
        }
        self.belief.brush.attributes = turned_on(self.belief.brush.attributes, row);
        send_line_of(checked, row, &mut self.wire)
    }

    /// Turns on each attribute that is `wanted` and has its string among `rows`.
    fn add_singles<C: Certificate>(&mut self, checked: &C, wanted: Attributes, rows: &[Row]) -> Sent
        requires checked { IsChecked (C.table checked.now) }
        requires sgr { has (C.table checked.now) (Sgr no_attributes) ≡ false }
        requires set { self.old.belief.graphic ≡ None }
        ensures belief { OnOk result
            (self.new.belief ≡ record self.old.belief {
              brush = record self.old.belief.brush
                  { attributes = spec.with_singles wanted rows.now self.old.belief.brush.attributes };
            }) }
        ensures step { Keeps W.went W.failures self.old self.new result (C.table checked.now)
            (lengths (C.table checked.now) rows.now) }
    {
        for row in rows {
            self.add_single(checked, wanted, *row)?;
        }
        Ok(())
    }

    /// Makes the attributes `wanted`, and the colors the default ones: turns all attributes off, then turns the wanted
    /// ones on one by one.
    pub(crate) fn attributes_singly<C: Certificate>(
        &mut self,
        checked: &C,
        wanted: Attributes,
    ) -> Sent
        requires checked { IsChecked (C.table checked.now) }
        requires sgr { (C.table checked.now).line_of (Sgr wanted) ≡ None }
        ensures brush { OnOk result (self.new.belief.brush ≡ in_default_colors wanted) }
        ensures place { OnOk result (self.new.belief.place ≡ self.old.belief.place) }
        ensures step { Keeps W.went W.failures self.old self.new result (C.table checked.now)
            (C.table checked.now).longest.sgr }
        ensures mode { OnOk result (self.new.belief.mode ≡ self.old.belief.mode) }
    {
        self.strip(checked)?;
        // the strings of single attributes may switch the set
        self.belief.graphic = None;
        let rows = [
            Row::Smul,
            Row::Rev,
            Row::Blink,
            Row::Dim,
            Row::Bold,
            Row::Invis,
            Row::Smso,
        ];
        self.add_singles(checked, wanted, &rows)
    }
}
