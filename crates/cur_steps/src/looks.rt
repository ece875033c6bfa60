//! Attributes that look alike on the terminal.
ghost use Rattle.std.specs.Prelude.{◌≡◌, ◌&&◌, true};
ghost use Rattle.ti_conforms.specs.Certified.{IsChecked, has};
ghost use Rattle.cur_steps.specs.Singles as spec;

use crate::inks::same_attributes;
use crate::lines::has_line;
use ti_conforms::Certificate;
use ti_rows::{Attributes, Row};

/// Whether an attribute can be seen without `sgr`: it is on (`on`), and the entry has `row`, its own string.
fn is_seen<C: Certificate>(checked: &C, on: bool, row: Row) -> bool
    ensures { result ≡ (on && has (C.table checked.now) row) }
{
    on && has_line(checked, row)
}

/// The `attributes` that can be seen without `sgr`: the ones that have a string of their own.
fn seen<C: Certificate>(checked: &C, attributes: Attributes) -> Attributes
    ensures { result ≡ spec.seen (C.table checked.now) attributes }
{
    Attributes {
        standout: is_seen(checked, attributes.standout, Row::Smso),
        underline: is_seen(checked, attributes.underline, Row::Smul),
        reverse: is_seen(checked, attributes.reverse, Row::Rev),
        blink: is_seen(checked, attributes.blink, Row::Blink),
        dim: is_seen(checked, attributes.dim, Row::Dim),
        bold: is_seen(checked, attributes.bold, Row::Bold),
        invisible: is_seen(checked, attributes.invisible, Row::Invis),
    }
}

/// Whether the attributes `a` and `b` are known to look alike: they are equal, or `sgr` sends the same bytes for both,
/// or there is no `sgr` and they agree in each attribute that has a string of its own.
pub fn look_alike<C: Certificate>(checked: &C, a: Attributes, b: Attributes) -> bool
    requires checked { IsChecked (C.table checked.now) }
    ensures alike { result ≡ true → spec.LookAlike (C.table checked.now) a b }
{
    if same_attributes(a, b) {
        return true;
    }
    match (checked.line(Row::Sgr(a)), checked.line(Row::Sgr(b))) {
        (Some(one), Some(other)) => one == other,
        (None, None) => same_attributes(seen(checked, a), seen(checked, b)),
        (Some(_), None) | (None, Some(_)) => false,
    }
}
