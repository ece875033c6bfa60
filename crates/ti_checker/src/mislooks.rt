//! Whether an attribute alone shows a mark that isn't its own.

ghost use Rattle.std.specs.Prelude.{◌≡◌};
ghost use Rattle.ti_checker.specs.Mislooks as spec;

use crate::breakage::marks_after;
use ti_conforms::is_alone;
use ti_rows::{
    Attributes, BLINK, BOLD, CONCEALED, FAINT, Marks, NEGATIVE, NO_MARKS, Row, UNDERLINE,
};
use vt_effects::Effect;

/// The marks that have the names of these attributes.
fn own_marks(attributes: Attributes) -> Marks
    ensures { result ≡ spec.own_marks attributes }
{
    Marks {
        bold: attributes.bold,
        faint: attributes.dim,
        underline: attributes.underline,
        blink: attributes.blink,
        negative: attributes.reverse,
        concealed: attributes.invisible,
    }
}

/// The mark of the attribute that `row` turns on alone, by `sgr` or by a string of its own. Standout has none: it may
/// look like anything.
fn own_mark(row: Row) -> Option<Marks>
    ensures { result ≡ spec.own_mark row }
{
    match row {
        Row::Sgr(attributes) => {
            if is_alone(row) {
                Some(own_marks(attributes))
            } else {
                None
            }
        }
        Row::Smul => Some(UNDERLINE),
        Row::Rev => Some(NEGATIVE),
        Row::Blink => Some(BLINK),
        Row::Dim => Some(FAINT),
        Row::Bold => Some(BOLD),
        Row::Invis => Some(CONCEALED),
        _ => None,
    }
}

/// Whether one of `marks` isn't among `own`, an attribute's own marks.
fn has_other(own: Marks, marks: Marks) -> bool
    ensures { result ≡ spec.has_other own marks }
{
    (marks.bold && !own.bold)
        || (marks.faint && !own.faint)
        || (marks.underline && !own.underline)
        || (marks.blink && !own.blink)
        || (marks.negative && !own.negative)
        || (marks.concealed && !own.concealed)
}

/// Whether `row` turns one attribute on alone, and `effect` leaves a mark on that isn't the attribute's own, starting
/// without marks.
pub(crate) fn looks_other(row: Row, effect: &Effect) -> bool
    ensures { result ≡ spec.looks_other row effect.now }
{
    match own_mark(row) {
        Some(own) => has_other(own, marks_after(effect.rendition, NO_MARKS)),
        None => false,
    }
}
