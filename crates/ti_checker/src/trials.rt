//! Looking for a probe.

ghost use Rattle.std.specs.Prelude.{◌≡◌, IfNone, IfSome};
ghost use Rattle.ti_checker.specs.{Breakage.{IsShown}, Strays.{IsAlwaysWanted, IsRecorded}};
ghost use Rattle.ti_checker.specs.Trials as spec;
ghost use Rattle.ti_rows.specs.{Asked.{start_of}, Lists.{IsInRange}};

use crate::breakage::breaks;
use crate::probes::Probe;
use ti_rows::{Looks, Marks, Row};
use vt_effects::{Effect, Margins, Start};
use vt_term::{Charset, Color, Size};

/// The number of probes that are tried: one for each choice of five.
const TRIES: u8 = 32;

/// The choices that the binary digits of a number make.
#[derive(Clone, Copy)]
struct Choices {
    low: bool,
    right: bool,
    pending: bool,
    marked: bool,
    narrow: bool,
}

impl Choices {
    fn of(number: u8) -> Choices
        ensures { result ≡ spec.choices_of number }
    {
        Choices {
            low: number % 2 == 1,
            right: number / 2 % 2 == 1,
            pending: number / 4 % 2 == 1,
            marked: number / 8 % 2 == 1,
            narrow: number / 16 % 2 == 1,
        }
    }
}

/// Every mark, or none.
fn all_marks(on: bool) -> Marks
    ensures { result ≡ spec.all_marks on }
{
    Marks {
        bold: on,
        faint: on,
        underline: on,
        blink: on,
        negative: on,
        concealed: on,
    }
}

/// The first line of a wide or a `narrow` region, with the cursor in `row`.
fn top_by(narrow: bool, margins: Margins, row: u16, last: u16) -> u16
    ensures { result ≡ spec.top_by narrow margins row last }
{
    match margins {
        Margins::Whole => 0,
        Margins::Legal => { if narrow && 1 < last { 1 } else { 0 } }
        Margins::OnBottom => { if narrow { row.saturating_sub(1) } else { 0 } }
        Margins::OnTop => row,
    }
}

/// The last line of the region.
fn bottom_by(narrow: bool, margins: Margins, row: u16, last: u16) -> u16
    ensures { result ≡ spec.bottom_by narrow margins row last }
{
    match margins {
        Margins::Whole | Margins::Legal => last,
        Margins::OnBottom => row,
        Margins::OnTop => { if narrow && row < last { row + 1 } else { last } }
    }
}

fn color_by(on: bool, color: Color) -> Option<Color>
    ensures { result ≡ spec.color_by on color }
{
    if on { Some(color) } else { None }
}

/// The row or column at one end of the range from `min` to `max`.
fn end_by(greatest: bool, min: u16, max: u16) -> u16
    ensures { result ≡ spec.end_by greatest min max }
{
    if greatest { max } else { min }
}

/// A state with the cursor in a corner of the start's rows and columns.
fn probe_by(choices: Choices, start: &Start, size: Size) -> Probe
    ensures { result ≡ spec.probe_by choices start.now size.rows }
{
    let row = end_by(choices.low, start.row_min, start.row_max);
    let last = (size.rows - 1) as u16;
    Probe {
        row,
        col: end_by(choices.right, start.col_min, start.col_max),
        pending: choices.pending && start.pending,
        top: top_by(choices.narrow, start.margins, row, last),
        bottom: bottom_by(choices.narrow, start.margins, row, last),
        charset: Charset {
            g0_graphic: choices.marked,
            g1_graphic: choices.marked,
            shifted_out: choices.marked,
        },
        look: all_marks(choices.marked),
        foreground: color_by(choices.marked, Color::Red),
        background: color_by(choices.marked, Color::Blue),
        visible: !choices.marked,
        fill: b'x',
    }
}

/// The probe with this number, if `effect` leads from it to an end that isn't wanted. `taught` has the looks that the
/// rows before teach.
fn shown_by(number: u8, row: Row, taught: Looks, effect: &Effect, size: Size) -> Option<Probe>
    requires { IsInRange size.rows size.cols row }
    ensures shown { IfSome result (λ probe. IsShown size.rows size.cols taught row effect.now probe) }
    ensures wanted { IfNone result (spec.EndsAsWanted size.rows size.cols taught row effect.now
        (spec.probe_by (spec.choices_of number) (start_of size.rows size.cols row) size.rows)) }
{
    let probe = probe_by(Choices::of(number), &row.start(size), size);
    if breaks(row, taught, effect, size, &probe) {
        Some(probe)
    } else {
        None
    }
}

/// A start of `row` from which `effect` leads to an end that isn't wanted. This holds for every assignment of looks
/// that is consistent with `taught`, which earlier rows taught, and by which the one attribute that the row turns on
/// looks as the effect shows it from a start without marks. `None` if no probe is such a start: then some assignment of
/// looks has the effect, if it is that of a text, lead from each start to a wanted end.
pub(crate) fn probe_for(row: Row, taught: Looks, effect: &Effect, size: Size) -> Option<Probe>
    requires { IsInRange size.rows size.cols row }
    ensures shown { IfSome result (λ probe. IsShown size.rows size.cols taught row effect.now probe) }
    ensures wanted { IfNone result (IsRecorded size.rows size.cols row effect.now
        → IsAlwaysWanted size.rows size.cols taught row effect.now) }
{
    for number in 0..TRIES {
        if let Some(probe) = shown_by(number, row, taught, effect, size) {
            return Some(probe);
        }
    }
    None
}
