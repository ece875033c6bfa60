//! Whether an effect leads to an end that a row doesn't want.

ghost use Rattle.std.specs.Prelude.{◌≡◌, IsTrue, false, if◌then◌else◌};
ghost use Rattle.ti_checker.specs.{Alone.{is_several}, Probes.{CanShow, screen_of}};
ghost use Rattle.ti_checker.specs.Breakage as spec;
ghost use Rattle.ti_checker.specs.Trials.{EndSo, EndsAsWanted};
ghost use Rattle.ti_rows.specs.Starts.{Starts};
ghost use Rattle.vt_effects.specs.Effect.{bottom_of, designated, inked, moved, switched, top_of};

use crate::cells::cells_differ;
use crate::probes::Probe;
use ti_conforms::{designated, is_alone, switched};
use ti_rows::{Looks, Marks, NO_MARKS, Row};
use vt_effects::{Effect, Ink, Region, Rendering, Switch};
use vt_term::{Color, Size};

fn inked(ink: Ink, color: Option<Color>) -> Option<Color>
    ensures { result ≡ inked ink color }
{
    match ink {
        Ink::Kept => color,
        Ink::Default => None,
        Ink::Color(other) => Some(other),
    }
}

fn top_of(margins: Option<Region>, top: u16) -> u16
    ensures { result ≡ top_of margins top }
{
    match margins {
        None => top,
        Some(region) => region.top,
    }
}

fn bottom_of(margins: Option<Region>, bottom: u16) -> u16
    ensures { result ≡ bottom_of margins bottom }
{
    match margins {
        None => bottom,
        Some(region) => region.bottom,
    }
}

/// The marks after `rendering`, starting from `marks`.
pub(crate) fn marks_after(rendering: Rendering, marks: Marks) -> Marks
    ensures { result ≡ spec.marks_after rendering marks }
{
    Marks {
        bold: switched(rendering.bold, marks.bold),
        faint: switched(rendering.faint, marks.faint),
        underline: switched(rendering.underline, marks.underline),
        blink: switched(rendering.blink, marks.blink),
        negative: switched(rendering.negative, marks.negative),
        concealed: switched(rendering.concealed, marks.concealed),
    }
}

/// The looks by which standout shows exactly `marks`, and each other attribute its own mark if it is one of them.
fn looks_of(marks: Marks) -> Looks
    ensures { result ≡ spec.looks_of marks }
{
    Looks {
        standout: marks,
        underline: marks.underline,
        reverse: marks.negative,
        blink: marks.blink,
        dim: marks.faint,
        bold: marks.bold,
        invisible: marks.concealed,
    }
}

fn place_differs(first: &Effect, second: &Effect, size: Size, probe: &Probe) -> bool
    ensures apart { IsTrue result → spec.EndAlike first.now second.now (screen_of size.rows size.cols probe.now) → ⊥ }
    ensures row { result ≡ false → moved first.now.row probe.now.row ≡ moved second.now.row probe.now.row }
    ensures col { result ≡ false → moved first.now.col probe.now.col ≡ moved second.now.col probe.now.col }
{
    first.row.leads_from(probe.row) != second.row.leads_from(probe.row)
        || first.col.leads_from(probe.col) != second.col.leads_from(probe.col)
}

fn pending_after(effect: &Effect, probe: &Probe) -> bool
    ensures { result ≡ (if effect.now.ends_pending then false else probe.now.pending) }
{
    !effect.ends_pending && probe.pending
}

fn modes_differ(first: &Effect, second: &Effect, size: Size, probe: &Probe) -> bool
    ensures apart { IsTrue result → spec.EndAlike first.now second.now (screen_of size.rows size.cols probe.now) → ⊥ }
    ensures pending { result ≡ false → (if first.now.ends_pending then false else probe.now.pending)
        ≡ (if second.now.ends_pending then false else probe.now.pending) }
    ensures visible { result ≡ false → switched first.now.visible probe.now.visible
        ≡ switched second.now.visible probe.now.visible }
    ensures charset { result ≡ false → designated first.now.charset probe.now.charset
        ≡ designated second.now.charset probe.now.charset }
{
    pending_after(first, probe) != pending_after(second, probe)
        || switched(first.visible, probe.visible) != switched(second.visible, probe.visible)
        || designated(first.charset, probe.charset) != designated(second.charset, probe.charset)
}

fn margins_differ(first: &Effect, second: &Effect, size: Size, probe: &Probe) -> bool
    ensures apart { IsTrue result → spec.EndAlike first.now second.now (screen_of size.rows size.cols probe.now) → ⊥ }
    ensures top { result ≡ false → top_of first.now.margins probe.now.top ≡ top_of second.now.margins probe.now.top }
    ensures bottom { result ≡ false → bottom_of first.now.margins probe.now.bottom
        ≡ bottom_of second.now.margins probe.now.bottom }
{
    top_of(first.margins, probe.top) != top_of(second.margins, probe.top)
        || bottom_of(first.margins, probe.bottom) != bottom_of(second.margins, probe.bottom)
}

fn marks_differ(first: &Effect, second: &Effect, size: Size, probe: &Probe) -> bool
    ensures apart { IsTrue result → spec.EndAlike first.now second.now (screen_of size.rows size.cols probe.now) → ⊥ }
    ensures marks { result ≡ false → spec.marks_after first.now.rendition probe.now.look
        ≡ spec.marks_after second.now.rendition probe.now.look }
{
    marks_after(first.rendition, probe.look) != marks_after(second.rendition, probe.look)
}

fn inks_differ(first: &Effect, second: &Effect, size: Size, probe: &Probe) -> bool
    ensures apart { IsTrue result → spec.EndAlike first.now second.now (screen_of size.rows size.cols probe.now) → ⊥ }
    ensures foreground { result ≡ false → inked first.now.rendition.foreground probe.now.foreground
        ≡ inked second.now.rendition.foreground probe.now.foreground }
    ensures background { result ≡ false → inked first.now.rendition.background probe.now.background
        ≡ inked second.now.rendition.background probe.now.background }
{
    let (one, other) = (first.rendition, second.rendition);
    inked(one.foreground, probe.foreground) != inked(other.foreground, probe.foreground)
        || inked(one.background, probe.background) != inked(other.background, probe.background)
}

/// Whether two effects lead from the probe to different ends.
fn differ(first: &Effect, second: &Effect, size: Size, probe: &Probe) -> bool
    requires { CanShow size.rows probe.now }
    ensures apart { IsTrue result → spec.EndAlike first.now second.now (screen_of size.rows size.cols probe.now) → ⊥ }
    ensures so { result ≡ false → EndSo size.rows size.cols first.now second.now probe.now }
{
    place_differs(first, second, size, probe)
        || modes_differ(first, second, size, probe)
        || margins_differ(first, second, size, probe)
        || marks_differ(first, second, size, probe)
        || inks_differ(first, second, size, probe)
        || cells_differ(first, second, size, probe)
}

/// Whether `row` has two wanted ends: after `sgr` both colors stay or both are default, after `cvvis` the cursor
/// becomes visible or all stays.
fn has_choice(row: Row) -> bool
    ensures { result ≡ spec.has_choice row }
{
    matches!(row, Row::Sgr(_) | Row::Cvvis)
}

/// Whether the wanted end of `row` has the cells, the cursor's place, the rendition and the sets that the effect itself
/// leaves.
fn is_free(row: Row) -> bool
    ensures { result ≡ spec.is_free row }
{
    matches!(row, Row::Smcup | Row::Rmcup)
}

/// The effect whose end is the wanted one, if `row` has one wanted end.
fn wanted_end(row: Row, looks: Looks, effect: &Effect) -> Effect
    ensures { result ≡ spec.wanted_end looks row effect.now }
{
    if is_free(row) {
        Effect {
            margins: None,
            visible: Switch::Kept,
            ..*effect
        }
    } else {
        row.asked(looks, effect)
    }
}

fn with_defaults(effect: &Effect) -> Effect
    ensures { result ≡ spec.with_defaults effect.now }
{
    Effect {
        rendition: Rendering {
            foreground: Ink::Default,
            background: Ink::Default,
            ..effect.rendition
        },
        visible: Switch::On,
        ..*effect
    }
}

fn without_defaults(effect: &Effect) -> Effect
    ensures { result ≡ spec.without_defaults effect.now }
{
    Effect {
        rendition: Rendering {
            foreground: Ink::Kept,
            background: Ink::Kept,
            ..effect.rendition
        },
        visible: Switch::Kept,
        ..*effect
    }
}

/// Whether `row` is one of `sgr` whose set isn't exactly one attribute. Such a set shows each of its attributes as it
/// is shown alone; a single attribute looks as its own row shows it.
fn is_several(row: Row) -> bool
    ensures { result ≡ is_several row }
{
    match row {
        Row::Sgr(attributes) => !(is_alone(row) || attributes.number() == 64),
        _ => false,
    }
}

/// The looks by which the end of `effect` is judged: `taught`, the looks that the rows before teach, if `row` is one of
/// `sgr` that doesn't turn on just one attribute; else those that `effect` shows from a start without marks.
fn looks_for(taught: Looks, row: Row, effect: &Effect) -> Looks
    ensures { result ≡ spec.looks_for taught row effect.now }
{
    if is_several(row) {
        taught
    } else {
        looks_of(marks_after(effect.rendition, NO_MARKS))
    }
}

/// Whether `effect` leads from `probe`, which must be a start of `row`, to an end that isn't wanted. This holds for all
/// looks that agree with `taught`, the looks that the rows before teach, and by which the one attribute that the row
/// turns on looks as the effect shows it from a start without marks.
pub(crate) fn breaks(row: Row, taught: Looks, effect: &Effect, size: Size, probe: &Probe) -> bool
    requires starts { Starts size.rows size.cols row (screen_of size.rows size.cols probe.now) }
    requires seen { CanShow size.rows probe.now }
    ensures unwanted { IsTrue result → spec.NotWanted size.rows size.cols taught row effect.now probe.now }
    ensures wanted { result ≡ false → EndsAsWanted size.rows size.cols taught row effect.now probe.now }
{
    let looks = looks_for(taught, row, effect);
    if has_choice(row) {
        let defaults = row.asked(looks, &with_defaults(effect));
        let others = row.asked(looks, &without_defaults(effect));
        differ(effect, &defaults, size, probe) && differ(effect, &others, size, probe)
    } else {
        differ(effect, &wanted_end(row, looks, effect), size, probe)
    }
}
