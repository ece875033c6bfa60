//! The effect of tokens from every state that a start allows.
ghost use Rattle.vt_effects.specs.Sound.{StepsAs, RunsAs, RunsTextAs};
ghost use Rattle.vt_effects.specs.Record as spec;
ghost use Rattle.std.specs.Prelude.{◌≡◌, IfErr, IfOk, IfSome, option_and_then, ◌<◌, ◌≤◌, ◌-◌, min};
ghost use Rattle.vt_term.specs.Scanned.{HasFault};

use crate::effects::{Effect, Erasure, Ink, Move, Region, Scroll, Sets, Switch};
use crate::moves::{and_back, and_forward, back_by, forward_by};
use crate::renditions::all_renderings;
use crate::starts::{Margins, Start};
use vt_term::{CodeElement, EraseExtent, Function, ModeKind, Scanner, Size, TextFault, Token};

/// The effect of `tokens` from every state that `start` allows. From each of them, whatever its cells, rendition,
/// character sets and visibility, the steps of the tokens end where the effect does, and so does the run of every
/// text that splits into them. `None` if a token's effect differs between these states, or a record can't describe
/// it.
pub fn effect_of(tokens: &[Token], size: Size, start: &Start) -> Option<Effect>
    ensures record { result ≡ spec.record_of size.rows size.cols start.now tokens.now }
    ensures steps { IfSome result (StepsAs size.rows size.cols start.now tokens.now) }
    ensures runs { IfSome result (RunsAs size.rows size.cols start.now tokens.now) }
{
    let mut effect = Effect::unchanged();
    for token in tokens {
        effect = extended(effect, token.function(), size, start)?;
    }
    Some(effect)
}

/// The effect of `text` from every state that `start` allows: the result of `effect_of` for its tokens. The scanner
/// reads them in place, so this allocates no memory.
///
/// # Errors
/// The first fault of the text, even if the tokens before it have no record.
pub fn effect_of_text(
    scanner: &mut Scanner,
    text: &[u8],
    size: Size,
    start: &Start,
) -> Result<Option<Effect>, TextFault>
    ensures record { IfOk result (spec.IsRecordOf size.rows size.cols start.now text.now) }
    ensures runs { IfOk result (λ found. IfSome found (RunsTextAs size.rows size.cols start.now text.now)) }
    ensures fault { IfErr result (HasFault text.now) }
{
    let mut effect = Some(Effect::unchanged());
    let mut at = 0;
    loop {
        match scanner.next(text, at) {
            Ok(Some(end)) => {
                effect = further(effect, scanner.function(), size, start);
                at = end;
            }
            Ok(None) => return Ok(effect),
            Err(fault) => return Err(fault),
        }
    }
}

/// An effect, if there is one, and then a token's function.
fn further(
    effect: Option<Effect>,
    function: Function<'_>,
    size: Size,
    start: &Start,
) -> Option<Effect>
    ensures { result ≡ option_and_then (spec.extended size.rows size.cols start.now function.entry) effect }
{
    extended(effect?, function, size, start)
}

/// An effect, and then a token's function.
fn extended(effect: Effect, function: Function<'_>, size: Size, start: &Start) -> Option<Effect>
    ensures { result ≡ spec.extended size.rows size.cols start.now function.entry effect }
{
    match function {
        Function::LineFeed => line_fed(effect, size, start),
        Function::CarriageReturn => Some(with_col(effect, Move::To(0))),
        Function::Backspace => col_back(effect, 1, start),
        Function::Tab => tabbed(effect, size),
        Function::ShiftOut => Some(shifting(effect, true)),
        Function::ShiftIn => Some(shifting(effect, false)),
        Function::ReverseIndex => line_reversed(effect, size, start),
        Function::NextLine => line_fed(with_col(effect, Move::To(0)), size, start),
        Function::CursorUp(n) => row_back(effect, n, size, start),
        Function::CursorDown(n) => row_forward(effect, n, size, start),
        Function::CursorForward(n) => col_forward(effect, n, size, start),
        Function::CursorBack(n) => col_back(effect, n, start),
        Function::CursorColumn(col) => Some(with_col(effect, place(col, size.cols))),
        Function::CursorRow(row) => Some(with_row(effect, place(row, size.rows))),
        Function::CursorPosition(row, col) => {
            let effect = with_row(effect, place(row, size.rows));
            Some(with_col(effect, place(col, size.cols)))
        }
        Function::EraseLine(part) => line_erased(effect, part),
        Function::EraseDisplay(part) => display_erased(effect, part),
        Function::EraseCells(n) => cells_erased(effect, Erasure::Next(n.min(size.cols as u16))),
        Function::Margins(first, last) => Some(margins_set(effect, first, last, size)),
        Function::Designate(set, graphic) => Some(designating(effect, set, graphic)),
        Function::SelectRendition(numbers) => Some(Effect {
            rendition: all_renderings(effect.rendition, numbers.as_slice()),
            ..effect
        }),
        Function::Modes(kind, on, numbers) => modes_set(effect, kind, on, numbers.as_slice()),
        Function::Ignored => Some(effect),
        Function::Print(_)
        | Function::InsertCells(_)
        | Function::DeleteCells(_)
        | Function::InsertLines(_)
        | Function::DeleteLines(_)
        | Function::ScrollUp(_)
        | Function::ScrollDown(_) => None,
    }
}

/// The move to the row or column `number`, counted from 1, or to the last one if there are fewer.
fn place(number: u16, limit: usize) -> Move
    requires some { 0 < limit }
    requires small { limit ≤ 500 }
    ensures { result ≡ Move.To (min (number - 1) (limit - 1)) }
{
    Move::To(number.saturating_sub(1).min(limit as u16 - 1))
}

fn with_col(effect: Effect, col: Move) -> Effect
    ensures { result ≡ spec.with_col effect col }
{
    Effect {
        col,
        ends_pending: true,
        ..effect
    }
}

fn with_row(effect: Effect, row: Move) -> Effect
    ensures { result ≡ spec.with_row effect row }
{
    Effect {
        row,
        ends_pending: true,
        ..effect
    }
}

fn col_back(effect: Effect, n: u16, start: &Start) -> Option<Effect>
    ensures { result ≡ spec.col_back start.now n effect }
{
    let col = back_by(n, start.col_min, start.col_max, effect.col)?;
    Some(with_col(effect, col))
}

fn col_forward(effect: Effect, n: u16, size: Size, start: &Start) -> Option<Effect>
    ensures { result ≡ spec.col_forward size.cols start.now n effect }
{
    let last = (size.cols - 1) as u16;
    let col = forward_by(n, start.col_min, start.col_max, last, effect.col)?;
    Some(with_col(effect, col))
}

fn row_back(effect: Effect, n: u16, size: Size, start: &Start) -> Option<Effect>
    ensures { result ≡ spec.row_back size.rows start.now n effect }
{
    if !are_whole(size, start.margins, effect.margins) {
        return None;
    }
    let row = back_by(n, start.row_min, start.row_max, effect.row)?;
    Some(with_row(effect, row))
}

fn row_forward(effect: Effect, n: u16, size: Size, start: &Start) -> Option<Effect>
    ensures { result ≡ spec.row_forward size.rows start.now n effect }
{
    if !are_whole(size, start.margins, effect.margins) {
        return None;
    }
    let last = (size.rows - 1) as u16;
    let row = forward_by(n, start.row_min, start.row_max, last, effect.row)?;
    Some(with_row(effect, row))
}

fn tabbed(effect: Effect, size: Size) -> Option<Effect>
    ensures { result ≡ spec.tabbed size.cols effect effect.col }
{
    let Move::To(col) = effect.col else {
        return None;
    };
    let stop = ((usize::from(col) / 8 + 1) * 8).min(size.cols - 1);
    Some(with_col(effect, Move::To(stop as u16)))
}

/// Whether the margins are known to be the whole screen; with two rows all legal margins are.
fn knows_whole(size: Size, margins: Margins) -> bool
    ensures { result ≡ spec.knows_whole size.rows margins }
{
    match margins {
        Margins::Whole => true,
        Margins::Legal | Margins::OnBottom | Margins::OnTop => size.rows == 2,
    }
}

/// Whether the margins are the whole screen, given those that were `set`, if any.
fn are_whole(size: Size, margins: Margins, set: Option<Region>) -> bool
    ensures { result ≡ spec.are_whole size.rows margins set }
{
    match set {
        None => knows_whole(size, margins),
        Some(region) => region.top == 0 && usize::from(region.bottom) + 1 == size.rows,
    }
}

/// Whether every start is on its bottom margin.
fn on_bottom(size: Size, row_min: u16, margins: Margins) -> bool
    ensures { result ≡ spec.on_bottom size.rows row_min margins }
{
    match margins {
        Margins::OnBottom => true,
        _ => knows_whole(size, margins) && size.rows <= usize::from(row_min) + 1,
    }
}

/// Whether every start is on its top margin.
fn on_top(size: Size, row_max: u16, margins: Margins) -> bool
    ensures { result ≡ spec.on_top size.rows row_max margins }
{
    match margins {
        Margins::OnTop => true,
        _ => knows_whole(size, margins) && row_max == 0,
    }
}

/// Whether the region may scroll: the row and the margins are the start's, and no cell has changed.
fn may_scroll(effect: &Effect) -> bool
    ensures { result ≡ spec.may_scroll effect.now }
{
    let stays = is_kept(effect.row) && effect.margins.is_none();
    let is_whole = erases_nothing(effect.erasure) && is_still(effect.scroll);
    stays && is_whole && keeps_background(effect)
}

fn scrolling(effect: Effect, scroll: Scroll) -> Effect
    ensures { result ≡ spec.scrolling scroll effect }
{
    Effect {
        scroll,
        ends_pending: true,
        ..effect
    }
}

/// One line down, if either no start scrolls or all do; otherwise `None`.
fn line_fed(effect: Effect, size: Size, start: &Start) -> Option<Effect>
    ensures { result ≡ spec.line_fed size.rows start.now effect }
{
    if are_whole(size, start.margins, effect.margins)
        && effect.row.leads_from(start.row_max) + 1 < size.rows
    {
        Some(with_row(effect, and_forward(effect.row, 1)))
    } else if on_bottom(size, start.row_min, start.margins) && may_scroll(&effect) {
        Some(scrolling(effect, Scroll::Up))
    } else {
        None
    }
}

/// One line up, if either no start scrolls or all do; otherwise `None`.
fn line_reversed(effect: Effect, size: Size, start: &Start) -> Option<Effect>
    ensures { result ≡ spec.line_reversed size.rows start.now effect }
{
    if are_whole(size, start.margins, effect.margins) && 1 <= effect.row.leads_from(start.row_min) {
        Some(with_row(effect, and_back(effect.row, 1)))
    } else if on_top(size, start.row_max, start.margins) && may_scroll(&effect) {
        Some(scrolling(effect, Scroll::Down))
    } else {
        None
    }
}

fn line_erased(effect: Effect, part: EraseExtent) -> Option<Effect>
    ensures { result ≡ spec.line_erased part effect }
{
    match part {
        EraseExtent::ToEnd => cells_erased(effect, Erasure::Tail),
        EraseExtent::FromStart => cells_erased(effect, Erasure::Head),
        EraseExtent::Whole => None,
    }
}

pub(crate) fn display_erased(effect: Effect, part: EraseExtent) -> Option<Effect>
    ensures { result ≡ spec.display_erased part effect }
{
    match part {
        EraseExtent::ToEnd if is_first(effect.row) && is_first(effect.col) => screen_erased(effect),
        EraseExtent::ToEnd => cells_erased(effect, Erasure::Rest),
        EraseExtent::FromStart => None,
        EraseExtent::Whole => screen_erased(effect),
    }
}

/// Erases the whole screen, whatever happened before.
pub(crate) fn screen_erased(effect: Effect) -> Option<Effect>
    ensures { result ≡ spec.screen_erased effect }
{
    if keeps_background(&effect) {
        Some(Effect {
            erasure: Erasure::Screen,
            scroll: Scroll::Still,
            ..effect
        })
    } else {
        None
    }
}

/// Erases cells around the cursor, which must be where it was at the start.
pub(crate) fn cells_erased(effect: Effect, erasure: Erasure) -> Option<Effect>
    ensures { result ≡ spec.cells_erased erasure effect }
{
    if !keeps_background(&effect) || !is_still(effect.scroll) {
        return None;
    }
    if matches!(effect.erasure, Erasure::Screen) {
        return Some(effect);
    }
    if is_kept(effect.row) && is_kept(effect.col) && erases_nothing(effect.erasure) {
        Some(Effect { erasure, ..effect })
    } else {
        None
    }
}

fn margins_set(effect: Effect, first: u16, last: u16, size: Size) -> Effect
    ensures { result ≡ spec.margins_set size.rows first last effect }
{
    let rows = size.rows as u16;
    let top = first.saturating_sub(1);
    let bottom = if last == 0 {
        rows - 1
    } else {
        (last - 1).min(rows - 1)
    };
    if top >= bottom {
        return effect;
    }
    Effect {
        margins: Some(Region { top, bottom }),
        row: Move::To(0),
        col: Move::To(0),
        ends_pending: true,
        ..effect
    }
}

fn designating(effect: Effect, set: CodeElement, graphic: bool) -> Effect
    ensures { result ≡ spec.designating set graphic effect }
{
    let charset = match set {
        CodeElement::G0 => Sets {
            g0_graphic: Switch::set_to(graphic),
            ..effect.charset
        },
        CodeElement::G1 => Sets {
            g1_graphic: Switch::set_to(graphic),
            ..effect.charset
        },
    };
    Effect { charset, ..effect }
}

fn shifting(effect: Effect, out: bool) -> Effect
    ensures { result ≡ spec.shifting out effect }
{
    Effect {
        charset: Sets {
            shifted_out: Switch::set_to(out),
            ..effect.charset
        },
        ..effect
    }
}

/// Sets or resets one mode; there is no record if autowrap turns off or insertion on.
fn mode_set(effect: Effect, kind: ModeKind, on: bool, number: u16) -> Option<Effect>
    ensures { result ≡ spec.mode_set kind on number effect }
{
    match (kind, number) {
        (ModeKind::Private, 7) if !on => None,
        (ModeKind::Private, 25) => Some(Effect {
            visible: Switch::set_to(on),
            ..effect
        }),
        (ModeKind::Standard, 4) if on => None,
        _ => Some(effect),
    }
}

fn modes_set(
    mut effect: Effect,
    kind: ModeKind,
    on: bool,
    numbers: &[Option<u16>],
) -> Option<Effect>
    ensures { result ≡ spec.modes_set kind on numbers.now effect }
{
    for number in numbers {
        effect = mode_set(effect, kind, on, number.unwrap_or(0))?;
    }
    Some(effect)
}

fn is_kept(way: Move) -> bool
    ensures { result ≡ spec.is_kept way }
{
    matches!(way, Move::Kept)
}

fn is_first(way: Move) -> bool
    ensures { result ≡ spec.is_first way }
{
    matches!(way, Move::To(0))
}

pub(crate) fn is_still(scroll: Scroll) -> bool
    ensures { result ≡ spec.is_still scroll }
{
    matches!(scroll, Scroll::Still)
}

fn erases_nothing(erasure: Erasure) -> bool
    ensures { result ≡ spec.erases_nothing erasure }
{
    matches!(erasure, Erasure::Nothing)
}

/// Whether the background is the start's.
pub(crate) fn keeps_background(effect: &Effect) -> bool
    ensures { result ≡ spec.keeps_background effect.now }
{
    matches!(effect.rendition.background, Ink::Kept)
}
