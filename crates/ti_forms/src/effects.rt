//! The effects of the bytes of rows.

ghost use Rattle.std.specs.Prelude.{◌≡◌, ℕ, IfErr, IfOk, IfSome, List, OnOk, Some, [], true};
ghost use Rattle.ti_conforms.specs.Charsets.{joined, reach_of};
ghost use Rattle.ti_forms.specs.Forms as spec;
ghost use Rattle.ti_rows.specs.Asked.{start_of};
ghost use Rattle.vt_effects.specs.{Effect.{unchanged}, Record.{IsRecordOf}};
ghost use Rattle.vt_effects.specs.declared.effects.Erasure.TheVariants as erasures;
ghost use Rattle.vt_term.specs.{Scanned.{HasFault}, Text.{Splits}};

use crate::forms::is_of_form;
use ti_conforms::Reach;
use ti_rows::Row;
use vt_effects::{Effect, Erasure, Move, Region, effect_of_text};
use vt_term::{Scanner, Size, TextFault};

/// The effect of a move of the cursor, which ends a pending wrap.
fn moving(row: Move, col: Move) -> Effect
    ensures { result ≡ record unchanged { row = row; col = col; ends_pending = true } }
{
    Effect {
        row,
        col,
        ends_pending: true,
        ..Effect::unchanged()
    }
}

/// The effect of new margins.
fn bounded(top: u16, bottom: u16) -> Effect
    ensures { result ≡ spec.bounded_by top bottom }
{
    Effect {
        margins: Some(Region { top, bottom }),
        ..moving(Move::To(0), Move::To(0))
    }
}

/// The effect of erasing cells from the cursor on.
fn erasing(count: u16) -> Effect
    ensures { result ≡ record unchanged { erasure = erasures.Next count } }
{
    Effect {
        erasure: Erasure::Next(count),
        ..Effect::unchanged()
    }
}

/// The effect of the standard's string for `row`.
pub(crate) fn standard_effect(row: Row) -> Effect
    ensures { result ≡ spec.standard_effect row }
{
    match row {
        Row::Cup(line, column) => moving(Move::To(line), Move::To(column)),
        Row::Hpa(column) => moving(Move::Kept, Move::To(column)),
        Row::Vpa(line) => moving(Move::To(line), Move::Kept),
        Row::Cub(count) => moving(Move::Kept, Move::Back(count)),
        Row::Cuf(count) => moving(Move::Kept, Move::Forward(count)),
        Row::Cuu(count) => moving(Move::Back(count), Move::Kept),
        Row::Cud(count) => moving(Move::Forward(count), Move::Kept),
        Row::Ech(count) => erasing(count),
        Row::Csr(top, bottom) => bounded(top, bottom),
        _ => Effect::unchanged(),
    }
}

/// The effect of `bytes` from the start of `row`, if they are those of the standard's string for it and the size allows
/// the row.
fn form_effect(bytes: &[u8], row: Row, size: Size) -> Option<Effect>
    ensures { IfSome result (λ effect. IsRecordOf size.rows size.cols (start_of size.rows size.cols row) bytes.now
        (Some effect)) }
{
    if !row.is_in_range(size) {
        return None;
    }
    if is_of_form(row, bytes) {
        Some(standard_effect(row))
    } else {
        None
    }
}

/// The effect of `bytes` from the start of `row`, if they have one: the result of `effect_of_text`. No text is read
/// where the bytes are those that the standard's string sends for the row.
///
/// # Errors
/// The first fault of the bytes as a text.
pub fn row_effect(
    scanner: &mut Scanner,
    bytes: &[u8],
    row: Row,
    size: Size,
) -> Result<Option<Effect>, TextFault>
    ensures record { IfOk result (IsRecordOf size.rows size.cols (start_of size.rows size.cols row) bytes.now) }
    ensures fault { IfErr result (HasFault bytes.now) }
{
    match form_effect(bytes, row, size) {
        Some(effect) => Ok(Some(effect)),
        None => effect_of_text(scanner, bytes, size, &row.start(size)),
    }
}

/// Adds to `reach` the marks that the tokens of `bytes` turn on, as `Reach::learn_text` does. No text is read where
/// the bytes are those that the standard's string sends for `row`.
///
/// # Errors
/// The first fault of the bytes as a text; the marks of the tokens before it are added.
pub fn learn_row(
    reach: &mut Reach,
    scanner: &mut Scanner,
    bytes: &[u8],
    row: Row,
) -> Result<(), TextFault>
    ensures whole { OnOk result ((tokens : List (List ℕ)) × Splits bytes.now tokens []) }
    ensures learned { OnOk result ((tokens : List (List ℕ)) → Splits bytes.now tokens []
        → reach.new ≡ joined reach.old (reach_of tokens)) }
    ensures fault { IfErr result (HasFault bytes.now) }
{
    if is_of_form(row, bytes) {
        return Ok(());
    }
    reach.learn_text(scanner, bytes)
}
