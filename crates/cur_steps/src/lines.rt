//! The lines of a certificate: whether there is one, and sending it.
ghost use Rattle.std.specs.Prelude.{◌≡◌, ◌≤◌, ℕ, length, Some, true};
ghost use Rattle.ti_conforms.specs.Certified.{IsChecked, has, limit_of, text_of};
ghost use Rattle.cur_steps.specs.{Beliefs.{Belief, LeadsTo, Passes, Turns}, Pieces.{paints}, Steps.{Acts, KeepsText}};
ghost use Rattle.cur_steps.specs.{Texts.{texts_of}, declared.inks.Ink.{Ink}};
ghost use Rattle.cur_steps.specs.Wire.{Sends};

use crate::pens::Sent;
use crate::{Wire, send_all};
use ti_conforms::Certificate;
use ti_rows::Row;

/// Whether the entry has a line for `row`.
pub fn has_line<C: Certificate>(checked: &C, row: Row) -> bool
    ensures value { result ≡ has (C.table checked.now) row }
{
    checked.line(row).is_some()
}

/// Sends `bytes`, which must be the line of `row`. It leads from any belief in which the row may start to the belief
/// that the row makes of it, and is a step of a painter if the row paints.
pub fn send_line<C: Certificate, W: Wire>(checked: &C, row: Row, bytes: &[u8], wire: &mut W) -> Sent
    requires checked { IsChecked (C.table checked.now) }
    requires line { (C.table checked.now).line_of row ≡ Some bytes.now }
    ensures exact { (n : ℕ) (g h : ℕ → ℕ → Ink) (b c : Belief) → paints row ≡ true
        → length (text_of (C.table checked.now) row) ≤ n
        → Turns (C.table checked.now) row g b h c
        → Acts W.went W.failures wire.old wire.new result (C.table checked.now) n g h b c }
    ensures step { (n : ℕ) (g h : ℕ → ℕ → Ink) (b c : Belief) → paints row ≡ true
        → limit_of (C.table checked.now) row ≤ n → Turns (C.table checked.now) row g b h c
        → Acts W.went W.failures wire.old wire.new result (C.table checked.now) n g h b c }
    ensures leads { (n : ℕ) (g h : ℕ → ℕ → Ink) (b c : Belief) → paints row ≡ true
        → limit_of (C.table checked.now) row ≤ n → LeadsTo (C.table checked.now) bytes.now g b h c
        → Acts W.went W.failures wire.old wire.new result (C.table checked.now) n g h b c }
    ensures text { (b c : Belief) → ((g : ℕ → ℕ → Ink) → Turns (C.table checked.now) row g b g c)
        → KeepsText W.went W.failures wire.old wire.new result (C.table checked.now)
        (limit_of (C.table checked.now) row) (text_of (C.table checked.now) row) b c }
{
    send_all(wire, bytes)
}

/// Sends the line of `row`, or nothing if the certificate lacks it. Any change of belief that holds in both cases holds
/// for this call. The call is a step of a painter if the row paints.
pub(crate) fn send_line_of<C: Certificate, W: Wire>(checked: &C, row: Row, wire: &mut W) -> Sent
    requires checked { IsChecked (C.table checked.now) }
    ensures step { (n : ℕ) (g : ℕ → ℕ → Ink) (b c : Belief) → paints row ≡ true
        → limit_of (C.table checked.now) row ≤ n → Passes (C.table checked.now) row g b c
        → Acts W.went W.failures wire.old wire.new result (C.table checked.now) n g g b c }
    ensures text { (b c : Belief) → ((g : ℕ → ℕ → Ink) → Passes (C.table checked.now) row g b c)
        → KeepsText W.went W.failures wire.old wire.new result (C.table checked.now)
        (limit_of (C.table checked.now) row) (text_of (C.table checked.now) row) b c }
{
    match checked.line(row) {
        Some(line) => send_line(checked, row, line, wire),
        None => Ok(()),
    }
}

/// Sends the string for `row`, if there is one.
fn send_row<C: Certificate, W: Wire>(checked: &C, row: Row, wire: &mut W) -> Sent
    ensures sends { Sends W.went W.failures wire.old wire.new (text_of (C.table checked.now) row) result }
{
    match checked.line(row) {
        Some(line) => send_all(wire, line),
        None => Ok(()),
    }
}

/// Sends the strings for `rows`, one after another, as far as there are any.
pub fn send_rows<C: Certificate, W: Wire>(checked: &C, rows: &[Row], wire: &mut W) -> Sent
    ensures sends { Sends W.went W.failures wire.old wire.new (texts_of (C.table checked.now) rows.now) result }
{
    for row in rows {
        send_row(checked, *row, wire)?;
    }
    Ok(())
}
