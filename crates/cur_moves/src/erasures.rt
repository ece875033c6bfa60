//! Erasures, each from a place and in the plain brush.
ghost use Rattle.std.specs.Prelude.{◌≡◌, ◌<◌, ℕ, Some, None, OnOk, IfSome};
ghost use Rattle.ti_conforms.specs.Certified.{IsChecked, cell_limit};
ghost use Rattle.cur_steps.specs.{Inks.{CanShow, plain_brush}, Beliefs.{ready_limit}};
ghost use Rattle.cur_steps.specs.Steps.{IsGoal, Keeps, Makes, MakesFrom};
ghost use Rattle.cur_moves.specs.Erasures.{erasure_row, erased};

use crate::cells::brush_as;
use crate::reaches::reach_by_line;
use crate::targets::Target;
use cur_steps::{Brush, Pen, Picture, Place, Sent, Wire, send_line};
use ti_conforms::Certificate;
use ti_rows::Row;

/// The part that is erased.
#[derive(Clone, Copy)]
pub enum ErasedPart {
    /// The cursor's line up to the cursor, its place included.
    Head,
    /// This many cells of the cursor's line, from the cursor on.
    Part(u16),
    /// The cursor's line from the cursor on.
    Tail,
    /// The cursor's line from the cursor on, and all lines below.
    Rest,
}

/// An erasure: the place of the cursor, and the part that is erased from there.
#[derive(Clone, Copy)]
pub struct Erasure {
    pub at: Place,
    pub part: ErasedPart,
}

/// The row whose line erases `part`.
fn row_of_part(part: ErasedPart) -> Row
    ensures { result ≡ erasure_row part }
{
    match part {
        ErasedPart::Head => Row::El1,
        ErasedPart::Part(count) => Row::Ech(count),
        ErasedPart::Tail => Row::El,
        ErasedPart::Rest => Row::Ed,
    }
}

/// The line that erases `part`, if there is one.
pub fn erasing_line<C: Certificate>(checked: &C, part: ErasedPart) -> Option<&[u8]>
    ensures value { IfSome result (λ b. (C.table checked.now).line_of (erasure_row part) ≡ Some b.now) }
    ensures none { result ≡ None → (C.table checked.now).line_of (erasure_row part) ≡ None }
{
    checked.line(row_of_part(part))
}

/// Erases by `line`, the string for the part of `erasure`, at whose place the cursor must be known to be.
fn erase_here<C: Certificate, W: Wire>(
    checked: &C,
    pen: &mut Pen<W>,
    erasure: Erasure,
    line: &[u8],
) -> Sent
    requires checked { IsChecked (C.table checked.now) }
    requires col { erasure.at.col < (C.table checked.now).cols }
    requires line { (C.table checked.now).line_of (erasure_row erasure.part) ≡ Some line.now }
    requires place { pen.old.belief.place ≡ erasure.at }
    requires brush { pen.old.belief.brush ≡ plain_brush }
    ensures belief { pen.new.belief ≡ pen.old.belief }
    ensures step { Makes W.went W.failures pen.old pen.new result (C.table checked.now)
        (C.table checked.now).longest.erasure (erased erasure.part erasure.at.row erasure.at.col) }
{
    send_line(checked, row_of_part(erasure.part), line, &mut pen.wire)
}

impl<C: Certificate, N: Picture> Target<'_, C, N> {
    /// Does `erasure` by `line`, the string for its part. The line must already show the target up to the erasure's
    /// place.
    pub fn erase_from<W: Wire>(&self, pen: &mut Pen<W>, erasure: Erasure, line: &[u8]) -> Sent
        requires drawable { CanShow (C.table self.now.checked.now) (N.cells self.now.shown.now) }
        requires row { erasure.at.row < (C.table self.now.checked.now).rows }
        requires col { erasure.at.col < (C.table self.now.checked.now).cols }
        requires line { (C.table self.now.checked.now).line_of (erasure_row erasure.part) ≡ Some line.now }
        ensures step { MakesFrom W.went W.failures pen.old pen.new result (C.table self.now.checked.now)
            (cell_limit (C.table self.now.checked.now)) (N.cells self.now.shown.now) erasure.at
            (erased erasure.part erasure.at.row erasure.at.col) }
        ensures mode { OnOk result (pen.new.belief.mode ≡ pen.old.belief.mode) }
    {
        // only this call's contract says that the certificate is verified
        let _ = self.checked.rows();
        self.reach_in_brush(pen, erasure.at, Brush::plain())?;
        erase_here(self.checked, pen, erasure, line)
    }
}

/// Moves the cursor to `at`, whatever is shown, and makes the brush plain.
fn reach_plainly<C: Certificate, W: Wire>(checked: &C, pen: &mut Pen<W>, at: Place) -> Sent
    requires goal { IsGoal (C.table checked.now) at }
    ensures brush { OnOk result (pen.new.belief.brush ≡ plain_brush) }
    ensures place { OnOk result (pen.new.belief.place ≡ at) }
    ensures step { Keeps W.went W.failures pen.old pen.new result (C.table checked.now)
        (ready_limit (C.table checked.now)) }
    ensures mode { OnOk result (pen.new.belief.mode ≡ pen.old.belief.mode) }
{
    reach_by_line(checked, pen, at)?;
    brush_as(checked, pen, Brush::plain())
}

/// Does `erasure` by `line`, the string for its part, whatever is shown.
pub fn erase_at<C: Certificate, W: Wire>(
    checked: &C,
    pen: &mut Pen<W>,
    erasure: Erasure,
    line: &[u8],
) -> Sent
    requires row { erasure.at.row < (C.table checked.now).rows }
    requires col { erasure.at.col < (C.table checked.now).cols }
    requires line { (C.table checked.now).line_of (erasure_row erasure.part) ≡ Some line.now }
    ensures step { Makes W.went W.failures pen.old pen.new result (C.table checked.now)
        (cell_limit (C.table checked.now)) (erased erasure.part erasure.at.row erasure.at.col) }
    ensures mode { OnOk result (pen.new.belief.mode ≡ pen.old.belief.mode) }
{
    // only this call's contract says that the certificate is verified
    let _ = checked.rows();
    reach_plainly(checked, pen, erasure.at)?;
    erase_here(checked, pen, erasure, line)
}
