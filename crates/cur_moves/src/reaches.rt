//! Moving to a place along a way: by a line, over cells that are printed again, or first by a line to a stop.
ghost use Rattle.std.specs.Prelude.{◌≡◌, ◌+◌, ◌*◌, ◌<◌, ◌≤◌, ℕ, length, Some, OnOk};
ghost use Rattle.ti_conforms.specs.Certified.{IsChecked, text_of};
ghost use Rattle.cur_steps.specs.{Inks.{CanShow}, Beliefs.{moves}, Gaps.{IsAlike, right}};
ghost use Rattle.cur_steps.specs.Steps.{IsGoal, Keeps, KeepsFrom};
ghost use Rattle.cur_moves.specs.{Moves.{IsFewest}, Routes.{IsLeg, IsStop, IsRoute, leg_bytes, at_stop}};

use crate::moves::shortest;
use crate::routes::{Leg, Route, Stop};
use crate::targets::Target;
use cur_steps::{Pen, Picture, Place, Sent, Wire, send_line, stands};
use ti_conforms::Certificate;

impl<C: Certificate, N: Picture> Target<'_, C, N> {
    /// Prints the `count` cells from `from` on again. The cursor must be known to be at `from`.
    fn reprint<W: Wire>(&self, pen: &mut Pen<W>, from: Place, count: usize) -> Sent
        requires checked { IsChecked (C.table self.now.checked.now) }
        requires drawable { CanShow (C.table self.now.checked.now) (N.cells self.now.shown.now) }
        requires row { from.row < (C.table self.now.checked.now).rows }
        requires col { from.col + count < (C.table self.now.checked.now).cols }
        requires place { pen.old.belief.place ≡ from }
        requires alike { (k : ℕ) → k < count
            → IsAlike pen.old.belief (N.cells self.now.shown.now from.row (from.col + k)) }
        ensures belief { OnOk result (pen.new.belief ≡ record pen.old.belief { place = right from count }) }
        ensures step { KeepsFrom W.went W.failures pen.old pen.new result (C.table self.now.checked.now) count
            (N.cells self.now.shown.now) (right from count) }
    {
        for n in 0..count {
            let at = Place {
                row: from.row,
                col: from.col + n,
            };
            let ink = self.shown.at(at.row, at.col);
            pen.print_at(self.checked, at, ink)?;
        }
        Ok(())
    }

    /// Goes to `at` by the last leg `leg` of a way.
    fn follow_leg<W: Wire>(&self, pen: &mut Pen<W>, at: Place, leg: Leg) -> Sent
        requires goal { IsGoal (C.table self.now.checked.now) at }
        requires drawable { CanShow (C.table self.now.checked.now) (N.cells self.now.shown.now) }
        requires leg { IsLeg (C.table self.now.checked.now) pen.old.belief (N.cells self.now.shown.now)
            at.row at.col leg }
        ensures belief { OnOk result (pen.new.belief ≡ record pen.old.belief { place = at }) }
        ensures step { KeepsFrom W.went W.failures pen.old pen.new result (C.table self.now.checked.now)
            (leg_bytes (C.table self.now.checked.now) leg at.col) (N.cells self.now.shown.now) at }
    {
        match leg {
            Leg::Over(from) => {
                let start = Place {
                    row: at.row,
                    col: from,
                };
                self.reprint(pen, start, at.col - from)
            }
            Leg::By(line) => {
                pen.belief.place = at;
                send_line(
                    self.checked,
                    line,
                    self.checked.line(line).unwrap(),
                    &mut pen.wire,
                )
            }
        }
    }

    /// Goes to `at` by the way `route`.
    fn follow_route<W: Wire>(&self, pen: &mut Pen<W>, at: Place, route: Route) -> Sent
        requires goal { IsGoal (C.table self.now.checked.now) at }
        requires drawable { CanShow (C.table self.now.checked.now) (N.cells self.now.shown.now) }
        requires route { IsRoute (C.table self.now.checked.now) pen.old.belief (N.cells self.now.shown.now)
            at.row at.col route }
        ensures belief { OnOk result (pen.new.belief ≡ record pen.old.belief { place = at }) }
        ensures step { KeepsFrom W.went W.failures pen.old pen.new result (C.table self.now.checked.now)
            (C.table self.now.checked.now).longest.cup (N.cells self.now.shown.now) at }
    {
        match route.stop {
            None => self.follow_leg(pen, at, route.leg),
            Some(stop) => {
                go_to_stop(self.checked, pen, stop)?;
                self.follow_leg(pen, at, route.leg)
            }
        }
    }

    /// Moves the cursor to `at`. The line must already show the target up to `at`.
    pub fn reach<W: Wire>(&self, pen: &mut Pen<W>, at: Place) -> Sent
        requires drawable { CanShow (C.table self.now.checked.now) (N.cells self.now.shown.now) }
        requires row { at.row < (C.table self.now.checked.now).rows }
        requires col { at.col < (C.table self.now.checked.now).cols }
        ensures belief { OnOk result (pen.new.belief ≡ record pen.old.belief { place = at }) }
        ensures step { KeepsFrom W.went W.failures pen.old pen.new result (C.table self.now.checked.now)
            (moves pen.old.belief.place at.row at.col * (C.table self.now.checked.now).longest.cup)
            (N.cells self.now.shown.now) at }
    {
        // only this call's contract says that the certificate is verified
        let _ = self.checked.rows();
        if stands(pen.belief.place, at) {
            return Ok(());
        }
        let route = self.route_to(&pen.belief, at);
        self.follow_route(pen, at, route)
    }
}

/// Goes to the stop `stop` by its line.
fn go_to_stop<C: Certificate, W: Wire>(checked: &C, pen: &mut Pen<W>, stop: Stop) -> Sent
    requires checked { IsChecked (C.table checked.now) }
    requires stop { IsStop (C.table checked.now) pen.old.belief.place stop }
    ensures belief { pen.new.belief ≡ record pen.old.belief { place = stop.place } }
    ensures step { Keeps W.went W.failures pen.old pen.new result (C.table checked.now)
        (length (text_of (C.table checked.now) stop.line)) }
{
    pen.belief.place = stop.place;
    send_line(
        checked,
        stop.line,
        checked.line(stop.line).unwrap(),
        &mut pen.wire,
    )
}

/// Moves the cursor to `at` by a line, whatever is shown.
pub(crate) fn reach_by_line<C: Certificate, W: Wire>(
    checked: &C,
    pen: &mut Pen<W>,
    at: Place,
) -> Sent
    requires goal { IsGoal (C.table checked.now) at }
    ensures belief { OnOk result (pen.new.belief ≡ record pen.old.belief { place = at }) }
    ensures step { Keeps W.went W.failures pen.old pen.new result (C.table checked.now)
        (C.table checked.now).longest.cup }
{
    if stands(pen.belief.place, at) {
        return Ok(());
    }
    let way = shortest(
        checked,
        Some(pen.belief.place),
        at.row as u16,
        at.col as u16,
    );
    pen.belief.place = at;
    send_line(
        checked,
        way.line,
        checked.line(way.line).unwrap(),
        &mut pen.wire,
    )
}

/// The number of bytes of a shortest line that leads to `at`, from the cursor's place `from` if that is known, else
/// from anywhere.
pub fn line_bytes<C: Certificate>(checked: &C, from: Option<Place>, at: Place) -> usize
    requires row { at.row < (C.table checked.now).rows }
    requires col { at.col < (C.table checked.now).cols }
    ensures fewest { IsFewest (C.table checked.now) from at.row at.col result }
    ensures short { result ≤ (C.table checked.now).longest.cup }
{
    // only this call's contract says that the certificate is verified
    let _ = checked.rows();
    shortest(checked, from, at.row as u16, at.col as u16).bytes
}
