//! A region of the screen that the terminal scrolls.
ghost use Rattle.std.specs.Prelude.{◌≡◌, ◌+◌, ◌-◌, ◌*◌, ◌<◌, ◌≤◌, ℕ, OnOk};
ghost use Rattle.ti_conforms.specs.Certified.{IsChecked, cell_limit};
ghost use Rattle.cur_steps.specs.{declared.beliefs.Belief.{Belief}, declared.inks.Ink.{Ink}, Inks.{plain_brush}};
ghost use Rattle.cur_steps.specs.Steps.{Makes};
ghost use Rattle.cur_moves.specs.{Scrolls.{CanScroll, shifted}, Frames.{Frame, Moves, at_edge, whole}};

use crate::cells::brush_as;
use crate::frames::{send_row, set_frame};
use crate::scrolls::{Landing, Scroll, edge, is_whole, scroll_row};
use crate::targets::Target;
use cur_steps::{Blank, Brush, Pen, Place, Sent, Wire};
use ti_conforms::Certificate;

/// Moves the region's lines as `scroll` says, one line after the other. The cursor must be at the edge from which the
/// region scrolls.
fn scroll_at_edge<C: Certificate, W: Wire>(checked: &C, wire: &mut W, scroll: Scroll) -> Sent
    requires checked { IsChecked (C.table checked.now) }
    requires lines { CanScroll (C.table checked.now) scroll }
    ensures step { (g : ℕ → ℕ → Ink) (b : Belief) → Moves W.went W.failures wire.old wire.new result
        (C.table checked.now) (scroll.count * (C.table checked.now).longest.scroll)
        (at_edge scroll g) (at_edge scroll (shifted scroll g)) b }
{
    for _line in 0..scroll.count {
        send_row(checked, wire, scroll_row(scroll))?;
    }
    Ok(())
}

/// Moves the lines of the region of `scroll` from any margins, and leaves the margins at the whole screen and the
/// cursor at `to`.
fn scroll_region<C: Certificate, W: Wire>(
    checked: &C,
    wire: &mut W,
    scroll: Scroll,
    to: Landing,
) -> Sent
    requires checked { IsChecked (C.table checked.now) }
    requires lines { CanScroll (C.table checked.now) scroll }
    requires row { to.row < (C.table checked.now).rows }
    requires col { to.col < (C.table checked.now).cols }
    ensures step { (f : Frame) (b : Belief) → Moves W.went W.failures wire.old wire.new result
        (C.table checked.now) ((scroll.count + 2) * (C.table checked.now).longest.scroll
        + 2 * (C.table checked.now).longest.cup)
        f (whole (C.table checked.now) (shifted scroll f.cells) to.row to.col) b }
{
    set_frame(checked, wire, scroll.top, scroll.bottom, edge(scroll), 0)?;
    scroll_at_edge(checked, wire, scroll)?;
    let last = (checked.rows() - 1) as u16;
    set_frame(checked, wire, 0, last, to.row, to.col)
}

/// Moves the lines of the whole screen as `scroll` says, in the plain brush. The margins are whole already.
fn scroll_screen<C: Certificate, W: Wire>(checked: &C, pen: &mut Pen<W>, scroll: Scroll) -> Sent
    requires checked { IsChecked (C.table checked.now) }
    requires lines { CanScroll (C.table checked.now) scroll }
    requires top { scroll.top ≡ 0 }
    requires bottom { scroll.bottom ≡ (C.table checked.now).rows - 1 }
    requires plain { pen.old.belief.brush ≡ plain_brush }
    ensures step { Makes W.went W.failures pen.old pen.new result (C.table checked.now)
        ((C.table checked.now).longest.cup + scroll.count * (C.table checked.now).longest.scroll) (shifted scroll) }
    ensures mode { OnOk result (pen.new.belief.mode ≡ pen.old.belief.mode) }
{
    let target = Target {
        checked,
        shown: &Blank,
    };
    let at = Place {
        row: edge(scroll) as usize,
        col: 0,
    };
    target.reach(pen, at)?;
    scroll_at_edge(checked, &mut pen.wire, scroll)
}

/// Moves lines as `scroll` says, by the terminal's own scrolling: in the plain brush, within margins that are the whole
/// screen again at the end, with the cursor then at `to`. If the region is the whole screen, no margins are set, and
/// the cursor stays in the line from which it scrolls. The lines that come in are blank, and no other line changes. At
/// a failure the terminal is lost, whatever its margins are.
pub fn scroll_lines<C: Certificate, W: Wire>(
    checked: &C,
    pen: &mut Pen<W>,
    scroll: Scroll,
    to: Landing,
) -> Sent
    requires lines { CanScroll (C.table checked.now) scroll }
    requires row { to.row < (C.table checked.now).rows }
    requires col { to.col < (C.table checked.now).cols }
    ensures step { Makes W.went W.failures pen.old pen.new result (C.table checked.now)
        ((scroll.count + 4) * cell_limit (C.table checked.now)) (shifted scroll) }
    ensures mode { OnOk result (pen.new.belief.mode ≡ pen.old.belief.mode) }
{
    // only this call's contract says that the certificate is verified
    let rows = checked.rows();
    brush_as(checked, pen, Brush::plain())?;
    if is_whole(scroll, rows) {
        return scroll_screen(checked, pen, scroll);
    }
    pen.belief.place = Place {
        row: to.row as usize,
        col: to.col as usize,
    };
    scroll_region(checked, &mut pen.wire, scroll, to)
}
