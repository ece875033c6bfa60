//! A refresh: sends the differences if the terminal is known, else everything anew.
//!
//! `update` goes by the knowledge of the terminal (`draw`). An unknown terminal is led to a blank screen and painted
//! anew (`repaint`). To a known one nothing is sent if nothing changes; else the differences are mended (`mend`), after
//! a scroll or after `clear` if fewer cells differ then. Each way ends with `paint`, which mends the lines that may
//! differ (`mending.rt`), makes the rendition the default one, and sets the cursor (`cursors.rt`).
//!
//! Functions that weigh one way against another send nothing: `choices.rt`, and for a line `pieces.rt`, `runs.rt` and
//! `tails.rt`.
ghost use Rattle.std.specs.Prelude.{◌≡◌, false};
ghost use Rattle.cur_paint.specs.{Cleared.{at_start}, Limits.{IsWithin}, Rests.{IsRested, cursor_of, rested}};
ghost use Rattle.cur_paint.specs.{Scenes.{CanRefresh, IsSame, scene}, Update.{Draws, Made, Refreshes}};
ghost use Rattle.cur_paint.specs.declared.updates.Status.TheVariants.{Fresh, Known};
ghost use Rattle.cur_steps.specs.{Beliefs.{CanHide}, Inks.{CanShow}};

use crate::changes::Changes;
use crate::lasting::Lasting;
use crate::painters::Painter;
use crate::screens::Screens;
use cur_steps::{Belief, Brush, Mode, Pen, Picture, Place, Sent, Wire, WireFault};
use ti_conforms::Certificate;

/// Makes the terminal show the new one of the `screens`, with the cursor as `wanted` says. The old one is the screen
/// that a terminal known by `session` shows; only the columns that may differ according to `changes` are looked at,
/// unless much of the screen becomes blank. If anything is sent, it ends with the default rendition, the plain set and
/// no pending wrap at the cursor's place. On `WireFault`, a prefix of lawful bytes went out, and the session is lost.
pub fn update<C: Certificate, O: Picture, N: Picture, D: Changes, W: Wire>(
    screens: &Screens<'_, C, O, N>,
    session: &mut Knowledge,
    wire: &mut W,
    changes: &D,
    wanted: Wanted,
) -> Result<(), WireFault>
    requires drawable { CanShow (C.table screens.now.checked.now) (N.cells screens.now.new.now) }
    requires changes { D.between changes.now (O.cells screens.now.old.now) (N.cells screens.now.new.now) }
    requires cursor { IsWithin (C.table screens.now.checked.now) wanted.cursor }
    requires lines { CanHide (C.table screens.now.checked.now) wanted.mode }
    ensures refreshes { Refreshes W.went W.failures wire.old wire.new result (C.table screens.now.checked.now)
        (O.cells screens.now.old.now) (N.cells screens.now.new.now) wanted session.old session.new }
{
    // only this call's contract says that the certificate is verified
    let _ = screens.checked.rows();
    let status = session.status;
    let mut belief = rested(session.cursor);
    session.status = Status::Lost;
    let task = Task { status, wanted };
    draw_whole(screens, &mut belief, wire, changes, task)?;
    session.cursor = cursor_of(belief);
    session.status = Status::Known;
    Ok(())
}

/// A refresh as a task: how much is known of the terminal before it, and the state that is wanted after it.
#[derive(Clone, Copy)]
struct Task {
    status: Status,
    wanted: Wanted,
}

/// Draws to the end even if the wire fails: only a prefix of all the bytes goes out then.
fn draw_whole<C: Certificate, O: Picture, N: Picture, D: Changes, W: Wire>(
    screens: &Screens<'_, C, O, N>,
    belief: &mut Belief,
    wire: &mut W,
    changes: &D,
    task: Task,
) -> Sent
    requires can { CanRefresh D.between changes.now (scene C.table O.cells N.cells screens.now) task.wanted }
    requires rested { IsRested belief.old }
    ensures made { Made W.went W.failures wire.old wire.new result (C.table screens.now.checked.now)
        (O.cells screens.now.old.now) (N.cells screens.now.new.now) task.wanted task.status belief.old belief.new }
{
    let lasting = Lasting {
        wire,
        failed: false,
    };
    let mut pen = Pen {
        belief: *belief,
        wire: lasting,
    };
    draw_on(screens, &mut pen, changes, task)?;
    *belief = pen.belief;
    if pen.wire.failed {
        return Err(WireFault);
    }
    Ok(())
}

/// Draws with this pen.
fn draw_on<C: Certificate, O: Picture, N: Picture, D: Changes, W: Wire>(
    screens: &Screens<'_, C, O, N>,
    pen: &mut Pen<W>,
    changes: &D,
    task: Task,
) -> Sent
    requires can { CanRefresh D.between changes.now (scene C.table O.cells N.cells screens.now) task.wanted }
    requires rested { IsRested pen.old.belief }
    ensures draws { Draws W.went W.failures pen.old.wire pen.new.wire result (C.table screens.now.checked.now)
        (O.cells screens.now.old.now) (N.cells screens.now.new.now) task.wanted task.status
        pen.old.belief pen.new.belief }
{
    let mut painter = Painter { screens, pen };
    painter.draw(task.status, changes, task.wanted)
}

impl<C: Certificate, O: Picture, N: Picture, W: Wire> Painter<'_, C, O, N, W> {
    /// Sends the differences if the terminal is known by `status` and isn't to be cleared, else everything.
    fn draw<D: Changes>(&mut self, status: Status, changes: &D, wanted: Wanted) -> Sent
        requires can { CanRefresh D.between changes.now (scene C.table O.cells N.cells self.old.screens.now) wanted }
        requires rested { IsRested self.old.pen.now.belief }
        ensures draws { Draws W.went W.failures self.old.pen.now.wire self.new.pen.now.wire result
            (C.table self.old.screens.now.checked.now) (O.cells self.old.screens.now.old.now)
            (N.cells self.old.screens.now.new.now) wanted status self.old.pen.now.belief self.new.pen.now.belief }
        ensures same { IsSame self.old self.new }
    {
        match (status, wanted.clear) {
            (Status::Known, false) => self.mend(changes, wanted),
            (Status::Known, true) => self.clear_first(wanted),
            (Status::Fresh, _) => self.repaint(Some(Mode::Normal), wanted),
            (Status::Lost, _) => self.repaint(None, wanted),
        }
    }

    /// Mends the differences from a known state; sends nothing if everything is as wanted. First the terminal scrolls,
    /// if `changes` names scrolls that leave fewer cells to mend; or else everything is cleared and painted, if that
    /// is likely to take fewer bytes.
    fn mend<D: Changes>(&mut self, changes: &D, wanted: Wanted) -> Sent
        requires can { CanRefresh D.between changes.now (scene C.table O.cells N.cells self.old.screens.now) wanted }
        requires rested { IsRested self.old.pen.now.belief }
        ensures draws { Draws W.went W.failures self.old.pen.now.wire self.new.pen.now.wire result
            (C.table self.old.screens.now.checked.now) (O.cells self.old.screens.now.old.now)
            (N.cells self.old.screens.now.new.now) (record wanted { clear = false }) Known self.old.pen.now.belief
            self.new.pen.now.belief }
        ensures same { IsSame self.old self.new }
    {
        if self.screens.is_still(self.pen.belief, changes, wanted) {
            return Ok(());
        }
        let scrolls = changes.scrolls();
        if let Some(scroll) = self.screens.useful_scroll(changes, scrolls.first) {
            return self.scroll_first(changes, scroll, scrolls.second, wanted);
        }
        if self.screens.is_better_cleared(changes) {
            return self.clear_first(wanted);
        }
        self.paint(changes, wanted)
    }
}

/// How much is known of the terminal as a whole.
#[derive(Clone, Copy)]
pub enum Status {
    /// It is at rest, and its screen isn't known.
    Fresh,
    /// It shows the screen of the last refresh.
    Known,
    /// An output failed.
    Lost,
}

/// The cursor as it is known between two refreshes: its place, past the last column if a wrap is pending, and its mode.
#[derive(Clone, Copy)]
pub struct Cursor {
    pub place: Place,
    pub mode: Option<Mode>,
}

/// The knowledge of the terminal between two calls. If the terminal shows the screen of the last refresh, its rendition
/// is the default one and its active set is the plain one.
#[derive(Clone, Copy)]
pub struct Knowledge {
    pub status: Status,
    pub cursor: Cursor,
}

/// The wanted state beside the cells: the cursor's place, if it matters, its mode, and whether everything is cleared
/// first.
#[derive(Clone, Copy)]
pub struct Wanted {
    pub cursor: Option<Place>,
    pub mode: Mode,
    pub clear: bool,
}

impl Knowledge {
    /// The knowledge of a fresh session: nothing is known yet.
    pub fn new() -> Knowledge
        ensures fresh { result.status ≡ Fresh }
    {
        Knowledge {
            status: Status::Fresh,
            cursor: cursor_of(start_belief(None)),
        }
    }
}

/// The place and the mode of the cursor by `belief`.
fn cursor_of(belief: Belief) -> Cursor
    ensures value { result ≡ cursor_of belief }
{
    Cursor {
        place: belief.place,
        mode: belief.mode,
    }
}

/// The belief with which a refresh begins, given the known `cursor`.
fn rested(cursor: Cursor) -> Belief
    ensures value { result ≡ rested cursor }
{
    Belief {
        place: cursor.place,
        brush: Brush::plain(),
        graphic: Some(false),
        mode: cursor.mode,
    }
}

/// The belief after the resynchronization, with the cursor's `mode`, if that is known.
pub(crate) fn start_belief(mode: Option<Mode>) -> Belief
    ensures value { result ≡ at_start mode }
{
    Belief {
        place: Place { row: 0, col: 0 },
        brush: Brush::plain(),
        graphic: Some(false),
        mode,
    }
}
