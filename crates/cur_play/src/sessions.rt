//! A session: windows, the virtual screen, and a painter for the terminal.
ghost use Rattle.std.specs.Prelude.{◌≡◌, IfOk};
ghost use Rattle.ti_conforms.specs.Certified.{IsChecked, cell_limit};
ghost use Rattle.cur_paint.specs.Limits.{fresh_limit};
ghost use Rattle.cur_drawing.specs.Calls.{added_all};
ghost use Rattle.cur_windows.specs.Desks.{on_window};
ghost use Rattle.cur_scripts.specs.declared.groups.CellCall.TheVariants.{Addch};
ghost use Rattle.cur_scripts.specs.declared.groups.NumberCall.TheVariants.{ColorSet};
ghost use Rattle.cur_scripts.specs.declared.groups.NumbersCall.TheVariants.{Move};
ghost use Rattle.cur_play.specs.{StaleMarks.{IsKnown}, Deliveries.{Carries}, Log.{most}, Outputs.{poised}};
ghost use Rattle.cur_play.specs.Scenes.{IsStage, first, lost_stage, scene_of};
ghost use Rattle.cur_play.specs.Steps.{CallStep, DoesAlone, drawn, lines_shown, output_of, recolored};
ghost use Rattle.cur_play.specs.Windows.{attributes_step, cell_step, number_step, numbers_step};

use crate::answers::{Answer, answer_of};
use crate::bounds::{cells_limit, fresh_limit};
use crate::drawings::draw;
use crate::sends::{output_of, send};
use crate::stale_marks::StaleMarks;
use crate::windows::{attributes, number_call, numbers_call};
use cur_screens::Virtual;
use cur_scripts::{Attrs, AttrsCall, Call, NumberCall, NumbersCall, Put};
use cur_update::{Painter, Status, Wire, cells_bounded};
use cur_windows::{Desk, Size, WindowLines};
use std::alloc::{AllocError, Global};
use std::marker::Model;
use ti_conforms::Certificate;

/// A session on the terminal of a verified certificate.
#[derive(Drop)]
pub struct Session<C: Certificate> {
    desk: Desk,
    screen: Virtual,
    stale: StaleMarks,
    painter: Painter<C>,
}

impl<C: Certificate> Model for Session<C> {
    ghost use Rattle.ti_conforms.specs.Certified.{IsChecked};
    ghost use Rattle.cur_play.specs.{StaleMarks.{IsKnown}, Scenes.{Stage, IsStage}};

    ghost Value = { Stage C };

    ghost view = { λ s. record { desk = s.desk; screen = s.screen; painter = s.painter } };

    ghost invariant = { λ s. IsStage (C.table s.painter.checked) s.desk s.screen × IsChecked (C.table s.painter.checked)
        × IsKnown s.stale s.desk s.screen s.painter.shown.grid };
}

impl<C: Certificate> Session<C> {
    /// A session that has sent nothing: window 0 and the virtual screen are blank. Fails if memory runs out.
    pub fn open(alloc: Global, checked: C) -> Result<Session<C>, AllocError>
    where
        C: Drop,
        ensures scene { IfOk result (λ s. scene_of s ≡ first (C.table checked)) }
        ensures certificate { IfOk result (λ s. s.painter.checked ≡ checked) }
    {
        let size = Size::new(checked.rows(), checked.cols()).unwrap();
        let desk = Desk::new(alloc, size)?;
        let screen = Virtual::new(alloc, size)?;
        let stale = StaleMarks::new(alloc, screen.size().0)?;
        let painter = Painter::start(alloc, checked)?;
        Ok(Session {
            desk,
            screen,
            stale,
            painter,
        })
    }

    /// Makes the session lost, for a caller that knows that not all sent bytes reached the terminal. The next refresh
    /// begins anew. Nothing is sent.
    pub fn lose(&mut self)
        ensures { self.new ≡ lost_stage self.old }
    {
        self.painter.lose();
    }

    /// Sets the colors of `pair`, as the call `init_pair` does, and also takes -1 for `foreground` or `background`: the
    /// terminal's default color. Nothing is sent. Fails with `BadPair` for a pair that isn't 1 to 63, or a color that
    /// isn't -1 to 7; nothing has changed then.
    pub fn init_pair_or_default(&mut self, pair: i32, foreground: i32, background: i32) -> Answer
        ensures { (self.new, result) ≡ recolored pair foreground background self.old }
    {
        answer_of(
            self.screen
                .init_pair_or_default(pair, foreground, background),
        )
    }

    /// Copies the lines `top` to `bottom` of `window` to the virtual screen, as the call `noutrefresh` copies all of
    /// its lines. Nothing is sent. Fails with `Full` for a number above 63, `NoWindow`, `PadKind` for a pad, and
    /// `BadRegion` unless these are lines of the window, in order; nothing has changed then.
    pub fn noutrefresh_lines(&mut self, window: usize, top: i32, bottom: i32) -> Answer
        ensures { (self.new, result) ≡ lines_shown window top bottom self.old }
    {
        let lines = WindowLines {
            window,
            top,
            bottom,
        };
        answer_of(
            self.desk.noutrefresh_lines_marked(
                lines,
                &mut self.screen,
                &mut self.stale.window,
                &mut self.stale.screen,
            ),
        )
    }

    /// Does the call `addch` of `put` in `window`, as `call` does it; nothing is sent. Fails with `Full` for a number
    /// above 63, `NoWindow`, `BadCell` for a byte above 127, `BadPair`, and `NoScroll` if the window would have to
    /// scroll and may not.
    pub fn addch(&mut self, window: usize, put: Put) -> Answer
        ensures { DoesAlone C.table (cell_step Addch self.old.desk window put) self.old result self.new }
    {
        answer_of(self.desk.addch_marked(window, put, &mut self.stale.window))
    }

    /// Does the call `addstr` of `text` in `window`, as `call` does it; nothing is sent. Fails with `Full` for a number
    /// above 63, `NoWindow`, and as `addch` at the first byte that `addch` refuses; the bytes before it are written.
    pub fn addstr(&mut self, window: usize, text: &[u8]) -> Answer
        ensures { DoesAlone C.table (on_window self.old.desk window (added_all text.now)) self.old result self.new }
    {
        let touched = &mut self.stale.window;
        answer_of(self.desk.addstr_marked(window, text, touched))
    }

    /// Does the call `move` in `window`, as `call` does it; nothing is sent. Fails with `Full` for a number above 63,
    /// `NoWindow`, and `OutOfWindow` if there is no such place; nothing has changed then.
    pub fn move_to(&mut self, window: usize, row: i32, col: i32) -> Answer
        ensures { DoesAlone C.table (numbers_step Move self.old.desk window row col) self.old result self.new }
    {
        let touched = &mut self.stale.window;
        answer_of(numbers_call(
            &mut self.desk,
            touched,
            NumbersCall::Move,
            window,
            (row, col),
        ))
    }

    /// Does the call `color_set` of `pair` in `window`, as `call` does it; nothing is sent. Fails with `Full` for a
    /// number above 63, `NoWindow`, and `BadPair` for a pair that isn't 0 to 63; nothing has changed then.
    pub fn color_set(&mut self, window: usize, pair: i32) -> Answer
        ensures { DoesAlone C.table (number_step ColorSet self.old.desk window pair) self.old result self.new }
    {
        let touched = &mut self.stale.window;
        answer_of(number_call(&mut self.desk, touched, NumberCall::ColorSet, window, pair))
    }

    /// Does `attron`, `attroff` or `attrset` of `attrs` in `window`, as `call` does it; nothing is sent. Fails with
    /// `Full` for a number above 63 and `NoWindow`; nothing has changed then.
    pub fn attributes(&mut self, call: AttrsCall, window: usize, attrs: Attrs) -> Answer
        ensures { DoesAlone C.table (attributes_step call self.old.desk window attrs) self.old result self.new }
    {
        answer_of(attributes(&mut self.desk, call, window, attrs))
    }

    /// The session's windows.
    pub fn desk(&self) -> &Desk
        ensures { result.now ≡ self.now.desk }
    {
        &self.desk
    }

    /// The most bytes that a cell takes, with its move and all changes of its look.
    pub fn cell_limit(&self) -> usize
        ensures { result ≡ cell_limit (C.table self.now.painter.checked) }
    {
        self.painter.checked().cell_limit()
    }

    /// The most bytes of a refresh that begins anew: the limit of a cell for each cell of the screen and once more, and
    /// the length of the way out of an unknown state. Each refresh keeps this bound, the first one among them.
    pub fn fresh_limit(&self) -> usize
        ensures { result ≡ fresh_limit (C.table self.now.painter.checked) }
    {
        fresh_limit(self.painter.checked())
    }

    /// The most bytes that the call `doupdate` sends if it comes next, done or cut short: the limit of a cell for each
    /// cell that differs from the screen shown last and once more, or `fresh_limit` if the terminal isn't known or is
    /// to be cleared. `most_kept` is the law that no refresh sends more. A safe bound: most refreshes send far less.
    /// The contract also says that the screen shown last is of the terminal's size.
    pub fn most(&self) -> usize
        ensures value { result ≡ most (C.table self.now.painter.checked) self.now.painter.session.status
            self.now.screen.clearok self.now.painter.shown self.now.screen }
        ensures rows { self.now.painter.shown.rows ≡ (C.table self.now.painter.checked).rows }
        ensures cols { self.now.painter.shown.cols ≡ (C.table self.now.painter.checked).cols }
    {
        let checked = self.painter.checked();
        match self.painter.status() {
            Status::Known => {
                if self.screen.clearok() {
                    fresh_limit(checked)
                } else {
                    cells_limit(checked, self.painter.differing(&self.screen))
                }
            }
            Status::Fresh | Status::Lost => fresh_limit(checked),
        }
    }

    /// Does `call`. `newwin`, `newpad` and `dupwin` take memory, and are refused with `NoMemory` if there is none; all
    /// other calls take none. On `WireFailed`, a prefix of what the call sends went out on `wire`, the virtual screen
    /// keeps what was copied to it, and the session is lost.
    pub fn call<W: Wire>(&mut self, call: &Call<'_>, wire: &mut W) -> Answer
        ensures step { CallStep (C.table self.old.painter.checked) (scene_of self.old) call.now result
            (scene_of self.new) }
        ensures carries { Carries W.went W.failures wire.old wire.new (C.table self.old.painter.checked)
            (C.partners self.old.painter.checked) (drawn (C.table self.old.painter.checked) (scene_of self.old)
            call.now).0.screen
            (output_of call.now) result (poised (C.table self.old.painter.checked) self.old call.now) self.new.painter }
        ensures stage { IsStage (C.table self.new.painter.checked) self.new.desk self.new.screen }
        ensures checked { IsChecked (C.table self.new.painter.checked) }
        ensures certificate { self.new.painter.checked ≡ self.old.painter.checked }
    {
        cells_bounded();
        let drawn = draw(
            &mut self.desk,
            &mut self.screen,
            &mut self.stale,
            &mut self.painter,
            call,
        );
        match drawn {
            Answer::Done => send(
                &mut self.screen,
                &mut self.stale.screen,
                &mut self.painter,
                output_of(call),
                wire,
            ),
            answer => answer,
        }
    }
}
