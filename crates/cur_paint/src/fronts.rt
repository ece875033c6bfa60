//! The bytes that may go out before differences are mended: the resynchronization, `clear`, or a scroll.
ghost use Rattle.std.specs.Prelude.{◌+◌, ◌≡◌, List, OnOk, Some, length, ℕ};
ghost use Rattle.cur_paint.specs.{Cleared.{IsLeft}, Limits.{fresh_limit, paint_limit, renewal_limit}};
ghost use Rattle.cur_paint.specs.Rests.{IsRested, IsSet};
ghost use Rattle.cur_paint.specs.Scenes.{CanPaint, CanRefresh, Ends, IsSame, IsUseful, Renews, scene};
ghost use Rattle.cur_steps.specs.{Beliefs.{Agrees}, Inks.{blank_ink}, declared.inks.Ink.{Ink}};
ghost use Rattle.ti_rows.specs.declared.rows.Row.TheVariants.{Clear};

use crate::changes::{Changes, Moved, Written, landing};
use crate::painters::Painter;
use crate::screens::Screens;
use crate::updates::{Wanted, start_belief};
use cur_moves::{Scroll, Shifted, scroll_lines};
use cur_steps::{Blank, Mode, Picture, Place, Sent, Wire, send_all};
use ti_conforms::Certificate;
use ti_rows::Row;

impl<C: Certificate, O: Picture, N: Picture, W: Wire> Painter<'_, C, O, N, W> {
    /// Paints everything anew after the resynchronization, from any lost state in which the cursor is shown in the mode
    /// `shown_as`, if that is known.
    #[inline(never)]
    pub(crate) fn repaint(&mut self, shown_as: Option<Mode>, wanted: Wanted) -> Sent
        requires can { CanPaint (scene C.table O.cells N.cells self.old.screens.now) wanted }
        ensures set { OnOk result (IsSet wanted self.new.pen.now.belief) }
        ensures step { Renews C.table O.cells N.cells W.went W.failures self.old self.new result
            (λ s. fresh_limit s.table) (λ s. IsLeft s.table shown_as) (λ s. s.table.resync) shown_as wanted }
        ensures same { IsSame self.old self.new }
    {
        self.pen.belief = start_belief(shown_as);
        send_all(&mut self.pen.wire, self.screens.checked.resync())?;
        self.paint_all(wanted)
    }

    /// Clears everything from a known state, in the default rendition, and paints it anew.
    #[inline(never)]
    pub(crate) fn clear_first(&mut self, wanted: Wanted) -> Sent
        requires can { CanPaint (scene C.table O.cells N.cells self.old.screens.now) wanted }
        requires rested { IsRested self.old.pen.now.belief }
        ensures set { OnOk result (IsSet wanted self.new.pen.now.belief) }
        ensures step { (line : List ℕ) → (C.table self.old.screens.now.checked.now).line_of Clear ≡ Some line
            → (shown : ℕ → ℕ → Ink) → Renews C.table O.cells N.cells W.went W.failures self.old self.new result
            (λ s. length line + renewal_limit s.table (λ i j. blank_ink) s.new)
            (λ s. Agrees s.table shown self.old.pen.now.belief) (λ s. line) self.old.pen.now.belief.mode wanted }
        ensures same { IsSame self.old self.new }
    {
        self.pen.belief.place = Place { row: 0, col: 0 };
        send_all(
            &mut self.pen.wire,
            self.screens.checked.line(Row::Clear).unwrap(),
        )?;
        self.paint_all(wanted)
    }

    /// Paints everything onto a blank terminal.
    fn paint_all(&mut self, wanted: Wanted) -> Sent
        requires can { CanPaint (scene C.table O.cells N.cells self.old.screens.now) wanted }
        ensures ends { Ends C.table O.cells N.cells W.went W.failures self.old self.new result
            (λ s. renewal_limit s.table (λ i j. blank_ink) s.new) (λ s i j. blank_ink) wanted }
    {
        let written = Written {
            new: self.screens.new,
        };
        self.paint_over(&Blank, &written, wanted)
    }

    /// Paints onto a terminal that shows `old`, which must differ from the new screen as `changes` says.
    fn paint_over<P: Picture, D: Changes>(&mut self, old: &P, changes: &D, wanted: Wanted) -> Sent
        requires can { CanPaint (scene C.table O.cells N.cells self.old.screens.now) wanted }
        requires changes { D.between changes.now (P.cells old.now) (N.cells self.old.screens.now.new.now) }
        ensures ends { Ends C.table O.cells N.cells W.went W.failures self.old self.new result
            (λ s. renewal_limit s.table (P.cells old.now) s.new) (λ s. P.cells old.now) wanted }
    {
        let screens = Screens {
            checked: self.screens.checked,
            old,
            new: self.screens.new,
        };
        let mut painter = Painter {
            screens: &screens,
            pen: self.pen,
        };
        painter.paint(changes, wanted)
    }

    /// Scrolls from a known state as `scroll` says, and as `second` if that saves more, and mends the cells that then
    /// differ.
    #[inline(never)]
    pub(crate) fn scroll_first<D: Changes>(
        &mut self,
        changes: &D,
        scroll: Scroll,
        second: Option<Scroll>,
        wanted: Wanted,
    ) -> Sent
        requires can { CanRefresh D.between changes.now (scene C.table O.cells N.cells self.old.screens.now) wanted }
        requires useful { IsUseful (scene C.table O.cells N.cells self.old.screens.now) scroll }
        ensures ends { Ends C.table O.cells N.cells W.went W.failures self.old self.new result
            (λ s. paint_limit s.table s.old s.new self.old.pen.now.belief wanted.cursor wanted.mode) (λ s. s.old)
            wanted }
    {
        let to = landing(changes, scroll, self.screens.checked.cols());
        scroll_lines(self.screens.checked, self.pen, scroll, to)?;
        let moved = Shifted {
            old: self.screens.old,
            scroll,
        };
        let after = Moved {
            changes,
            scroll,
            new: self.screens.new,
        };
        self.paint_moved(&moved, &after, second, wanted)
    }

    /// Paints onto a terminal that shows `old`, as `paint_over` does, after the scroll `second`, if that saves cells.
    fn paint_moved<P: Picture, D: Changes>(
        &mut self,
        old: &P,
        changes: &D,
        second: Option<Scroll>,
        wanted: Wanted,
    ) -> Sent
        requires can { CanPaint (scene C.table O.cells N.cells self.old.screens.now) wanted }
        requires changes { D.between changes.now (P.cells old.now) (N.cells self.old.screens.now.new.now) }
        ensures ends { Ends C.table O.cells N.cells W.went W.failures self.old self.new result
            (λ s. renewal_limit s.table (P.cells old.now) s.new) (λ s. P.cells old.now) wanted }
    {
        let screens = Screens {
            checked: self.screens.checked,
            old,
            new: self.screens.new,
        };
        let mut painter = Painter {
            screens: &screens,
            pen: self.pen,
        };
        match screens.useful_scroll(changes, second) {
            Some(scroll) => painter.scroll_last(changes, scroll, wanted),
            None => painter.paint(changes, wanted),
        }
    }

    /// Scrolls as `scroll_first` does, but once only.
    fn scroll_last<D: Changes>(&mut self, changes: &D, scroll: Scroll, wanted: Wanted) -> Sent
        requires can { CanRefresh D.between changes.now (scene C.table O.cells N.cells self.old.screens.now) wanted }
        requires useful { IsUseful (scene C.table O.cells N.cells self.old.screens.now) scroll }
        ensures ends { Ends C.table O.cells N.cells W.went W.failures self.old self.new result
            (λ s. paint_limit s.table s.old s.new self.old.pen.now.belief wanted.cursor wanted.mode) (λ s. s.old)
            wanted }
    {
        let to = landing(changes, scroll, self.screens.checked.cols());
        scroll_lines(self.screens.checked, self.pen, scroll, to)?;
        let moved = Shifted {
            old: self.screens.old,
            scroll,
        };
        let after = Moved {
            changes,
            scroll,
            new: self.screens.new,
        };
        self.paint_over(&moved, &after, wanted)
    }
}
