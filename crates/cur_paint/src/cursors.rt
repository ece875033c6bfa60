//! Painting the differences, and ending in the default rendition with the cursor in its mode and place.
ghost use Rattle.std.specs.Prelude.{◌≡◌, OnOk};
ghost use Rattle.cur_paint.specs.{Limits.{IsWithin, renewal_limit, rest_limit}, Modes.{move_limit}};
ghost use Rattle.cur_paint.specs.Rests.{IsAt, IsRested};
ghost use Rattle.cur_paint.specs.Scenes.{CanPaint, CanRefresh, Ends, IsPaintable, IsSame, scene};
ghost use Rattle.cur_steps.specs.Steps.{ActsWith, Keeps};
ghost use Rattle.ti_conforms.specs.Certified.{IsChecked, cell_limit};

use crate::changes::Changes;
use crate::painters::Painter;
use crate::updates::Wanted;
use cur_moves::{Target, make_plain};
use cur_steps::{Picture, Place, Sent, Wire};
use ti_conforms::Certificate;

impl<C: Certificate, O: Picture, N: Picture, W: Wire> Painter<'_, C, O, N, W> {
    /// Mends all differences, in the columns that may differ according to `changes`, then makes the rendition the
    /// default one and sets the cursor as `wanted` says.
    pub(crate) fn paint<D: Changes>(&mut self, changes: &D, wanted: Wanted) -> Sent
        requires can { CanRefresh D.between changes.now (scene C.table O.cells N.cells self.old.screens.now) wanted }
        ensures ends { Ends C.table O.cells N.cells W.went W.failures self.old self.new result
            (λ s. renewal_limit s.table s.old s.new) (λ s. s.old) wanted }
    {
        self.mend_screen(changes)?;
        self.settle(wanted)
    }

    /// Ends a refresh that sends anything: makes the rendition the default one and the plain set active, and sets the
    /// cursor as `wanted` says.
    fn settle(&mut self, wanted: Wanted) -> Sent
        requires can { CanPaint (scene C.table O.cells N.cells self.old.screens.now) wanted }
        ensures ends { Ends C.table O.cells N.cells W.went W.failures self.old self.new result
            (λ s. cell_limit s.table) (λ s. s.new) wanted }
    {
        self.rest()?;
        self.pen.show_as(self.screens.checked, wanted.mode)?;
        self.place_cursor(wanted.cursor)
    }

    /// Makes the rendition the default one and the plain set active, if they aren't.
    fn rest(&mut self) -> Sent
        requires checked { IsChecked (C.table self.old.screens.now.checked.now) }
        ensures rested { OnOk result (IsRested self.new.pen.now.belief) }
        ensures mode { OnOk result (self.new.pen.now.belief.mode ≡ self.old.pen.now.belief.mode) }
        ensures step { Keeps W.went W.failures self.old.pen.now self.new.pen.now result
            (C.table self.old.screens.now.checked.now) (rest_limit (C.table self.old.screens.now.checked.now)) }
        ensures same { IsSame self.old self.new }
    {
        make_plain(self.screens.checked, self.pen)?;
        self.pen.set_as(self.screens.checked, false)
    }

    /// Moves the cursor to the place `cursor`, if there is one, so that no wrap is pending there.
    fn place_cursor(&mut self, cursor: Option<Place>) -> Sent
        requires scene { IsPaintable (scene C.table O.cells N.cells self.old.screens.now) }
        requires cursor { IsWithin (C.table self.old.screens.now.checked.now) cursor }
        ensures at { OnOk result (IsAt cursor self.new.pen.now.belief.place) }
        ensures belief { OnOk result
            (self.new.pen.now.belief ≡ record self.old.pen.now.belief { place = self.new.pen.now.belief.place }) }
        ensures step { ActsWith W.went W.failures self.old.pen.now self.new.pen.now result
            (C.table self.old.screens.now.checked.now) (move_limit (C.table self.old.screens.now.checked.now) cursor)
            (N.cells self.old.screens.now.new.now) (N.cells self.old.screens.now.new.now) }
        ensures same { IsSame self.old self.new }
    {
        let Some(at) = cursor else {
            return Ok(());
        };
        let target = Target {
            checked: self.screens.checked,
            shown: self.screens.new,
        };
        target.reach(self.pen, at)
    }
}
