//! The cursor's modes.
ghost use Rattle.std.specs.Prelude.{◌≡◌, ◌*◌, ℕ, true, false, Some, OnOk};
ghost use Rattle.ti_conforms.specs.Certified.{IsChecked, limit_of, text_of};
ghost use Rattle.cur_steps.specs.Beliefs.{CanHide, Normal, Prominent, changes, mode_row, mode_text, modes_limit};
ghost use Rattle.cur_steps.specs.{Beliefs.{setting_text}, Steps.{KeepsBy}};

use crate::Wire;
use crate::beliefs::Mode;
use crate::lines::send_line_of;
use crate::pens::{Pen, Sent};
use ti_conforms::Certificate;
use ti_rows::Row;

/// The row whose line makes the cursor as `mode` says.
fn row_of_mode(mode: Mode) -> Row
    ensures { result ≡ mode_row mode }
{
    match mode {
        Mode::Hidden => Row::Civis,
        Mode::Normal => Row::Cnorm,
        Mode::Prominent => Row::Cvvis,
    }
}

/// Whether the mode `now` is known and is `wanted`.
pub fn is_mode(now: Option<Mode>, wanted: Mode) -> bool
    ensures so { result ≡ true → now ≡ Some wanted }
    ensures counted { result ≡ false → changes now wanted ≡ 1 }
{
    matches!(
        (now, wanted),
        (Some(Mode::Hidden), Mode::Hidden)
            | (Some(Mode::Normal), Mode::Normal)
            | (Some(Mode::Prominent), Mode::Prominent)
    )
}

impl<W: Wire> Pen<W> {
    /// Makes the cursor as `mode` says, by one string. A cursor that is to be very visible must be shown normally
    /// already.
    fn change_mode<C: Certificate>(&mut self, checked: &C, mode: Mode) -> Sent
        requires checked { IsChecked (C.table checked.now) }
        requires lines { CanHide (C.table checked.now) mode }
        requires shown { mode ≡ Prominent → self.old.belief.mode ≡ Some Normal }
        ensures belief { self.new.belief ≡ record self.old.belief { mode = Some mode } }
        ensures step { KeepsBy W.went W.failures self.old self.new result (C.table checked.now)
            (limit_of (C.table checked.now) (mode_row mode)) (text_of (C.table checked.now) (mode_row mode)) }
    {
        self.belief.mode = Some(mode);
        send_line_of(checked, row_of_mode(mode), &mut self.wire)
    }

    /// Shows the cursor and makes it very visible.
    fn show_prominently<C: Certificate>(&mut self, checked: &C) -> Sent
        requires checked { IsChecked (C.table checked.now) }
        ensures belief { OnOk result (self.new.belief ≡ record self.old.belief { mode = Some Prominent }) }
        ensures step { KeepsBy W.went W.failures self.old self.new result (C.table checked.now)
            (modes_limit (C.table checked.now)) (setting_text (C.table checked.now) Prominent) }
    {
        self.change_mode(checked, Mode::Normal)?;
        self.change_mode(checked, Mode::Prominent)
    }

    /// Shows the cursor in the mode `wanted`, if it isn't known to be.
    pub fn show_as<C: Certificate>(&mut self, checked: &C, wanted: Mode) -> Sent
        requires lines { CanHide (C.table checked.now) wanted }
        ensures belief { OnOk result (self.new.belief ≡ record self.old.belief { mode = Some wanted }) }
        ensures step { KeepsBy W.went W.failures self.old self.new result (C.table checked.now)
            (changes self.old.belief.mode wanted * modes_limit (C.table checked.now))
            (mode_text (C.table checked.now) self.old.belief.mode wanted) }
    {
        // only this call's contract says that the certificate is verified
        let _ = checked.rows();
        if is_mode(self.belief.mode, wanted) {
            return Ok(());
        }
        match wanted {
            Mode::Hidden => self.change_mode(checked, Mode::Hidden),
            Mode::Normal => self.change_mode(checked, Mode::Normal),
            Mode::Prominent => self.show_prominently(checked),
        }
    }
}
