//! Laws of sessions.
ghost use Rattle.std.specs.Prelude.{◌≡◌, ◌≤◌, ℕ, Option, length};
ghost use Rattle.ti_conforms.specs.Certified.{Table};
ghost use Rattle.cur_screens.specs.VirtualScreen.{Screen};
ghost use Rattle.cur_update.specs.Painters.{Painted};
ghost use Rattle.cur_play.specs.{Deliveries.{Carries}, Log.{most}};
ghost use Rattle.cur_play.specs.declared.answers.Answer.{Answer};
ghost use Rattle.cur_play.specs.declared.sends.Emission.TheVariants.{Update};

use cur_update::Wire;
use ti_conforms::Certificate;

/// No refresh sends more than `Session::most` says before it, done or cut short, whatever the wire: all bytes that
/// `Session::call` promises of a refresh are within that bound.
pub fn most_kept<C: Certificate, W: Wire>()
    ensures { (t : Table) (partners : ℕ → Option ℕ) (v : Screen) (old new : W) (answer : Answer)
        (before after : Painted C) → before.shown.rows ≡ t.rows → before.shown.cols ≡ t.cols
        → (refresh : Carries W.went W.failures old new t partners v Update answer before after)
        → length refresh.bytes ≤ most t before.session.status v.clearok before.shown v }
{}
