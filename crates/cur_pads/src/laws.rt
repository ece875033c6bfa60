//! Laws of the calls, each for all desks and screens.
ghost use Rattle.std.specs.Prelude.{ℕ, ℤ};
ghost use Rattle.cur_windows.specs.{Desks.{State, IsDesk}, Laws.{UnchangedIfRefused}};
ghost use Rattle.cur_screens.specs.VirtualScreen.{Screen};
ghost use Rattle.cur_pads.specs.{Laws.{BothUnchangedIfRefused, ShowsCells}, Creations.{newpad, subpad}};
ghost use Rattle.cur_pads.specs.Displays.{pnoutrefresh};
ghost use Rattle.cur_pads.specs.Refusals as causes;
ghost use Rattle.cur_drawing.specs.Refusals.{IsFirstOf};

/// If a part of a pad is shown, the screen's places from its first row and column to its last ones
/// have the pad's cells, and all others keep their cells.
pub fn parts_are_shown()
    ensures { (d : State) (v : Screen) (n : ℕ) (pr pc sr sc : ℤ) (bottom right : ℕ) → IsDesk d →
        ShowsCells d v n pr pc sr sc bottom right }
{}

/// A refused call changes neither the desk nor the screen.
#[tactic(auto, using(crate::proofs::Supports::newpad, crate::proofs::Supports::subpad, crate::proofs::Supports::shown))]
pub fn refused_calls_change_nothing()
    ensures newpad { (d : State) (n : ℕ) (lines cols : ℤ) → UnchangedIfRefused d (newpad d n lines cols) }
    ensures subpad { (d : State) (n w : ℕ) (lines cols y x : ℤ) → UnchangedIfRefused d (subpad d n w lines cols y x) }
    ensures pnoutrefresh { (d : State) (v : Screen) (n : ℕ) (pr pc sr sc er ec : ℤ) →
        BothUnchangedIfRefused d v (pnoutrefresh d v n pr pc sr sc er ec) }
{}

/// The refusal of a call is the first, in the order of ranks, that applies. `NoMemory`, the last of
/// all, is reported only if none of the others applies.
#[tactic(auto, using(crate::proofs::Ranks::newpad, crate::proofs::Ranks::subpad, crate::proofs::Ranks::shown))]
pub fn refused_calls_are_ranked()
    ensures newpad { (d : State) (n : ℕ) (lines cols : ℤ) →
        IsFirstOf (causes.newpad d n lines cols) (newpad d n lines cols).1 }
    ensures subpad { (d : State) (n w : ℕ) (lines cols y x : ℤ) →
        IsFirstOf (causes.subpad d n w lines cols y x) (subpad d n w lines cols y x).1 }
    ensures pnoutrefresh { (d : State) (v : Screen) (n : ℕ) (pr pc sr sc er ec : ℤ) →
        IsFirstOf (causes.pnoutrefresh d n pr pc sr sc er ec) (pnoutrefresh d v n pr pc sr sc er ec).2 }
{}
