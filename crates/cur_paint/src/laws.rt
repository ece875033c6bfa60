//! Laws of the bound, and of the states in which a session begins.
ghost use Rattle.std.specs.Prelude.{◌≡◌, ◌≤◌, ◌+◌, ◌*◌, ℕ, Option, Some};
ghost use Rattle.ti_conforms.specs.Certified.{IsChecked, Table, cell_limit};
ghost use Rattle.cur_steps.specs.{Beliefs.{Agrees}, declared.beliefs.Belief.{Belief}, declared.beliefs.Place.{Place}};
ghost use Rattle.cur_steps.specs.{declared.beliefs.Mode.{Mode}, declared.inks.Ink.{Ink}};
ghost use Rattle.cur_paint.specs.{Differ.{all_differ}, Limits.{IsCursor, paint_limit}, Update.{IsFresh}};
ghost use Rattle.vt_term.specs.Screen.{State, reset};

/// The most that a refresh of a known terminal sends: the bytes of a cell for each cell that differs, and once more for
/// the cursor. Nothing if no cell differs, the mode is the shown one, and the terminal's cursor is in the wanted place
/// or may be anywhere, in each state that agrees with what is known.
#[tactic(auto, using(crate::proofs::Bounds::most, crate::proofs::Bounds::none))]
pub fn bounded()
    ensures most { (t : Table) (old new : ℕ → ℕ → Ink) (b : Belief) (cursor : Option Place) (mode : Mode)
        → paint_limit t old new b cursor mode ≤ (all_differ old new t.cols t.rows + 1) * cell_limit t }
    ensures none { (t : Table) (old new : ℕ → ℕ → Ink) (b : Belief) (cursor : Option Place) (mode : Mode)
        → all_differ old new t.cols t.rows ≡ 0 → b.mode ≡ Some mode
        → (s : State) → Agrees t old b s → IsCursor cursor s.screen.row s.screen.col
        → paint_limit t old new b cursor mode ≡ 0 }
{}

/// A terminal in its reset state is one of those in which a session begins.
pub fn reset_is_fresh()
    ensures { (t : Table) → IsChecked t → IsFresh t (reset t.rows t.cols) }
{}
