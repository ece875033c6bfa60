//! Laws of the bound, by the cells of virtual screens.
ghost use Rattle.std.specs.Prelude.{◌≡◌, ◌≤◌, ◌+◌, ◌*◌, ℕ, Option, Some};
ghost use Rattle.cur_screens.specs.VirtualScreen.{Screen};
ghost use Rattle.ti_conforms.specs.Certified.{Table, cell_limit};
ghost use Rattle.vt_term.specs.Screen.{State};
ghost use Rattle.cur_steps.specs.{Beliefs.{Agrees}, declared.beliefs.Belief.{Belief}, declared.beliefs.Place.{Place}};
ghost use Rattle.cur_steps.specs.declared.beliefs.Mode.{Mode};
ghost use Rattle.cur_paint.specs.Limits.{IsCursor, paint_limit};
ghost use Rattle.cur_update.specs.{Differ.{in_lines}, Inks.{ink_at}};

/// The most that a refresh from one virtual screen to another sends, if the terminal is known: the limit of a cell for
/// each cell that differs, and once more for the cursor. Nothing if no cell differs, the mode is the shown one, and the
/// terminal's cursor is in the wanted place or may be anywhere, in each state that agrees with what is known.
pub fn cells_bounded()
    ensures most { (t : Table) (partners : ℕ → Option ℕ) (v w : Screen) (b : Belief) (cursor : Option Place)
        (mode : Mode) → v.rows ≡ w.rows → v.cols ≡ w.cols
        → paint_limit t (ink_at t partners v) (ink_at t partners w) b cursor mode
        ≤ (in_lines v w t.cols t.rows + 1) * cell_limit t }
    ensures none { (t : Table) (partners : ℕ → Option ℕ) (v w : Screen) (b : Belief) (cursor : Option Place)
        (mode : Mode) → v.rows ≡ w.rows → v.cols ≡ w.cols → in_lines v w t.cols t.rows ≡ 0
        → b.mode ≡ Some mode → (s : State) → Agrees t (ink_at t partners v) b s
        → IsCursor cursor s.screen.row s.screen.col
        → paint_limit t (ink_at t partners v) (ink_at t partners w) b cursor mode ≡ 0 }
{
    cur_paint::bounded();
}
