//! Laws of the calls, each for all desks.
ghost use Rattle.std.specs.Prelude.{◌≡◌, ◌≢◌, ◌⊎◌, ℕ, ◌+◌, ◌<◌, Bool, false, List, length, slice_index_or, Some, None};
ghost use Rattle.std.specs.Prelude.{Ok, Err, IfOk, ℤ, pos};
ghost use Rattle.cur_drawing.specs.{Cells.{Content, space}, Grids.{Grid, cell_at, is_in}, Laws.{IsLocal}};
ghost use Rattle.cur_drawing.specs.Refusals.{IsFirstOf};
ghost use Rattle.cur_drawing.specs.Calls as calls;
ghost use Rattle.cur_drawing.specs.Windows as window_calls;
ghost use Rattle.cur_windows.specs.Copies as copying;
ghost use Rattle.cur_windows.specs.Desks.{State, IsDesk, slot_of, window_at, grid_at, cell, on_window, on_grid};
ghost use Rattle.cur_windows.specs.Desks.{on_cursor, set, unchanged};
ghost use Rattle.cur_windows.specs.Laws.{OnlyWithin, Apart, IsSubwindowOf, UnchangedIfRefused};
ghost use Rattle.cur_windows.specs.Creations as making;
ghost use Rattle.cur_windows.specs.Rows.{line_of, line_area, row_written, written_through};
ghost use Rattle.cur_windows.specs.Refusals as causes;
ghost use Rattle.cur_windows.specs.{Views.{window_cells}, Refreshes.{noutrefresh, noutrefresh_lines}};
ghost use Rattle.cur_pads.specs.WindowPlaces.{AreLinesShown, IsWindowShown, IsCopied, IsOverlaid, IsCopyOf};
ghost use Rattle.cur_screens.specs.VirtualScreen.{Screen};

use cur_drawing::{Border, Cell, Put, Refusal, Window};
use cur_screens::{Origin, Slot};
use cur_windows::Desk;

/// A call on one window changes no cell outside the window's rectangle, and no other window. It
/// must be local to its window and grid, which is a law of each such call.
#[tactic(auto, using(crate::proofs::Within::on_window, crate::proofs::Within::on_grid, crate::proofs::Within::on_cursor))]
pub fn calls_stay_inside()
    ensures writing { (d : State) (n : ℕ) (s : Slot) (act : calls.Canvas → calls.CanvasStep) → IsDesk d
        → slot_of d n ≡ Ok s → IsLocal act → OnlyWithin d (on_window d n act).0 n s }
    ensures drawing { (d : State) (n : ℕ) (s : Slot) (act : calls.Canvas → calls.CanvasStep) → IsDesk d
        → slot_of d n ≡ Ok s → IsLocal act → OnlyWithin d (on_grid d n act).0 n s }
    ensures setting { (d : State) (n : ℕ) (s : Slot) (act : Window → window_calls.WindowStep) → slot_of d n ≡ Ok s
        → OnlyWithin d (on_cursor d n act).0 n s }
{}

/// A call on one window changes no cell of a window that has no cell in common with it.
#[tactic(auto, using(crate::proofs::Within::apart_kept))]
pub fn windows_apart_stay()
    ensures { (d e : State) (n : ℕ) (s t : Slot) (y x : ℕ) → OnlyWithin d e n s → Apart s t → y < t.window.area.rows
        → x < t.window.area.cols → cell e t y x ≡ cell d t y x }
{}

/// A copy changes no cell outside its target, and no window.
#[tactic(auto, using(crate::proofs::Copied::common_part_within, crate::proofs::Copied::copywin_within))]
pub fn copies_stay_inside()
    ensures overlay { (d : State) (skip : Bool) (n m : ℕ) (t : Slot) → IsDesk d → slot_of d m ≡ Ok t
        → OnlyWithin d (copying.common_part skip d n m).0 m t }
    ensures copywin { (d : State) (n m : ℕ) (sr sc dr dc er ec : ℤ) (skip : Bool) (t : Slot) → IsDesk d
        → slot_of d m ≡ Ok t → OnlyWithin d (copying.copywin d n m sr sc dr dc er ec skip).0 m t }
{}

/// A new window with a grid of its own changes no cell of the others.
#[tactic(auto, using(crate::proofs::Shares::settled_apart))]
pub fn new_windows_lie_apart()
    ensures { (d : State) (n m : ℕ) (g : Grid) (o : Origin) (w : Window) (t : Slot) (y x : ℕ) → IsDesk d
        → window_at d n ≡ None → window_at d m ≡ Some t → cell (making.root_added d n g o w) t y x ≡ cell d t y x }
{}

/// A subwindow and its parent show the same cell at the same place, whatever happens to the desk.
#[tactic(auto, using(crate::proofs::Shares::part_cell))]
pub fn subwindows_share_cells()
    ensures { (d : State) (s t : Slot) (y x i j : ℕ) → IsSubwindowOf s t y x → cell d t i j ≡ cell d s (y + i) (x + j) }
{}

/// `derwin` makes such a subwindow, at the given place of its parent.
#[tactic(auto, using(crate::proofs::Shares::derwin_part))]
pub fn derwin_makes_subwindows()
    ensures { (d : State) (n w : ℕ) (lines cols : ℤ) (y x : ℕ) (s t : Slot) → IsDesk d
        → (making.derwin d n w lines cols (pos y) (pos x)).1 ≡ Ok tt → slot_of d w ≡ Ok s
        → window_at (making.derwin d n w lines cols (pos y) (pos x)).0 n ≡ Some t → IsSubwindowOf s t y x }
{}

/// `subwin` makes such a subwindow, at a place relative to the screen's corner.
pub fn subwin_makes_subwindows()
    ensures { (d : State) (n w : ℕ) (lines cols : ℤ) (y x : ℕ) (s t : Slot) → IsDesk d
        → (making.subwin d n w lines cols (pos ((making.corner d s).0 + y)) (pos ((making.corner d s).1 + x))).1 ≡ Ok tt
        → slot_of d w ≡ Ok s
        → window_at (making.subwin d n w lines cols (pos ((making.corner d s).0 + y))
        (pos ((making.corner d s).1 + x))).0 n ≡ Some t
        → IsSubwindowOf s t y x }
{}

/// A view shows the window's cells.
pub fn views_tell_cells()
    ensures { (d : State) (n : ℕ) (s : Slot) (y x : ℕ) → IsDesk d → slot_of d n ≡ Ok s → y < s.window.area.rows
        → x < s.window.area.cols → cell_at (window_cells s.window.area (grid_at d s.root)) y x ≡ cell d s y x }
{}

/// A refused call that writes changes nothing, except that `addch` may have written before it
/// answers `NoScroll`.
pub fn refused_writing_changes_nothing()
    ensures addch { (d : State) (n : ℕ) (put : Put) (e : Refusal) → e ≢ Refusal.NoScroll
        → (on_window d n (calls.added put)).1 ≡ Err e → (on_window d n (calls.added put)).0 ≡ d }
    ensures bkgd { (d : State) (n : ℕ) (put : Put) → UnchangedIfRefused d
        (on_window d n (calls.change_background put)) }
    ensures insch { (d : State) (n : ℕ) (put : Put) → UnchangedIfRefused d (on_grid d n (calls.insert_char put)) }
    ensures hline { (d : State) (n : ℕ) (put : Put) (count : ℤ)
        → UnchangedIfRefused d (on_grid d n (calls.horizontal put count)) }
    ensures vline { (d : State) (n : ℕ) (put : Put) (count : ℤ)
        → UnchangedIfRefused d (on_grid d n (calls.vertical put count)) }
    ensures border { (d : State) (n : ℕ) (border : Border)
        → UnchangedIfRefused d (on_grid d n (calls.bordered border)) }
    ensures scroll { (d : State) (n : ℕ) (count : ℤ) → UnchangedIfRefused d (on_grid d n (calls.scroll_by count)) }
{}

/// A refused call that sets a place, a region, a pair or a background changes nothing.
#[tactic(auto, using(cur_windows::proofs::Supports::move_to, cur_windows::proofs::Supports::set_region, cur_windows::proofs::Supports::set_pair, cur_windows::proofs::Supports::set_background))]
pub fn refused_setting_changes_nothing()
    ensures move_to { (d : State) (n : ℕ) (y x : ℤ) → UnchangedIfRefused d (on_cursor d n (window_calls.move_to y x)) }
    ensures setscrreg { (d : State) (n : ℕ) (top bottom : ℤ)
        → UnchangedIfRefused d (on_cursor d n (window_calls.set_region top bottom)) }
    ensures color_set { (d : State) (n : ℕ) (pair : ℤ)
        → UnchangedIfRefused d (on_cursor d n (window_calls.set_pair pair)) }
    ensures bkgdset { (d : State) (n : ℕ) (put : Put)
        → UnchangedIfRefused d (on_cursor d n (window_calls.set_background put)) }
{}

/// A refused call that makes, moves, deletes or copies windows changes nothing.
#[tactic(auto, using(cur_windows::proofs::Supports::newwin, cur_windows::proofs::Supports::derwin, cur_windows::proofs::Supports::subwin, cur_windows::proofs::Supports::dupwin, cur_windows::proofs::Supports::delwin, cur_windows::proofs::Supports::mvwin, cur_windows::proofs::Supports::common_part, cur_windows::proofs::Supports::copywin))]
pub fn refused_making_changes_nothing()
    ensures newwin { (d : State) (n : ℕ) (lines cols y x : ℤ)
        → UnchangedIfRefused d (making.newwin d n lines cols y x) }
    ensures derwin { (d : State) (n w : ℕ) (lines cols y x : ℤ)
        → UnchangedIfRefused d (making.derwin d n w lines cols y x) }
    ensures subwin { (d : State) (n w : ℕ) (lines cols y x : ℤ)
        → UnchangedIfRefused d (making.subwin d n w lines cols y x) }
    ensures dupwin { (d : State) (n w : ℕ) → UnchangedIfRefused d (making.dupwin d n w) }
    ensures delwin { (d : State) (n : ℕ) → UnchangedIfRefused d (making.delwin d n) }
    ensures mvwin { (d : State) (n : ℕ) (y x : ℤ) → UnchangedIfRefused d (making.mvwin d n y x) }
    ensures overlay { (d : State) (n m : ℕ) (skip : Bool) → UnchangedIfRefused d (copying.common_part skip d n m) }
    ensures copywin { (d : State) (n m : ℕ) (sr sc dr dc er ec : ℤ) (skip : Bool)
        → UnchangedIfRefused d (copying.copywin d n m sr sc dr dc er ec skip) }
{}

/// A cell written through a borrowed line is in the window's grid at its place, and nothing else
/// changes; a refusal changes nothing. The line must have the place `x`.
pub fn lent_lines_are_written(desk: &mut Desk, id: usize, y: u16, x: u16, cell: Cell)
    requires { IfOk (line_of desk.old id y) (λ s. x < s.window.area.cols) }
    ensures { desk.new ≡ written_through (line_of desk.old id y) desk.old y x cell }
{
    if let Ok(mut line) = desk.row_mut(id, y) {
        line.set(x, cell);
    }
}

/// A cell written into the slice of a borrowed line is in the window's grid at its place, and
/// nothing else changes; a refusal changes nothing. The line must have the place `x`.
pub fn lent_cells_are_written(desk: &mut Desk, id: usize, y: u16, x: u16, cell: Cell)
    requires { IfOk (line_of desk.old id y) (λ s. x < s.window.area.cols) }
    ensures { desk.new ≡ written_through (line_of desk.old id y) desk.old y x cell }
{
    if let Ok(line) = desk.row_mut(id, y) {
        line.into_cells()[x as usize] = cell;
    }
}

/// A line that was written as a whole has these cells place by place, and no cell outside it
/// changes, nor a window.
#[tactic(auto, using(cur_windows::proofs::Loans::written_inside, cur_windows::proofs::Loans::written_outside))]
pub fn lines_are_written_in_place()
    ensures inside { (d : State) (n : ℕ) (s : Slot) (y x : ℕ) (cells : List Content) → IsDesk d → slot_of d n ≡ Ok s
        → y < s.window.area.rows → x < s.window.area.cols → x < length cells
        → cell (row_written d s y cells) s y x ≡ slice_index_or cells x space }
    ensures outside { (d : State) (n k : ℕ) (s : Slot) (y i j : ℕ) (cells : List Content) → IsDesk d
        → slot_of d n ≡ Ok s → (k ≢ s.root) ⊎ (is_in (line_area s y (length cells)) i j ≡ false)
        → cell_at (grid_at (row_written d s y cells) k) i j ≡ cell_at (grid_at d k) i j }
    ensures windows { (d : State) (s : Slot) (y m : ℕ) (cells : List Content)
        → window_at (row_written d s y cells) m ≡ window_at d m }
{}

/// `noutrefresh` gives each place of the virtual screen under the window the window's cell, and
/// keeps all other places.
#[tactic(auto, using(crate::proofs::WindowPlaces::window_shown))]
pub fn windows_are_shown_by_place()
    ensures { (d : State) (v : Screen) (n : ℕ) (s : Slot) → IsDesk d → slot_of d n ≡ Ok s
        → (noutrefresh d v n).2 ≡ Ok tt → IsWindowShown d s v (noutrefresh d v n).1 }
{}

/// `noutrefresh_lines` gives each place of the virtual screen under the window's lines `t` to `b` the window's cell,
/// and keeps all other places.
#[tactic(auto, using(crate::proofs::ShownLines::lines_shown))]
pub fn lines_are_shown_by_place()
    ensures { (d : State) (v : Screen) (n t b : ℕ) (s : Slot) → IsDesk d → slot_of d n ≡ Ok s
        → (noutrefresh_lines d v n (pos t) (pos b)).2 ≡ Ok tt
        → AreLinesShown d s t b v (noutrefresh_lines d v n (pos t) (pos b)).1 }
{}

/// `overlay`, `overwrite` and `copywin` write the source's cells, as they were before the call, to the
/// copied places of the target, and keep all its other places. `copywin` refuses every negative number.
#[tactic(auto, using(crate::proofs::WindowPlaces::overlay_by_place, crate::proofs::WindowPlaces::copywin_by_place))]
pub fn copies_are_made_by_place()
    ensures overlay { (d : State) (skip : Bool) (n m : ℕ) (s t : Slot) → IsDesk d → slot_of d n ≡ Ok s
        → slot_of d m ≡ Ok t → (copying.common_part skip d n m).1 ≡ Ok tt
        → IsOverlaid d (copying.common_part skip d n m).0 s t skip }
    ensures copywin { (d : State) (n m sr sc dr dc er ec : ℕ) (skip : Bool) (s t : Slot) → IsDesk d
        → slot_of d n ≡ Ok s → slot_of d m ≡ Ok t
        → (copying.copywin d n m (pos sr) (pos sc) (pos dr) (pos dc) (pos er) (pos ec) skip).1 ≡ Ok tt
        → IsCopied d (copying.copywin d n m (pos sr) (pos sc) (pos dr) (pos dc) (pos er) (pos ec) skip).0 s t skip
        sr sc dr dc er ec }
{}

/// `dupwin` makes a window with equal cells on a grid of its own, so that writing in one of the two
/// doesn't change the other.
#[tactic(auto, using(crate::proofs::WindowPlaces::copy_made, crate::proofs::WindowPlaces::copy_written, crate::proofs::WindowPlaces::original_written))]
pub fn duplicates_are_apart()
    ensures copy { (d : State) (n w : ℕ) (s t : Slot) → IsDesk d → slot_of d w ≡ Ok s
        → (making.dupwin d n w).1 ≡ Ok tt → window_at (making.dupwin d n w).0 n ≡ Some t
        → IsCopyOf d (making.dupwin d n w).0 s t }
    ensures written_copy { (d e f : State) (n : ℕ) (s t : Slot) (y x : ℕ) → IsCopyOf d e s t → OnlyWithin e f n t
        → y < s.window.area.rows → x < s.window.area.cols → cell f s y x ≡ cell d s y x }
    ensures written_original { (d e f : State) (w : ℕ) (s t : Slot) (y x : ℕ) → IsCopyOf d e s t → OnlyWithin e f w s
        → y < t.window.area.rows → x < t.window.area.cols → cell f t y x ≡ cell e t y x }
{}

/// The refusal of a call that makes, moves or deletes a window is the first, in the order of ranks,
/// that applies. `NoMemory`, the last of all, is reported only if none of the others applies.
#[tactic(auto, using(cur_windows::proofs::Ranks::newwin, cur_windows::proofs::Ranks::derwin, cur_windows::proofs::Ranks::subwin, cur_windows::proofs::Ranks::dupwin, cur_windows::proofs::Ranks::delwin, cur_windows::proofs::Ranks::mvwin))]
pub fn refused_making_is_ranked()
    ensures newwin { (d : State) (n : ℕ) (lines cols y x : ℤ)
        → IsFirstOf (causes.newwin d n lines cols y x) (making.newwin d n lines cols y x).1 }
    ensures derwin { (d : State) (n w : ℕ) (lines cols y x : ℤ)
        → IsFirstOf (causes.derwin d n w lines cols y x) (making.derwin d n w lines cols y x).1 }
    ensures subwin { (d : State) (n w : ℕ) (lines cols y x : ℤ)
        → IsFirstOf (causes.subwin d n w lines cols y x) (making.subwin d n w lines cols y x).1 }
    ensures dupwin { (d : State) (n w : ℕ) → IsFirstOf (causes.dupwin d n w) (making.dupwin d n w).1 }
    ensures delwin { (d : State) (n : ℕ) → IsFirstOf (causes.delwin d n) (making.delwin d n).1 }
    ensures mvwin { (d : State) (n : ℕ) (y x : ℤ) → IsFirstOf (causes.mvwin d n y x) (making.mvwin d n y x).1 }
{}

/// The refusal of a call that copies is the first, in the order of ranks, that applies.
#[tactic(auto, using(cur_windows::proofs::Ranks::overlay, cur_windows::proofs::Ranks::copywin, cur_windows::proofs::Ranks::noutrefresh, cur_windows::proofs::Ranks::noutrefresh_lines))]
pub fn refused_copying_is_ranked()
    ensures overlay { (d : State) (skip : Bool) (n m : ℕ)
        → IsFirstOf (causes.overlay d n m) (copying.common_part skip d n m).1 }
    ensures copywin { (d : State) (n m : ℕ) (sr sc dr dc er ec : ℤ) (skip : Bool)
        → IsFirstOf (causes.copywin d n m sr sc dr dc er ec) (copying.copywin d n m sr sc dr dc er ec skip).1 }
    ensures noutrefresh { (d : State) (v : Screen) (n : ℕ) → IsFirstOf (causes.noutrefresh d n) (noutrefresh d v n).2 }
    ensures noutrefresh_lines { (d : State) (v : Screen) (n : ℕ) (t b : ℤ)
        → IsFirstOf (causes.noutrefresh_lines d n t b) (noutrefresh_lines d v n t b).2 }
{}

/// The refusal of a call that sets a window's cursor, region, pair, options or background is the
/// first, in the order of ranks, that applies.
#[tactic(auto, using(cur_windows::proofs::Ranks::move_to, cur_windows::proofs::Ranks::set_region, cur_windows::proofs::Ranks::set_pair, cur_windows::proofs::Ranks::set_background, cur_windows::proofs::Ranks::option, cur_windows::proofs::Ranks::unchanged))]
pub fn refused_setting_is_ranked()
    ensures move_to { (d : State) (n : ℕ) (y x : ℤ)
        → IsFirstOf (causes.move_to d n y x) (on_cursor d n (window_calls.move_to y x)).1 }
    ensures setscrreg { (d : State) (n : ℕ) (top bottom : ℤ)
        → IsFirstOf (causes.setscrreg d n top bottom) (on_cursor d n (window_calls.set_region top bottom)).1 }
    ensures color_set { (d : State) (n : ℕ) (pair : ℤ)
        → IsFirstOf (causes.color_set d n pair) (on_cursor d n (window_calls.set_pair pair)).1 }
    ensures bkgdset { (d : State) (n : ℕ) (put : Put)
        → IsFirstOf (causes.with_cell d n put) (on_cursor d n (window_calls.set_background put)).1 }
    ensures options { (d : State) (n : ℕ) (change : Window → Window)
        → IsFirstOf (causes.any_window d n) (set d n change).1 }
    ensures touchwin { (d : State) (n : ℕ) → IsFirstOf (causes.any_window d n) (unchanged d n).1 }
{}

/// The refusal of a call that writes or erases is the first, in the order of ranks, that applies. A
/// string stops at its first refusal, whatever the ranks.
#[tactic(auto, using(cur_windows::proofs::Ranks::insert_char, cur_windows::proofs::Ranks::horizontal, cur_windows::proofs::Ranks::vertical, cur_windows::proofs::Ranks::change_background, cur_windows::proofs::Ranks::scroll_by, cur_windows::proofs::Ranks::on_window, cur_windows::proofs::Ranks::on_grid, cur_windows::proofs::Ranks::added, cur_windows::proofs::Ranks::bordered))]
pub fn refused_writing_is_ranked()
    ensures addch { (d : State) (n : ℕ) (put : Put)
        → IsFirstOf (causes.addch d n put) (on_window d n (calls.added put)).1 }
    ensures border { (d : State) (n : ℕ) (border : Border)
        → IsFirstOf (causes.border d n border) (on_grid d n (calls.bordered border)).1 }
    ensures insch { (d : State) (n : ℕ) (put : Put)
        → IsFirstOf (causes.with_cell d n put) (on_grid d n (calls.insert_char put)).1 }
    ensures hline { (d : State) (n : ℕ) (put : Put) (count : ℤ)
        → IsFirstOf (causes.with_cell d n put) (on_grid d n (calls.horizontal put count)).1 }
    ensures vline { (d : State) (n : ℕ) (put : Put) (count : ℤ)
        → IsFirstOf (causes.with_cell d n put) (on_grid d n (calls.vertical put count)).1 }
    ensures bkgd { (d : State) (n : ℕ) (put : Put) → IsFirstOf (causes.with_cell d n put)
        (on_window d n (calls.change_background put)).1 }
    ensures scroll { (d : State) (n : ℕ) (count : ℤ)
        → IsFirstOf (causes.scroll d n) (on_grid d n (calls.scroll_by count)).1 }
    ensures erase { (d : State) (n : ℕ) → IsFirstOf (causes.any_window d n) (on_window d n calls.erased).1 }
    ensures clear { (d : State) (n : ℕ) → IsFirstOf (causes.any_window d n) (on_window d n calls.cleared).1 }
    ensures delch { (d : State) (n : ℕ) → IsFirstOf (causes.any_window d n) (on_grid d n calls.delete_char).1 }
    ensures insertln { (d : State) (n : ℕ) → IsFirstOf (causes.any_window d n) (on_grid d n calls.insert_line).1 }
    ensures deleteln { (d : State) (n : ℕ) → IsFirstOf (causes.any_window d n) (on_grid d n calls.delete_line).1 }
    ensures clrtoeol { (d : State) (n : ℕ) → IsFirstOf (causes.any_window d n) (on_grid d n calls.clear_line).1 }
    ensures clrtobot { (d : State) (n : ℕ) → IsFirstOf (causes.any_window d n) (on_grid d n calls.clear_bottom).1 }
{}
