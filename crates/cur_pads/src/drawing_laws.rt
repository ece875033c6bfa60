//! Laws of the calls on one window, each for all grids and windows.
ghost use Rattle.std.specs.Prelude.{◌≡◌, ℕ, ◌+◌, ◌<◌, List, ℤ, pos, negsuc};
ghost use Rattle.cur_drawing.specs.{Cells.{restyled}, Grids.{Grid}, Windows.{content, as_is}};
ghost use Rattle.cur_drawing.specs.Calls as calls;
ghost use Rattle.cur_drawing.specs.Laws.{IsLocal, ChangesNothingIfRefused, ChangesNothingIfRefusedButNoScroll, cell_of};
ghost use Rattle.cur_drawing.specs.Laws.{went_up, went_down, LeavesCells, cell_inserted, cell_deleted, line_inserted};
ghost use Rattle.cur_drawing.specs.Laws.{line_deleted};

use cur_drawing::{Border, Put, Window};

/// A call that writes changes no cell outside its window's rectangle, and leaves the window at its place.
#[tactic(auto, using(cur_drawing::proofs::Stability::added, cur_drawing::proofs::Stability::added_all, cur_drawing::proofs::Stability::insert_char, cur_drawing::proofs::Stability::horizontal, cur_drawing::proofs::Stability::vertical, cur_drawing::proofs::Stability::bordered, cur_drawing::proofs::Stability::change_background))]
pub fn writing_stays_inside()
    ensures addch { (put : Put) → IsLocal (calls.added put) }
    ensures addstr { (text : List ℕ) → IsLocal (calls.added_all text) }
    ensures insch { (put : Put) → IsLocal (calls.insert_char put) }
    ensures hline { (put : Put) (n : ℤ) → IsLocal (calls.horizontal put n) }
    ensures vline { (put : Put) (n : ℤ) → IsLocal (calls.vertical put n) }
    ensures border { (border : Border) → IsLocal (calls.bordered border) }
    ensures bkgd { (put : Put) → IsLocal (calls.change_background put) }
{}

/// A call that erases, deletes or scrolls changes no cell outside its window's rectangle, and
/// leaves the window at its place.
pub fn erasing_stays_inside()
    ensures erase { IsLocal calls.erased }
    ensures clear { IsLocal calls.cleared }
    ensures delch { IsLocal calls.delete_char }
    ensures insertln { IsLocal calls.insert_line }
    ensures deleteln { IsLocal calls.delete_line }
    ensures clrtoeol { IsLocal calls.clear_line }
    ensures clrtobot { IsLocal calls.clear_bottom }
    ensures scroll { (n : ℤ) → IsLocal (calls.scroll_by n) }
{}

/// A scroll up by `n` lines gives each place of the region the cell `n` lines below it, or the
/// background; all other places keep their cells.
#[tactic(auto, using(cur_drawing::proofs::Scrolls::up_by_place))]
pub fn scroll_up_by_place()
    ensures { (g : Grid) (w : Window) (n y x : ℕ) → calls.IsCanvas g w → y < w.area.rows → x < w.area.cols →
        cell_of w (calls.scrolled (pos n) w g) y x ≡ went_up w n g y x }
{}

/// A scroll down by `n` lines gives each place of the region the cell `n` lines above it, or the
/// background; all other places keep their cells.
pub fn scroll_down_by_place()
    ensures { (g : Grid) (w : Window) (n y x : ℕ) → calls.IsCanvas g w → y < w.area.rows → x < w.area.cols →
        cell_of w (calls.scrolled (negsuc n) w g) y x ≡ went_down w (n + 1) g y x }
{}

/// A refused call changes nothing, except that `addch` may have written before it answers `NoScroll`.
pub fn refusals_change_nothing()
    ensures addch { (put : Put) → ChangesNothingIfRefusedButNoScroll (calls.added put) }
    ensures insch { (put : Put) → ChangesNothingIfRefused (calls.insert_char put) }
    ensures hline { (put : Put) (n : ℤ) → ChangesNothingIfRefused (calls.horizontal put n) }
    ensures vline { (put : Put) (n : ℤ) → ChangesNothingIfRefused (calls.vertical put n) }
    ensures border { (border : Border) → ChangesNothingIfRefused (calls.bordered border) }
    ensures bkgd { (put : Put) → ChangesNothingIfRefused (calls.change_background put) }
    ensures scroll { (n : ℤ) → ChangesNothingIfRefused (calls.scroll_by n) }
{}

/// `insch` and `delch` shift the rest of the cursor's line by one place.
#[tactic(auto, using(cur_drawing::proofs::ByPlace::insert_char, cur_drawing::proofs::ByPlace::delete_char))]
pub fn line_shifts_by_place()
    ensures insch { (put : Put) →
        LeavesCells (calls.insert_char put) (λ w g y x. cell_inserted w (content w put) g y x) }
    ensures delch { LeavesCells calls.delete_char (λ w g y x. cell_deleted w g y x) }
{}

/// `insertln` and `deleteln` shift the lines from the cursor's to the window's bottom by one line.
#[tactic(auto, using(cur_drawing::proofs::ByPlace::insert_line, cur_drawing::proofs::ByPlace::delete_line))]
pub fn lines_shift_by_place()
    ensures insertln { LeavesCells calls.insert_line (λ w g y x. line_inserted w g y x) }
    ensures deleteln { LeavesCells calls.delete_line (λ w g y x. line_deleted w g y x) }
{}

/// `bkgd` replaces the old background by the new one in each cell: its character, its attributes
/// and its pair, each by itself.
#[tactic(auto, using(cur_drawing::proofs::ByPlace::change_background))]
pub fn background_changes_by_place()
    ensures { (put : Put)
        → LeavesCells (calls.change_background put) (λ w g y x. restyled w.background (as_is put) (cell_of w g y x)) }
{}
