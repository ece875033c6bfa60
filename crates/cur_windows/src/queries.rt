//! A program's queries of a window: its cursor, place, cell under the cursor and parent.
ghost use Rattle.std.specs.Prelude.{◌≡◌, ◌<◌, ℕ, Option, None, IfSome, IsSome};
ghost use Rattle.cur_windows.specs.Desks.{window_at, window_count};
ghost use Rattle.cur_windows.specs.Queries.{window_of, parent_of, cell_of, corner_of, IsFirstFree};

use crate::desks::Desk;
use cur_drawing::{Cell, Place, Refusal, Window};
use cur_screens::WINDOWS;

impl Desk {
    /// The cursor (`getyx`), the size (`getmaxyx`), the attributes, the pair, the background
    /// (`getbkgd`), the options and the scrolling region of a window. Its `area` is in the places
    /// of the grid that it shares with its ancestors, so that two areas give a subwindow's place in
    /// its parent (`getparyx`). `Full`, `NoWindow`.
    pub fn window(&self, id: usize) -> Result<Window, Refusal>
        ensures { result ≡ window_of self.now id }
    {
        Ok(self.find(id)?.window)
    }

    /// The place of a window's corner on the screen (`getbegyx`), or `None` for a pad. `Full`, `NoWindow`.
    pub fn corner(&self, id: usize) -> Result<Option<Place>, Refusal>
        ensures { result ≡ corner_of self.now id }
    {
        let slot = self.find(id)?;
        if self.origins[slot.root as usize].pad {
            return Ok(None);
        }
        let area = self.place_on_screen(&slot);
        Ok(Some(Place {
            row: area.top,
            col: area.left,
        }))
    }

    /// The cell under a window's cursor (`inch`). `Full`, `NoWindow`.
    pub fn inch(&self, id: usize) -> Result<Cell, Refusal>
        ensures { result ≡ cell_of self.now id }
    {
        let slot = self.find(id)?;
        let window = slot.window;
        let line = self
            .grid_of(&slot)
            .line((window.area.top + window.row) as usize);
        Ok(line[(window.area.left + window.col) as usize])
    }

    /// The parent of a subwindow, or `None` for any other window. Errors: `Full`, `NoWindow`.
    pub fn parent(&self, id: usize) -> Result<Option<u8>, Refusal>
        ensures { result ≡ parent_of self.now id }
    {
        Ok(self.find(id)?.parent)
    }

    /// The lowest number that no window has, or `None` if all 64 are used.
    pub fn first_free(&self) -> Option<usize>
        ensures first { IfSome result (λ n. IsFirstFree self.now n) }
        ensures none { result ≡ None → (k : ℕ) → k < window_count → IsSome (window_at self.now k) }
    {
        self.windows.iter().position(|slot| slot.is_none())
    }
}
