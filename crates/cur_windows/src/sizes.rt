//! The sizes of the screen and of windows.
ghost use Rattle.std.specs.Prelude.{◌≡◌};
ghost use Rattle.cur_windows.specs.Sizes.{window_size};

use crate::desks::Desk;
use cur_drawing::Refusal;

// The sizes of the screen and its windows.
impl Desk {
    /// The screen's lines and columns.
    pub fn screen_size(&self) -> (u16, u16)
        ensures { result ≡ ((self.now).rows, (self.now).cols) }
    {
        (self.rows, self.cols)
    }

    /// The lines and columns of a window, a subwindow or a pad. `Full`, `NoWindow`.
    pub fn window_size(&self, id: usize) -> Result<(u16, u16), Refusal>
        ensures { result ≡ window_size self.now id }
    {
        let slot = self.find(id)?;
        Ok((slot.window.area.rows, slot.window.area.cols))
    }
}
