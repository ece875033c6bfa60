//! Screens and their changes: the virtual screen, marks, copies and differences.
#![tactic(auto)]

mod copies;
mod differences;
mod hints;
mod marks;
mod slots;
mod touched;
mod virtual_screen;

pub use copies::{AreaCopy, Patch, copy_changed, copy_marked, overlay_from, overlay_shift};
pub use differences::{first_diff, last_diff};
pub use hints::{Hint, Scroll, after_writing, joined};
pub use marks::Marks;
pub use slots::{Extent, Origin, Slot, WINDOWS, whole_area};
pub use touched::{
    Touched, WrittenFrom, mark_rectangle, spread, start_of, start_of_text, touch_cells, touch_text,
    touch_written, unmark,
};
pub use virtual_screen::{ScreenCopy, Virtual, blank_grid};
