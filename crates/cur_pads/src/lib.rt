//! Pads: windows that aren't on the screen and may be larger than it; parts of them are shown (X/Open Curses Issue 7).
//! The laws of all windows are here too, each the contract of a function that does nothing.
#![tactic(auto)]

mod checks;
mod creations;
mod displays;
pub mod drawing_laws;
pub mod laws;
mod ranges;
pub mod window_laws;

pub use creations::{newpad, subpad};
pub use displays::pnoutrefresh;
