//! The display of a character terminal with its modes, and each function's effect on it. `vt_term` is built on this
//! crate and defines how bytes ask for functions.
#![tactic(auto)]

mod cells;
mod displays;
mod functions;
mod looks;
mod marks;
mod pens;
mod printer;
mod renditions;
mod sheets;
mod sizes;

pub use cells::Cell;
pub use displays::{Charset, Display, Settings};
pub use functions::{CodeElement, EraseExtent, Function, ModeKind, Parameters};
pub use looks::{ends_run, run_start, style_letters, style_text};
pub use renditions::{Color, Rendition, RenditionChange, color_of};
pub use sizes::{MAX_COLS, MAX_ROWS, Size};
