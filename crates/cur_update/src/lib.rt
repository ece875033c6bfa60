//! Output to a terminal: a painter that makes it show a virtual screen.
#![tactic(auto)]

mod bells;
mod changes;
mod differing;
mod inks;
mod laws;
mod painters;
mod screens;
mod scrolls;
mod shortcuts;

pub use bells::Unsent;
pub use cur_paint::{Knowledge, Status};
pub use cur_steps::{Fuse, Tape, Wire, WireFault};
pub use laws::cells_bounded;
pub use painters::Painter;
