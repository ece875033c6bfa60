//! Windows and the virtual screen: the effect of each curses call on their cells (X/Open Curses Issue 7).
#![tactic(auto)]

mod calls;
mod copies;
mod creations;
mod desks;
mod lines;
mod marking;
mod pads;
mod queries;
mod refreshes;
mod regions;
mod rows;
mod sizes;
mod views;

pub use copies::in_order;
pub use creations::in_range;
pub use cur_drawing::{Answer, Area, Attrs, Border, Cell, Place, Put, Refusal, Window};
pub use cur_screens::{Hint, Marks, Touched, Virtual, WINDOWS, first_diff, last_diff};
pub use desks::Desk;
pub use lines::WindowLines;
pub use rows::RowMut;
pub use std::alloc::AllocError as NoMemory;
pub use views::{Part, View};
pub use vt_term::Size;
