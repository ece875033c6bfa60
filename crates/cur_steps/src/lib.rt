//! A painter's belief about the terminal, and its single steps on a wire, which may fail at any byte. Most of them send
//! one string or one character.
#![tactic(auto)]

mod beliefs;
mod blanks;
mod counted;
mod cuts;
mod fuses;
mod inks;
mod laws;
mod lines;
mod looks;
mod modes;
mod pens;
mod sets;
mod singles;
mod steps;
mod stretches;
mod tapes;
mod wires;

pub use beliefs::{Belief, Mode, Place};
pub use blanks::{are_blank, blank_from, first_solid};
pub use counted::Counted;
pub use fuses::Fuse;
pub use inks::{
    Blank, Brush, Cells, Ground, Ink, Picture, byte_as, is_plain_ink, is_same, same_attributes,
    same_brush, same_color,
};
pub use laws::{fronts_meet, sends_join};
pub use lines::{has_line, send_line, send_rows};
pub use looks::look_alike;
pub use modes::is_mode;
pub use pens::{Pen, Sent};
pub use steps::{is_active, resetting_line, stands};
pub use stretches::blank_shown;
pub use tapes::Tape;
pub use wires::{Wire, WireFault, send_all};
