//! Ways to a cell, texts, erasures and scrolls: a painter's actions of several steps.
#![tactic(auto)]

mod cells;
mod erasures;
mod frames;
mod moves;
mod pictures;
mod reaches;
mod regions;
mod routes;
mod scrolls;
mod targets;
mod texts;

pub use cells::{brush_as, make_plain};
pub use erasures::{ErasedPart, Erasure, erase_at, erasing_line};
pub use pictures::Shifted;
pub use reaches::line_bytes;
pub use regions::scroll_lines;
pub use scrolls::{Landing, Scroll, can_scroll, first_blank, line_before};
pub use targets::Target;
pub use texts::goes_on;
