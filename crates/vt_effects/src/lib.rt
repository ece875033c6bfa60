//! The effect of a string on the terminal from every start of a kind at once: a short record in place of the millions
//! of states that a test would have to try.
#![tactic(auto)]

mod application;
mod composition;
mod effects;
mod equality;
pub mod laws;
mod moves;
mod records;
mod renditions;
mod starts;

pub use application::apply;
pub use composition::compose;
pub use effects::{Effect, Erasure, Ink, Move, Region, Rendering, Scroll, Sets, Switch};
pub use records::{effect_of, effect_of_text};
pub use starts::{Margins, Start};
