//! The table of checked capabilities: for each its parameters, the states from which its string is
//! judged, the effect asked of it, and what is wanted of the screen in the end.
#![tactic(auto)]

mod bits;
mod judgements;
pub mod laws;
mod lessons;
mod lists;
mod names;
mod params;
mod rows;
mod starts;
mod wants;

pub use judgements::does_as_wanted;
pub use names::CAPABILITIES;
pub use params::Params;
pub use rows::{
    Attributes, BLINK, BOLD, CONCEALED, FAINT, Looks, Marks, NEGATIVE, NO_ATTRIBUTES, NO_LOOKS,
    NO_MARKS, Row, UNDERLINE,
};
