//! Sessions on entries, as commands report them: what a session goes without, and its bound.
#![tactic(auto)]

mod bounds;
mod openings;
mod remarks;

pub use bounds::{Bound, bound_of};
pub use openings::{Names, names_left_out, names_left_out_beside, opens_beside};
pub use remarks::{note_bound, note_left_out_names, note_names_beside};
