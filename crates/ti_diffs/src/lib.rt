//! The difference between two texts, line by line, as `diff -u` prints it and patch(1) reads it.
#![tactic(auto)]

mod hunks;
mod pieces;
mod texts;

pub use pieces::{Piece, pieces_of};
pub use texts::{Compared, push_unified};
