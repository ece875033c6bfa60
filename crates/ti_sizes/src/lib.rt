//! Whether an entry drives a terminal correctly at every size.
#![tactic(auto)]

mod lines;
mod steps;
mod texts;
mod verdicts;

pub use verdicts::{EverySize, every_size};
