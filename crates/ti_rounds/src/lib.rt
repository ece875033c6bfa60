//! Source texts that are mended in rounds, each of which takes what it can of what is advised for them.
#![tactic(auto)]

mod boards;
mod choices;
mod rounds;

pub use rounds::{Remedied, mend_all};
