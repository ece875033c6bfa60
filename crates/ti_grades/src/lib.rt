//! The grade of a fault: what it is to people who keep entries. It is broken for any terminal, or contradicts the
//! entry's own other strings, or is wrong on the terminal T, or T can't tell.
#![tactic(auto)]

mod codes;
mod effects;
mod fault_runs;
mod functions;
mod grades;
mod odds;
mod sequences;

pub use fault_runs::{row_of, sent_for};
pub use grades::{Grade, grade_of};
