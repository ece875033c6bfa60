//! The program's replies about every size: `check --every-size` and `survey --every-size`.
#![tactic(auto)]

mod checks;
mod counts;
mod lines;
mod speakers;
mod surveys;
mod words;

pub use checks::check_everywhere;
pub use surveys::survey_everywhere;
