//! Strings of the standard's form: what they send and do for all parameters, without a run.
#![tactic(auto)]

mod agreement;
mod effects;
mod forms;
pub mod laws;
mod lines;
mod numbers;
mod sends;
mod texts;

pub use agreement::entry_agrees;
pub use effects::{learn_row, row_effect};
pub use lines::{push_row_line, read_row_line, standard_text};
pub use sends::{send_into, standard_into};
