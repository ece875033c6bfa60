//! The replies of the program's commands that read a certificate: `verify`, `play` and `show`.
#![tactic(auto)]

mod buffers;
mod certificates;
mod commands;
mod fault_words;
mod faults;
mod held;
mod preparations;
mod refusals;
mod runs;
mod scripts;
mod shows;
mod taken;
mod verifications;

pub use commands::{play_script, show_script};
pub use runs::play_calls;
pub use shows::show_calls;
pub use verifications::{checked_at, verify_certificate};
