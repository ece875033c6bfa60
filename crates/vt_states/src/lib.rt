//! The whole state of T as a text or as JSON, after a stream or after each of many cases.
#![tactic(auto)]

mod cases;
mod counts;
mod ignored;
mod ignored_tokens;
mod json;
mod kinds;
mod lines;
mod recordings;
mod rows;
mod scripts;
mod sequences;
mod snapshots;
mod styles;
mod watches;

pub use cases::{CaseFault, case_answers};
pub use counts::{Counts, Kind};
pub use ignored_tokens::{ignores, is_ignored};
pub use json::{case_members, list_member};
pub use recordings::{Recording, plain_recording};
pub use scripts::without_script_lines;
pub use sequences::ignored_in;
pub use snapshots::Snapshot;
pub use watches::{Switches, Watch, watched};
