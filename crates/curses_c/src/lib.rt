//! ticurses for programs in C: certificates, and sessions by a handle.
#![tactic(auto)]

mod bounds;
mod capabilities;
mod codes;
mod entries;
mod handles;
mod held;
pub mod laws;
mod left_out;
mod lines;
mod loose;
mod outbox;
mod queries;
mod requests;
mod sessions;
mod verdicts;

pub use handles::Handle;
