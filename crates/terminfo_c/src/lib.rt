//! Terminfo for programs in C that draw for themselves: the capabilities of an entry, and the expansion of strings.
#![tactic(auto)]

mod answers;
mod capabilities;
mod codes;
mod entries;
mod expansions;
mod handles;
mod held;
mod loose;
mod parameters;
mod tables;

pub use handles::Handle;
