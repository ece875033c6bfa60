//! The program's commands about descriptions and the terminal, once the line is parsed: the files that they read, the
//! reply to each, and how the text and the exit status of a reply are given.
#![tactic(auto)]

mod descriptions;
mod entries;
mod expansion;
mod fed;
mod feeds;
mod further;
mod ignored;
mod sources;
mod states;

pub use descriptions::{Comparison, compare_entries, compile_entry, entry_of, print_entry};
pub use entries::{entry_at, unpacked_entry};
pub use expansion::expand_string;
pub use feeds::feed_file;
pub use further::{PutTogether, further_failure, further_files, own_raws, put_together};
pub use sources::{SourceText, Sourced, sourced_entry};
pub use states::feed_state;
