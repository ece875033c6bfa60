//! Surveys: the statements about each entry of many files, and the count of the answers.
#![tactic(auto)]

mod asked;
mod files;
mod grades;
mod kinds;
mod laws;
mod lines;
mod openings;
mod parts;
mod places;
mod said;
mod shares;
mod speakers;
mod strict;
mod surveys;
mod together;
mod unread;
mod watchers;

pub use kinds::{EntryKind, answers_of, kind_of};
pub use laws::faultless_is_whole;
pub use parts::is_part;
pub use places::places_lines;
pub use said::Said;
pub use speakers::{FileEntry, Lacking, Speaker};
pub use strict::strict_failure;
pub use surveys::{Survey, Surveyed, survey_files, survey_paths};
pub use watchers::Watcher;
