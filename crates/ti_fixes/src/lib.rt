//! Strings that are given to fields of source texts, of which nothing else changes.
#![tactic(auto)]

mod changes;
mod comparisons;
mod copies;
mod cuts;
mod differences;
mod files;
mod fixes;
mod places;
mod texts;

pub use changes::{Change, ChangeFault, give_all};
pub use comparisons::{is_about, same_value};
pub use copies::push_entries;
pub use files::{Text, Texts, give_each};
pub use fixes::{Fixed, entries_of};
