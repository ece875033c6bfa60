//! The replies of `--fix`: source texts in which the strings that are suggested for their entries are taken.
#![tactic(auto)]

mod delivery;
mod entries;
mod notes;
mod paddings;
mod still_wrong;
mod suggestions;
mod surveys;
mod texts;
mod weights;
mod words;

pub use entries::fix_entry;
pub use suggestions::Suggestions;
pub use surveys::fix_survey;
pub use weights::Terms;
pub use words::FixWords;
