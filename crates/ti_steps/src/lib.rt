//! Strings that are advised for entries of source texts, and steps that take some of them: which of them are fair to
//! every entry, and why others aren't taken.
#![tactic(auto)]

mod advice;
mod entries;
mod findings;
mod gathering;
mod kept;
mod steps;

pub use advice::{Advice, Adviser, Finding, Found, Judged, Remedy, Weight};
pub use findings::{allows, is_earned, is_no_worse, is_whole};
pub use gathering::{Wanted, remedies_for};
pub use kept::{Kept, Reason, harm_at, use_of};
pub use steps::{Step, resolved, take_step};
