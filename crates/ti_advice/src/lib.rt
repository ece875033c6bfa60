//! Advice about strings that programs send without asking: what they do on T beside what their names mean.
#![tactic(auto)]

mod advice;
mod deeds;
mod duties;
mod keys;
mod pictures;
mod runs;
mod sets;
mod strings;

pub use advice::{Advice, AdviceKind, advice_on};
pub use duties::{DUTIES, Duty};
pub use keys::Key;
pub use sets::SetUse;
