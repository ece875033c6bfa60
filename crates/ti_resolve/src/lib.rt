//! Resolving entries: terminfo(5)'s `use`.
#![tactic(auto)]

mod faults;
mod faulty_uses;
mod fill;
mod origins;
mod resolution;
mod search;
mod walk;

pub use faults::ResolveFault;
pub use faulty_uses::faulty_use;
pub use origins::Origin;
pub use resolution::{
    answers_once, entered_from, expands_once, faults_are_so, faults_from_are_so, origin, origin_at,
    origin_from, resolve, resolve_at, resolve_from, resolved_at_once, resolved_once, walks_resolve,
};
pub use search::{Index, cut_name};
