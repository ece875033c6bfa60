//! The forms in which reports are printed: objects of JSON, a file of SARIF 2.1.0, what an earlier run hasn't said.
#![tactic(auto)]

mod baselines;
mod escapes;
mod json;
mod messages;
mod paths;
mod results;
mod sarif;
mod shape;
mod uris;

pub use baselines::{Baseline, BaselineFault, News};
pub use json::Json;
pub use sarif::{Sarif, sarif_file};
