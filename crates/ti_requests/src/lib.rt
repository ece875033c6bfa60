//! The requests of a command line, as values: the parser of the line makes them, and each command
//! takes its own.
#![tactic(auto)]

mod feeds;
mod request;

pub use feeds::{FeedForm, FeedWords};
pub use request::{
    CheckWords, ExpandWords, FaultsWords, Request, ScriptWords, SurveyWords, VerifyWords, Words,
};
