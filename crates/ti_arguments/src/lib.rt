//! The parser of the command line: which command the words ask for, a help text, or a usage error.
#![tactic(auto)]

mod commands;
mod help;
mod inputs;
mod names;
mod parser;
mod requests;
mod rules;

pub use parser::{Asked, ParsedLine, UsageFault, parse_line};
