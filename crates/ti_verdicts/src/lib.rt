//! The verdicts on an entry: the program's replies to `check`, the words of a no, and its place in a source.
#![tactic(auto)]

mod answers;
mod certifiers;
mod checks;
mod excerpts;
mod fault_lists;
mod fault_runs;
mod faulty_parts;
mod faulty_regions;
mod indents;
mod locations;
mod looks;
mod note_texts;
mod outside;
mod reasons;
mod refusals;
mod remedies;
mod rows;
mod source_places;
mod starts;
mod written;

pub use answers::{Answer, answers_line, fault_answers};
pub use certifiers::{Certifier, Checker, TellingChecker};
pub use checks::{check_entry, notes_on, store_text};
pub use fault_lists::check_all;
pub use fault_runs::FaultRun;
pub use faulty_parts::Judged;
pub use locations::{PlacedFault, first_name, names_of, placed};
pub use note_texts::note_lines;
pub use outside::note_outside;
pub use reasons::{Fault, explain_fault, explain_no};
pub use refusals::{cause_name, no_failure, no_words, verdict};
pub use source_places::{LinedSource, SourcePlace};
pub use written::{Added, Lines};
