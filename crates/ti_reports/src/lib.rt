//! The program's reports to other programs: one for each entry, or for each of its faults.
#![tactic(auto)]

mod advice;
mod asked;
mod checks;
mod entries;
mod explanations;
mod faults;
mod findings;
mod forms;
mod hints;
mod lacks;
mod names;
mod openings;
mod places;
mod refusals;
mod reports;
mod spellings;
mod suggestions;
mod surveys;
mod texts;
mod written;

pub use checks::{Check, check_reports};
pub use explanations::Explanation;
pub use forms::Form;
pub use places::ValuePlace;
pub use reports::{Finding, Report, Verdict};
pub use surveys::{SurveyReports, survey_reports};
pub use written::Written;
