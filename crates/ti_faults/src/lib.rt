//! All faults of an entry at once: those of the entry as a whole, the first faulty row of each checked capability, and
//! the clashes of the strings without such a row; and the strings that would be right in place of those at fault.
#![tactic(auto)]

mod all_faults;
mod candidates;
mod capabilities;
mod claims;
mod kinds;
mod lacks;
mod laws;
mod mended;
mod remedies;
mod row_faults;
mod standards;

pub use all_faults::{faults, faults_beside};
pub use candidates::Choice;
pub use capabilities::row_of;
pub use claims::must_claim;
pub use kinds::is_of_another_kind;
pub use laws::suggestions_are_right;
pub use mended::Mended;
pub use remedies::{listed_with, standard_string, suggestion};
pub use standards::{standard, where_so};
