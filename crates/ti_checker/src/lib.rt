//! The checker: a certificate for an entry and a size, as a text or as the checked strings alone, or the reason why
//! there is none.
#![tactic(auto)]

mod breakage;
mod causes;
mod cells;
mod certification;
mod checks;
mod clash_lists;
mod drafts;
mod fitness;
mod judgements;
mod kept;
pub mod laws;
mod mislooks;
mod note_list;
mod owned_tables;
mod probes;
mod resync;
mod sends;
mod switches;
mod trials;

pub use causes::{Cause, No};
pub use certification::certify;
pub use checks::check;
pub use clash_lists::clashes;
pub use judgements::Judge;
pub use kept::names;
pub use note_list::{CheckNote, notes};
pub use owned_tables::own_is_accepted;
pub use probes::Probe;
