//! The certificate of an entry without those of its strings that are at fault, as far as a terminal can do without
//! them.
#![tactic(auto)]

mod certification;
mod left_out;
mod returning;
mod rounds;
mod without;

pub use certification::{certify_beside, certify_without, found_beside};
pub use left_out::{LeftOut, without_all};
pub use without::Without;
