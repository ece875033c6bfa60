//! When an entry conforms to the terminal: the bytes that its strings send, the character sets that
//! they leave, and how a terminal in an unknown state is led to a blank screen. Judged lines that
//! agree with the entry show all that.
#![tactic(auto)]

mod agreement;
mod certificates;
mod closures;
mod cup_reach;
mod entries;
mod fitness;
pub mod laws;
mod looks;
mod partners;
mod reach;
mod resync;
mod sends;

pub use agreement::{Disagreement, LinesByRow};
pub use certificates::Certificate;
pub use closures::{Charsets, KEPT, designated, or_kept, settles, switched};
pub use cup_reach::{Miss, MissKind, Reached, reach_cup};
pub use entries::{Group, checked_string, is_checked};
pub use fitness::{Unfit, acsc, first_unfit};
pub use looks::{is_alone, is_some_look};
pub use partners::{Character, fallback, misfit, partner, shown};
pub use reach::Reach;
pub use resync::resync_rows;
pub use sends::{SendFault, send, send_into};
