//! The painter's core: brings the terminal from the screen that it is known to show to the wanted one.
#![tactic(auto)]

mod changes;
mod choices;
mod clears;
mod counts;
mod cursors;
mod endings;
mod fronts;
mod lasting;
mod laws;
mod mending;
mod painters;
mod pieces;
mod runs;
mod screens;
mod tails;
mod updates;

pub use changes::{Changes, Columns, LineRange, Scrolls};
pub use endings::finish;
pub use laws::{bounded, reset_is_fresh};
pub use screens::Screens;
pub use updates::{Cursor, Knowledge, Status, Wanted, update};
