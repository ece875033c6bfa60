//! The capabilities of terminfo(5), and an entry: a terminal's names and the values of its capabilities.
#![tactic(auto)]

mod entry;
mod fits;
mod lookup;
mod table;
mod types;
mod value;

pub use entry::Entry;
pub use fits::{Opener, is_one_field, names_fit, string_fits};
pub use lookup::{
    at, at_rank, by_name, is_kind, kind, name, names_are_standard, position, ranks_order_names,
};
pub use types::{CAPABILITIES, Cap, FLAGS, GREATEST, Kind, LONGEST, NUMBERS, STRINGS};
pub use value::{Bytes, Value};
