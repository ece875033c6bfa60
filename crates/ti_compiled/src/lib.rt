//! Compiled terminfo files, term(5): the legacy storage format, and the format with numbers of 32 bits.
#![tactic(auto)]

mod laws;
mod pack;
mod packed;
mod sections;
mod types;
mod unpack;

pub use laws::{
    legacy_is_read, legacy_is_written, packed_is_read, read_is_packed, written_is_packed,
    written_is_read,
};
pub use pack::encode;
pub use packed::{Packed, decode};
pub use types::PackFault;
