//! Sources that aren't one text with one reader: entries that are read one by one, some of which may be unreadable; the
//! entries of further files; fields that continue on further lines. For each of these, where a field stands.
#![tactic(auto)]

mod breaks;
mod columns;
mod compiled;
mod file_lines;
mod files;
mod further_laws;
mod joined_laws;
mod joined_places;
mod joiner;
mod line_ends;
mod lined_texts;
mod names;
mod originals;
mod resolution;
mod scan;
mod spots;
mod unjoined;

pub use breaks::rewrapped;
pub use columns::{Columns, columns_of_part};
pub use compiled::raw_of;
pub use file_lines::{FieldPlace, LinedFile, LinedFiles, lined_files};
pub use files::{FurtherFault, FurtherFile, apart_of, raws_of};
pub use further_laws::{alone_stays, compiled_is_itself, own_come_first, spots_are_right};
pub use joined_laws::{bytes_are_kept, lines_are_joined};
pub use joined_places::{Place, Region, original_place, original_region};
pub use joiner::joined;
pub use lined_texts::{LinedText, line_at, text_lines};
pub use names::place_named;
pub use originals::{begun_line, original_at, region_among, region_at, region_in};
pub use resolution::{ApartFault, faultless_are_resolved, resolve_apart};
pub use spots::{Spot, spot_of};
pub use unjoined::is_joined;
