//! terminfo source text: reading, printing, and the escapes of its strings, terminfo(5).
#![tactic(auto)]

mod apart;
mod draft;
mod escapes;
mod layout;
mod lines;
mod numbers;
mod parts;
mod printer;
mod source;
mod types;

pub use apart::{Apart, read_apart, whole_is_together};
pub use escapes::{EscapeFault, unescape};
pub use layout::{Mark, cut_field, cut_line, field_end, is_white, marked, skip_white};
pub use lines::{FieldLine, begins_entry, field_lines, field_lines_are_of_fields, is_further};
pub use parts::is_skipped;
pub use printer::{escape, letter_for, octal, print, printing_reads_back};
pub use source::{begins_white, is_comment, is_passed, read, reading_is_the_relation};
pub use std::alloc::AllocError as NoMemory;
pub use types::{FaultKind, Field, Fields, Items, Note, NoteKind, Notes, RawEntry, SourceFault};
