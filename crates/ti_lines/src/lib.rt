//! The text of a certificate: bytes that arrive piece by piece, the lines that they form, each line as a
//! value and its text, and the judgement of a text line by line.
#![tactic(auto)]

mod cuts;
mod drips;
mod effect_texts;
mod effects;
mod heads;
mod hexes;
mod judgements;
pub mod laws;
mod letters;
mod line_reader;
mod line_writer;
mod lines;
mod numbers;
mod readers;
mod row_lines;
mod words;

pub use drips::Drip;
pub use effect_texts::{effect_text, push_effect};
pub use effects::read_effect;
pub use heads::{is_end_line, read_acsc_line, read_size_line};
pub use judgements::{Judge, LineFault, judge_lines};
pub use laws::text_is_cut;
pub use line_reader::read_row_line;
pub use line_writer::{push_hex, push_row_line};
pub use lines::{Halt, Lines, Next};
pub use numbers::{number_at, push_number};
pub use readers::{ReadFault, Reader};
pub use row_lines::RowLine;
