//! A character terminal as a state that bytes act on: the effect of each on the cells, the cursor and the modes, and
//! the splitting of a text into printed characters, controls and sequences.
#![tactic(auto)]

mod functions;
pub mod laws;
mod open_bytes;
mod parser;
mod scanners;
mod settings;
mod terminals;
mod tokenizer;
mod whole_sequences;

pub use scanners::{Scanner, TextFault, TextFaultKind};
pub use terminals::{Stuck, Terminal};
pub use tokenizer::{Token, TokenFault, TokenFaultKind, place_after, tokens};
pub use vt_screen::{
    Cell, Charset, CodeElement, Color, EraseExtent, Function, MAX_COLS, MAX_ROWS, ModeKind,
    Parameters, Rendition, RenditionChange, Settings, Size, color_of,
};
