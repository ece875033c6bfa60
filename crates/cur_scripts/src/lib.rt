//! The calls of curses as values (X/Open Curses Issue 7), and as the lines of scripts, texts with one call per line.
#![tactic(auto)]

mod arguments;
mod calls;
mod cells;
mod cuts;
mod faults;
mod groups;
mod lines;
mod numbers;
mod scripts;
mod table;
mod takers;
mod texts;
mod words;

pub use calls::Call;
pub use cur_drawing::{Attrs, Border, Put};
pub use faults::{ScriptFault, ScriptFaultKind};
pub use groups::{
    AttrsCall, CellCall, FlagCall, LayCall, LineCall, NumberCall, NumbersCall, PadCall, PartCall,
    PlainCall, ScreenCall, ShowCall,
};
pub use scripts::{LONGEST, read_call, read_script};
pub use texts::Text;
