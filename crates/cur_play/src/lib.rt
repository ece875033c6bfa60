//! Playing curses calls: sessions, and runs of many calls with a log.
#![tactic(auto)]

mod answers;
mod bounds;
mod creations;
mod drawings;
mod laws;
mod paced;
mod runs;
mod sends;
mod sessions;
mod stale_marks;
mod windows;

pub use answers::Answer;
pub use cur_scripts::{
    Attrs, AttrsCall, Border, Call, CellCall, FlagCall, LONGEST, LayCall, LineCall, NumberCall,
    NumbersCall, PadCall, PartCall, PlainCall, Put, ScreenCall, ScriptFault, ScriptFaultKind,
    ShowCall, Text, read_script,
};
pub use laws::most_kept;
pub use paced::Paced;
pub use runs::{Log, LogEntry, run, run_paced};
pub use sessions::Session;
pub use std::alloc::AllocError as NoMemory;
