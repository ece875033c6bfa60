//! The library for programs that draw: windows, pads and the virtual screen; a terminal's entry and its
//! verified certificate; the painter and the wire on which its bytes are sent; sessions, and calls as values.
#![tactic(auto)]

// A terminal: its size, its entry from a source text, and the facts that are shown of the entry. `certify` shows them
// by the entry alone, with no file beside it, or says why the entry has no certificate. `verify` takes a certificate
// that was kept, such as the output of `ticurses check`, and shows that it is the entry's.
pub use ti_caps::Entry;
pub use ti_cert::{AgreeFault, CertFault, CertFaultKind, Checked, VerifyFault, verify};
pub use ti_checker::{Cause, No, certify};
pub use ti_conforms::{Certificate, Miss, MissKind, reach_cup};
pub use ti_resolve::{ResolveFault, resolve};
pub use ti_source::{RawEntry, SourceFault, read};
pub use vt_term::Size;

// Windows and pads, their content, and the virtual screen.
pub use cur_drawing::{Attrs, Border, Cell, Put, Refusal, Window};
pub use cur_pads::{newpad, pnoutrefresh, subpad};
pub use cur_windows::{Desk, Part, RowMut, View, Virtual, WINDOWS};
pub use grids::{Area, Place};

// The painter, and the wires that take its bytes.
pub use cur_steps::{Fuse, Tape, Wire, WireFault};
pub use cur_update::{Painter, Unsent};

// Sessions, calls as values, and texts of calls.
pub use cur_play::{Answer, Log, LogEntry, NoMemory, Session, run};
pub use cur_scripts::{
    AttrsCall, Call, CellCall, FlagCall, LayCall, LineCall, NumberCall, NumbersCall, PadCall,
    PartCall, PlainCall, ScreenCall, ScriptFault, ScriptFaultKind, ShowCall, Text, read_script,
};
