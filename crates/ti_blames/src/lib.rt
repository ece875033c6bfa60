//! Which stretch of a checked string is at fault: the code, the control function or the parameter of one, or the part
//! of a conditional that a maintainer has to look at; and which part of a value in a source text means it.
#![tactic(auto)]

mod blames;
mod changes;
mod codes;
mod conditionals;
mod faulty_codes;
mod pairs;
mod parameters;
mod parts;
mod prefixes;
mod sendings;
mod stretches;
mod units;
mod values;

pub use blames::{Checked, code_stretch, sent_stretch};
pub use conditionals::{conditional_on, open_conditional};
pub use faulty_codes::{CodeFault, faulty_code};
pub use pairs::pair_of;
pub use sendings::{Sender, sending_stretch, sent_bytes};
pub use stretches::{Found, Stretch};
pub use values::meant_stretch;
