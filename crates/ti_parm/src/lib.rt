//! Parameter strings of terminfo: a small language in which a capability gives the bytes to send for its parameters
//! (terminfo(5), "Parameterized Strings").
#![tactic(auto)]

mod code;
mod delays;
mod digits;
mod fault;
mod formats;
mod judge;
mod machine;
mod nest;
mod number;
mod operators;
mod param;
mod run;
mod show;
mod skip;
mod stack;
mod statics;
mod uses;

pub use delays::strip_delays;
pub use fault::ParmFault;
pub use param::Param;
pub use run::{
    expand, plain_text_is_itself, reads_unset, sent, sent_and_reads_unset, strings_have_one_answer,
    strings_spell_trees, unread_statics_have_no_say,
};
pub use statics::Statics;
pub use std::alloc::AllocError as NoMemory;
