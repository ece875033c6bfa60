//! The files of a command: what they are read as, why one can't be read, and what a command gives, with the lines that
//! explain it.
#![tactic(auto)]

mod beside;
mod contents;
mod decimal;
mod failure;
mod files;
mod fronts;
mod output;
mod refusals;
mod remarks;
mod replies;
mod results;
mod sizes;
mod texts;
mod wrapped;
mod wrapped_laws;

pub use beside::Beside;
pub use contents::{LONGEST_FILE, file_fault, read_whole};
pub use decimal::decimal_number;
pub use failure::{CommandRefusal, Failure, Replied, Reply, report, usage_error};
pub use files::{FileCause, FileFault, Files, NewFile};
pub use output::{Output, Unwritten, Written};
pub use refusals::{parm_name, refusal_words};
pub use remarks::{Remarks, SUGGESTION_END, push_shown, write_shown};
pub use replies::{write_reply, write_text};
pub use results::{Made, Pushed};
pub use sizes::{number_word, size_of, size_words};
pub use wrapped::Wrapped;
pub use wrapped_laws::others_stay;
