//! Words for people: further lines below the fixed line of a message, which say plainly what went wrong and where.
#![tactic(auto)]

mod certificates;
mod changes;
mod checked_strings;
mod escapes;
mod function_names;
mod lacking;
mod numbers;
mod remedies;
mod runs;
mod seen;
mod starts;
mod states;
mod strings;
mod wanted;

pub use certificates::{explain_disagreement, explain_line, first_line_words, missing_line_words};
pub use checked_strings::{
    Field, LED_THERE, NO_RESYNC, NOT_SHOWN, NOT_TAME, NOT_TOGETHER, STATIC_READ, STAYS_GRAPHIC,
    Sent, TOO_LONG, explain_absent, explain_field, explain_flag, explain_pairs, first_of_resync,
    has_own_effect, unsent_words,
};
pub use escapes::push_spelled;
pub use function_names::{FunctionName, function_name};
pub use lacking::{
    ALL_LACKING, code_page_words, eight_bit_words, has_other_numbers, lacking_words, push_sequence,
};
pub use numbers::push_numbers;
pub use remedies::{LEFT_OUT, OF_ANOTHER_KIND};
pub use runs::run_words;
pub use seen::Seen;
pub use starts::{push_after, start_words};
pub use strings::{explain_escape, explain_parm, explain_stuck, explain_token, explain_whole};
pub use wanted::wanted_words;
