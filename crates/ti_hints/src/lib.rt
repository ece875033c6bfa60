//! Words for people about a description's source text: hints, names that no capability has, reasons why a text gives no
//! entry, and advice about an entry.
#![tactic(auto)]

mod advice;
mod carets;
mod counts;
mod extended_names;
mod fields;
mod functions;
mod hints;
mod names;
mod places;
mod remarks;
mod sources;
mod trials;
mod uses;

pub use advice::{advice_on, advise};
pub use counts::{advise_unchecked, unchecked_advice};
pub use hints::{FieldHint, HintKind, entry_hints};
pub use names::unknown_names;
pub use remarks::{hint_carets, hint_entries, hint_entry};
pub use sources::{explain_large, explain_packed, explain_resolving, explain_source};
pub use uses::used_places;
