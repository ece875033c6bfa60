//! A run in words, as the lines for people have them.

ghost use Rattle.std.specs.Prelude.{IfOk, option_map};
ghost use Rattle.ti_reports.specs.Explanations as spec;

use crate::texts::text_of;
use std::alloc::{AllocError, Global};
use ti_verdicts::FaultRun;

/// The run that shows a no, in words.
#[derive(Debug, Drop)]
pub struct Explanation {
    /// The state of the terminal from which it goes wrong.
    pub start: Option<String>,
    /// The wanted effect.
    pub wanted: Option<String>,
    /// The effect that is seen instead.
    pub seen: Option<String>,
}

/// The texts of the words about a `run`.
pub fn explained(alloc: Global, run: &FaultRun) -> Result<Explanation, AllocError>
    ensures { IfOk result (spec.ShowsRun run.now) }
{
    Ok(Explanation {
        start: text_if(alloc, &run.start)?,
        wanted: text_if(alloc, &run.wanted)?,
        seen: text_if(alloc, &run.seen)?,
    })
}

/// The text of `words`, if there are any.
fn text_if(alloc: Global, words: &Option<Vec<u8>>) -> Result<Option<String>, AllocError>
    ensures { IfOk result (spec.ShowsIf (option_map (λ bytes. bytes.items) words.now)) }
{
    match words {
        Some(words) => Ok(Some(text_of(alloc, words.as_slice())?)),
        None => Ok(None),
    }
}

/// The `bytes` in hexadecimal, if there are any.
pub fn hex_if(alloc: Global, bytes: &Option<Vec<u8>>) -> Result<Option<String>, AllocError>
    ensures { IfOk result (spec.HasDigits (option_map (λ bytes. bytes.items) bytes.now)) }
{
    match bytes {
        Some(bytes) => Ok(Some(hex::encode(alloc, bytes)?)),
        None => Ok(None),
    }
}
