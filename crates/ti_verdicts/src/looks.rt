//! The rendition that bytes make after a reset, in words.

ghost use Rattle.std.specs.Prelude.{◌≡◌, IfOk, option_map};
ghost use Rattle.ti_verdicts.specs.FaultRuns as spec;

use std::alloc::{AllocError, Global};
use ti_words::push_after;
use vt_term::{Rendition, Size, Terminal};

/// The words for the rendition that `bytes` make on a terminal of `size` after a reset; `None` if they don't run.
pub(crate) fn look_words(
    alloc: Global,
    size: Size,
    bytes: &[u8],
) -> Result<Option<Vec<u8>>, AllocError>
    ensures { IfOk result (λ found. spec.IsLookText size.rows size.cols bytes.now
        (option_map (λ words. words.items) found)) }
{
    let mut terminal = Terminal::new(alloc, size)?;
    match terminal.feed(bytes) {
        Ok(()) => Ok(Some(made_words(alloc, terminal.rendition())?)),
        Err(_) => Ok(None),
    }
}

/// The words for a `rendition` that was made after a reset.
fn made_words(alloc: Global, rendition: Rendition) -> Result<Vec<u8>, AllocError>
    ensures { IfOk result (λ words. words.items ≡ spec.made_text rendition) }
{
    let mut words = Vec::new(alloc);
    push_after(
        b"sent after a reset, it makes the rendition",
        rendition,
        &mut words,
    )?;
    Ok(words)
}
