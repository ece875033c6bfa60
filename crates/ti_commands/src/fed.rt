//! The bytes that a terminal is fed with.

ghost use Rattle.std.specs.Prelude.{◌≡◌};

use std::alloc::{AllocError, Global};
use ti_files::{CommandRefusal, Failure, Remarks};
use ti_words::explain_stuck;
use vt_states::plain_recording;
use vt_term::{Size, Stuck, Terminal};

/// The bytes of the file at a path, for a terminal of this size in its reset state.
#[derive(Clone, Copy)]
pub struct Fed<'a> {
    pub size: Size,
    pub path: &'a str,
    pub bytes: &'a [u8],
    /// Whether they are the characters and sequences of a recording, from which `--plain-text` has dropped the rest.
    pub is_plain: bool,
}

/// The failure of the bytes, which got stuck.
pub fn stuck_failure(alloc: Global, fed: Fed<'_>, stuck: Stuck, remarks: &mut Remarks) -> Failure
    ensures { result ≡ Failure.Refused (CommandRefusal.Stuck stuck) }
{
    explain_stuck(alloc, fed.path.as_bytes(), fed.bytes, stuck.at, remarks);
    if !fed.is_plain && plain_gets_past(alloc, fed, stuck.at).unwrap_or(false) {
        remarks.add_words(PLAIN_WORDS);
    }
    Failure::Refused(CommandRefusal::Stuck(stuck))
}

/// The option that leads past most bytes at which a recording gets stuck.
const PLAIN_WORDS: &[u8] =
    b"--plain-text leads past it: it drops strings, such as titles, and shows characters above 127 \
as ?";

/// Whether the bytes up to the place at which they get stuck, and that byte, don't get stuck with `--plain-text`.
fn plain_gets_past(alloc: Global, fed: Fed<'_>, at: usize) -> Result<bool, AllocError> {
    let end = at.saturating_add(1).min(fed.bytes.len());
    let recording = plain_recording(alloc, &fed.bytes[..end])?;
    let mut terminal = Terminal::new(alloc, fed.size)?;
    Ok(terminal.feed(recording.text.as_slice()).is_ok())
}
