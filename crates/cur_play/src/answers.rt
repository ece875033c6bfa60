//! The answers to calls.
ghost use Rattle.std.specs.Prelude.{◌≡◌};
ghost use Rattle.cur_play.specs.Steps.{answer_of, mode_answer};

use cur_windows::Refusal;

/// The answer to a call.
#[derive(Clone, Copy)]
pub enum Answer {
    /// The call was done.
    Done,
    /// The call was done, and this mode was set before (`curs_set`).
    Was(u8),
    /// The call was refused, and nothing was sent.
    Refused(Refusal),
    /// The wire failed.
    WireFailed,
}

/// The outcome of a call before anything is sent: it was done, or refused.
pub(crate) type Outcome = Result<(), Refusal>;

/// The answer to a call that was done or refused.
pub(crate) fn answer_of(outcome: Outcome) -> Answer
    ensures { result ≡ answer_of outcome }
{
    match outcome {
        Ok(()) => Answer::Done,
        Err(refusal) => Answer::Refused(refusal),
    }
}

/// The answer to `curs_set`.
pub(crate) fn mode_answer(before: Result<u8, Refusal>) -> Answer
    ensures { result ≡ mode_answer before }
{
    match before {
        Ok(mode) => Answer::Was(mode),
        Err(refusal) => Answer::Refused(refusal),
    }
}
