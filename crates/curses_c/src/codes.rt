//! The numbers of answers, as include/ticurses.h has them.
ghost use Rattle.std.specs.Prelude.{◌≡◌};
ghost use Rattle.curses_c.specs.Codes as spec;

use cur_play::Answer;
use cur_scripts::ScriptFaultKind;
use cur_windows::Refusal;
use std::alloc::AllocError;

/// All was done.
pub const OK: i32 = 0;

/// The wire failed.
const WIRE_FAILED: i32 = 17;

/// A line of a script isn't a call.
const BAD_LINE: i32 = 18;

/// A script or a line of it is too long.
const TOO_LONG: i32 = 19;

/// The reason why there is no session, no certificate or no answer for a program, and its number.
#[derive(Clone, Copy)]
pub enum Failure {
    /// Out of memory.
    NoMemory = 12,
    /// The handle has no session open.
    Closed = 20,
    /// No terminal has this size.
    BadSize = 21,
    /// The entry can't be read.
    BadEntry = 22,
    /// The certificate isn't one of the entry for the size.
    BadCertificate = 23,
    /// The entry has no certificate for the size.
    NoCertificate = 24,
    /// The caller's room is too small.
    NoRoom = 25,
    // 26 is the header's own
    /// The numbers encode no call.
    BadCall = 27,
    /// No capability of the kind has the name.
    BadName = 28,
    /// The entry has no such capability.
    NoCap = 14,
}

impl From<AllocError> for Failure {
    ghost use Rattle.std.specs.Prelude.{◌≡◌};
    ghost use Rattle.curses_c.specs.declared.codes.Failure.TheVariants.{NoMemory};

    ghost from_gives = { λ _ failure. failure ≡ NoMemory };

    fn from(_: AllocError) -> Failure {
        Failure::NoMemory
    }
}

/// The number of a failure.
pub fn failure_code(failure: Failure) -> i32
    ensures { result ≡ spec.failure_code failure }
{
    failure as i32
}

/// The number of a call's answer.
pub fn answer_code(answer: Answer) -> i32
    ensures { result ≡ spec.answer_code answer }
{
    match answer {
        Answer::Done => OK,
        Answer::Was(_) => OK,
        Answer::Refused(refusal) => refusal_code(refusal),
        Answer::WireFailed => WIRE_FAILED,
    }
}

/// The number of a refusal.
pub fn refusal_code(refusal: Refusal) -> i32
    ensures { result ≡ spec.refusal_code refusal }
{
    match refusal {
        Refusal::NoWindow => 1,
        Refusal::OutOfWindow => 2,
        Refusal::OutOfScreen => 3,
        Refusal::HasChildren => 4,
        Refusal::IsSub => 5,
        Refusal::PadKind => 6,
        Refusal::NoScroll => 7,
        Refusal::BadRegion => 8,
        Refusal::NumberUsed => 9,
        Refusal::BadCell => 10,
        Refusal::Full => 11,
        Refusal::NoMemory => 12,
        Refusal::IsScreen => 13,
        Refusal::NoCap => 14,
        Refusal::IsLost => 15,
        Refusal::BadPair => 16,
    }
}

/// The number of a kind of fault of a script.
pub fn script_code(kind: ScriptFaultKind) -> i32
    ensures { result ≡ spec.script_code kind }
{
    match kind {
        ScriptFaultKind::BadLine => BAD_LINE,
        ScriptFaultKind::TooLong => TOO_LONG,
        ScriptFaultKind::NoMemory => failure_code(Failure::NoMemory),
    }
}
