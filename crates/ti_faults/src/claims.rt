//! Whether a refusal claims something.

ghost use Rattle.std.specs.Prelude.{◌≡◌, ◌≢◌, OnErr, OnOk};

use std::alloc::AllocError;
use ti_checker::Cause;

/// Fails if `cause` is that memory ran out, which claims nothing.
pub fn must_claim(cause: Cause) -> Result<(), AllocError>
    ensures claims { OnOk result (cause ≢ Cause.NoMemory) }
    ensures fails { OnErr result (cause ≡ Cause.NoMemory) }
{
    match cause {
        Cause::NoMemory => Err(AllocError),
        Cause::FlagOut
        | Cause::Absent
        | Cause::AcsByte
        | Cause::Parm(_)
        | Cause::StaticRead
        | Cause::Unfinished
        | Cause::Stuck
        | Cause::NotTame
        | Cause::BadLook
        | Cause::WrongEffect(_)
        | Cause::NotShown
        | Cause::TooLong
        | Cause::NoResync => Ok(()),
    }
}
