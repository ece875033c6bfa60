//! Bytes for the caller's room.
ghost use Rattle.terminfo_c.specs.Answers.{DeliversBy, Fills};

use crate::codes::{Failure, OK, failure_code};

/// Writes the bytes that were found to the start of `room`, if `room` is long enough. `needed` gets their number, or 0
/// if none were found. Returns 0, or the number of the failure, or of `NoRoom`.
pub fn deliver(answer: Result<&[u8], Failure>, room: &mut [u8], needed: &mut usize) -> i32
    ensures { DeliversBy (λ bytes. bytes.now) answer.entry room.old room.new needed.new result }
{
    match answer {
        Ok(bytes) => {
            *needed = bytes.len();
            fill(bytes, room)
        }
        Err(failure) => {
            *needed = 0;
            failure_code(failure)
        }
    }
}

/// Writes `bytes` to the start of `room`; gives the number of `NoRoom`, and writes nothing, if `room` is too short.
pub fn fill(bytes: &[u8], room: &mut [u8]) -> i32
    ensures { Fills bytes.now room.old room.new result }
{
    if bytes.len() > room.len() {
        return failure_code(Failure::NoRoom);
    }
    room[..bytes.len()].copy_from_slice(bytes);
    OK
}
