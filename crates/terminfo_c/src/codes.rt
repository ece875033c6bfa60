//! The numbers of answers, as include/ticurses_terminfo.h has them.
ghost use Rattle.std.specs.Prelude.{◌≡◌};
ghost use Rattle.terminfo_c.specs.Codes as spec;

use ti_compiled::PackFault;
use ti_parm::ParmFault;

/// All was done.
pub const OK: i32 = 0;

/// Out of memory.
const NO_MEMORY: i32 = 12;

/// The reason why a program gets no answer, and its number, where neither its file nor its string is at fault.
#[derive(Clone, Copy)]
pub enum Failure {
    /// The entry has no such capability.
    NoCap = 14,
    /// The handle has no entry open.
    Closed = 20,
    /// The caller's room is too small.
    NoRoom = 25,
    // 26 is the header's own
    /// There are too many parameters, or a text is too long.
    BadParam = 27,
    /// No capability of the kind has the name or the position.
    BadName = 28,
}

/// The number of a failure.
pub fn failure_code(failure: Failure) -> i32
    ensures { result ≡ spec.failure_code failure }
{
    failure as i32
}

/// The number of a fault of a compiled file.
pub fn file_code(fault: PackFault) -> i32
    ensures { result ≡ spec.file_code fault }
{
    match fault {
        PackFault::Short => 1,
        PackFault::BadMagic => 2,
        PackFault::BadCount => 3,
        PackFault::BadFlag => 4,
        PackFault::BadNumber => 5,
        PackFault::BadOffset => 6,
        PackFault::NoNul => 7,
        PackFault::TooLarge => 8,
        PackFault::BadNames => 9,
        PackFault::NoMemory => NO_MEMORY,
    }
}

/// The number of a fault of a parameter string.
pub fn string_code(fault: ParmFault) -> i32
    ensures { result ≡ spec.string_code fault }
{
    match fault {
        ParmFault::Underflow => 10,
        ParmFault::BadNest => 11,
        ParmFault::NoMemory => NO_MEMORY,
        ParmFault::BadCode => 13,
        ParmFault::Overflow => 15,
        ParmFault::BadChar => 16,
        ParmFault::WrongKind => 17,
    }
}
