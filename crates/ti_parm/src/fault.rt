//! The reasons why a parameter string isn't expanded.
use thiserror::Error;

/// The reason why a parameter string isn't expanded. `BadNest` and `BadCode` are faults of its syntax, and are
/// reported before any of the others, which are faults of the codes that are run. Each shows as its name.
#[derive(Clone, Copy, Debug, PartialEq, Eq, Error)]
pub enum ParmFault {
    /// A code took a value from the empty stack.
    #[error("Underflow")]
    Underflow,
    /// A conditional has another shape than `%? %t %e %;`, or a mark is outside of conditionals.
    #[error("BadNest")]
    BadNest,
    /// No code begins with this `%`.
    #[error("BadCode")]
    BadCode,
    /// A result doesn't fit in 32 bits with sign.
    #[error("Overflow")]
    Overflow,
    /// A number to be written as one byte isn't from 0 to 255.
    #[error("BadChar")]
    BadChar,
    /// A text was given where a number is needed, or a number where a text is needed.
    #[error("WrongKind")]
    WrongKind,
    /// Out of memory.
    #[error("NoMemory")]
    NoMemory,
}
