//! Why a script can't be read.
use thiserror::Error;

/// The fault of a script.
#[derive(Clone, Copy, Debug, PartialEq, Eq, Error)]
pub enum ScriptFaultKind {
    /// A line that is neither a call, nor empty, nor a comment.
    #[error("BadLine")]
    BadLine,
    /// More than 1048576 bytes, which is reported for line 0.
    #[error("TooLong")]
    TooLong,
    /// Out of memory.
    #[error("NoMemory")]
    NoMemory,
}

/// The first fault of a script. Lines are counted from 1.
#[derive(Clone, Copy, Debug, PartialEq, Eq, Error)]
#[error("line {line}: {kind}")]
pub struct ScriptFault {
    pub line: u32,
    pub kind: ScriptFaultKind,
}
