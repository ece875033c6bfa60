//! The forms of a file, and the faults of files and entries.

use thiserror::Error;

/// The reason why bytes aren't a compiled file, or why an entry can't be made or written. Each shows as its name.
#[derive(Clone, Copy, Debug, PartialEq, Eq, Error)]
pub enum PackFault {
    /// The file ends within the header or a section.
    #[error("Short")]
    Short,
    /// The file doesn't begin with a magic number.
    #[error("BadMagic")]
    BadMagic,
    /// A size is negative, or there are more flags, numbers or strings than capabilities.
    #[error("BadCount")]
    BadCount,
    /// A flag's byte isn't 0, 1 or -2.
    #[error("BadFlag")]
    BadFlag,
    /// A number is negative, but neither -1 nor -2.
    #[error("BadNumber")]
    BadNumber,
    /// An offset is negative, but neither -1 nor -2, or it is at the table's end or past it.
    #[error("BadOffset")]
    BadOffset,
    /// The names don't end in a NUL, or a string has none after it.
    #[error("NoNul")]
    NoNul,
    /// The file would have more bytes than its form allows, or a string has more than an entry holds.
    #[error("TooLarge")]
    TooLarge,
    /// Out of memory.
    #[error("NoMemory")]
    NoMemory,
    /// A source text can't have these names.
    #[error("BadNames")]
    BadNames,
}

/// The form of a file, by the size of its numbers.
#[derive(Clone, Copy, Debug, PartialEq, Eq)]
pub(crate) enum Form {
    /// Numbers of 16 bits.
    Legacy,
    /// Numbers of 32 bits.
    Wide,
}
