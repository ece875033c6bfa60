//! Results of reading a source text: raw entries with notes, or a fault with its line.

ghost use Rattle.std.specs.Prelude.{◌≡◌, ◌≢◌, ◌++◌, [], ◌∷◌, OnOk, OnErr};

use std::alloc::{AllocError, AllocFailed, Global};
use std::marker::Model;
use thiserror::Error;
use ti_caps::{Bytes, Cap, Value};

/// The reason why a source text can't be read.
#[derive(Clone, Copy, Debug, PartialEq, Eq, Error)]
pub enum FaultKind {
    /// White space before any entry, an empty first name, or a byte below 32 in the names.
    #[error("NoName")]
    NoName,
    /// A field whose mark doesn't fit its capability, like `cols=80`.
    #[error("WrongKind")]
    WrongKind,
    /// A malformed number, like `08`.
    #[error("BadNumber")]
    BadNumber,
    /// A number above 2147483647.
    #[error("NumberRange")]
    NumberRange,
    /// A field whose line ends before its comma.
    #[error("OpenField")]
    OpenField,
    /// An escape without an end in a string.
    #[error("BadEscape")]
    BadEscape,
    /// Names or a string of more than 4095 bytes, or a text of more than 16777216, which is reported for line 0.
    #[error("TooLong")]
    TooLong,
    /// Out of memory.
    #[error("NoMemory")]
    NoMemory,
}

impl FaultKind {
    /// Nothing, if the fault claims something of the text, and out of memory if it is that.
    pub fn must_claim(self) -> Result<(), AllocError>
        ensures claims { OnOk result (self ≢ FaultKind.NoMemory) }
        ensures memory { OnErr result (self ≡ FaultKind.NoMemory) }
    {
        match self {
            FaultKind::NoMemory => Err(AllocError),
            FaultKind::NoName
            | FaultKind::WrongKind
            | FaultKind::BadNumber
            | FaultKind::NumberRange
            | FaultKind::OpenField
            | FaultKind::BadEscape
            | FaultKind::TooLong => Ok(()),
        }
    }
}

/// The first fault of a source text. Lines count from 1.
#[derive(Clone, Copy, Debug, PartialEq, Eq, Error)]
#[error("line {line}: {kind}")]
pub struct SourceFault {
    pub line: u32,
    pub kind: FaultKind,
}

/// An oddity in an entry that can be read all the same.
#[derive(Clone, Copy, Debug, PartialEq, Eq, Error)]
pub enum NoteKind {
    /// A name that isn't that of a capability: its field is left out.
    #[error("UnknownName")]
    UnknownName,
    /// A name that the entry had before: the first field counts.
    #[error("Duplicate")]
    Duplicate,
    /// A backslash before a byte that has no meaning there: it means that byte.
    #[error("OddEscape")]
    OddEscape,
}

/// A note on a line of an entry.
#[derive(Clone, Copy, Debug, PartialEq, Eq)]
pub struct Note {
    pub line: u32,
    pub kind: NoteKind,
}

/// A field of an entry.
#[derive(Debug, Drop)]
pub enum Field {
    /// A capability with its value.
    Set(Cap, Value),
    /// `name@`: the capability is absent, whatever an included entry says.
    Cancel(Cap),
    /// `use=name`: the fields of another entry.
    Include(Bytes),
}

/// Owned items, in their order. Contracts see them as a list.
#[derive(Debug, Drop)]
pub struct Items<T> {
    items: Vec<T>,
}

impl<T> Model for Items<T> {
    ghost use Rattle.std.specs.Prelude.{List};

    ghost Value = { List T };

    ghost view = { λ i. i.items.items };
}

impl<T> Items<T> {
    /// No items. Allocates no memory.
    pub fn new(alloc: Global) -> Items<T>
        ensures { result ≡ [] }
    {
        Items {
            items: Vec::new(alloc),
        }
    }

    /// The items as a slice.
    pub fn as_slice(&self) -> &[T]
        ensures { result.now ≡ self.now }
    {
        self.items.as_slice()
    }

    /// The items of a vector. Allocates no memory.
    pub fn from_vec(items: Vec<T>) -> Items<T>
        ensures { result ≡ items.items }
    {
        Items { items }
    }

    /// The items as a vector. Allocates no memory.
    pub fn into_vec(self) -> Vec<T>
        ensures { result.items ≡ self }
    {
        let Items { items } = self;
        items
    }
}

impl<T: Drop> Items<T> {
    /// Adds an item. Fails only when out of memory, and then nothing has changed.
    pub fn push(&mut self, item: T) -> Result<(), AllocError>
        ensures ok { OnOk result (self.new ≡ self.old ++ item ∷ []) }
        ensures err { OnErr result (self.new ≡ self.old) }
    {
        self.items.push(item)?;
        Ok(())
    }
}

/// The fields of an entry in the order of the text.
pub type Fields = Items<Field>;

/// The notes of an entry in the order of the text.
pub type Notes = Items<Note>;

/// An entry as a source text has it, with its inclusions not resolved.
#[derive(Debug, Drop)]
pub struct RawEntry {
    /// The line of its names.
    pub line: u32,
    /// The names, separated by `|`.
    pub names: Bytes,
    pub fields: Fields,
    pub notes: Notes,
}
