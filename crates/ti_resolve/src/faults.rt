//! The reasons why an entry can't be resolved.

ghost use Rattle.std.specs.Prelude.{◌≡◌};
ghost use Rattle.ti_resolve.specs.{declared.faults.ResolveFault.TheVariants.{NoMemory}, Walk.{Tells}};

use std::alloc::{AllocError, AllocFailed, Global};
use thiserror::Error;
use ti_caps::Bytes;

/// The reason why an entry can't be resolved, with the name as the use spells it.
#[derive(Debug, Drop, Error)]
pub enum ResolveFault {
    /// No entry has this name.
    #[error("NoSuchEntry")]
    NoSuchEntry(Bytes),
    /// An entry uses itself, directly or through others.
    #[error("Cycle")]
    Cycle(Bytes),
    /// Out of memory.
    #[error("NoMemory")]
    NoMemory,
    /// More than 64 entries would be used.
    #[error("TooMany")]
    TooMany(Bytes),
}

impl From<AllocError> for ResolveFault {
    ghost from_gives = { λ _ e. e ≡ NoMemory };

    fn from(_e: AllocError) -> ResolveFault {
        ResolveFault::NoMemory
    }
}

impl<T: Drop> From<AllocFailed<T>> for ResolveFault {
    ghost from_gives = { λ _ e. e ≡ NoMemory };

    fn from(_e: AllocFailed<T>) -> ResolveFault {
        ResolveFault::NoMemory
    }
}

impl ResolveFault {
    pub(crate) fn no_such_entry(alloc: Global, name: &[u8]) -> ResolveFault
        ensures { Tells result (ResolveFault.NoSuchEntry name.now) }
    {
        match Bytes::from_slice(alloc, name) {
            Ok(name) => ResolveFault::NoSuchEntry(name),
            Err(AllocError) => ResolveFault::NoMemory,
        }
    }

    pub(crate) fn cycle(alloc: Global, name: &[u8]) -> ResolveFault
        ensures { Tells result (ResolveFault.Cycle name.now) }
    {
        match Bytes::from_slice(alloc, name) {
            Ok(name) => ResolveFault::Cycle(name),
            Err(AllocError) => ResolveFault::NoMemory,
        }
    }

    pub(crate) fn too_many(alloc: Global, name: &[u8]) -> ResolveFault
        ensures { Tells result (ResolveFault.TooMany name.now) }
    {
        match Bytes::from_slice(alloc, name) {
            Ok(name) => ResolveFault::TooMany(name),
            Err(AllocError) => ResolveFault::NoMemory,
        }
    }
}
