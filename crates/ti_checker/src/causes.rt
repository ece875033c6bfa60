//! The reasons why an entry gets no certificate.

ghost use Rattle.std.specs.Prelude.{◌≡◌, []};
ghost use Rattle.ti_rows.specs.{Names.{cap_of}, Params.{params}};

use crate::probes::Probe;
use std::alloc::AllocError;
use std::fmt;
use ti_caps::Cap;
use ti_parm::ParmFault;
use ti_rows::{Params, Row};

/// The fault of a capability.
#[derive(Clone, Copy, Debug, PartialEq, Eq)]
pub enum Cause {
    /// A flag or number that rules every certificate out.
    FlagOut,
    /// A string that every certificate needs is missing.
    Absent,
    /// A letter of line graphics has a partner that can't be printed.
    AcsByte,
    /// The string can't be expanded for these parameters.
    Parm(ParmFault),
    /// The string reads a static variable before it sets it.
    StaticRead,
    /// The bytes that are sent end within a sequence.
    Unfinished,
    /// The bytes that are sent have a byte that fits nothing.
    Stuck,
    /// The bytes that are sent have no one effect record for all the states they start from. The string may be right.
    NotTame,
    /// An attribute alone shows a mark that isn't its own.
    BadLook,
    /// From this start the terminal doesn't end as it should.
    WrongEffect(Probe),
    /// The effect isn't the one that is asked for. The string may be right.
    NotShown,
    /// With this line and the last one, `end`, a certificate would be longer than any may be.
    TooLong,
    /// The bytes that lead out of an unknown state (`smcup`, `enacs`, `sgr0`, `rmacs`, `csr` and `clear`, one after
    /// another) don't begin with ESC, so that a sequence that was cut off swallows some of them.
    NoResync,
    /// Out of memory.
    NoMemory,
}

impl From<AllocError> for Cause {
    fn from(_: AllocError) -> Cause
        ensures { result ≡ Cause.NoMemory }
    {
        Cause::NoMemory
    }
}

impl fmt::Display for Cause {
    fn fmt<W: fmt::Write>(&self, f: &mut fmt::Formatter<W>) -> fmt::Result {
        match self {
            Cause::Parm(fault) => write!(f, "{fault}"),
            Cause::FlagOut => write!(f, "FlagOut"),
            Cause::Absent => write!(f, "Absent"),
            Cause::AcsByte => write!(f, "AcsByte"),
            Cause::StaticRead => write!(f, "StaticRead"),
            Cause::Unfinished => write!(f, "Unfinished"),
            Cause::Stuck => write!(f, "Stuck"),
            Cause::NotTame => write!(f, "NotTame"),
            Cause::BadLook => write!(f, "BadLook"),
            Cause::WrongEffect(_) => write!(f, "WrongEffect"),
            Cause::NotShown => write!(f, "NotShown"),
            Cause::TooLong => write!(f, "TooLong"),
            Cause::NoResync => write!(f, "NoResync"),
            Cause::NoMemory => write!(f, "NoMemory"),
        }
    }
}

/// A refusal: the capability, its parameters, and its fault for these.
#[derive(Debug, Drop)]
pub struct No {
    pub cap: Cap,
    pub params: Params,
    pub cause: Cause,
}

impl From<AllocError> for No {
    ghost use Rattle.std.specs.Prelude.{◌≡◌};
    ghost use Rattle.ti_checker.specs.declared.causes.Cause.{Cause};

    ghost from_gives = { λ _ refusal. refusal.cause ≡ Cause.NoMemory };

    fn from(_: AllocError) -> No
        ensures { result.cause ≡ Cause.NoMemory }
    {
        No::of(Row::Clear.cap(), Cause::NoMemory)
    }
}

impl No {
    /// A refusal for a capability as a whole, without parameters.
    pub fn of(cap: Cap, cause: Cause) -> No
        ensures cap { result.cap ≡ cap }
        ensures params { result.params.items ≡ [] }
        ensures cause { result.cause ≡ cause }
    {
        No {
            cap,
            params: Params::new(),
            cause,
        }
    }

    /// A refusal for the row's capability with the row's parameters.
    pub fn at(row: Row, cause: Cause) -> No
        ensures cap { result.cap ≡ cap_of row }
        ensures params { result.params.items ≡ params row }
        ensures cause { result.cause ≡ cause }
    {
        No {
            cap: row.cap(),
            params: row.params(),
            cause,
        }
    }
}
