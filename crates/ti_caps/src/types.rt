//! Capabilities and their kinds.

ghost use Rattle.std.specs.Prelude.{◌≡◌, ◌<◌};

use std::marker::Model;

/// The number of capabilities.
pub const CAPABILITIES: usize = 497;

/// The number of flags.
pub const FLAGS: usize = 44;

/// The number of numbers.
pub const NUMBERS: usize = 39;

/// The number of strings.
pub const STRINGS: usize = 414;

/// The greatest length in bytes of an entry's names field, and of a string.
pub const LONGEST: usize = 4095;

/// The greatest number that a capability or a parameter can have.
pub const GREATEST: u32 = 2_147_483_647;

/// The kind of a capability's value, as in terminfo(5).
#[derive(Clone, Copy, Debug, PartialEq, Eq)]
pub enum Kind {
    /// Present or absent, like `am`.
    Flag,
    /// A number, like `cols`.
    Number,
    /// Bytes, mostly to be sent to the terminal, like `cup`.
    String,
}

/// A capability of terminfo(5). Contracts see it as its place in the table, from 0 to 496.
#[derive(Clone, Copy, Debug, PartialEq, Eq)]
pub struct Cap {
    place: u16,
}

impl Model for Cap {
    ghost use Rattle.std.specs.Prelude.{ℕ, ◌<◌};

    ghost Value = { ℕ };

    ghost view = { λ c. c.place };

    ghost invariant = { λ c. c.place < 497 };

    ghost inverse = { λ n. record { place = n } };
}

impl Cap {
    /// The capability at this place of the table.
    pub(crate) fn from_place(place: u16) -> Cap
        requires { place < 497 }
        ensures { result ≡ place }
    {
        Cap { place }
    }

    /// The place in the table, from 0 to 496.
    pub fn place(self) -> usize
        ensures value { result ≡ self }
        ensures range { result < 497 }
    {
        usize::from(self.place)
    }
}
