//! The strings of one capability, one after another in the same bytes.

ghost use Rattle.std.specs.{Prelude.{◌≡◌, ◌++◌, [], ◌∷◌, length, OnOk, option_copied}, List.{slice_get}};
ghost use Rattle.ti_cert.specs.Lengths.{greatest};

use std::alloc::{AllocError, Global};
use std::marker::Model;

/// The range of a string in the bytes.
#[derive(Clone, Copy)]
struct Part {
    from: usize,
    to: usize,
}

/// The strings of one capability, one for each parameter list, in ascending order.
#[derive(Drop)]
pub(crate) struct Group {
    bytes: Vec<u8>,
    parts: Vec<Part>,
    /// The number of bytes of the longest string, 0 if there is none.
    longest: usize,
}

impl Model for Group {
    ghost use Rattle.std.specs.{Prelude.{List, ℕ, ◌≡◌, length, map}, List.{AllByRecursion}};
    ghost use Rattle.ti_cert.specs.{Groups.{IsPart, piece}, Lengths.{greatest}};

    ghost Value = { List (List ℕ) };

    ghost view = { λ g. map (λ part. piece g.bytes.items part.from part.to) g.parts.items };

    ghost invariant = { λ g. AllByRecursion (λ part. IsPart (length g.bytes.items) part.from part.to) g.parts.items
        × (g.longest ≡ greatest (map (λ part. piece g.bytes.items part.from part.to) g.parts.items)) };
}

impl Group {
    pub fn new(alloc: Global) -> Group
        ensures { result ≡ [] }
    {
        Group {
            bytes: Vec::new(alloc),
            parts: Vec::new(alloc),
            longest: 0,
        }
    }

    pub fn len(&self) -> usize
        ensures { result ≡ length self.now }
    {
        self.parts.len()
    }

    /// The number of bytes of the longest string, 0 if there is none.
    pub fn longest(&self) -> usize
        ensures { result ≡ greatest self.now }
    {
        self.longest
    }

    pub fn get(&self, at: usize) -> Option<&[u8]>
        ensures { option_copied result ≡ slice_get self.now at }
    {
        match self.parts.get(at) {
            Some(part) => Some(&self.bytes[part.from..part.to]),
            None => None,
        }
    }

    /// Adds `string`. Fails if memory runs out.
    pub fn push(&mut self, string: &[u8]) -> Result<(), AllocError>
        ensures { OnOk result (self.new ≡ self.old ++ string.now ∷ []) }
    {
        let from = self.bytes.len();
        self.bytes.extend_from_slice(string)?;
        let to = self.bytes.len();
        self.parts.push(Part { from, to })?;
        self.longest = self.longest.max(string.len());
        Ok(())
    }
}
