//! How often each kind of sequence came.

ghost use Rattle.std.specs.Prelude.{◌≡◌, ◌<◌, ◌≤◌, ◌+◌, ◌++◌, ◌∷◌, [], bytes_eq, List, length, OnOk, ℕ};
ghost use Rattle.vt_states.specs.Kinds as spec;

use std::alloc::{AllocError, Global};
use std::marker::Model;

/// The number of kinds that are counted each by itself.
const MOST_KINDS: usize = 50;

/// A kind of sequence, and how often it came.
#[derive(Debug, Drop)]
pub struct Kind {
    sequence: Vec<u8>,
    times: usize,
}

impl Model for Kind {
    ghost use Rattle.vt_states.specs.Kinds.{Counted};

    ghost Value = { Counted };

    ghost view = { λ k. record { sequence = k.sequence.items; times = k.times } };
}

impl Kind {
    /// The sequence without its numbers, but for the one that T lacks.
    pub fn sequence(&self) -> &[u8]
        ensures { result.now ≡ self.now.sequence }
    {
        self.sequence.as_slice()
    }

    /// How often it came.
    pub fn times(&self) -> usize
        ensures { result ≡ self.now.times }
    {
        self.times
    }

    fn is(&self, sequence: &[u8]) -> bool
        ensures { result ≡ bytes_eq self.now.sequence sequence.now }
    {
        self.sequence.as_slice() == sequence
    }

    fn once_more(&mut self)
        requires { self.old.times + 1 ≤ 18446744073709551615 }
        ensures { self.new ≡ record self.old { times = self.old.times + 1 } }
    {
        self.times += 1;
    }
}

/// The kinds of sequences that came first, how often each came, and how often others came.
#[derive(Debug, Drop)]
pub struct Counts {
    kinds: Vec<Kind>,
    others: usize,
}

impl Model for Counts {
    ghost use Rattle.vt_states.specs.Kinds as spec;

    ghost Value = { spec.Counts };

    ghost view = { λ c. record { told = c.kinds.items; others = c.others } };
}

impl Counts {
    /// No sequence yet.
    pub(crate) fn new(alloc: Global) -> Counts
        ensures { result ≡ record { told = []; others = 0 } }
    {
        Counts {
            kinds: Vec::new(alloc),
            others: 0,
        }
    }

    /// The first kinds, at most 50, in the order in which they came.
    pub fn kinds(&self) -> &[Kind]
        ensures { result.now ≡ self.now.told }
    {
        self.kinds.as_slice()
    }

    /// How often sequences of further kinds came.
    pub fn others(&self) -> usize
        ensures { result ≡ self.now.others }
    {
        self.others
    }

    /// Counts one more sequence of the `kind`. Fails only when out of memory.
    pub(crate) fn add(&mut self, kind: Vec<u8>) -> Result<(), AllocError>
        requires { spec.total self.old < 18446744073709551615 }
        ensures { OnOk result ((came : List (List ℕ)) → spec.Count came self.old →
            spec.Count (came ++ kind.items ∷ []) self.new) }
    {
        let place = place_in(kind.as_slice(), self.kinds.as_slice());
        if place < self.kinds.len() {
            self.kinds[place].once_more();
            Ok(())
        } else if place < MOST_KINDS {
            self.kinds.push(Kind {
                sequence: kind,
                times: 1,
            })?;
            Ok(())
        } else {
            self.others += 1;
            Ok(())
        }
    }
}

/// The place of the kind with this sequence, the number of `kinds` if none has it.
fn place_in(sequence: &[u8], kinds: &[Kind]) -> usize
    ensures place { result ≡ spec.place_in sequence.now kinds.now }
    ensures range { result ≤ length kinds.now }
{
    for (place, kind) in kinds.iter().enumerate() {
        if kind.is(sequence) {
            return place;
        }
    }
    kinds.len()
}
