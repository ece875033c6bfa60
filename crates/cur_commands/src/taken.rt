//! A wire in memory.
ghost use Rattle.std.specs.Prelude.{◌≡◌, []};

use cur_steps::{Wire, WireFault};
use std::alloc::Global;

/// A wire that keeps its bytes in memory, and fails if memory runs out.
#[derive(Drop)]
pub struct Taken {
    /// The bytes taken so far.
    pub bytes: Vec<u8>,
    /// The number of times that memory ran out.
    pub failures: u128,
}

impl Taken {
    /// A wire that has taken nothing yet.
    pub fn new(alloc: Global) -> Taken
        ensures bytes { result.bytes.items ≡ [] }
        ensures failures { result.failures ≡ 0 }
    {
        Taken {
            bytes: Vec::new(alloc),
            failures: 0,
        }
    }
}

impl Wire for Taken {
    ghost use Rattle.cur_commands.specs.Stores.{Stores, stores_lawful};

    ghost went = { λ a b x. Stores a.bytes.items b.bytes.items a.failures b.failures x };

    ghost failures = { λ a. a.failures };

    /// Takes the whole of `piece`, or nothing if memory runs out.
    fn send(&mut self, piece: &[u8]) -> Result<usize, WireFault> {
        if self.bytes.extend_from_slice(piece).is_err() {
            self.failures = self.failures.saturating_add(1);
            return Err(WireFault);
        }
        Ok(piece.len())
    }

    ghost lawful = { stores_lawful (λ a. a.bytes.items) (λ a. a.failures) };
}
