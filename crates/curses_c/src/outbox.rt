//! Bytes that wait for the program to take them.
ghost use Rattle.std.specs.Prelude.{◌≡◌, ◌++◌, ◌<◌, [], length, min, take, drop, IfOk, OnErr};

use cur_steps::{Wire, WireFault};
use std::alloc::Global;
use std::marker::Model;

/// A wire over memory, from which bytes are taken in order.
#[derive(Drop)]
pub struct Outbox {
    bytes: Vec<u8>,
    taken: usize,
    failures: u128,
}

impl Model for Outbox {
    ghost use Rattle.std.specs.Prelude.{◌≤◌, ◌-◌, drop, length, vec_capacity};
    ghost use Rattle.curses_c.specs.Outbox.{Posted};

    ghost Value = { Posted };

    ghost view = { λ o. record {
      waiting = drop o.taken o.bytes.items;
      room = vec_capacity o.bytes - length o.bytes.items;
      failures = o.failures;
    } };

    ghost invariant = { λ o. o.taken ≤ length o.bytes.items };
}

impl Outbox {
    /// An outbox in which nothing waits.
    pub fn new(alloc: Global) -> Outbox
        ensures { result.waiting ≡ [] }
    {
        Outbox {
            bytes: Vec::new(alloc),
            taken: 0,
            failures: 0,
        }
    }

    /// The number of bytes that wait.
    pub fn len(&self) -> usize
        ensures { result ≡ length self.now.waiting }
    {
        self.bytes.len() - self.taken
    }

    /// Throws away the bytes that wait.
    pub fn clear(&mut self)
        ensures { self.new.waiting ≡ [] }
    {
        self.bytes.clear();
        self.taken = 0;
    }

    /// Moves the first bytes that wait to the start of `room`, as many as fit, and returns their number.
    pub fn take_into(&mut self, room: &mut [u8]) -> usize
        ensures count { result ≡ min (length room.old) (length self.old.waiting) }
        ensures room { room.new ≡ take result self.old.waiting ++ drop result room.old }
        ensures rest { self.new.waiting ≡ drop result self.old.waiting }
    {
        let waiting = &self.bytes[self.taken..];
        let count = room.len().min(waiting.len());
        room[..count].copy_from_slice(&waiting[..count]);
        self.taken += count;
        self.reuse();
        count
    }

    /// Makes the room of bytes that were all taken available to the next bytes.
    fn reuse(&mut self)
        ensures waiting { self.new.waiting ≡ self.old.waiting }
    {
        if self.taken == self.bytes.len() {
            self.bytes.clear();
            self.taken = 0;
        }
    }
}

impl Wire for Outbox {
    ghost use Rattle.cur_steps.specs.Wire.{SendsSome};
    ghost use Rattle.curses_c.specs.Outbox.{Posts, Posts-lawful};

    ghost went = { Posts };

    ghost failures = { λ o. o.failures };

    /// Keeps `piece`. Fails if there is no memory for it.
    fn send(&mut self, piece: &[u8]) -> Result<usize, WireFault>
        requires { 0 < length piece.now }
        ensures part { SendsSome Posts (λ o. o.failures) self.old self.new piece.now result }
        ensures whole { IfOk result (λ n. n ≡ length piece.now) }
        ensures fails_only_short { OnErr result (self.old.room < length piece.now) }
    {
        match self.bytes.extend_from_slice(piece) {
            Ok(()) => Ok(piece.len()),
            Err(_) => {
                self.failures = self.failures.saturating_add(1);
                Err(WireFault)
            }
        }
    }

    ghost lawful = { Posts-lawful };
}
