//! A wire over memory that fails at given places.
ghost use Rattle.std.specs.Prelude.{◌≡◌, ◌<◌, ◌≤◌, [], length, min, take, is_ok, IfOk, OnErr};
ghost use Rattle.cur_steps.specs.{Tape.{after_send, room}, Fuse.{until_failure, counted_down, passed}};

use crate::cuts::Cuts;
use crate::tapes::Tape;
use crate::wires::{Wire, WireFault};
use std::alloc::{AllocError, Global};
use std::marker::Model;

/// A wire over memory that fails at given places, to test a failure at each byte.
#[derive(Drop)]
pub struct Fuse {
    tape: Tape,
    cuts: Cuts,
}

impl Model for Fuse {
    ghost use Rattle.cur_steps.specs.Fuse.{Fused};

    ghost Value = { Fused };

    ghost view = { λ f. record { tape = f.tape; cuts = f.cuts } };
}

impl Fuse {
    /// An empty fuse with room for `capacity` bytes. After each of the numbers `cuts` of further bytes the next
    /// send fails, and the next number counts; after the last it acts as a [`Tape`]. Fails if memory runs out.
    pub fn new(alloc: Global, capacity: usize, cuts: &[usize]) -> Result<Fuse, AllocError>
        ensures value { IfOk result (λ fuse.
            fuse ≡ record { tape = record { bytes = []; capacity = capacity; failures = 0 }; cuts = cuts.now }) }
    {
        Ok(Fuse {
            tape: Tape::new(alloc, capacity)?,
            cuts: Cuts::new(alloc, cuts)?,
        })
    }

    /// The bytes sent so far.
    pub fn bytes(&self) -> &[u8]
        ensures value { result.now ≡ self.now.tape.bytes }
    {
        self.tape.bytes()
    }

    /// The number of failures.
    pub fn failures(&self) -> u128
        ensures value { result ≡ self.now.tape.failures }
    {
        self.tape.failures()
    }
}

impl Wire for Fuse {
    ghost use Rattle.cur_steps.specs.{Fuse.{FuseAdds, FuseAdds-lawful}, Wire.{SendsSome}};

    ghost went = { FuseAdds };

    ghost failures = { λ f. f.tape.failures };

    /// Takes the bytes of the piece that fit and that come before the next failure; fails if there are none.
    fn send(&mut self, piece: &[u8]) -> Result<usize, WireFault>
        requires { 0 < length piece.now }
        ensures part { SendsSome FuseAdds (λ f. f.tape.failures) self.old self.new piece.now result }
        ensures all_that_goes { IfOk result (λ n.
            n ≡ min (until_failure self.old.cuts (length piece.now)) (room self.old.tape)) }
        ensures fails_only_there { OnErr result
            (min (until_failure self.old.cuts (length piece.now)) (room self.old.tape) ≡ 0) }
        ensures tape { self.new.tape ≡ after_send self.old.tape
            (take (until_failure self.old.cuts (length piece.now)) piece.now) (is_ok result) }
        ensures cuts { IfOk result (λ n. self.new.cuts ≡ counted_down n self.old.cuts) }
        ensures passed { OnErr result (self.new.cuts ≡ passed self.old.cuts) }
    {
        match self.cuts.next() {
            None => self.tape.send(piece),
            Some(0) => {
                self.tape.fail();
                self.cuts.pass();
                Err(WireFault)
            }
            Some(left) => {
                let taken = self.tape.send(&piece[..piece.len().min(left)])?;
                self.cuts.count_down(taken);
                Ok(taken)
            }
        }
    }

    ghost lawful = { FuseAdds-lawful };
}
