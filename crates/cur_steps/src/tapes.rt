//! A wire over memory.
ghost use Rattle.std.specs.Prelude.{◌≡◌, ◌+◌, ◌<◌, ◌≤◌, ◌++◌, [], length, min, take, is_ok, if◌then◌else◌, IfOk, OnErr};
ghost use Rattle.cur_steps.specs.{Tape.{Adds, failed_once, after_send, room}, Wire.{Rose}};

use crate::wires::{Wire, WireFault};
use std::alloc::{AllocError, Global};
use std::marker::Model;

/// A wire over memory, which keeps its bytes and fails when it is full.
#[derive(Drop)]
pub struct Tape {
    bytes: Vec<u8>,
    capacity: usize,
    failures: u128,
}

impl Model for Tape {
    ghost use Rattle.std.specs.Prelude.{◌≤◌, length, vec_capacity};
    ghost use Rattle.cur_steps.specs.Tape.{Taped};

    ghost Value = { Taped };

    ghost view = { λ t. record { bytes = t.bytes.items; capacity = t.capacity; failures = t.failures } };

    ghost invariant = { λ t. (length t.bytes.items ≤ t.capacity) × (t.capacity ≤ vec_capacity t.bytes) };
}

impl Tape {
    /// An empty tape with room for `capacity` bytes. Fails if memory runs out.
    pub fn new(alloc: Global, capacity: usize) -> Result<Tape, AllocError>
        ensures value { IfOk result (λ tape. tape ≡ record { bytes = []; capacity = capacity; failures = 0 }) }
    {
        Ok(Tape {
            bytes: Vec::with_capacity(alloc, capacity)?,
            capacity,
            failures: 0,
        })
    }

    /// The bytes sent so far.
    pub fn bytes(&self) -> &[u8]
        ensures value { result.now ≡ self.now.bytes }
    {
        &self.bytes
    }

    /// The number of failures.
    pub fn failures(&self) -> u128
        ensures value { result ≡ self.now.failures }
    {
        self.failures
    }

    /// Counts one more failure.
    pub(crate) fn fail(&mut self)
        ensures value { self.new ≡ failed_once self.old }
        ensures unsent { Adds self.old self.new [] }
        ensures failed { Rose self.old.failures self.new.failures }
    {
        self.failures = self.failures.saturating_add(1);
    }
}

impl Wire for Tape {
    ghost use Rattle.cur_steps.specs.{Tape.{Adds, Adds-lawful}, Wire.{SendsSome}};

    ghost went = { Adds };

    ghost failures = { λ t. t.failures };

    /// Takes the bytes of the piece that fit, and fails if none do.
    fn send(&mut self, piece: &[u8]) -> Result<usize, WireFault>
        requires { 0 < length piece.now }
        ensures part { SendsSome Adds (λ t. t.failures) self.old self.new piece.now result }
        ensures all_that_fits { IfOk result (λ n. n ≡ min (length piece.now) (room self.old)) }
        ensures fails_only_full { OnErr result (room self.old ≡ 0) }
        ensures exactly { self.new ≡ after_send self.old piece.now (is_ok result) }
    {
        let room = self.capacity - self.bytes.len();
        if room == 0 {
            self.fail();
            return Err(WireFault);
        }
        let taken = piece.len().min(room);
        self.bytes.extend_from_slice(&piece[..taken]).unwrap();
        Ok(taken)
    }

    ghost lawful = { Adds-lawful };
}
