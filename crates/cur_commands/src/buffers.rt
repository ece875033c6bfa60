//! Bytes that are held back.
ghost use Rattle.std.specs.Prelude.{◌≡◌, ◌∷◌, ◌↔◌, ◌≤◌, ◌-◌, ◌++◌, [], IfOk, IsTrue, length, min, take};

use std::alloc::{AllocError, Global};
use std::marker::Model;

/// The most bytes that a buffer holds.
const CAPACITY: usize = 65_536;

/// A buffer of bytes, whose memory is reserved when it is made.
#[derive(Drop)]
pub struct Buffer {
    bytes: Vec<u8>,
}

impl Model for Buffer {
    ghost use Rattle.std.specs.Prelude.{ℕ, List, ◌≤◌, length, vec_capacity};

    ghost Value = { List ℕ };

    ghost view = { λ b. b.bytes.items };

    ghost invariant = { λ b. (length b.bytes.items ≤ 65536) × (65536 ≤ vec_capacity b.bytes) };
}

impl Buffer {
    /// An empty buffer. Fails if memory runs out.
    pub fn new(alloc: Global) -> Result<Buffer, AllocError>
        ensures value { IfOk result (λ buffer. buffer ≡ []) }
    {
        Ok(Buffer {
            bytes: Vec::with_capacity(alloc, CAPACITY)?,
        })
    }

    /// Whether the buffer has no room left.
    pub fn is_full(&self) -> bool
        ensures value { IsTrue result ↔ (65536 ≤ length self.now) }
    {
        self.bytes.len() >= CAPACITY
    }

    /// Whether the buffer holds no bytes.
    pub fn is_empty(&self) -> bool
        ensures value { IsTrue result ↔ (self.now ≡ []) }
    {
        self.bytes.is_empty()
    }

    /// Takes as much of `piece` as fits, and returns the number of bytes taken.
    pub fn hold(&mut self, piece: &[u8]) -> usize
        ensures count { result ≡ min (length piece.now) (65536 - length self.old) }
        ensures value { self.new ≡ self.old ++ take result piece.now }
    {
        if let [byte] = piece {
            return self.hold_byte(*byte);
        }
        let held = piece.len().min(CAPACITY - self.bytes.len());
        self.bytes.extend_from_slice(&piece[..held]).unwrap();
        held
    }

    /// Takes `byte` if there is room, and returns the number of bytes taken, 0 or 1.
    fn hold_byte(&mut self, byte: u8) -> usize
        ensures count { result ≡ min 1 (65536 - length self.old) }
        ensures value { self.new ≡ self.old ++ take result (byte ∷ []) }
    {
        if self.is_full() {
            return 0;
        }
        self.bytes.push(byte).unwrap();
        1
    }

    /// The bytes that the buffer holds.
    pub fn as_slice(&self) -> &[u8]
        ensures value { result.now ≡ self.now }
    {
        self.bytes.as_slice()
    }

    /// Empties the buffer.
    pub fn clear(&mut self)
        ensures value { self.new ≡ [] }
    {
        self.bytes.clear();
    }
}
