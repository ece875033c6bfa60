//! The values of capabilities.

ghost use Rattle.std.specs.{Prelude.{◌≡◌, ◌<◌, IfOk}, List.{AllByRecursion}};

use std::alloc::{AllocError, Global};
use std::marker::Model;

/// Owned bytes. Contracts see them as a list.
#[derive(Debug, Drop)]
pub struct Bytes {
    bytes: Vec<u8>,
}

impl Model for Bytes {
    ghost use Rattle.std.specs.Prelude.{List, ℕ};

    ghost Value = { List ℕ };

    ghost view = { λ b. b.bytes.items };
}

/// Proves that each byte is below 256; the compiled program has nothing of the loop.
pub(crate) fn are_bytes(bytes: &[u8])
    ensures { AllByRecursion (λ b. b < 256) bytes.now }
{
    for byte in bytes {
        // reading a byte brings in its range
        let _byte = *byte;
    }
}

impl Bytes {
    /// A copy of `bytes`. Fails only when out of memory.
    pub fn from_slice(alloc: Global, bytes: &[u8]) -> Result<Bytes, AllocError>
        ensures { IfOk result (λ copy. copy ≡ bytes.now) }
    {
        Ok(Bytes {
            bytes: Vec::from_slice(alloc, bytes)?,
        })
    }

    /// The bytes of a vector. It allocates no memory.
    pub fn from_vec(bytes: Vec<u8>) -> Bytes
        ensures { result ≡ bytes.items }
    {
        Self { bytes }
    }

    /// The bytes as a vector. It allocates no memory.
    pub fn into_vec(self) -> Vec<u8>
        ensures { result.items ≡ self }
    {
        let Bytes { bytes } = self;
        bytes
    }

    pub fn as_slice(&self) -> &[u8]
        ensures { result.now ≡ self.now }
    {
        self.bytes.as_slice()
    }

    /// A copy, made by the same allocator. Fails only when out of memory.
    pub fn try_copy(&self) -> Result<Bytes, AllocError>
        ensures { IfOk result (λ copy. copy ≡ self.now) }
    {
        Bytes::from_slice(*self.bytes.allocator(), self.as_slice())
    }
}

/// The value of a capability, as in terminfo(5).
#[derive(Debug, Drop)]
pub enum Value {
    /// A flag that is present, like `am`.
    Flag,
    /// A number from 0 to 2147483647, like that of `cols`.
    Number(u32),
    /// Bytes without 0, like those of `cup`.
    String(Bytes),
}

impl Value {
    /// A copy. Fails only when out of memory.
    pub fn try_copy(&self) -> Result<Value, AllocError>
        ensures { IfOk result (λ copy. copy ≡ self.now) }
    {
        match self {
            Value::Flag => Ok(Value::Flag),
            Value::Number(number) => Ok(Value::Number(*number)),
            Value::String(bytes) => Ok(Value::String(bytes.try_copy()?)),
        }
    }
}
