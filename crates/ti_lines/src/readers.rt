//! Readers, from which bytes come. A slice is one.

ghost use Rattle.std.specs.Prelude.{◌≡◌, ◌<◌, ◌≤◌, ℕ, List, [], length, take, IfOk, OnErr};
ghost use Rattle.ti_lines.specs.Reader.{AtEnd, Gave, Rose};

use thiserror::Error;

/// The reader failed, and gave no byte in that call.
#[derive(Clone, Copy, Debug, PartialEq, Eq, Error)]
#[error("the reader failed")]
pub struct ReadFault;

/// A source of bytes. A reader may fail at any time, and may give fewer bytes than there is room for.
///
/// `left` relates a reader to the bytes that are still to come. It is a relation so that a reader
/// whose bytes aren't known, such as a pipe, can implement the trait as well: it relates to no list.
pub trait Reader {
    /// These bytes are still to come.
    ghost left: { Self → List ℕ → Type 0 };

    /// The number of failures so far. The count stops at 2^128 - 1.
    ghost failures: { Self → ℕ };

    /// Writes the next bytes to the start of a buffer that must not be empty, and returns how many
    /// they are: 0 only at the end.
    ///
    /// # Errors
    /// `ReadFault` if the reader failed. Its count of failures has then risen, and no byte was given.
    fn take(&mut self, into: &mut [u8]) -> Result<usize, ReadFault>
        requires { 0 < length into.old }
        ensures within { IfOk result (λ n. n ≤ length into.old) }
        ensures gave { IfOk result (λ n. Gave left failures self.old self.new (take n into.new)) }
        ensures end { IfOk result (λ n. n ≡ 0 → AtEnd left self.new) }
        ensures none { OnErr result (Gave left failures self.old self.new []) }
        ensures failed { OnErr result (Rose (failures self.old) (failures self.new)) };
}

/// The bytes of a slice, as many at a time as there is room for. It never fails.
impl Reader for &[u8] {
    ghost left = { λ s all. s.now ≡ all };

    ghost failures = { λ _. 0 };

    fn take(&mut self, into: &mut [u8]) -> Result<usize, ReadFault>
        requires { 0 < length into.old }
        ensures within { IfOk result (λ n. n ≤ length into.old) }
        ensures gave { IfOk result (λ n. Gave (λ s all. s.now ≡ all) (λ _. 0) self.old self.new (take n into.new)) }
        ensures end { IfOk result (λ n. n ≡ 0 → AtEnd (λ s all. s.now ≡ all) self.new) }
        ensures none { OnErr result (Gave (λ s all. s.now ≡ all) (λ _. 0) self.old self.new []) }
        ensures failed { OnErr result (Rose 0 0) }
    {
        let all: &[u8] = *self;
        let count = all.len().min(into.len());
        into[..count].copy_from_slice(&all[..count]);
        *self = &all[count..];
        Ok(count)
    }
}
