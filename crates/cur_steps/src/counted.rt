//! A wire whose bytes are counted.
use crate::wires::{Wire, WireFault};

/// A wire over another one, which counts the bytes sent. The count is exact until it would pass 2^128 - 1.
#[derive(Drop)]
pub struct Counted<'a, W> {
    /// The wire that the bytes are sent on.
    pub wire: &'a mut W,
    /// The number of bytes sent so far.
    pub sent: u128,
}

impl<'a, W: Wire> Wire for Counted<'a, W> {
    ghost use Rattle.cur_steps.specs.Counted.{Counts, counts_lawful};

    ghost went = { λ a b x. Counts W.went a.wire b.wire a.sent b.sent x };

    ghost failures = { λ a. W.failures a.wire.now };

    /// Sends on the inner wire, and counts the bytes that it took.
    fn send(&mut self, piece: &[u8]) -> Result<usize, WireFault> {
        let taken = self.wire.send(piece)?;
        self.sent = self.sent.saturating_add(taken as u128);
        Ok(taken)
    }

    ghost lawful = { counts_lawful W.went W.failures W.lawful (λ c. c.wire) (λ c. c.sent) };
}
