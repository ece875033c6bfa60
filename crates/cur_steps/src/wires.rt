//! The trait of all wires, and sending a whole text.
ghost use Rattle.std.specs.Prelude.{◌<◌, ℕ, List, length};
ghost use Rattle.cur_steps.specs.Wire.{IsWire, Sends, SendsSome};

use thiserror::Error;

/// A wire failed: it sent no byte of the piece.
#[derive(Clone, Copy, Debug, PartialEq, Eq, Error)]
#[error("the wire failed")]
pub struct WireFault;

/// An output device for bytes. It may fail at any send, and may take only the first part of a piece.
///
/// The bytes sent are a relation between the wire before, the wire after and the bytes, so that a
/// device that doesn't record its bytes can be a wire too.
pub trait Wire {
    /// Between the two moments these bytes were sent.
    ghost went: { Self → Self → List ℕ → Type 0 };

    /// The number of failures so far. The count stops at 2^128 - 1.
    ghost failures: { Self → ℕ };

    /// Takes and sends a first part of `piece`, which must not be empty, and returns its length: at
    /// least one byte. At `WireFault` no byte was sent, and the count of failures rose.
    fn send(&mut self, piece: &[u8]) -> Result<usize, WireFault>
        requires { 0 < length piece.now }
        ensures part { SendsSome went failures self.old self.new piece.now result };

    ghost lawful: { IsWire went failures };
}

/// Sends all `bytes`, in as many pieces as the wire takes. At `WireFault` a proper prefix of them
/// was sent, and the wire's count of failures rose.
pub fn send_all<W: Wire>(wire: &mut W, bytes: &[u8]) -> Result<(), WireFault>
    ensures sends { Sends W.went W.failures wire.old wire.new bytes.now result }
{
    let mut sent = 0;
    while sent < bytes.len() {
        let taken = wire.send(&bytes[sent..])?;
        sent += taken;
    }
    Ok(())
}
