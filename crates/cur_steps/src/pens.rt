//! The pen of a painter: its belief about the terminal, and the wire to it.
use crate::WireFault;
use crate::beliefs::Belief;

/// The answer of a step: `WireFault` if the wire failed.
pub type Sent = Result<(), WireFault>;

/// A wire to the terminal, and the belief about the terminal at its end. The steps of a painter are its methods.
#[derive(Drop)]
pub struct Pen<W> {
    /// The belief about the terminal.
    pub belief: Belief,
    /// The wire to the terminal.
    pub wire: W,
}
