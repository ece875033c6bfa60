//! The painter: two screens, and a pen.
use crate::screens::Screens;
use cur_steps::Pen;

/// A painter, which leads a terminal from the old one of two screens to the new one. Its methods send bytes; functions
/// that only weigh take the screens alone.
#[derive(Drop)]
pub(crate) struct Painter<'a, C, O, N, W> {
    /// The two screens, and the terminal's certificate.
    pub screens: &'a Screens<'a, C, O, N>,
    /// The belief about the terminal, and the wire to it.
    pub pen: &'a mut Pen<W>,
}
