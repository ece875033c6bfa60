//! Sets of attributes as numbers of seven binary digits.
ghost use Rattle.std.specs.Prelude.{◌≡◌, ◌<◌, ◌≤◌};
ghost use Rattle.ti_rows.specs.Bits as spec;

use crate::rows::Attributes;

impl Attributes {
    /// The seven parameters of `sgr` read as binary digits, from standout down.
    pub fn number(self) -> usize
        ensures value { result ≡ spec.number_of self }
        ensures small { result < 128 }
    {
        64 * bit(self.standout)
            + 32 * bit(self.underline)
            + 16 * bit(self.reverse)
            + 8 * bit(self.blink)
            + 4 * bit(self.dim)
            + 2 * bit(self.bold)
            + bit(self.invisible)
    }
}

fn bit(on: bool) -> usize
    ensures value { result ≡ spec.bit on }
    ensures small { result ≤ 1 }
{
    usize::from(on)
}
