//! A wire that goes on when another one fails.
use cur_steps::{Wire, WireFault};

/// A wire over another one, which itself never fails: once the inner one has failed, it takes everything, and nothing
/// more goes out. So a refresh is made to its end, though only a prefix of it has gone out.
#[derive(Drop)]
pub(crate) struct Lasting<'a, W> {
    /// The wire that sends the bytes.
    pub wire: &'a mut W,
    /// Whether `wire` has failed.
    pub failed: bool,
}

impl<'a, W: Wire> Wire for Lasting<'a, W> {
    ghost use Rattle.cur_paint.specs.Lasting.{Lasts, lasts_lawful};

    ghost went = { λ a b x. Lasts W.went W.failures a.wire b.wire a.failed b.failed x };

    ghost failures = { λ a. 0 };

    /// Sends `piece` on the inner wire, unless that has failed; takes all of it if it fails.
    fn send(&mut self, piece: &[u8]) -> Result<usize, WireFault> {
        if self.failed {
            return Ok(piece.len());
        }
        match self.wire.send(piece) {
            Ok(taken) => Ok(taken),
            Err(_) => {
                self.failed = true;
                Ok(piece.len())
            }
        }
    }

    ghost lawful = { lasts_lawful W.went W.failures W.lawful (λ c. c.wire) (λ c. c.failed) };
}
