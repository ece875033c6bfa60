//! A writer, such as standard output, as a wire.
ghost use Rattle.std.specs.Prelude.{◌≡◌, ◌<◌, ◌≤◌, length, take, IfOk, OnErr};
ghost use Rattle.curses.specs.Painters.Wire.{Rose};
ghost use Rattle.hello.specs.Console.{Wrote};

use curses::{Wire, WireFault};
use std::io;
use std::io::Write;

/// A writer to which bytes are sent.
#[derive(Drop)]
pub struct Console<W> {
    writer: W,
    failures: u128,
}

impl<W: Write> Console<W> {
    /// `writer` as a wire that hasn't failed.
    pub fn new(writer: W) -> Console<W> {
        Console {
            writer,
            failures: 0,
        }
    }

    /// Writes the bytes that the writer has buffered.
    pub fn flush(&mut self) -> io::Result<()> {
        self.writer.flush()
    }
}

impl<W: Write> Wire for Console<W> {
    ghost use Rattle.hello.specs.Console.{Wrote, wrote_lawful};

    ghost went = { λ a b x. Wrote (W.contents a.writer) (W.contents b.writer) a.failures b.failures x };

    ghost failures = { λ a. a.failures };

    /// Writes as much of `piece` as the writer takes, and fails if that is nothing.
    fn send(&mut self, piece: &[u8]) -> Result<usize, WireFault> {
        match self.writer.write(piece) {
            Ok(taken) if taken > 0 => Ok(taken),
            _ => {
                self.failures = self.failures.saturating_add(1);
                Err(WireFault)
            }
        }
    }

    ghost lawful = { wrote_lawful W.contents (λ a. a.writer) (λ a. a.failures) };
}
