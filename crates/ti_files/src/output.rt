//! The output of a command.

ghost use Rattle.std.specs.Prelude.{◌≡◌, ℕ, Bool, List, Option, None, OnErr, OnOk, false, true};
ghost use Rattle.std.specs.Io.KnownBytes.{Appends};

use std::io::Write;

/// An output didn't take all the bytes.
#[derive(Clone, Copy, Debug, PartialEq, Eq)]
pub struct Unwritten;

/// An output for a command's text, which remembers whether it has failed.
pub trait Output {
    /// The bytes that it has taken, if they are known.
    ghost contents: { Self → Option (List ℕ) } = { λ _. None };

    /// Whether a call has failed.
    ghost has_failed: { Self → Bool };

    /// Takes all of `bytes` and passes them on. After an error any number of them may have been taken.
    fn put(&mut self, bytes: &[u8]) -> Result<(), Unwritten>
        ensures written { OnOk result (Appends (contents self.old) (contents self.new) bytes.now) }
        ensures kept { OnOk result (has_failed self.new ≡ has_failed self.old) }
        ensures failed { OnErr result (has_failed self.new ≡ true) };
}

/// A writer as an output.
#[derive(Drop)]
pub struct Written<W> {
    writer: W,
    has_failed: bool,
}

impl<W: Write> Written<W> {
    /// `writer` as an output that hasn't failed.
    pub fn new(writer: W) -> Written<W>
        ensures { result.has_failed ≡ false }
    {
        Written {
            writer,
            has_failed: false,
        }
    }
}

impl<W: Write> Output for Written<W> {
    ghost contents = { λ written. W.contents written.writer };

    ghost has_failed = { λ written. written.has_failed };

    fn put(&mut self, bytes: &[u8]) -> Result<(), Unwritten> {
        let written = self.writer.write_all(bytes);
        let flushed = self.writer.flush();
        if written.is_ok() && flushed.is_ok() {
            return Ok(());
        }
        self.has_failed = true;
        Err(Unwritten)
    }
}
