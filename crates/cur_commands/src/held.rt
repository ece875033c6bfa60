//! An output as a wire.
ghost use Rattle.std.specs.Prelude.{◌≡◌, ◌<◌, ◌≤◌, [], length, take, IfOk, OnErr};
ghost use Rattle.cur_steps.specs.Wire.{Rose};
ghost use Rattle.cur_commands.specs.Held.{Holds};

use crate::buffers::Buffer;
use cur_play::Paced;
use cur_steps::{Wire, WireFault};
use ti_files::Output;

/// An output, and the bytes that are held back for it, so that it gets what a refresh sends in one piece. Once the
/// output has failed, so does each further send.
#[derive(Drop)]
pub struct Held<'a, O> {
    /// The output that receives the bytes.
    pub output: &'a mut O,
    /// The bytes that are held back.
    pub buffer: &'a mut Buffer,
    /// How often a send or the output failed.
    pub failures: u128,
}

impl<'a, O: Output> Held<'a, O> {
    /// Hands the held-back bytes to the output. Once the output has failed, it receives nothing more.
    #[inline(always)]
    pub fn flush(&mut self)
        ensures holds { Holds O.contents O.has_failed self.old.output self.new.output self.old.buffer.now
            self.new.buffer.now self.old.failures self.new.failures [] }
        ensures emptied { self.new.buffer.now ≡ [] }
    {
        if !self.buffer.is_empty() {
            self.hand_over();
        }
    }

    /// Hands the buffer to the output, even if it is empty, unless the output has failed; empties it in any case.
    #[inline(never)]
    fn hand_over(&mut self)
        ensures holds { Holds O.contents O.has_failed self.old.output self.new.output self.old.buffer.now
            self.new.buffer.now self.old.failures self.new.failures [] }
        ensures emptied { self.new.buffer.now ≡ [] }
    {
        if self.failures > 0 {
            self.buffer.clear();
            return;
        }
        if self.output.put(self.buffer.as_slice()).is_err() {
            self.failures = 1;
        }
        self.buffer.clear();
    }

    /// Takes as much of `piece` as fits, unless the output has failed.
    fn hold(&mut self, piece: &[u8]) -> Result<usize, WireFault>
        requires some { 0 < length piece.now }
        requires room { self.old.failures ≡ 0 → length self.old.buffer.now < 65536 }
        ensures some { IfOk result (λ n. 0 < n) }
        ensures within { IfOk result (λ n. n ≤ length piece.now) }
        ensures held { IfOk result (λ n. Holds O.contents O.has_failed self.old.output self.new.output
            self.old.buffer.now self.new.buffer.now self.old.failures self.new.failures (take n piece.now)) }
        ensures failed { OnErr result (Holds O.contents O.has_failed self.old.output self.new.output
            self.old.buffer.now self.new.buffer.now self.old.failures self.new.failures []) }
        ensures rose { OnErr result (Rose self.old.failures self.new.failures) }
    {
        if self.failures > 0 {
            self.failures = self.failures.saturating_add(1);
            return Err(WireFault);
        }
        Ok(self.buffer.hold(piece))
    }
}

impl<'a, O: Output> Wire for Held<'a, O> {
    ghost use Rattle.cur_steps.specs.Wire.{Rose};
    ghost use Rattle.cur_commands.specs.Held.{Holds, holds_lawful};

    ghost went = { λ a b x.
        Holds O.contents O.has_failed a.output b.output a.buffer.now b.buffer.now a.failures b.failures x };

    ghost failures = { λ a. a.failures };

    /// Takes as much of `piece` as fits; if there is no room, first passes on the bytes that are held back.
    fn send(&mut self, piece: &[u8]) -> Result<usize, WireFault> {
        if self.buffer.is_full() {
            self.flush();
        }
        self.hold(piece)
    }

    ghost lawful = { holds_lawful O.contents O.has_failed (λ a. a.output) (λ a. a.buffer.now) (λ a. a.failures) };
}

impl<'a, O: Output> Paced for Held<'a, O> {
    ghost held = { λ a. a.buffer.now };

    fn pass_on(&mut self) {
        self.flush();
    }
}
