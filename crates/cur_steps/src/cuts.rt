//! The coming failures of a fuse.
ghost use Rattle.std.specs.Prelude.{◌≡◌, Some, IfOk};
ghost use Rattle.cur_steps.specs.Fuse.{counted_down, passed, first_of};

use std::alloc::{AllocError, Global};
use std::marker::Model;

/// For each coming failure, the number of bytes before it.
#[derive(Drop)]
pub(crate) struct Cuts {
    bytes: Vec<usize>,
    passed: usize,
}

impl Model for Cuts {
    ghost use Rattle.std.specs.Prelude.{ℕ, List, drop};

    ghost Value = { List ℕ };

    ghost view = { λ c. drop c.passed c.bytes.items };
}

impl Cuts {
    /// Failures after these numbers of bytes.
    pub fn new(alloc: Global, cuts: &[usize]) -> Result<Cuts, AllocError>
        ensures value { IfOk result (λ all. all ≡ cuts.now) }
    {
        let mut bytes = Vec::new(alloc);
        bytes.extend_from_slice(cuts)?;
        Ok(Cuts { bytes, passed: 0 })
    }

    /// The number of bytes before the next failure, if there is one.
    pub fn next(&self) -> Option<usize>
        ensures value { result ≡ first_of self.now }
    {
        self.bytes.get(self.passed).copied()
    }

    /// Records that `n` bytes were sent.
    pub fn count_down(&mut self, n: usize)
        ensures value { self.new ≡ counted_down n self.old }
    {
        if self.passed < self.bytes.len() {
            self.bytes[self.passed] = self.bytes[self.passed].saturating_sub(n);
        }
    }

    /// Passes the next failure, which must be due.
    pub fn pass(&mut self)
        requires { first_of self.old ≡ Some 0 }
        ensures value { self.new ≡ passed self.old }
    {
        self.passed += 1;
    }
}
