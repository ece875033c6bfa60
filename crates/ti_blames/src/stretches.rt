//! A part of some bytes.

ghost use Rattle.std.specs.Prelude.{◌≡◌, IfSome};
ghost use Rattle.ti_blames.specs.Stretches.{IsWithin};

use std::alloc::AllocError;

/// A part of some bytes: those from the place `from` on, up to and without the one at `to`. Places count from 0.
#[derive(Clone, Copy, Debug, PartialEq, Eq)]
pub struct Stretch {
    /// The first byte.
    pub from: usize,
    /// The place behind the last byte.
    pub to: usize,
}

impl Stretch {
    /// The part of `bytes` from the place `from` on, up to and without the one at `to`; `None` if it is empty or ends
    /// outside.
    pub(crate) fn within(bytes: &[u8], from: usize, to: usize) -> Option<Stretch>
        ensures within { IfSome result (IsWithin bytes.now) }
        ensures from { IfSome result (λ found. found.from ≡ from) }
        ensures to { IfSome result (λ found. found.to ≡ to) }
    {
        if from < to && to <= bytes.len() {
            Some(Stretch { from, to })
        } else {
            None
        }
    }
}

/// The stretch that was looked for, if there is one, unless memory ran out.
pub type Found = Result<Option<Stretch>, AllocError>;
