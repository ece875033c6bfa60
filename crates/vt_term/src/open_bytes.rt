//! The bytes of an open sequence, as proofs see them.

ghost use Rattle.std.specs.{Prelude.{◌≡◌, ℕ, List, [], ◌∷◌, ◌++◌}, Borrow.{ftrue}};

use std::marker::Model;

/// The bytes of a sequence so far, visible to proofs only. It takes no memory, and its methods do nothing.
#[derive(Drop)]
pub(crate) struct OpenBytes {
    ghost bytes: { List ℕ },
}

impl Model for OpenBytes {
    ghost also_owns = { λ _. ftrue };
}

impl OpenBytes {
    /// No bytes.
    pub(crate) fn new() -> OpenBytes
        ensures { result.bytes ≡ [] }
    {
        OpenBytes {}
    }

    /// These bytes and one more.
    #[inline(always)]
    pub(crate) fn then(&self, _byte: &u8) -> OpenBytes
        ensures { result.bytes ≡ self.now.bytes ++ _byte.now ∷ [] }
    {
        OpenBytes {}
    }
}
