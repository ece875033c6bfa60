//! Wires that may hold back the bytes they took.
ghost use Rattle.std.specs.Prelude.{ℕ, List, ◌≡◌, []};

use cur_steps::Wire;

/// A wire that may hold back the bytes it took until `pass_on` is called.
pub trait Paced: Wire {
    /// The bytes that it holds back.
    ghost held: { Self → List ℕ };

    /// Passes on the bytes that are held back; none are held back afterwards. If passing on fails, the wire's count of
    /// failures rises.
    fn pass_on(&mut self)
        ensures none_more { Self.went self.old self.new [] }
        ensures emptied { held self.new ≡ [] };
}
