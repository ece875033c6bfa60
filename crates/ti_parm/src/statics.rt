//! Static variables.
use std::marker::Model;

/// The static variables `A` to `Z` of parameter strings, which keep their values from one expansion to the next.
/// Contracts see them as a list of 26 numbers.
#[derive(Drop)]
pub struct Statics {
    numbers: [i32; 26],
}

impl Model for Statics {
    ghost use Rattle.std.specs.Prelude.{List, ℤ};

    ghost Value = { List ℤ };

    ghost view = { λ s. s.numbers };
}

impl Statics {
    ghost use Rattle.std.specs.Prelude.{◌≡◌};
    ghost use Rattle.ti_parm.specs.Value.{zeros};

    /// All variables 0. Allocates no memory.
    #[tactic(auto, unfolding(crate::specs::Value::zeros))]
    pub fn new() -> Self
        ensures { result ≡ zeros }
    {
        Statics { numbers: [0; 26] }
    }

    /// The numbers, from `A` on.
    pub(crate) fn numbers(&self) -> [i32; 26]
        ensures { result ≡ self.now }
    {
        self.numbers
    }

    /// Replaces all numbers.
    pub(crate) fn replace(&mut self, numbers: [i32; 26])
        ensures { self.new ≡ numbers }
    {
        self.numbers = numbers;
    }
}
