//! Laws of sending, for all wires and texts.
ghost use Rattle.std.specs.Prelude.{◌≡◌, ℕ, List, ◌++◌, Result};
ghost use Rattle.cur_steps.specs.{Wire.{Sends}, declared.wires.WireFault.{WireFault}, Leads.{Meets}};

use crate::wires::Wire;

/// Of two prefixes of one text, one is a prefix of the other.
pub fn fronts_meet()
    ensures { (a b c d : List ℕ) → a ++ b ≡ c ++ d → Meets a b c d }
{}

/// Bytes sent after others are sent with them, or cut short with them.
pub fn sends_join<W: Wire>()
    ensures { (a b c : W) (x y : List ℕ) (answer : Result (Unit {0}) WireFault)
        → W.went a b x → Sends W.went W.failures b c y answer → Sends W.went W.failures a c (x ++ y) answer }
{}
