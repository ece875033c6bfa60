//! Whether tokens have the effect that the table asks for.
ghost use Rattle.std.specs.Prelude.{◌≡◌, ℕ, List, [], IsTrue, Some};
ghost use Rattle.ti_rows.specs.Right.{IsRight};
ghost use Rattle.ti_rows.specs.Asked as spec;
ghost use Rattle.vt_effects.specs.Record.{record_of};
ghost use Rattle.vt_term.specs.Text.{Splits};

use crate::rows::{Looks, Row};
use vt_effects::{Effect, effect_of};
use vt_term::{Size, Token};

impl Row {
    /// Whether `effect` is the one that the table asks of this row.
    pub fn asks_for(self, looks: Looks, effect: &Effect) -> bool
        ensures sound { IsTrue result → effect.now ≡ spec.asked looks self effect.now }
        ensures complete { effect.now ≡ spec.asked looks self effect.now → IsTrue result }
    {
        effect.equals(&self.asked(looks, effect))
    }
}

/// Whether the effect of `tokens` from the start of `row` is the one that the table asks for. If
/// so, each text of these tokens does what is wanted of the row, from each of its starts.
pub fn does_as_wanted(row: Row, looks: Looks, size: Size, tokens: &[Token]) -> bool
    ensures right { IsTrue result → (bytes : List ℕ) → Splits bytes tokens.now [] →
        IsRight size.rows size.cols looks row bytes }
    ensures complete { (effect : Effect) →
        record_of size.rows size.cols (spec.start_of size.rows size.cols row) tokens.now ≡ Some effect →
        effect ≡ spec.asked looks row effect → IsTrue result }
{
    match effect_of(tokens, size, &row.start(size)) {
        None => false,
        Some(effect) => row.asks_for(looks, &effect),
    }
}
