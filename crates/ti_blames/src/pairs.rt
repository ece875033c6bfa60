//! The pairs of `acsc`.

ghost use Rattle.std.specs.Prelude.{IfNone, IfSome, ℕ};
ghost use Rattle.ti_blames.specs.Pairs as spec;

use crate::Stretch;

/// The first pair of `pairs` whose letter is `letter`.
pub fn pair_of(pairs: &[u8], letter: u8) -> Option<Stretch>
    ensures first { IfSome result (spec.IsPairOf pairs.now letter) }
    ensures none { IfNone result ((place : ℕ) → spec.HasLetter pairs.now letter place → ⊥) }
{
    for place in 0..pairs.len() / 2 {
        let from = 2 * place;
        if pairs[from] == letter {
            return Some(Stretch { from, to: from + 2 });
        }
    }
    None
}
