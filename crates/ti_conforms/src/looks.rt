//! How attributes look that are set one at a time.

ghost use Rattle.std.specs.Prelude.{◌≡◌, IsTrue};
ghost use Rattle.ti_conforms.specs.Looks as spec;

use ti_rows::{Attributes, NO_ATTRIBUTES, NO_LOOKS, Row};
use vt_effects::Effect;

/// Standout by itself, which any marks may show.
const STANDOUT: Attributes = Attributes {
    standout: true,
    ..NO_ATTRIBUTES
};

/// Whether `number` is that of a set of one attribute other than standout.
fn is_single(number: usize) -> bool
    ensures { result ≡ spec.is_single number }
{
    number == 1 || number == 2 || number == 4 || number == 8 || number == 16 || number == 32
}

/// Whether `row` asks `sgr` for one attribute other than standout.
pub fn is_alone(row: Row) -> bool
    ensures { result ≡ spec.is_alone row }
{
    match row {
        Row::Sgr(attributes) => is_single(attributes.number()),
        _ => false,
    }
}

/// Whether `effect` is of the form of `sgr` with one attribute that may look like anything.
pub fn is_some_look(effect: &Effect) -> bool
    ensures yes { IsTrue result → spec.IsSomeLook effect.now }
    ensures no { spec.IsSomeLook effect.now → IsTrue result }
{
    let alone = Row::Sgr(STANDOUT);
    alone.asks_for(NO_LOOKS.learned(alone, effect), effect)
}
