//! How the lines of single attributes show the marks of each attribute.
ghost use Rattle.std.specs.Prelude.{◌≡◌};
ghost use Rattle.ti_rows.specs.Looks as spec;

use crate::rows::{Looks, Marks, Row};
use crate::wants::is_on;
use vt_effects::{Effect, Rendering};

impl Looks {
    /// These looks with what the `effect` of `row` adds: that of `sgr` with a single attribute, or
    /// that of an attribute's own capability.
    pub fn learned(self, row: Row, effect: &Effect) -> Looks
        ensures { result ≡ spec.learned row effect.now self }
    {
        let looks = self;
        match row {
            Row::Sgr(attributes) => learned_alone(attributes.number(), effect.rendition, looks),
            Row::Smso => Looks {
                standout: marks_on(effect.rendition),
                ..looks
            },
            Row::Smul => Looks {
                underline: true,
                ..looks
            },
            Row::Rev => Looks {
                reverse: true,
                ..looks
            },
            Row::Blink => Looks {
                blink: true,
                ..looks
            },
            Row::Dim => Looks { dim: true, ..looks },
            Row::Bold => Looks {
                bold: true,
                ..looks
            },
            Row::Invis => Looks {
                invisible: true,
                ..looks
            },
            _ => looks,
        }
    }
}

/// The looks with what a line of `sgr` shows of them; `number` is the number of its parameter list.
fn learned_alone(number: usize, rendering: Rendering, looks: Looks) -> Looks
    ensures { result ≡ spec.learned_alone number rendering looks }
{
    match number {
        64 => Looks {
            standout: marks_on(rendering),
            ..looks
        },
        32 => Looks {
            underline: is_on(rendering.underline),
            ..looks
        },
        16 => Looks {
            reverse: is_on(rendering.negative),
            ..looks
        },
        8 => Looks {
            blink: is_on(rendering.blink),
            ..looks
        },
        4 => Looks {
            dim: is_on(rendering.faint),
            ..looks
        },
        2 => Looks {
            bold: is_on(rendering.bold),
            ..looks
        },
        1 => Looks {
            invisible: is_on(rendering.concealed),
            ..looks
        },
        _ => looks,
    }
}

/// The marks that a record turns on.
fn marks_on(rendering: Rendering) -> Marks
    ensures { result ≡ spec.marks_on rendering }
{
    Marks {
        bold: is_on(rendering.bold),
        faint: is_on(rendering.faint),
        underline: is_on(rendering.underline),
        blink: is_on(rendering.blink),
        negative: is_on(rendering.negative),
        concealed: is_on(rendering.concealed),
    }
}
