//! The stretch of a checked string that is at fault.

ghost use Rattle.std.specs.Prelude.{IfOk};
ghost use Rattle.ti_blames.specs.BlamedStretches.{IsWithinIf};

use crate::changes::{Steps, steps_of};
use crate::parameters::narrowed;
use crate::parts::{Mark, PARTS, Part, differ, digit_for, switch_of};
use crate::units::{effect_in, tokens_of, units};
use crate::{
    CodeFault, Found, Sender, Stretch, conditional_on, faulty_code, open_conditional,
    sending_stretch, sent_bytes,
};
use std::alloc::{AllocError, Global};
use ti_parm::{Param, ParmFault};
use ti_rows::{Attributes, Looks, NO_ATTRIBUTES, NO_LOOKS, Row};
use vt_effects::{Effect, Switch};
use vt_term::Size;

/// A string that is checked for a row, on a terminal of some size.
#[derive(Clone, Copy)]
pub struct Checked<'a> {
    /// The string.
    pub string: &'a [u8],
    /// The capability and its parameters.
    pub row: Row,
    /// The size.
    pub size: Size,
}

/// The seven attributes, each alone.
const ALONE: [Attributes; 7] = [
    Attributes {
        standout: true,
        ..NO_ATTRIBUTES
    },
    Attributes {
        underline: true,
        ..NO_ATTRIBUTES
    },
    Attributes {
        reverse: true,
        ..NO_ATTRIBUTES
    },
    Attributes {
        blink: true,
        ..NO_ATTRIBUTES
    },
    Attributes {
        dim: true,
        ..NO_ATTRIBUTES
    },
    Attributes {
        bold: true,
        ..NO_ATTRIBUTES
    },
    Attributes {
        invisible: true,
        ..NO_ATTRIBUTES
    },
];

/// The part of a string or of its bytes that is at fault.
#[derive(Clone, Copy)]
enum Blame {
    /// These of the bytes that are sent.
    Sent(Stretch),
    /// An attribute that isn't shown, by the digit of its parameter of `sgr`; and the bytes that change its mark all
    /// the same, if any do.
    Missing(u8, Option<Stretch>),
}

/// A string's effect and the one that is asked for, by these looks.
#[derive(Drop)]
struct Seen<'a> {
    bytes: &'a [u8],
    steps: Steps,
    effect: Effect,
    asked: Effect,
    looks: Looks,
}

/// The parameters of `row`, as a string takes them.
fn params_of(alloc: Global, row: Row) -> Result<Vec<Param<'static>>, AllocError> {
    let numbers = row.params();
    let mut params = Vec::new(alloc);
    for number in numbers.as_slice() {
        params.push(Param::Number(i32::from(*number)))?;
    }
    Ok(params)
}

/// The looks by which the effect of the row's string is judged: of `sgr` what each attribute shows alone, otherwise
/// what `effect` itself shows.
fn looks_for(alloc: Global, checked: &Checked<'_>, effect: &Effect) -> Result<Looks, AllocError> {
    match checked.row {
        Row::Sgr(_) => looks_of_sgr(alloc, checked),
        row => Ok(NO_LOOKS.learned(row, effect)),
    }
}

/// The looks of each attribute alone, by the string, which is `sgr`.
fn looks_of_sgr(alloc: Global, checked: &Checked<'_>) -> Result<Looks, AllocError> {
    let mut looks = NO_LOOKS;
    for attributes in ALONE {
        let row = Row::Sgr(attributes);
        if let Some(effect) = effect_for(alloc, checked, row)? {
            looks = looks.learned(row, &effect);
        }
    }
    Ok(looks)
}

/// The effect of what the string sends for another row of its capability; `None` if there is none.
fn effect_for(
    alloc: Global,
    checked: &Checked<'_>,
    row: Row,
) -> Result<Option<Effect>, AllocError> {
    let params = params_of(alloc, row)?;
    match sent_bytes(alloc, checked.string, params.as_slice())? {
        Some(bytes) => {
            let start = row.start(checked.size);
            effect_in(alloc, bytes.as_slice(), checked.size, &start)
        }
        None => Ok(None),
    }
}

/// The blame for the `bytes` that the `checked` string sends: on bytes that are no whole control function, or on the
/// first unit with which they have no effect record, or on that by which the first part of the effect differs from what
/// is asked for.
fn blame_of(
    alloc: Global,
    checked: &Checked<'_>,
    bytes: &[u8],
) -> Result<Option<Blame>, AllocError> {
    let tokens = match tokens_of(alloc, bytes)? {
        Ok(tokens) => tokens,
        Err(broken) => return Ok(Some(Blame::Sent(broken))),
    };
    let units = units(alloc, tokens.as_slice())?;
    let start = checked.row.start(checked.size);
    let steps = steps_of(alloc, units.as_slice(), checked.size, &start)?;
    if let Some(untamed) = steps.untamed {
        return Ok(Some(Blame::Sent(untamed)));
    }
    let effect = steps.effect();
    let looks = looks_for(alloc, checked, &effect)?;
    let seen = Seen {
        bytes,
        steps,
        effect,
        asked: checked.row.asked(looks, &effect),
        looks,
    };
    Ok(seen.blame(checked.row))
}

impl Seen<'_> {
    /// The blame for the first part of the effect that differs from what is asked for by `row`.
    fn blame(&self, row: Row) -> Option<Blame> {
        for part in PARTS {
            if differ(part, &self.effect, &self.asked) {
                let found = self.blame_for(row, part);
                if found.is_some() {
                    return found;
                }
            }
        }
        None
    }

    /// The blame for `part`, which differs. A mark that `sgr` is asked to turn on and never does is missing.
    fn blame_for(&self, row: Row, part: Part) -> Option<Blame> {
        match (row, part) {
            (Row::Sgr(attributes), Part::Mark(mark)) if self.is_asked(mark) => {
                match self.steps.last_departure(part, &self.asked) {
                    Some(unit) => Some(Blame::Sent(unit)),
                    None => {
                        let digit = digit_for(mark, attributes, self.looks);
                        Some(Blame::Missing(digit, self.change(part)))
                    }
                }
            }
            (_, part) => Some(Blame::Sent(self.change(part)?)),
        }
    }

    /// Whether `mark` is to be on.
    fn is_asked(&self, mark: Mark) -> bool {
        switch_of(mark, &self.asked) == Switch::On
    }

    /// The bytes of the last unit that changes `part`, or of the parameter of it that the part is taken from.
    fn change(&self, part: Part) -> Option<Stretch> {
        let unit = self.steps.last_change(part)?;
        Some(narrowed(self.bytes, unit, part, &self.effect, &self.asked))
    }
}

/// The stretch of the `checked` string that is at fault where its bytes aren't whole control functions, have no effect
/// record, or have another effect than the one asked for. `None` if no such stretch is found, as where nothing has the
/// wanted effect.
///
/// # Errors
/// Out of memory.
pub fn sent_stretch(alloc: Global, checked: &Checked<'_>) -> Found
    ensures { IfOk result (IsWithinIf checked.now.string.now) }
{
    let params = params_of(alloc, checked.row)?;
    let Some(bytes) = sent_bytes(alloc, checked.string, params.as_slice())? else {
        return Ok(None);
    };
    let sender = Sender {
        string: checked.string,
        params: params.as_slice(),
        bytes: bytes.as_slice(),
    };
    match blame_of(alloc, checked, bytes.as_slice())? {
        None => Ok(None),
        Some(Blame::Sent(stretch)) => found_by(alloc, &sender, stretch),
        Some(Blame::Missing(digit, change)) => missing_in(alloc, &sender, digit, change),
    }
}

/// The stretch of the sender's string that sends this stretch of its bytes.
fn found_by(alloc: Global, sender: &Sender<'_>, bytes: Stretch) -> Found
    ensures { IfOk result (IsWithinIf sender.now.string.now) }
{
    sending_stretch(alloc, sender, bytes)
}

/// The conditional of the sender's string that tests the parameter with this `digit`; without one, the stretch that
/// sends what changes the mark.
fn missing_in(alloc: Global, sender: &Sender<'_>, digit: u8, change: Option<Stretch>) -> Found
    ensures { IfOk result (IsWithinIf sender.now.string.now) }
{
    match (conditional_on(alloc, sender.string, digit)?, change) {
        (Some(found), Some(_) | None) => Ok(Some(found)),
        (None, Some(bytes)) => found_by(alloc, sender, bytes),
        (None, None) => Ok(None),
    }
}

/// The stretch of the `checked` string that is at fault where it has this `fault`: the first code with which it has it;
/// of a conditional without an end, its `%?`.
///
/// # Errors
/// Out of memory.
pub fn code_stretch(alloc: Global, checked: &Checked<'_>, fault: CodeFault) -> Found
    ensures { IfOk result (IsWithinIf checked.now.string.now) }
{
    let params = params_of(alloc, checked.row)?;
    match faulty_code(alloc, checked.string, params.as_slice(), fault)? {
        Some(code) => Ok(Some(code)),
        None if fault == CodeFault::Parm(ParmFault::BadNest) => {
            open_conditional(alloc, checked.string)
        }
        None => Ok(None),
    }
}
