//! The unit that changes a part of the effect.

use crate::Stretch;
use crate::parts::{Part, differ};
use crate::units::{Unit, effect_in};
use std::alloc::{AllocError, Global};
use vt_effects::{Effect, Start};
use vt_term::Size;

/// A unit with the effects of what is sent before it and up to its end.
#[derive(Clone, Copy)]
pub(crate) struct Step {
    /// The bytes of the unit.
    pub(crate) bytes: Stretch,
    before: Effect,
    after: Effect,
}

/// The bytes that are sent, step by step.
#[derive(Drop)]
pub(crate) struct Steps {
    /// The steps, up to the first unit with which what is sent has no effect record.
    pub(crate) steps: Vec<Step>,
    /// The bytes of that unit, if there is one.
    pub(crate) untamed: Option<Stretch>,
}

/// The steps of these `units` from every state that `start` allows.
pub(crate) fn steps_of(
    alloc: Global,
    units: &[Unit],
    size: Size,
    start: &Start,
) -> Result<Steps, AllocError> {
    let mut steps = Vec::new(alloc);
    let mut before = Effect::unchanged();
    for unit in units {
        let Some(after) = effect_in(alloc, unit.front.as_slice(), size, start)? else {
            let untamed = Some(unit.bytes);
            return Ok(Steps { steps, untamed });
        };
        steps.push(Step {
            bytes: unit.bytes,
            before,
            after,
        })?;
        before = after;
    }
    Ok(Steps {
        steps,
        untamed: None,
    })
}

impl Steps {
    /// The effect of all that is sent, if it has a record.
    pub(crate) fn effect(&self) -> Effect {
        match self.steps.as_slice() {
            [.., last] => last.after,
            [] => Effect::unchanged(),
        }
    }

    /// The bytes of the last unit that changes `part`.
    pub(crate) fn last_change(&self, part: Part) -> Option<Stretch> {
        let mut found = None;
        for step in self.steps.as_slice() {
            if differ(part, &step.before, &step.after) {
                found = Some(step.bytes);
            }
        }
        found
    }

    /// The bytes of the last unit before which `part` is as in `asked`, and behind which it isn't.
    pub(crate) fn last_departure(&self, part: Part, asked: &Effect) -> Option<Stretch> {
        let mut found = None;
        for step in self.steps.as_slice() {
            if !differ(part, &step.before, asked) && differ(part, &step.after, asked) {
                found = Some(step.bytes);
            }
        }
        found
    }
}
