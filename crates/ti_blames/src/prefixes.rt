//! The front of a parameter string as a string of its own.

ghost use Rattle.std.specs.{Prelude.{◌≡◌, ◌≤◌, ◌++◌, Bool, List, IfOk, OnOk, length, take}, List.{flat_map}};
ghost use Rattle.ti_blames.specs.Prefixes as spec;

use std::alloc::{AllocError, Global};

/// The conditionals that are open at a place of a string.
#[derive(Drop)]
pub(crate) struct Open {
    /// Whether the place is in the condition of each, the outermost first.
    in_condition: Vec<bool>,
}

impl Open {
    /// None, as at the start of a string.
    pub(crate) fn new(alloc: Global) -> Open {
        Open {
            in_condition: Vec::new(alloc),
        }
    }

    /// Goes past a code, which has these bytes.
    pub(crate) fn pass(&mut self, code: &[u8]) -> Result<(), AllocError> {
        match code {
            b"%?" => {
                self.in_condition.push(true)?;
                Ok(())
            }
            b"%t" => self.leave_condition(),
            b"%;" => {
                let _ = self.in_condition.pop();
                Ok(())
            }
            _ => Ok(()),
        }
    }

    /// Goes past the end of the condition of the innermost.
    fn leave_condition(&mut self) -> Result<(), AllocError> {
        if self.in_condition.pop().is_some() {
            self.in_condition.push(false)?;
        }
        Ok(())
    }

    /// The front of `string` up to `place`, with these conditionals closed.
    pub(crate) fn closed_front(
        &self,
        alloc: Global,
        string: &[u8],
        place: usize,
    ) -> Result<Vec<u8>, AllocError>
        requires { place ≤ length string.now }
        ensures { IfOk result (λ front. (nest : List Bool) × (front.items ≡ spec.closed_front string.now place nest)) }
    {
        let mut inner_first = Vec::from_slice(alloc, self.in_condition.as_slice())?;
        inner_first.reverse();
        closed(alloc, &string[..place], inner_first.as_slice())
    }
}

/// The codes that close a conditional, at a place that is in its condition or not.
fn closing(in_condition: bool) -> &'static [u8]
    ensures { result.now ≡ spec.closing in_condition }
{
    if in_condition { b"%{0}%t%;" } else { b"%;" }
}

/// The `front` of a string, and behind it the codes that close the conditionals that are open there.
fn closed(alloc: Global, front: &[u8], nest: &[bool]) -> Result<Vec<u8>, AllocError>
    ensures { IfOk result (λ text. text.items ≡ front.now ++ flat_map spec.closing nest.now) }
{
    let mut text = Vec::from_slice(alloc, front)?;
    for in_condition in nest {
        text.extend_from_slice(closing(*in_condition))?;
    }
    Ok(text)
}
