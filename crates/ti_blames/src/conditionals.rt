//! The conditionals of a parameter string.

ghost use Rattle.std.specs.Prelude.{IfOk, IfSome};
ghost use Rattle.ti_blames.specs.Stretches.{IsWithin};

use crate::codes::codes;
use crate::stretches::{Found, Stretch};
use std::alloc::{AllocError, Global};

/// A conditional that is open.
#[derive(Clone, Copy)]
struct Conditional {
    /// Its `%?`.
    start: Stretch,
    /// Whether the place is in a condition of it, before a `%t`.
    in_condition: bool,
    /// Whether a condition of it has the parameter that is sought.
    tests: bool,
}

/// The conditionals that are open at a place, the outermost first, and the parameter that is sought in their
/// conditions.
#[derive(Drop)]
struct Nest<'a> {
    conditionals: Vec<Conditional>,
    /// The code that pushes the parameter; empty if none is sought.
    sought: &'a [u8],
}

impl Nest<'_> {
    /// Goes past the code at `code`, which has these bytes. The conditional that it ends, if it does.
    fn pass(&mut self, code: Stretch, bytes: &[u8]) -> Result<Option<Conditional>, AllocError> {
        match bytes {
            b"%?" => {
                self.open(code)?;
                Ok(None)
            }
            b"%;" => Ok(self.conditionals.pop()),
            _ => {
                if let Some(innermost) = self.conditionals.pop() {
                    let is_sought = bytes == self.sought;
                    self.conditionals.push(behind(innermost, bytes, is_sought))?;
                }
                Ok(None)
            }
        }
    }

    /// Goes past the `%?` at `start`.
    fn open(&mut self, start: Stretch) -> Result<(), AllocError> {
        self.conditionals.push(Conditional {
            start,
            in_condition: true,
            tests: false,
        })?;
        Ok(())
    }
}

/// The innermost conditional behind a code in it. `is_sought` says whether the code pushes the parameter that is
/// sought.
fn behind(innermost: Conditional, code: &[u8], is_sought: bool) -> Conditional {
    match code {
        b"%t" => Conditional {
            in_condition: false,
            ..innermost
        },
        b"%e" => Conditional {
            in_condition: true,
            ..innermost
        },
        _ => Conditional {
            tests: innermost.tests || (is_sought && innermost.in_condition),
            ..innermost
        },
    }
}

/// The first conditional of `string` to end that has `%p` and `digit` in a condition of its own, from its `%?` to its
/// `%;`.
///
/// # Errors
/// Out of memory.
pub fn conditional_on(alloc: Global, string: &[u8], digit: u8) -> Found
    ensures { IfOk result (λ found. IfSome found (IsWithin string.now)) }
{
    let codes = codes(alloc, string)?;
    let sought = [b'%', b'p', digit];
    let mut nest = Nest {
        conditionals: Vec::new(alloc),
        sought: &sought,
    };
    for code in codes.as_slice() {
        let ended = nest.pass(*code, &string[code.from..code.to])?;
        if let Some(conditional) = ended
            && conditional.tests
        {
            return Ok(Stretch::within(string, conditional.start.from, code.to));
        }
    }
    Ok(None)
}

/// The `%?` of the innermost conditional of `string` that has no end.
///
/// # Errors
/// Out of memory.
pub fn open_conditional(alloc: Global, string: &[u8]) -> Found
    ensures { IfOk result (λ found. IfSome found (IsWithin string.now)) }
{
    let codes = codes(alloc, string)?;
    let mut nest = Nest {
        conditionals: Vec::new(alloc),
        sought: &[],
    };
    for code in codes.as_slice() {
        nest.pass(*code, &string[code.from..code.to])?;
    }
    match nest.conditionals.pop() {
        Some(conditional) => Ok(Stretch::within(
            string,
            conditional.start.from,
            conditional.start.to,
        )),
        None => Ok(None),
    }
}
