//! Faults of a string's syntax.
ghost use Rattle.std.specs.Prelude.{◌≡◌, ◌⊎◌, Ok};
ghost use Rattle.ti_parm.specs.{Fault.{FailsBy, Gives}, Conditionals.{judged}, Syntax.{ahead}};

use crate::code::next_code;
use crate::fault::ParmFault;
use crate::nest::Nest;

/// Checks the syntax of `text`, which begins in the conditionals `nest`. The error is its first fault.
fn check_rest(nest: &mut Nest, text: &[u8]) -> Result<(), ParmFault>
    ensures { Gives (λ _. tt) result (judged (ahead text.now).behind nest.old) }
{
    let mut rest = text;
    while !rest.is_empty() {
        let (code, behind) = next_code(rest)?;
        nest.pass(code)?;
        rest = behind;
    }
    nest.end()
}

/// The first fault of the syntax of `text`, which begins in the conditionals `nest`; `fault`, which a run met before,
/// if there is none.
pub fn first_fault(nest: &mut Nest, text: &[u8], fault: ParmFault) -> ParmFault
    ensures { ((judged (ahead text.now).behind nest.old ≡ Ok tt) × (result ≡ fault)) ⊎
        FailsBy result (judged (ahead text.now).behind nest.old) }
{
    match check_rest(nest, text) {
        Ok(()) => fault,
        Err(first) => first,
    }
}
