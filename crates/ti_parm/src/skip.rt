//! Skipping the parts of a conditional that aren't run.
ghost use Rattle.std.specs.Prelude.{◌≡◌, ◌<◌, ◌≤◌, ◌^◌, IfErr, IfOk, length};
ghost use Rattle.ti_parm.specs.{Fault.{FailsBy}, Conditionals.{judged}, Skips.{depth_behind, past}};
ghost use Rattle.ti_parm.specs.Syntax.{HasEnd, ahead};

use crate::code::{Code, Mark, next_code};
use crate::fault::ParmFault;
use crate::nest::Nest;

/// The number of open conditionals after `code`; `None` if the skipping ends there: at the `%;` of the conditional
/// in which it began or, if `to_else`, at its `%e`.
#[inline(always)]
fn depth_behind(code: Code, depth: usize, to_else: bool) -> Option<usize>
    requires { depth < 2 ^ 63 }
    ensures { result ≡ depth_behind code depth to_else }
{
    match code {
        Code::Act(_) | Code::Of(Mark::Then) => Some(depth),
        Code::If => Some(depth + 1),
        Code::Of(Mark::Else) if to_else && depth == 0 => None,
        Code::Of(Mark::Else) => Some(depth),
        Code::Of(Mark::End) => depth.checked_sub(1),
    }
}

/// The text after the `%;` of the conditional in which `text` begins or, if `to_else`, after its first `%e`. Checks
/// the syntax on the way.
pub fn skip<'s>(nest: &mut Nest, text: &'s [u8], to_else: bool) -> Result<&'s [u8], ParmFault>
    ensures judged { IfOk result (λ rest. judged (ahead rest.now).behind nest.new ≡
        judged (ahead text.now).behind nest.old) }
    ensures past { IfOk result (λ rest. HasEnd (ahead text.now).behind →
        ahead rest.now ≡ past to_else 0 (ahead text.now).behind) }
    ensures within { IfOk result (λ rest. length rest.now ≤ length text.now) }
    ensures fault { IfErr result (λ e. FailsBy e (judged (ahead text.now).behind nest.old)) }
{
    let mut rest = text;
    let mut depth = 0;
    while !rest.is_empty() {
        let (code, behind) = next_code(rest)?;
        nest.pass(code)?;
        rest = behind;
        match depth_behind(code, depth, to_else) {
            Some(further) => depth = further,
            None => return Ok(rest),
        }
    }
    Ok(rest)
}
