//! A line of a script.
ghost use Rattle.std.specs.Prelude.{◌≡◌, ◌++◌, Some, option_map, IfErr, OnOk};
ghost use Rattle.cur_scripts.specs.{Table.{call_of}, Takers.{HandsOn}, Texts.{is_skipped, line_calls, LineFails}};

use crate::Call;
use crate::faults::{ScriptFault, ScriptFaultKind};
use crate::table::hand_on_named;
use crate::takers::Taker;

/// Adds the call of `line` to `calls`, if the line isn't skipped. Fails with `BadLine` at `number`
/// if it isn't a call, or with `NoMemory`.
#[tactic(auto, unfolding(crate::specs::Takers::HandsOn))]
pub(crate) fn read_line<'a>(
    number: u32,
    line: &'a [u8],
    calls: &mut Vec<Call<'a>>,
) -> Result<(), ScriptFault>
    ensures ok { OnOk result (option_map (λ more. calls.old.items ++ more) (line_calls line.now) ≡
        Some calls.new.items) }
    ensures line { IfErr result (λ e. e.line ≡ number) }
    ensures kind { IfErr result (λ e. LineFails e.kind (line_calls line.now)) }
{
    if is_skipped(line) {
        return Ok(());
    }
    match hand_on_call(line, calls) {
        Ok(()) => Ok(()),
        Err(kind) => Err(ScriptFault { line: number, kind }),
    }
}

/// Whether the line is empty or begins with `#`.
pub(crate) fn is_skipped(line: &[u8]) -> bool
    ensures { result ≡ is_skipped line.now }
{
    match line {
        [] => true,
        [first, ..] => *first == b'#',
    }
}

/// Passes the call of `line` on to `to`. `BadLine` if the line isn't a call, `NoMemory` if the call
/// isn't taken.
#[inline(always)]
#[tactic(auto, using(crate::proofs::WordsLeft::words_cut))]
pub(crate) fn hand_on_call<'a, T: Taker<'a>>(
    line: &'a [u8],
    to: &mut T,
) -> Result<(), ScriptFaultKind>
    ensures { HandsOn (T.calls to.old) (T.has_room to.old) (call_of line.now) (T.calls to.new) result }
{
    hand_on_named(line, to)
}
