//! The lines about calls that were refused.
ghost use Rattle.std.specs.Prelude.{◌≡◌, ◌++◌, IfOk, OnOk};
ghost use Rattle.cur_commands.specs.Shows as spec;

use cur_play::{Answer, LogEntry};
use cur_windows::Refusal;
use std::alloc::Global;
use ti_files::variant_name;
use ti_verdicts::{Added, Lines};

/// A line for each call that was refused; calls are counted from 1.
#[tactic(auto, using(crate::proofs::Answers::lines_more))]
pub fn refusal_lines(alloc: Global, log: &[LogEntry]) -> Lines
    ensures { IfOk result (λ lines. lines.items ≡ spec.refusals_text 0 log.now) }
{
    let mut lines = Vec::new(alloc);
    for (at, entry) in log.iter().enumerate() {
        push_answer(alloc, at + 1, entry.answer, &mut lines)?;
    }
    Ok(lines)
}

fn push_answer(alloc: Global, number: usize, answer: Answer, lines: &mut Vec<u8>) -> Added
    ensures { OnOk result (lines.new.items ≡ lines.old.items ++ spec.answer_line number answer) }
{
    match answer {
        Answer::Refused(refusal) => {
            let line = refusal_line(alloc, number, refusal)?;
            lines.extend_from_slice(line.as_slice())
        }
        Answer::Done | Answer::Was(_) | Answer::WireFailed => Ok(()),
    }
}

/// `call N: NAME`
fn refusal_line(alloc: Global, number: usize, refusal: Refusal) -> Lines
    ensures { IfOk result (λ line. line.items ≡ spec.refusal_line number refusal) }
{
    let mut line = Vec::new(alloc);
    line.extend_from_slice(format!(in alloc; "call {number}: ")?.as_bytes())?;
    line.extend_from_slice(refusal_name(refusal))?;
    line.push(b'\n')?;
    Ok(line)
}

/// The name of a refusal, as `play` and `show` print it.
fn refusal_name(refusal: Refusal) -> &'static [u8]
    ensures { result.now ≡ spec.refusal_name refusal }
{
    variant_name!(refusal; Refusal:
        NoWindow, OutOfWindow, OutOfScreen, HasChildren, IsSub, PadKind, NoScroll, BadRegion,
        NumberUsed, BadCell, Full, NoMemory, IsScreen, NoCap, IsLost, BadPair
    )
}
