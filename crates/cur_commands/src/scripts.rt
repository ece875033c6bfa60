//! The calls of a script, or the first line that is no call.
ghost use Rattle.std.specs.Prelude.{◌≡◌, ◌++◌, ℕ, List, IfErr, IfOk};
ghost use Rattle.cur_scripts.specs.Texts.{FailsBy, script_of};
ghost use Rattle.cur_commands.specs.Scripts as spec;

use cur_scripts::{Call, ScriptFault, ScriptFaultKind, read_script};
use std::alloc::{AllocError, Global};
use ti_files::{CommandRefusal, Failure, Remarks, variant_name};

/// The most bytes of a line that are shown.
const SHOWN: usize = 200;

/// The calls of the script at `path`, whose text is `text`.
pub fn calls_of<'a>(
    alloc: Global,
    path: &str,
    text: &'a [u8],
    remarks: &mut Remarks,
) -> Result<Vec<Call<'a>>, Failure>
    ensures calls { IfOk result (λ calls. script_of text.entry.now ≡ Ok calls.items) }
    ensures failure { IfErr result (λ e. spec.IsScriptFailure text.entry.now e) }
{
    match read_script(alloc, text) {
        Ok(calls) => Ok(calls),
        Err(fault) => {
            explain_line(alloc, path, text, fault, remarks);
            Err(failure_of(alloc, fault))
        }
    }
}

/// The failure to report for a fault of a script.
fn failure_of(alloc: Global, fault: ScriptFault) -> Failure
    ensures { (text : List ℕ) → FailsBy fault.kind fault (script_of text) → spec.IsScriptFailure text result }
{
    match fault.kind {
        ScriptFaultKind::NoMemory => Failure::NoMemory,
        ScriptFaultKind::BadLine | ScriptFaultKind::TooLong => match fault_words(alloc, fault) {
            Ok(words) => Failure::Refused(CommandRefusal::Verdict(words)),
            Err(_) => Failure::NoMemory,
        },
    }
}

/// `line N: KIND`
fn fault_words(alloc: Global, fault: ScriptFault) -> Result<Vec<u8>, AllocError>
    ensures { IfOk result (λ words. words.items ≡ spec.fault_text fault) }
{
    let line = fault.line;
    let mut words = Vec::new(alloc);
    words.extend_from_slice(format!(in alloc; "line {line}: ")?.as_bytes())?;
    words.extend_from_slice(kind_name(fault.kind))?;
    Ok(words)
}

fn kind_name(kind: ScriptFaultKind) -> &'static [u8]
    ensures { result.now ≡ spec.kind_name kind }
{
    variant_name!(kind; ScriptFaultKind: BadLine, TooLong, NoMemory)
}

/// The line that is no call, in plain words.
fn explain_line(alloc: Global, path: &str, text: &[u8], fault: ScriptFault, remarks: &mut Remarks) {
    if fault.kind != ScriptFaultKind::BadLine {
        return;
    }
    let number = fault.line;
    let line = line_of(text, number);
    let shown = &line[..line.len().min(SHOWN)];
    let words = format!(in alloc;
        " in line {number} of {path}: a line is the name of a call and its arguments, \
         with one space between each two, as in `move 0 2 3`"
    );
    if let Ok(words) = words {
        remarks.add(shown, words.as_bytes());
    }
}

/// The line of this number, counted from 1, or nothing.
fn line_of(text: &[u8], number: u32) -> &[u8] {
    let mut lines = text.split(|byte| *byte == b'\n');
    for _ in 1..number {
        let _ = lines.next();
    }
    lines.next().unwrap_or(&[])
}
