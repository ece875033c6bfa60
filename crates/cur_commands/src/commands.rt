//! The commands `play` and `show`.
ghost use Rattle.std.specs.Prelude.{◌≡◌, ◌⊎◌, IfErr, IfOk, OnOk};
ghost use Rattle.cur_commands.specs.Commands.{FailsToPlay, FailsToShow, IsPlayed, IsShown};

use crate::preparations::{Ready, prepare};
use crate::runs::play_calls;
use crate::scripts::calls_of;
use crate::shows::show_calls;
use std::alloc::Global;
use ti_cert::Checked;
use ti_conforms::Certificate;
use ti_files::{Failure, Files, Output, Remarks, Replied, Reply};
use ti_requests::ScriptWords;

/// Plays the script on a terminal that the entry drives, and writes the bytes that its calls send.
pub fn play_script<F: Files, O: Output>(
    alloc: Global,
    words: &ScriptWords<'_>,
    files: &mut F,
    out: &mut O,
    remarks: &mut Remarks,
) -> Result<(), Failure>
    ensures played { OnOk result (IsPlayed ⟦<Checked as Certificate>⟧.table ⟦<Checked as Certificate>⟧.partners
        (F.holds files.old) words.now (O.contents out.old) (O.contents out.new)) }
    ensures failure { IfErr result (λ e. FailsToPlay (F.holds files.old) words.now O.has_failed out.old out.new e) }
    ensures unwritten { IfErr result (λ e. (e ≡ Failure.Output) ⊎ (out.new ≡ out.old)) }
    ensures kept { F.holds files.new ≡ F.holds files.old }
{
    let ready = prepare(alloc, words, files, remarks)?;
    let Ready { checked, text, .. } = ready;
    let calls = calls_of(alloc, words.script, text.as_slice(), remarks)?;
    play_calls(alloc, checked, calls.as_slice(), out)?;
    Ok(())
}

/// Plays the script on the specified terminal, and replies which calls were refused and what its screen shows.
pub fn show_script<F: Files>(
    alloc: Global,
    words: &ScriptWords<'_>,
    files: &mut F,
    remarks: &mut Remarks,
) -> Replied
    ensures reply { IfOk result (λ reply. IsShown ⟦<Checked as Certificate>⟧.table ⟦<Checked as Certificate>⟧.partners
        (F.holds files.old) words.now reply) }
    ensures failure { IfErr result (λ e. FailsToShow (F.holds files.old) words.now e) }
    ensures kept { F.holds files.new ≡ F.holds files.old }
{
    let ready = prepare(alloc, words, files, remarks)?;
    let Ready { checked, text, .. } = ready;
    let calls = calls_of(alloc, words.script, text.as_slice(), remarks)?;
    let text = show_calls(alloc, checked, calls.as_slice())?;
    Ok(Reply::of_text(alloc, text))
}
