//! Reading what a run of a script needs, in the order of the line's words.
ghost use Rattle.std.specs.Prelude.{◌≡◌, IfErr, IfOk};
ghost use Rattle.cur_commands.specs.Preparations.{FailsToPrepare, Prepared};

use crate::verifications::checked_at;
use cur_scripts::LONGEST;
use std::alloc::Global;
use ti_cert::Checked;
use ti_commands::entry_of;
use ti_files::{Failure, Files, Remarks, read_whole, size_words};
use ti_requests::ScriptWords;
use vt_term::Size;

/// A size, the strings of an entry that was verified for it, and the text of a script.
#[derive(Drop)]
pub struct Ready {
    pub size: Size,
    pub checked: Checked,
    pub text: Vec<u8>,
}

/// Reads what the words name: the size first, then the entry, then the certificate, then the script's text.
pub fn prepare<F: Files>(
    alloc: Global,
    words: &ScriptWords<'_>,
    files: &mut F,
    remarks: &mut Remarks,
) -> Result<Ready, Failure>
    ensures ready { IfOk result (λ ready. Prepared (F.holds files.old) words.now ready.size.rows ready.size.cols
        ready.checked ready.text.items) }
    ensures failure { IfErr result (λ e. FailsToPrepare (F.holds files.old) words.now e) }
    ensures kept { F.holds files.new ≡ F.holds files.old }
{
    let size = size_words(alloc, words.rows, words.cols, remarks)?;
    let entry = entry_of(alloc, files, words.entry, remarks)?;
    let checked = checked_at(alloc, &entry, size, words.certificate, files, remarks)?;
    let text = read_whole(alloc, files, words.script, LONGEST as u32, remarks)?;
    Ok(Ready {
        size,
        checked,
        text,
    })
}
