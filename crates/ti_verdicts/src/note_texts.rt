//! The lines that print the notes on an entry.

ghost use Rattle.std.specs.Prelude.{◌≡◌, ◌++◌, IfOk, OnOk};
ghost use Rattle.ti_verdicts.specs.NoteTexts as spec;

use std::alloc::{AllocError, Global};
use ti_caps::name;
use ti_checker::CheckNote;
use ti_lines::push_hex;

/// A line `note CAP HEX` for each of the `notes`, in their order: the capability's name, and the sequence in lower case
/// hexadecimal. Each ends with LF. Fails if memory runs out.
pub fn note_lines(alloc: Global, notes: &[CheckNote]) -> Result<Vec<u8>, AllocError>
    ensures { IfOk result (λ lines. lines.items ≡ spec.notes_text notes.now) }
{
    let mut lines = Vec::new(alloc);
    for note in notes {
        push_note(note, &mut lines)?;
    }
    Ok(lines)
}

fn push_note(note: &CheckNote, lines: &mut Vec<u8>) -> Result<(), AllocError>
    ensures { OnOk result (lines.new.items ≡ lines.old.items ++ spec.note_line note.now) }
{
    lines.extend_from_slice(b"note ")?;
    lines.extend_from_slice(name(note.cap))?;
    lines.push(b' ')?;
    push_hex(note.bytes.as_slice(), lines)?;
    lines.push(b'\n')?;
    Ok(())
}
