//! The whole state as lines of text.

ghost use Rattle.std.specs.Prelude.{◌≡◌, ◌==◌, ◌++◌, IfOk, OnOk, length, codes, if◌then◌else◌};
ghost use Rattle.vt_states.specs.Lines as spec;

use crate::snapshots::Snapshot;
use crate::styles::letters_of;
use std::alloc::{AllocError, Global};

impl Snapshot<'_> {
    /// The whole state as lines: the screen, the modes, and the open sequence. Fails only when out of memory.
    pub fn print(&self, alloc: Global) -> Result<Vec<u8>, AllocError>
        ensures { IfOk result (λ text. text.items ≡ spec.state_text self.now) }
    {
        let mut text = self.terminal.print_screen(alloc)?;
        self.push_places(alloc, &mut text)?;
        self.push_switches(&mut text)?;
        self.push_rendition(alloc, &mut text)?;
        self.push_sets(&mut text)?;
        let open = hex::encode(alloc, self.rest)?;
        push_line(&mut text, b"open", or_dash(open.as_bytes()))?;
        Ok(text)
    }

    /// Adds the lines of the wrap and of the margins.
    #[tactic(auto, unfolding(crate::specs::Lines::place_lines))]
    fn push_places(&self, alloc: Global, text: &mut Vec<u8>) -> Result<(), AllocError>
        ensures { OnOk result (text.new.items ≡ text.old.items ++ spec.place_lines self.now.screen) }
    {
        let settings = self.terminal.settings();
        let (top, bottom) = (settings.top, settings.bottom);
        let margins = format!(in alloc; "{top} {bottom}")?;
        push_line(text, b"pending", either(settings.pending, b"yes", b"no"))?;
        push_line(text, b"margins", margins.as_bytes())
    }

    /// Adds the lines of autowrap and insertion.
    #[tactic(auto, unfolding(crate::specs::Lines::switch_lines))]
    fn push_switches(&self, text: &mut Vec<u8>) -> Result<(), AllocError>
        ensures { OnOk result (text.new.items ≡ text.old.items ++ spec.switch_lines self.now.screen) }
    {
        push_line(
            text,
            b"autowrap",
            either(self.switches.autowrap, b"on", b"off"),
        )?;
        push_line(
            text,
            b"insert",
            either(self.switches.inserting, b"on", b"off"),
        )
    }

    /// Adds the line of the rendition that the next character takes.
    #[tactic(auto, unfolding(crate::specs::Lines::rendition_line))]
    fn push_rendition(&self, alloc: Global, text: &mut Vec<u8>) -> Result<(), AllocError>
        ensures { OnOk result (text.new.items ≡ text.old.items ++ spec.rendition_line self.now.screen) }
    {
        let letters = letters_of(alloc, self.terminal.rendition())?;
        push_line(text, b"rendition", or_dash(letters.as_slice()))
    }

    /// Adds the lines of the character sets.
    #[tactic(auto, unfolding(crate::specs::Lines::set_lines))]
    fn push_sets(&self, text: &mut Vec<u8>) -> Result<(), AllocError>
        ensures { OnOk result (text.new.items ≡ text.old.items ++ spec.set_lines self.now.screen) }
    {
        let charset = self.terminal.settings().charset;
        push_line(
            text,
            b"g0",
            either(charset.g0_graphic, b"graphic", b"plain"),
        )?;
        push_line(
            text,
            b"g1",
            either(charset.g1_graphic, b"graphic", b"plain"),
        )?;
        push_line(text, b"active", either(charset.shifted_out, b"g1", b"g0"))
    }
}

/// Adds the line of a name and its value.
fn push_line(text: &mut Vec<u8>, name: &[u8], value: &[u8]) -> Result<(), AllocError>
    ensures { OnOk result (text.new.items ≡ text.old.items ++ spec.line name.now value.now) }
{
    text.extend_from_slice(name)?;
    text.push(b' ')?;
    text.extend_from_slice(value)?;
    text.push(b'\n')?;
    Ok(())
}

/// `text`, or a dash if it is empty.
fn or_dash(text: &[u8]) -> &[u8]
    ensures { result.now ≡ spec.or_dash text.entry.now }
{
    if text.is_empty() { b"-" } else { text }
}

/// The word `yes` if `chosen`, otherwise `no`.
pub(crate) fn either<'a>(chosen: bool, yes: &'a [u8], no: &'a [u8]) -> &'a [u8]
    ensures { result.now ≡ spec.either chosen yes.entry.now no.entry.now }
{
    if chosen { yes } else { no }
}
