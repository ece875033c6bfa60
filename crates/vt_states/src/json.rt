//! The whole state as JSON.

ghost use Rattle.std.specs.Prelude.{◌≡◌, ◌∷◌, ◌++◌, [], IfOk, OnOk, Option, option_map};
ghost use Rattle.vt_states.specs.Json as spec;

use crate::lines::either;
use crate::rows::{look_items, push_escaped, row_items};
use crate::snapshots::Snapshot;
use crate::styles::letters_of;
use std::alloc::{AllocError, Global};

impl Snapshot<'_> {
    /// Adds the state to `text` as a JSON object that begins with the members `front`, each with its comma. Fails
    /// only when out of memory.
    pub fn push_object(
        &self,
        alloc: Global,
        front: &[u8],
        text: &mut Vec<u8>,
    ) -> Result<(), AllocError>
        ensures { OnOk result (text.new.items ≡ text.old.items ++ spec.object front.now self.now) }
    {
        text.push(b'{')?;
        text.extend_from_slice(front)?;
        self.push_members(alloc, text)?;
        text.push(b'}')?;
        Ok(())
    }

    #[tactic(auto, unfolding(crate::specs::Json::members))]
    fn push_members(&self, alloc: Global, text: &mut Vec<u8>) -> Result<(), AllocError>
        ensures { OnOk result (text.new.items ≡ text.old.items ++ spec.members self.now) }
    {
        self.push_cursor(alloc, text)?;
        self.push_set_members(text)?;
        self.push_looks(alloc, text)?;
        self.push_open(alloc, text)?;
        self.push_rendition_member(alloc, text)?;
        self.push_rows(alloc, text)?;
        Ok(())
    }

    #[tactic(auto, unfolding(crate::specs::Json::cursor_members))]
    fn push_cursor(&self, alloc: Global, text: &mut Vec<u8>) -> Result<(), AllocError>
        ensures { OnOk result (text.new.items ≡ text.old.items ++ spec.cursor_members self.now.screen) }
    {
        let active = either(
            self.terminal.settings().charset.shifted_out,
            b"\"g1\"",
            b"\"g0\"",
        );
        let (row, col) = self.terminal.cursor();
        let place = pair(alloc, row, col)?;
        push_member(text, b"active", active)?;
        push_member(text, b"autowrap", truth(self.switches.autowrap))?;
        push_member(text, b"cursor", place.as_slice())
    }

    #[tactic(auto, unfolding(crate::specs::Json::set_members))]
    fn push_set_members(&self, text: &mut Vec<u8>) -> Result<(), AllocError>
        ensures { OnOk result (text.new.items ≡ text.old.items ++ spec.set_members self.now.screen) }
    {
        let charset = self.terminal.settings().charset;
        push_member(text, b"g0", set_word(charset.g0_graphic))?;
        push_member(text, b"g1", set_word(charset.g1_graphic))?;
        push_member(text, b"insert", truth(self.switches.inserting))
    }

    #[tactic(auto, unfolding(crate::specs::Json::look_members))]
    fn push_looks(&self, alloc: Global, text: &mut Vec<u8>) -> Result<(), AllocError>
        ensures { OnOk result (text.new.items ≡ text.old.items ++ spec.look_members self.now.screen) }
    {
        let looks = bracketed(alloc, look_items(alloc, &self.terminal)?.as_slice())?;
        let settings = self.terminal.settings();
        let margins = pair(alloc, settings.top, settings.bottom)?;
        push_member(text, b"looks", looks.as_slice())?;
        push_member(text, b"margins", margins.as_slice())
    }

    #[tactic(auto, unfolding(crate::specs::Json::open_members))]
    fn push_open(&self, alloc: Global, text: &mut Vec<u8>) -> Result<(), AllocError>
        ensures { OnOk result (text.new.items ≡ text.old.items ++ spec.open_members self.now) }
    {
        let digits = hex::encode(alloc, self.rest)?;
        let open = quoted_plainly(alloc, digits.as_bytes())?;
        push_member(text, b"open", open.as_slice())?;
        push_member(text, b"pending", truth(self.terminal.pending()))
    }

    #[tactic(auto, unfolding(crate::specs::Json::rendition_members))]
    fn push_rendition_member(&self, alloc: Global, text: &mut Vec<u8>) -> Result<(), AllocError>
        ensures { OnOk result (text.new.items ≡ text.old.items ++ spec.rendition_members self.now.screen) }
    {
        let letters = letters_of(alloc, self.terminal.rendition())?;
        let rendition = quoted_plainly(alloc, letters.as_slice())?;
        push_member(text, b"rendition", rendition.as_slice())
    }

    #[tactic(auto, unfolding(crate::specs::Json::row_members))]
    fn push_rows(&self, alloc: Global, text: &mut Vec<u8>) -> Result<(), AllocError>
        ensures { OnOk result (text.new.items ≡ text.old.items ++ spec.row_members self.now.screen) }
    {
        let rows = bracketed(alloc, row_items(alloc, &self.terminal)?.as_slice())?;
        let size = size_text(alloc, self.terminal.size().rows, self.terminal.size().cols)?;
        push_member(text, b"rows", rows.as_slice())?;
        push_member(text, b"size", size.as_slice())?;
        text.extend_from_slice(b"\"visible\":")?;
        text.extend_from_slice(truth(self.terminal.visible()))
    }
}

/// The first members of the object of a case: its `name`, and the place where it is `stuck`, if it is. Fails only
/// when out of memory.
pub fn case_members(alloc: Global, name: &[u8], stuck: Option<usize>) -> Result<Vec<u8>, AllocError>
    ensures { IfOk result (λ front. front.items ≡ spec.case_members name.now stuck) }
{
    let mut front = Vec::new(alloc);
    let shown = quoted(alloc, name)?;
    push_member(&mut front, b"name", shown.as_slice())?;
    if let Some(at) = stuck {
        let place = format!(in alloc; "{at}")?;
        push_member(&mut front, b"stuck", place.as_bytes())?;
    }
    Ok(front)
}

/// A member for `push_object` that is a list of these `items`, which are separated by commas. Fails only when out of
/// memory.
pub fn list_member(alloc: Global, name: &[u8], items: &[u8]) -> Result<Vec<u8>, AllocError>
    ensures { IfOk result (λ text. text.items ≡ spec.list_member name.now items.now) }
{
    let mut text = Vec::new(alloc);
    let value = bracketed(alloc, items)?;
    push_member(&mut text, name, value.as_slice())?;
    Ok(text)
}

/// Adds a member and the comma after it.
fn push_member(text: &mut Vec<u8>, name: &[u8], value: &[u8]) -> Result<(), AllocError>
    ensures { OnOk result (text.new.items ≡ text.old.items ++ spec.member name.now value.now) }
{
    text.push(b'"')?;
    text.extend_from_slice(name)?;
    text.extend_from_slice(b"\":")?;
    text.extend_from_slice(value)?;
    text.push(b',')?;
    Ok(())
}

/// A text in quotes, with a backslash before each quote and backslash.
fn quoted(alloc: Global, bytes: &[u8]) -> Result<Vec<u8>, AllocError>
    ensures { IfOk result (λ text. text.items ≡ spec.quoted bytes.now) }
{
    let mut text = Vec::from_slice(alloc, b"\"")?;
    for byte in bytes {
        push_escaped(&mut text, *byte)?;
    }
    text.push(b'"')?;
    Ok(text)
}

/// A text in quotes that needs no backslash.
fn quoted_plainly(alloc: Global, bytes: &[u8]) -> Result<Vec<u8>, AllocError>
    ensures { IfOk result (λ text. text.items ≡ spec.plainly_quoted bytes.now) }
{
    enclosed(alloc, b'"', bytes, b'"')
}

fn bracketed(alloc: Global, items: &[u8]) -> Result<Vec<u8>, AllocError>
    ensures { IfOk result (λ text. text.items ≡ spec.bracketed items.now) }
{
    enclosed(alloc, b'[', items, b']')
}

/// The `bytes` with the bytes `first` and `last` around them.
fn enclosed(alloc: Global, first: u8, bytes: &[u8], last: u8) -> Result<Vec<u8>, AllocError>
    ensures { IfOk result (λ text. text.items ≡ first ∷ (bytes.now ++ last ∷ [])) }
{
    let mut text = Vec::from_slice(alloc, &[first])?;
    text.extend_from_slice(bytes)?;
    text.push(last)?;
    Ok(text)
}

fn pair(alloc: Global, first: usize, second: usize) -> Result<Vec<u8>, AllocError>
    ensures { IfOk result (λ text. text.items ≡ spec.pair first second) }
{
    let text = format!(in alloc; "[{first},{second}]")?;
    Vec::from_slice(alloc, text.as_bytes())
}

fn size_text(alloc: Global, rows: usize, cols: usize) -> Result<Vec<u8>, AllocError>
    ensures { IfOk result (λ text. text.items ≡ spec.size_text rows cols) }
{
    let mut text = Vec::from_slice(alloc, b"{\"cols\":")?;
    let numbers = format!(in alloc; "{cols},\"rows\":{rows}")?;
    text.extend_from_slice(numbers.as_bytes())?;
    text.push(b'}')?;
    Ok(text)
}

fn truth(value: bool) -> &'static [u8]
    ensures { result.now ≡ spec.truth value }
{
    either(value, b"true", b"false")
}

/// The word for a character set, in quotes.
fn set_word(graphic: bool) -> &'static [u8]
    ensures { result.now ≡ spec.set_value graphic }
{
    either(graphic, b"\"graphic\"", b"\"plain\"")
}
