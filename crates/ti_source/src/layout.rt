//! Cutting a source text: into lines, a line into fields, a field into a name and a value.

ghost use Rattle.std.specs.Prelude.{◌≡◌, ℕ, ◌+◌, ◌<◌, ◌≤◌, ◌==◌, [], ◌∷◌, length, take, drop, IfSome, IfNone};
ghost use Rattle.std.specs.{Prelude.{option_map, slice_index}, List.{list_all}};
ghost use Rattle.ti_source.specs.Layout.{lines_of, is_white, skip_white, trim_end, Cut, put_field, cut_of, mark_of};
ghost use Rattle.ti_source.specs.{Layout.{marked_with, marked_in}, Marks.{comma}};
ghost use Rattle.ti_source.specs.Scan.{comma_in, feed_in, without_return};

use ti_caps::Opener;

/// The mark between a name and a value.
#[derive(Clone, Copy, Debug, PartialEq, Eq)]
pub enum Mark {
    /// `@`, which takes a capability back.
    At,
    /// `#`, before a number.
    Hash,
    /// `=`, before a string.
    Equals,
}

/// The place of the first line feed.
fn line_end(text: &[u8]) -> Option<usize>
    ensures place { result ≡ feed_in text.now }
    ensures range { IfSome result (λ at. at < length text.now) }
{
    let mut at = 0;
    for byte in text {
        if *byte == b'\n' {
            return Some(at);
        }
        at += 1;
    }
    None
}

/// A line without a carriage return at its end.
#[tactic(auto, using(crate::proofs::Layouts::returned, crate::proofs::Layouts::not_returned, crate::proofs::Layouts::empty_line))]
fn without_return(line: &[u8]) -> &[u8]
    ensures { result.now ≡ without_return line.now }
{
    match line {
        [front @ .., last] if *last == b'\r' => front,
        _ => line,
    }
}

/// The first line of `text` without its end, a line feed with or without a carriage return before it, and the bytes
/// behind that end; `None` if the text is empty.
#[tactic(auto, using(std::proofs::lemmas::List::take_rest, crate::proofs::Layouts::line_cut, crate::proofs::Layouts::line_whole, crate::proofs::Tests::filled))]
pub fn cut_line(text: &[u8]) -> Option<(&[u8], &[u8])>
    ensures found { IfSome result (λ x. lines_of text.now ≡ x.0.now ∷ lines_of x.1.now) }
    ensures shorter { IfSome result (λ x. length x.1.now < length text.now) }
    ensures none { IfNone result (lines_of text.now ≡ []) }
{
    if text.is_empty() {
        return None;
    }
    match line_end(text) {
        None => Some(text.split_at(text.len())),
        Some(at) => Some((without_return(&text[..at]), &text[at + 1..])),
    }
}

/// Whether `byte` is white space within a line: a space or a tab.
pub fn is_white(byte: u8) -> bool
    ensures { result ≡ is_white byte }
{
    byte == b' ' || byte == b'\t'
}

/// Whether all bytes are white space.
pub(crate) fn is_blank(bytes: &[u8]) -> bool
    ensures { result ≡ list_all is_white bytes.now }
{
    bytes.iter().all(|byte| is_white(*byte))
}

/// `bytes` without the white space at its start, as many spaces and tabs as there are.
pub fn skip_white(bytes: &[u8]) -> &[u8]
    ensures { result.now ≡ skip_white bytes.now }
{
    let mut rest = bytes;
    while let [first, behind @ ..] = rest {
        if !is_white(*first) {
            break;
        }
        rest = behind;
    }
    rest
}

/// `bytes` without the white space at its end.
#[tactic(auto, using(crate::proofs::Layouts::trimmed, crate::proofs::Layouts::not_trimmed, crate::proofs::Layouts::empty_trimmed))]
pub(crate) fn trim_end(bytes: &[u8]) -> &[u8]
    ensures { result.now ≡ trim_end bytes.now }
{
    let mut rest = bytes;
    while let [front @ .., last] = rest {
        if !is_white(*last) {
            break;
        }
        rest = front;
    }
    rest
}

/// The place of the comma that ends the first field of `line`, a part of a line of source text; `None` if no comma ends
/// it. A backslash takes the byte behind it, a comma too; a caret takes a backslash behind it (terminfo(5)).
#[tactic(auto, unfolding(crate::specs::Scan::comma_in))]
pub fn field_end(line: &[u8]) -> Option<usize>
    ensures place { result ≡ comma_in line.now }
    ensures range { IfSome result (λ at. at < length line.now) }
    ensures mark { IfSome result (λ at. slice_index line.now at ≡ comma) }
{
    let mut opener = Opener::Nothing;
    let mut at = 0;
    for byte in line {
        if opener.ends_field(*byte) {
            return Some(at);
        }
        opener = opener.after(*byte);
        at += 1;
    }
    None
}

/// The first field of `line` that a comma ends, and the text after the comma; `None` if there is no such field.
#[tactic(auto, using(std::proofs::lemmas::List::take_rest, crate::proofs::Layouts::field_cut, crate::proofs::Layouts::field_whole))]
pub fn cut_field(line: &[u8]) -> Option<(&[u8], &[u8])>
    ensures found { IfSome result (λ x. cut_of line.now ≡ put_field x.0.now (cut_of x.1.now)) }
    ensures whole { IfSome result (λ x. length x.0.now + length x.1.now + 1 ≡ length line.now) }
    ensures none { IfNone result (cut_of line.now ≡ record { ended = []; last = line.now }) }
{
    match field_end(line) {
        None => None,
        Some(at) => Some((&line[..at], &line[at + 1..])),
    }
}

fn mark_of(byte: u8) -> Option<Mark>
    ensures { result ≡ mark_of byte }
{
    match byte {
        b'@' => Some(Mark::At),
        b'#' => Some(Mark::Hash),
        b'=' => Some(Mark::Equals),
        _ => None,
    }
}

/// The name in `field`, its first mark, and the value after the mark; `None` if it has no mark.
pub fn marked(field: &[u8]) -> Option<(&[u8], Mark, &[u8])>
    ensures { option_map (λ m. marked_with m.0.now m.1 m.2.now) result ≡ marked_in field.now }
{
    let mut at = 0;
    for byte in field {
        if let Some(mark) = mark_of(*byte) {
            return Some((&field[..at], mark, &field[at + 1..]));
        }
        at += 1;
    }
    None
}
