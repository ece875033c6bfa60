//! The fields of a line of source text, for messages.

ghost use Rattle.std.specs.Prelude.{◌≡◌, ◌++◌, ◌∷◌, IfNone, IfSome, None, Some, length};
ghost use Rattle.ti_source.specs.{Marks.{comma}, Scan.{comma_in}};

use crate::extended_names::is_extended;
use ti_caps::{Kind, Opener, by_name, kind};
use ti_source::{FaultKind, field_end, is_white, skip_white};

/// A field as a line has it.
#[derive(Clone, Copy)]
pub struct FieldText<'a> {
    /// The whole field without its comma.
    pub text: &'a [u8],
    /// The part before its mark.
    pub name: &'a [u8],
    /// The first `@`, `#` or `=`, if it has one.
    mark: Option<u8>,
    /// The part after its mark.
    value: &'a [u8],
}

impl FieldText<'_> {
    /// Whether the field has the form of a number.
    pub fn is_number(&self) -> bool {
        self.mark == Some(b'#')
    }

    /// Whether the field belongs to no capability, of terminfo(5) or of ncurses, and includes no entry.
    pub fn is_unknown(&self) -> bool {
        let is_use = self.name == b"use".as_slice()
            && self.mark == Some(b'=')
            && !self.value.is_empty();
        !is_use && !self.is_left_out() && by_name(self.name).is_none() && !is_extended(self.name)
    }

    /// Whether the field is empty, or left out by a period.
    pub fn is_left_out(&self) -> bool {
        self.text.is_empty() || self.text.first() == Some(&b'.')
    }

    /// The first byte after a backslash that has no meaning there, if the field is a capability's string and has one.
    pub fn odd_escape(&self) -> Option<u8> {
        if self.mark != Some(b'=') || self.is_left_out() || by_name(self.name).is_none() {
            return None;
        }
        let mut opener = Opener::Nothing;
        for byte in self.value {
            if matches!(opener, Opener::Backslash) && !has_meaning(*byte) {
                return Some(*byte);
            }
            opener = opener.after(*byte);
        }
        None
    }

    /// Whether the field has the fault `fault`.
    fn has(&self, fault: FaultKind) -> bool {
        let Some(cap) = by_name(self.name) else {
            return false;
        };
        match fault {
            FaultKind::WrongKind => self.has_form_of_other(kind(cap)),
            FaultKind::BadNumber => self.is_number() && number_of(self.value).is_none(),
            FaultKind::NumberRange => {
                self.is_number()
                    && number_of(self.value).is_some_and(|number| number > 2_147_483_647)
            }
            FaultKind::NoName | FaultKind::OpenField | FaultKind::BadEscape => false,
            FaultKind::TooLong | FaultKind::NoMemory => false,
        }
    }

    /// Whether the field has the form of a flag, a number or a string, and `kind` is another.
    fn has_form_of_other(&self, kind: Kind) -> bool {
        match self.mark {
            Some(b'#') => kind != Kind::Number,
            Some(b'=') => kind != Kind::String,
            Some(_) => false,
            None => kind != Kind::Flag,
        }
    }
}

/// Whether a backslash before `byte` has a meaning, terminfo(5).
fn has_meaning(byte: u8) -> bool {
    byte.is_ascii_digit() && byte < b'8' || b"Eenlrtbfas^\\,:".contains(&byte)
}

/// The line `number` of `text`, counted from 1, without its LF and a CR before that; empty if there is no such line.
pub fn line_of(text: &[u8], number: u32) -> &[u8] {
    let mut rest = text;
    for _ in 1..number {
        match rest.iter().position(|byte| *byte == b'\n') {
            Some(end) => rest = &rest[end + 1..],
            None => return &[],
        }
    }
    match rest.iter().position(|byte| *byte == b'\n') {
        Some(end) => without_cr(&rest[..end]),
        None => rest,
    }
}

/// The bytes of `line`, which stood before an LF, without a CR at their end: readers of a source drop it.
pub(crate) fn without_cr(line: &[u8]) -> &[u8] {
    match line {
        [front @ .., b'\r'] => front,
        _ => line,
    }
}

/// The first field of `line` that has the fault `fault`, if that is one that a single field shows.
pub fn faulty_field(line: &[u8], fault: FaultKind) -> Option<FieldText<'_>> {
    let mut rest = line;
    for _ in 0..=line.len() {
        let (field, after) = next_field(rest);
        if field.has(fault) {
            return Some(field);
        }
        if after.is_empty() {
            return None;
        }
        rest = after;
    }
    None
}

/// The first field of `rest`, the rest of a line, and the part after its comma.
pub fn next_field(rest: &[u8]) -> (FieldText<'_>, &[u8]) {
    match cut_comma(rest) {
        Some((field, behind)) => (split(field), behind),
        None => (split(rest), &[]),
    }
}

/// The part of `rest` before the comma that ends its first field, and the part behind that comma; `None` if there is no
/// such comma.
pub(crate) fn cut_comma(rest: &[u8]) -> Option<(&[u8], &[u8])>
    ensures parts { IfSome result (λ x. rest.now ≡ x.0.now ++ comma ∷ x.1.now) }
    ensures first { IfSome result (λ x. comma_in rest.now ≡ Some (length x.0.now)) }
    ensures none { IfNone result (comma_in rest.now ≡ None) }
{
    let at = field_end(rest)?;
    Some((&rest[..at], &rest[at + 1..]))
}

/// The parts of `field`, the text before a comma. White space before it isn't part of it, and the white space behind it
/// is only if it has a mark: a value goes on up to the comma.
pub(crate) fn split(field: &[u8]) -> FieldText<'_> {
    let text = skip_white(field);
    match text
        .iter()
        .position(|byte| matches!(*byte, b'@' | b'#' | b'='))
    {
        Some(at) => FieldText {
            text,
            name: &text[..at],
            mark: Some(text[at]),
            value: &text[at + 1..],
        },
        None => {
            let name = without_white_end(text);
            FieldText {
                text: name,
                name,
                mark: None,
                value: &[],
            }
        }
    }
}

/// `text` without the spaces and tabs at its end.
fn without_white_end(text: &[u8]) -> &[u8] {
    let mut rest = text;
    while let [front @ .., last] = rest {
        if !is_white(*last) {
            break;
        }
        rest = front;
    }
    rest
}

/// The value of the number `text`, which stops at the greatest of 64 bits; `None` for a text that is no number.
fn number_of(text: &[u8]) -> Option<u64> {
    let (digits, radix) = match text {
        [b'0', b'x', digits @ ..] => (digits, 16),
        [b'0', _, ..] => (text, 8),
        _ => (text, 10),
    };
    if digits.is_empty() {
        return None;
    }
    let mut number: u64 = 0;
    for byte in digits {
        let digit = char::from(*byte).to_digit(radix)?;
        number = number
            .saturating_mul(u64::from(radix))
            .saturating_add(u64::from(digit));
    }
    Some(number)
}
