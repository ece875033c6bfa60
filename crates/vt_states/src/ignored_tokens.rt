//! Whether the terminal ignores a token, wholly or in one of its numbers.

ghost use Rattle.std.specs.{List.{list_any}, Prelude.{◌≡◌}};
ghost use Rattle.vt_states.specs.Ignored as spec;

use crate::ignored::{Numbers, is_unknown};
use vt_term::{Function, Token};

fn is_final(byte: u8) -> bool
    ensures { result ≡ spec.is_final byte }
{
    matches!(byte, 0x40..=0x7e)
}

fn is_escape_final(byte: u8) -> bool
    ensures { result ≡ spec.is_escape_final byte }
{
    matches!(byte, 0x30..=0x7e)
}

fn any_final(body: &[u8]) -> bool
    ensures { result ≡ list_any spec.is_final body.now }
{
    body.iter().any(|byte| is_final(*byte))
}

fn any_escape_final(body: &[u8]) -> bool
    ensures { result ≡ list_any spec.is_escape_final body.now }
{
    body.iter().any(|byte| is_escape_final(*byte))
}

/// Whether `behind`, the bytes after ESC, has a final byte.
fn has_final(behind: &[u8]) -> bool
    ensures { result ≡ spec.has_final behind.now }
{
    match behind {
        [] => false,
        [b'[', body @ ..] => any_final(body),
        [..] => any_escape_final(behind),
    }
}

/// Whether `bytes`, which are a token, are a whole sequence: they begin with ESC and have a final byte.
fn is_whole_sequence(bytes: &[u8]) -> bool
    ensures { result ≡ spec.is_whole_sequence bytes.now }
{
    match bytes {
        [27, behind @ ..] => has_final(behind),
        [] | [_, ..] => false,
    }
}

/// Whether one of the `numbers` of this kind is unknown.
fn any_unknown(kind: Numbers, numbers: &[Option<u16>]) -> bool
    ensures { result ≡ list_any (spec.is_unknown kind) numbers.now }
{
    numbers.iter().any(|number| is_unknown(kind, *number))
}

/// Whether the terminal has no such `function`, or not with one of its numbers.
pub fn ignores(function: Function<'_>) -> bool
    ensures { result ≡ spec.ignores function.entry }
{
    match function {
        Function::Ignored => true,
        Function::SelectRendition(numbers) => any_unknown(Numbers::Renditions, numbers.as_slice()),
        Function::Modes(kind, _, numbers) => any_unknown(
            Numbers::ModesOf(kind),
            numbers.as_slice(),
        ),
        Function::Print(_) | Function::LineFeed | Function::CarriageReturn => false,
        Function::Backspace | Function::Tab | Function::ShiftOut | Function::ShiftIn => false,
        Function::ReverseIndex | Function::NextLine | Function::CursorUp(_) => false,
        Function::CursorDown(_) | Function::CursorForward(_) | Function::CursorBack(_) => false,
        Function::CursorColumn(_) | Function::CursorRow(_) => false,
        Function::CursorPosition(_, _) | Function::EraseLine(_) => false,
        Function::EraseDisplay(_) | Function::EraseCells(_) | Function::InsertCells(_) => false,
        Function::DeleteCells(_) | Function::InsertLines(_) | Function::DeleteLines(_) => false,
        Function::ScrollUp(_) | Function::ScrollDown(_) | Function::Margins(_, _) => false,
        Function::Designate(_, _) => false,
    }
}

/// Whether a token is a whole sequence that the terminal ignores, or one of whose numbers it ignores.
pub fn is_ignored(token: &Token) -> bool
    ensures { result ≡ spec.is_ignored token.now }
{
    is_whole_sequence(token.bytes()) && ignores(token.function())
}
