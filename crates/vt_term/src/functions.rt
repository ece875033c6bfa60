//! The function that a whole token names.

ghost use Rattle.std.specs.Prelude.{◌≡◌};
ghost use Rattle.vt_term.specs.Function as spec;

use vt_screen::{CodeElement, EraseExtent, Function, ModeKind, Parameters};

/// The function of an escape sequence with the one byte `last` after ESC.
pub(crate) fn escape_final<'a>(last: u8) -> Function<'a>
    ensures { result ≡ spec.escape_final last }
{
    match last {
        b'D' => Function::LineFeed,
        b'E' => Function::NextLine,
        b'M' => Function::ReverseIndex,
        _ => Function::Ignored,
    }
}

/// The function that designates `set`, by the final byte `last`.
pub(crate) fn designation<'a>(set: CodeElement, last: u8) -> Function<'a>
    ensures { result ≡ spec.designation set last }
{
    match last {
        b'0' => Function::Designate(set, true),
        b'B' => Function::Designate(set, false),
        _ => Function::Ignored,
    }
}

/// The function of a byte outside sequences.
pub(crate) fn single<'a>(byte: u8) -> Function<'a>
    ensures { result ≡ spec.single byte }
{
    match byte {
        32..=126 => Function::Print(byte),
        8 => Function::Backspace,
        9 => Function::Tab,
        10 => Function::LineFeed,
        13 => Function::CarriageReturn,
        14 => Function::ShiftOut,
        15 => Function::ShiftIn,
        _ => Function::Ignored,
    }
}

/// The function of a control sequence with these numbers and the final byte `last`.
pub(crate) fn of_numbers(last: u8, numbers: &[Option<u16>]) -> Function<'_>
    ensures { result ≡ spec.of_numbers last numbers.now }
{
    match last {
        b'H' | b'f' => cursor_position(numbers),
        b'r' => margins(numbers),
        b'm' => Function::SelectRendition(Parameters::new(numbers)),
        b'h' => Function::Modes(ModeKind::Standard, true, Parameters::new(numbers)),
        b'l' => Function::Modes(ModeKind::Standard, false, Parameters::new(numbers)),
        _ => of_one_number(last, numbers),
    }
}

/// The function of a control sequence with a question mark, these numbers and the final byte `last`.
pub(crate) fn of_private_numbers(last: u8, numbers: &[Option<u16>]) -> Function<'_>
    ensures { result ≡ spec.of_private_numbers last numbers.now }
{
    match last {
        b'h' => Function::Modes(ModeKind::Private, true, Parameters::new(numbers)),
        b'l' => Function::Modes(ModeKind::Private, false, Parameters::new(numbers)),
        _ => Function::Ignored,
    }
}

fn cursor_position<'a>(numbers: &[Option<u16>]) -> Function<'a>
    ensures { result ≡ spec.cursor_position numbers.now }
{
    match numbers {
        [row] => Function::CursorPosition(counted(*row), 1),
        [row, col] => Function::CursorPosition(counted(*row), counted(*col)),
        _ => Function::Ignored,
    }
}

fn margins<'a>(numbers: &[Option<u16>]) -> Function<'a>
    ensures { result ≡ spec.margins numbers.now }
{
    match numbers {
        [first] => Function::Margins(first.unwrap_or(0), 0),
        [first, last] => Function::Margins(first.unwrap_or(0), last.unwrap_or(0)),
        _ => Function::Ignored,
    }
}

fn of_one_number<'a>(last: u8, numbers: &[Option<u16>]) -> Function<'a>
    ensures { result ≡ spec.of_one_number last numbers.now }
{
    match numbers {
        [number] => by_number(last, *number),
        _ => Function::Ignored,
    }
}

/// The function of a control sequence with one number and the final byte `last`.
fn by_number<'a>(last: u8, number: Option<u16>) -> Function<'a>
    ensures { result ≡ spec.by_number last number }
{
    match last {
        b'J' => display_part(number.unwrap_or(0)),
        b'K' => line_part(number.unwrap_or(0)),
        _ => counting(last, counted(number)),
    }
}

fn display_part<'a>(number: u16) -> Function<'a>
    ensures { result ≡ spec.display_part number }
{
    match number {
        0 => Function::EraseDisplay(EraseExtent::ToEnd),
        1 => Function::EraseDisplay(EraseExtent::FromStart),
        2 => Function::EraseDisplay(EraseExtent::Whole),
        _ => Function::Ignored,
    }
}

fn line_part<'a>(number: u16) -> Function<'a>
    ensures { result ≡ spec.line_part number }
{
    match number {
        0 => Function::EraseLine(EraseExtent::ToEnd),
        1 => Function::EraseLine(EraseExtent::FromStart),
        2 => Function::EraseLine(EraseExtent::Whole),
        _ => Function::Ignored,
    }
}

/// The function of a control sequence with one count and the final byte `last`.
fn counting<'a>(last: u8, count: u16) -> Function<'a>
    ensures { result ≡ spec.counting last count }
{
    match last {
        b'@' => Function::InsertCells(count),
        b'A' => Function::CursorUp(count),
        b'B' => Function::CursorDown(count),
        b'C' => Function::CursorForward(count),
        b'D' => Function::CursorBack(count),
        b'G' => Function::CursorColumn(count),
        b'L' => Function::InsertLines(count),
        b'M' => Function::DeleteLines(count),
        b'P' => Function::DeleteCells(count),
        b'S' => Function::ScrollUp(count),
        b'T' => Function::ScrollDown(count),
        b'X' => Function::EraseCells(count),
        b'd' => Function::CursorRow(count),
        _ => Function::Ignored,
    }
}

/// A count whose default is 1, and in which 0 counts as 1.
fn counted(number: Option<u16>) -> u16
    ensures { result ≡ spec.counted number }
{
    number.unwrap_or(1).max(1)
}
