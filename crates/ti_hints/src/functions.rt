//! Functions that T knows.

use vt_term::{Function, ModeKind, RenditionChange};

/// Whether T does all that `function` asks for. It ignores some functions, unknown renditions, and unknown modes.
pub(crate) fn does_all(function: Function<'_>) -> bool {
    match function {
        Function::Ignored => false,
        Function::SelectRendition(numbers) => knows_renditions(numbers.as_slice()),
        Function::Modes(kind, _, numbers) => knows_modes(kind, numbers.as_slice()),
        Function::Print(_) | Function::LineFeed | Function::CarriageReturn => true,
        Function::Backspace | Function::Tab | Function::ShiftOut | Function::ShiftIn => true,
        Function::ReverseIndex | Function::NextLine => true,
        Function::CursorUp(_) | Function::CursorDown(_) => true,
        Function::CursorForward(_) | Function::CursorBack(_) => true,
        Function::CursorColumn(_) | Function::CursorRow(_) | Function::CursorPosition(_, _) => true,
        Function::EraseLine(_) | Function::EraseDisplay(_) | Function::EraseCells(_) => true,
        Function::InsertCells(_) | Function::DeleteCells(_) => true,
        Function::InsertLines(_) | Function::DeleteLines(_) => true,
        Function::ScrollUp(_) | Function::ScrollDown(_) | Function::Margins(_, _) => true,
        Function::Designate(_, _) => true,
    }
}

fn knows_renditions(numbers: &[Option<u16>]) -> bool {
    numbers.iter().all(|number| RenditionChange::of(number.unwrap_or(0)).is_some())
}

fn knows_modes(kind: ModeKind, numbers: &[Option<u16>]) -> bool {
    numbers.iter().all(|number| match kind {
        ModeKind::Standard => *number == Some(4),
        ModeKind::Private => *number == Some(7) || *number == Some(25),
    })
}
