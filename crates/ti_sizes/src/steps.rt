//! Whether a function has one effect at all sizes.

ghost use Rattle.std.specs.Prelude.{◌≡◌, ◌+◌, ◌-◌, ◌≤◌, IsTrue};
ghost use Rattle.ti_sizes.specs.Steady as spec;
ghost use Rattle.vt_term.specs.Function as functions;
ghost use Rattle.vt_term.specs.Size.{max_rows, max_cols};

use ti_rows::Row;
use vt_effects::{Effect, Margins, Move, Start};
use vt_term::{Function, MAX_COLS, MAX_ROWS, Size};

/// The greatest size of a terminal.
pub(crate) fn greatest() -> Size
    ensures rows { result.rows ≡ max_rows }
    ensures cols { result.cols ≡ max_cols }
{
    Size::new(MAX_ROWS, MAX_COLS).unwrap()
}

/// The greatest row that each size has which allows `row`.
fn last_row(row: Row) -> u16
    ensures { spec.HasRow row result }
{
    match row {
        Row::Cup(line, _) | Row::Vpa(line) | Row::Csr(_, line) => line.max(1),
        Row::Cuu(n) | Row::Cud(n) => n.max(1),
        _ => 1,
    }
}

/// The greatest column that each size has which allows `row`.
fn last_col(row: Row) -> u16
    ensures { spec.HasCol row result }
{
    match row {
        Row::Cup(_, col) | Row::Hpa(col) => col.max(1),
        Row::Cub(n) | Row::Cuf(n) => n.max(1),
        Row::Ech(n) => n.saturating_sub(1).max(1),
        _ => 1,
    }
}

/// Whether each size that allows `row` has the row `number`, which counts from 1.
fn has_row(row: Row, number: u16) -> bool
    ensures { IsTrue result → spec.HasRow row (number - 1) }
{
    number.saturating_sub(1) <= last_row(row)
}

/// Whether each size that allows `row` has the column `number`, which counts from 1.
fn has_col(row: Row, number: u16) -> bool
    ensures { IsTrue result → spec.HasCol row (number - 1) }
{
    number.saturating_sub(1) <= last_col(row)
}

/// Whether the margins are the whole screen after `effect`, from each start of `row` at each size.
fn knows_whole(row: Row, effect: &Effect) -> bool
    ensures { IsTrue result → spec.KnowsWhole row effect.now }
{
    row.start(greatest()).margins == Margins::Whole && effect.margins.is_none()
}

/// Whether a move by `n` from `from` ends at `last` at most.
fn ends_by(from: u16, n: u16, last: u16) -> bool
    ensures { IsTrue result → from + n ≤ last }
{
    n <= last && from <= last - n
}

/// Whether there is room for a move down by `n` after `effect`, from each start of `row` at each size.
fn has_rows_for(row: Row, effect: &Effect, n: u16) -> bool
    ensures { IsTrue result → spec.HasRowsFor row effect.now n }
{
    let size = greatest();
    match effect.row {
        Move::Kept => usize::from(row.start(size).row_max) + usize::from(n) < size.rows,
        Move::To(to) => ends_by(to, n, last_row(row)),
        Move::Back(_) | Move::Forward(_) => false,
    }
}

/// Whether there is room for a move right by `n` after `effect`, from each start of `row` at each size.
fn has_cols_for(row: Row, effect: &Effect, n: u16) -> bool
    ensures { IsTrue result → spec.HasColsFor row effect.now n }
{
    let size = greatest();
    match effect.col {
        Move::Kept => usize::from(row.start(size).col_max) + usize::from(n) < size.cols,
        Move::To(to) => ends_by(to, n, last_col(row)),
        Move::Back(_) | Move::Forward(_) => false,
    }
}

/// Whether a move left by `n` after `effect` is cut at no size.
fn goes_left(row: Row, effect: &Effect, n: u16) -> bool
    ensures back { IsTrue result → spec.IsSteadyStep row (functions.CursorBack n) effect.now }
    ensures one { n ≡ 1 → IsTrue result → spec.IsSteadyStep row functions.Backspace effect.now }
{
    usize::from(n) <= effect.col.leads_from(row.start(greatest()).col_min)
}

/// Whether a move up by `n` after `effect` is cut at no size.
fn goes_up(row: Row, effect: &Effect, n: u16) -> bool
    ensures { IsTrue result → spec.IsSteadyStep row (functions.CursorUp n) effect.now }
{
    knows_whole(row, effect)
        && usize::from(n) <= effect.row.leads_from(row.start(greatest()).row_min)
}

/// Whether a move right by `n` after `effect` is cut at no size.
fn goes_right(row: Row, effect: &Effect, n: u16) -> bool
    ensures { IsTrue result → spec.IsSteadyStep row (functions.CursorForward n) effect.now }
{
    has_cols_for(row, effect, n)
}

/// Whether a move down by `n` after `effect` is cut at no size.
fn goes_down(row: Row, effect: &Effect, n: u16) -> bool
    ensures { IsTrue result → spec.IsSteadyStep row (functions.CursorDown n) effect.now }
{
    knows_whole(row, effect) && has_rows_for(row, effect, n)
}

/// Whether the cursor is on the last line of its region after `effect`, from each start of `row` at each size.
fn is_at_bottom(row: Row, effect: &Effect) -> bool
    ensures { IsTrue result → spec.IsAtBottom row effect.now }
{
    let size = greatest();
    let start = row.start(size);
    start.margins == Margins::OnBottom
        && effect.row == Move::Kept
        && usize::from(start.row_max) + 1 == size.rows
}

/// Whether the cursor is on the first line of its region after `effect`, from each start of `row` at each size.
fn is_at_top(row: Row, effect: &Effect) -> bool
    ensures { IsTrue result → spec.IsAtTop row effect.now }
{
    let start = row.start(greatest());
    start.margins == Margins::OnTop && effect.row.leads_from(start.row_min) == 0
}

/// Whether one line down after `effect` is a move at each size, or a scroll at each.
fn feeds(row: Row, effect: &Effect) -> bool
    ensures line { IsTrue result → spec.IsSteadyStep row functions.LineFeed effect.now }
    ensures next { IsTrue result → spec.IsSteadyStep row functions.NextLine effect.now }
{
    is_at_bottom(row, effect) || (knows_whole(row, effect) && has_rows_for(row, effect, 1))
}

/// Whether one line up after `effect` is a move at each size, or a scroll at each.
fn reverses(row: Row, effect: &Effect) -> bool
    ensures { IsTrue result → spec.IsSteadyStep row functions.ReverseIndex effect.now }
{
    is_at_top(row, effect)
        || (knows_whole(row, effect) && 1 <= effect.row.leads_from(row.start(greatest()).row_min))
}

/// Whether `function`, after `effect`, does the same at each size that allows `row`. No tab counts as such.
pub(crate) fn is_steady_step(row: Row, function: Function<'_>, effect: &Effect) -> bool
    ensures { IsTrue result → spec.IsSteadyStep row function.entry effect.now }
{
    match function {
        Function::CarriageReturn
        | Function::ShiftOut
        | Function::ShiftIn
        | Function::EraseLine(_)
        | Function::EraseDisplay(_)
        | Function::Designate(_, _)
        | Function::SelectRendition(_)
        | Function::Modes(_, _, _)
        | Function::Ignored => true,
        Function::CursorRow(line) => has_row(row, line),
        Function::CursorColumn(col) => has_col(row, col),
        Function::CursorPosition(line, col) => has_row(row, line) && has_col(row, col),
        Function::EraseCells(n) => has_col(row, n),
        Function::Margins(_, last) => last != 0 && has_row(row, last),
        Function::Backspace => goes_left(row, effect, 1),
        Function::CursorBack(n) => goes_left(row, effect, n),
        Function::CursorForward(n) => goes_right(row, effect, n),
        Function::CursorUp(n) => goes_up(row, effect, n),
        Function::CursorDown(n) => goes_down(row, effect, n),
        Function::LineFeed | Function::NextLine => feeds(row, effect),
        Function::ReverseIndex => reverses(row, effect),
        Function::Tab => false,
        // these have no record at any size
        Function::Print(_)
        | Function::InsertCells(_)
        | Function::DeleteCells(_)
        | Function::InsertLines(_)
        | Function::DeleteLines(_)
        | Function::ScrollUp(_)
        | Function::ScrollDown(_) => false,
    }
}
