//! The row by which the cursor moves to a place: one with the shortest line.
ghost use Rattle.std.specs.Prelude.{ℕ, ◌≡◌, ◌<◌, ◌≤◌, length, Option, Some, IfSome};
ghost use Rattle.ti_conforms.specs.Certified.{IsChecked, text_of};
ghost use Rattle.cur_steps.specs.declared.beliefs.Place.{Place};
ghost use Rattle.cur_moves.specs.Moves.{Moves, IsAtMost, IsWay};
ghost use Rattle.ti_rows.specs.declared.rows.Row.{Row};
ghost use Rattle.ti_rows.specs.declared.rows.Row.TheVariants.{Cup, Home, Cr, Hpa, Vpa, Cub1, Cuf1, Cuu1, Cud1, Cub};
ghost use Rattle.ti_rows.specs.declared.rows.Row.TheVariants.{Cuf, Cuu, Cud};

use cur_steps::Place;
use ti_conforms::Certificate;
use ti_rows::Row;

/// A row, and the number of bytes of its line.
#[derive(Clone, Copy)]
pub(crate) struct Way {
    pub line: Row,
    pub bytes: usize,
}

/// A row with the shortest line that leads to line `row` and column `col`, from the cursor's place `from` if that is
/// known, else from anywhere.
pub(crate) fn shortest<C: Certificate>(checked: &C, from: Option<Place>, row: u16, col: u16) -> Way
    requires checked { IsChecked (C.table checked.now) }
    requires row { row < (C.table checked.now).rows }
    requires col { col < (C.table checked.now).cols }
    ensures way { IsWay (C.table checked.now) from row col result.line }
    ensures bytes { result.bytes ≡ length (text_of (C.table checked.now) result.line) }
    ensures least { (line : Row) → Moves (C.table checked.now).cols from row col line
        → IsAtMost (C.table checked.now) result.bytes line }
{
    let best = shorter(checked, straight(checked, row, col), by_corner(row, col));
    let Some(at) = from else {
        return best;
    };
    let cols = checked.cols();
    let best = shorter(checked, best, by_line_start(at, row, col));
    let best = shorter(checked, best, by_one(at, row, col, cols));
    let best = shorter(checked, best, by_count(at, row, col, cols));
    let best = shorter(checked, best, by_column_name(at, row, col));
    shorter(checked, best, by_row_name(at, row, col))
}

/// The way by `cup`, which leads to line `row` and column `col` from every place.
fn straight<C: Certificate>(checked: &C, row: u16, col: u16) -> Way
    requires checked { IsChecked (C.table checked.now) }
    requires row { row < (C.table checked.now).rows }
    requires col { col < (C.table checked.now).cols }
    ensures line { result.line ≡ Cup row col }
    ensures way { (from : Option Place) → IsWay (C.table checked.now) from row col result.line }
    ensures bytes { result.bytes ≡ length (text_of (C.table checked.now) result.line) }
{
    let line = Row::Cup(row, col);
    Way {
        line,
        bytes: line_length(checked, line),
    }
}

/// The number of bytes of the line of the row `line`.
fn line_length<C: Certificate>(checked: &C, line: Row) -> usize
    ensures { result ≡ length (text_of (C.table checked.now) line) }
{
    match checked.line(line) {
        Some(bytes) => bytes.len(),
        None => 0,
    }
}

/// The row `other`, if its line is there and is shorter than that of `best`; else `best`.
fn shorter<C: Certificate>(checked: &C, best: Way, other: Option<Row>) -> Way
    requires bytes { best.bytes ≡ length (text_of (C.table checked.now) best.line) }
    ensures way { (from : Option Place) (row col : ℕ) → IsWay (C.table checked.now) from row col best.line
        → IfSome other (λ line. Moves (C.table checked.now).cols from row col line)
        → IsWay (C.table checked.now) from row col result.line }
    ensures bytes { result.bytes ≡ length (text_of (C.table checked.now) result.line) }
    ensures first { result.bytes ≤ best.bytes }
    ensures second { IfSome other (λ line. IsAtMost (C.table checked.now) result.bytes line) }
{
    let Some(line) = other else {
        return best;
    };
    match checked.line(line) {
        Some(bytes) if bytes.len() < best.bytes => Way {
            line,
            bytes: bytes.len(),
        },
        _ => best,
    }
}

/// `home`, if line `row` and column `col` are the corner.
fn by_corner(row: u16, col: u16) -> Option<Row>
    ensures moves { (cols : ℕ) (from : Option Place) → IfSome result (λ line. Moves cols from row col line) }
    ensures found { (cols : ℕ) (from : Option Place) → Moves cols from row col Home → result ≡ Some Home }
{
    (row == 0 && col == 0).then_some(Row::Home)
}

/// `cr`, if line `row` is that of the cursor, which is at `at`, and column `col` is the first one.
fn by_line_start(at: Place, row: u16, col: u16) -> Option<Row>
    ensures moves { (cols : ℕ) → IfSome result (λ line. Moves cols (Some at) row col line) }
    ensures found { (cols : ℕ) → Moves cols (Some at) row col Cr → result ≡ Some Cr }
{
    (at.row == row as usize && col == 0).then_some(Row::Cr)
}

/// A move by one from `at` to line `row` and column `col`, if that is a neighbor and no wrap is pending.
fn by_one(at: Place, row: u16, col: u16, cols: usize) -> Option<Row>
    ensures moves { IfSome result (λ line. Moves cols (Some at) row col line) }
    ensures left { Moves cols (Some at) row col Cub1 → result ≡ Some Cub1 }
    ensures right { Moves cols (Some at) row col Cuf1 → result ≡ Some Cuf1 }
    ensures up { Moves cols (Some at) row col Cuu1 → result ≡ Some Cuu1 }
    ensures down { Moves cols (Some at) row col Cud1 → result ≡ Some Cud1 }
{
    let to = Place {
        row: row as usize,
        col: col as usize,
    };
    if at.row == to.row && at.col == to.col + 1 && at.col < cols {
        Some(Row::Cub1)
    } else if at.row == to.row && to.col > 0 && at.col == to.col - 1 {
        Some(Row::Cuf1)
    } else if at.col == to.col && at.row == to.row + 1 {
        Some(Row::Cuu1)
    } else if at.col == to.col && to.row > 0 && at.row == to.row - 1 {
        Some(Row::Cud1)
    } else {
        None
    }
}

/// A move by a count from `at` to line `row` and column `col`, if one of them is the same and no wrap is pending.
fn by_count(at: Place, row: u16, col: u16, cols: usize) -> Option<Row>
    requires cols { cols ≤ 1000 }
    ensures moves { IfSome result (λ line. Moves cols (Some at) row col line) }
    ensures left { (n : ℕ) → Moves cols (Some at) row col (Cub n) → result ≡ Some (Cub n) }
    ensures right { (n : ℕ) → Moves cols (Some at) row col (Cuf n) → result ≡ Some (Cuf n) }
    ensures up { (n : ℕ) → Moves cols (Some at) row col (Cuu n) → result ≡ Some (Cuu n) }
    ensures down { (n : ℕ) → Moves cols (Some at) row col (Cud n) → result ≡ Some (Cud n) }
{
    let to = Place {
        row: row as usize,
        col: col as usize,
    };
    if at.row == to.row && at.col < to.col {
        Some(Row::Cuf((to.col - at.col) as u16))
    } else if at.row == to.row && to.col < at.col && at.col < cols {
        Some(Row::Cub((at.col - to.col) as u16))
    } else if at.col == to.col && at.row < to.row {
        Some(Row::Cud((to.row - at.row) as u16))
    } else if at.col == to.col && to.row < at.row && at.row - to.row < 65_536 {
        Some(Row::Cuu((at.row - to.row) as u16))
    } else {
        None
    }
}

/// `hpa` to column `col`, if line `row` is that of the cursor, which is at `at`.
fn by_column_name(at: Place, row: u16, col: u16) -> Option<Row>
    ensures moves { (cols : ℕ) → IfSome result (λ line. Moves cols (Some at) row col line) }
    ensures found { (cols n : ℕ) → Moves cols (Some at) row col (Hpa n) → result ≡ Some (Hpa n) }
{
    (at.row == row as usize).then_some(Row::Hpa(col))
}

/// `vpa` to line `row`, if column `col` is that of the cursor, which is at `at`.
fn by_row_name(at: Place, row: u16, col: u16) -> Option<Row>
    ensures moves { (cols : ℕ) → IfSome result (λ line. Moves cols (Some at) row col line) }
    ensures found { (cols n : ℕ) → Moves cols (Some at) row col (Vpa n) → result ≡ Some (Vpa n) }
{
    (at.col == col as usize).then_some(Row::Vpa(row))
}
