//! Sets of lines, and why they aren't those of an entry.

ghost use Rattle.std.specs.Prelude.{◌≡◌, None, true, false, List, Option, ℕ, option_copied};
ghost use Rattle.ti_rows.specs.{Names.{order}, declared.rows.Row.{Row}};
ghost use Rattle.ti_conforms.specs.Agreement as spec;

use ti_rows::Row;

/// A set of lines, found by the row that each is for.
pub trait LinesByRow {
    /// The bytes of the row's line, if there is one.
    ghost line_of: { Self → Row → Option (List ℕ) };

    /// The bytes of the row's line, if there is one.
    fn line(&self, row: Row) -> Option<&[u8]>
        ensures { option_copied result ≡ line_of self.now row };

    /// Whether the row's capability has a line, with whatever parameters.
    fn has_any(&self, row: Row) -> bool
        ensures some { result ≡ true → spec.SomeLine (line_of self.now) (order row) }
        ensures none { result ≡ false → (other : Row) → order other ≡ order row → line_of self.now other ≡ None };
}

/// Why lines aren't those of an entry.
#[derive(Clone, Copy, Debug, PartialEq, Eq)]
pub enum Disagreement {
    /// The string sends other bytes for this row, or none, or there is no line.
    Disagree(Row),
    /// The row's capability has a line, but the entry has no such string or it isn't checked.
    Unwanted(Row),
    /// Out of memory.
    NoMemory,
}
