//! Sets of states from which an effect is stated.

/// The margins of the states of a start.
#[derive(Clone, Copy, Debug, PartialEq, Eq)]
pub enum Margins {
    /// The margins are the whole screen.
    Whole,
    /// Any two lines, the first above the last.
    Legal,
    /// Any legal margins, with the cursor on the last line of the region.
    OnBottom,
    /// Any legal margins, with the cursor on the first line of the region.
    OnTop,
}

/// A set of states: all those with no open sequence, autowrap on and insertion off whose cursor is in these rows and
/// columns (from 0, the greatest included). Cells, rendition, character sets and visibility are free.
#[derive(Clone, Copy, Debug, PartialEq, Eq)]
pub struct Start {
    pub row_min: u16,
    pub row_max: u16,
    pub col_min: u16,
    pub col_max: u16,
    /// Whether the last column may have been printed, so the next character goes to the next line.
    pub pending: bool,
    pub margins: Margins,
}
