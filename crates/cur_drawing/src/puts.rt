//! The characters and borders that calls take.
ghost use Rattle.std.specs.Prelude.{◌&&◌, ◌≡◌, nat_lt, OnOk};
ghost use Rattle.cur_drawing.specs.Windows.{is_printed, is_pair, checked};
ghost use Rattle.cur_drawing.specs.Calls.{plain, of_cell, to_cell, drawn_line, default_border, box_of, IsBorder};
ghost use Rattle.cur_drawing.specs.Calls.{checked_cell, checked_border};

use crate::cells::{Attrs, Cell, PAIRS};
use crate::refusals::Refusal;

/// A character as the argument of a call: any byte, with attributes and a color pair of its own.
#[derive(Clone, Copy, Debug, PartialEq, Eq)]
pub struct Put {
    pub byte: u8,
    pub attrs: Attrs,
    pub pair: u8,
}

impl Put {
    /// A character without attributes, of pair 0.
    pub fn plain(byte: u8) -> Put
        ensures { result ≡ plain byte }
    {
        Put {
            byte,
            attrs: Attrs::none(),
            pair: 0,
        }
    }

    /// The content of `cell` as an argument.
    pub fn of_cell(cell: Cell) -> Put
        ensures { result ≡ of_cell cell }
    {
        Put {
            byte: cell.byte(),
            attrs: cell.attrs(),
            pair: cell.pair(),
        }
    }

    /// The cell that holds this character as it is. `BadCell` for a byte outside 32 to 126, else
    /// `BadPair` for a pair above 63.
    pub fn to_cell(self) -> Result<Cell, Refusal>
        ensures { result ≡ to_cell self }
    {
        self.check_cell()?;
        Ok(Cell::new(self.byte, self.attrs, self.pair))
    }

    /// The default cell of a vertical line.
    pub fn vertical_line() -> Put
        ensures { result ≡ drawn_line 120 }
    {
        Put::line(b'x')
    }

    /// The default cell of a horizontal line.
    pub fn horizontal_line() -> Put
        ensures { result ≡ drawn_line 113 }
    {
        Put::line(b'q')
    }

    // A character of the alternate set.
    fn line(byte: u8) -> Put
        ensures { result ≡ drawn_line byte }
    {
        Put {
            byte,
            attrs: Attrs::ALTCHARSET,
            pair: 0,
        }
    }

    fn is_printed(self) -> bool
        ensures { result ≡ is_printed self.byte }
    {
        32 <= self.byte && self.byte <= 126
    }

    fn has_pair(self) -> bool
        ensures { result ≡ is_pair self.pair }
    {
        self.pair < PAIRS
    }

    /// Whether a cell can hold this character as it is.
    pub fn is_cell(self) -> bool
        ensures { result ≡ (is_printed self.byte && is_pair self.pair) }
    {
        self.is_printed() && self.has_pair()
    }

    // Refuses a character that no cell can hold as it is.
    pub(crate) fn check_cell(self) -> Result<(), Refusal>
        ensures { result ≡ checked_cell self }
    {
        check(self.is_printed(), self.has_pair())
    }

    // Refuses a character that `add` doesn't take.
    pub(crate) fn check_written(self) -> Result<(), Refusal>
        ensures { result ≡ checked (nat_lt self.byte 128) (is_pair self.pair) }
    {
        check(self.byte < 128, self.has_pair())
    }
}

// Reports a wrong character before a wrong pair.
fn check(byte: bool, pair: bool) -> Result<(), Refusal>
    ensures { result ≡ checked byte pair }
{
    if !byte {
        return Err(Refusal::BadCell);
    }
    if !pair {
        return Err(Refusal::BadPair);
    }
    Ok(())
}

/// The sides and the corners of a border.
#[derive(Clone, Copy, Debug, PartialEq, Eq)]
pub struct Border {
    pub left: Put,
    pub right: Put,
    pub top: Put,
    pub bottom: Put,
    pub top_left: Put,
    pub top_right: Put,
    pub bottom_left: Put,
    pub bottom_right: Put,
}

impl Border {
    /// The default cells of a border: lines and corners of the alternate set.
    pub fn lines() -> Border
        ensures { result ≡ default_border }
    {
        Border {
            left: Put::vertical_line(),
            right: Put::vertical_line(),
            top: Put::horizontal_line(),
            bottom: Put::horizontal_line(),
            top_left: Put::line(b'l'),
            top_right: Put::line(b'k'),
            bottom_left: Put::line(b'm'),
            bottom_right: Put::line(b'j'),
        }
    }

    /// A border of these sides, with the default corners.
    pub fn sides(vertical: Put, horizontal: Put) -> Border
        ensures { result ≡ box_of vertical horizontal }
    {
        Border {
            left: vertical,
            right: vertical,
            top: horizontal,
            bottom: horizontal,
            ..Border::lines()
        }
    }

    // Refuses a border that cells can't hold.
    pub(crate) fn check_cells(&self) -> Result<(), Refusal>
        ensures value { result ≡ checked_border self.now }
        ensures good { OnOk result (IsBorder self.now) }
    {
        let beside = self.left.is_printed() & self.right.is_printed();
        let across = self.top.is_printed() & self.bottom.is_printed();
        let upper = self.top_left.is_printed() & self.top_right.is_printed();
        let lower = self.bottom_left.is_printed() & self.bottom_right.is_printed();
        let beside_pairs = self.left.has_pair() & self.right.has_pair();
        let across_pairs = self.top.has_pair() & self.bottom.has_pair();
        let upper_pairs = self.top_left.has_pair() & self.top_right.has_pair();
        let lower_pairs = self.bottom_left.has_pair() & self.bottom_right.has_pair();
        check(
            beside & across & upper & lower,
            beside_pairs & across_pairs & upper_pairs & lower_pairs,
        )
    }
}
