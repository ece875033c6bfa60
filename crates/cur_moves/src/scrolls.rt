//! Lines that move within a region of the screen.
ghost use Rattle.std.specs.Prelude.{◌≡◌, ◌-◌, ◌≤◌, ℕ, true};
ghost use Rattle.cur_steps.specs.declared.inks.Ink.{Ink};
ghost use Rattle.cur_moves.specs.Scrolls.{CanScroll, cell_of, edge, scroll_row, shifted};

use cur_steps::has_line;
use ti_conforms::Certificate;
use ti_rows::Row;

/// A scroll: the lines from `top` to `bottom` move by `count` lines, up if `up`, else down. The lines that come in are
/// blank.
#[derive(Clone, Copy)]
pub struct Scroll {
    pub top: u16,
    pub bottom: u16,
    pub count: u16,
    pub up: bool,
}

/// The place to which the cursor goes after a scroll within margins.
#[derive(Clone, Copy)]
pub struct Landing {
    pub row: u16,
    pub col: u16,
}

/// The line in which the cursor makes the region scroll: the last one for a `scroll` up, else the first.
pub(crate) fn edge(scroll: Scroll) -> u16
    ensures { result ≡ edge scroll }
{
    if scroll.up { scroll.bottom } else { scroll.top }
}

/// The first line that comes in by the `scroll`.
pub fn first_blank(scroll: Scroll) -> u16
    requires { scroll.top ≤ scroll.bottom }
    ensures { result ≤ scroll.bottom }
{
    if scroll.up && scroll.count <= scroll.bottom - scroll.top {
        scroll.bottom - scroll.count.saturating_sub(1)
    } else {
        scroll.top
    }
}

/// Whether the region of the `scroll` is the whole screen of `rows` lines, so that it needs no margins.
pub(crate) fn is_whole(scroll: Scroll, rows: usize) -> bool
    ensures top { result ≡ true → scroll.top ≡ 0 }
    ensures bottom { result ≡ true → scroll.bottom ≡ rows - 1 }
{
    scroll.top == 0 && usize::from(scroll.bottom) + 1 == rows
}

/// The row whose line moves the region of `scroll` by one line.
pub(crate) fn scroll_row(scroll: Scroll) -> Row
    ensures { result ≡ scroll_row scroll }
{
    if scroll.up { Row::Ind } else { Row::Ri }
}

/// The line that `scroll` brings to the line `row`, if one comes there; else a blank line comes in.
pub fn line_before(scroll: Scroll, row: usize) -> Option<usize>
    ensures { (g : ℕ → ℕ → Ink) (j : ℕ) → shifted scroll g row j ≡ cell_of g result j }
{
    let (top, bottom) = (usize::from(scroll.top), usize::from(scroll.bottom));
    if row < top || row > bottom {
        return Some(row);
    }
    let count = usize::from(scroll.count);
    if scroll.up && count <= bottom - row {
        Some(row + count)
    } else if !scroll.up && count <= row - top {
        Some(row - count)
    } else {
        None
    }
}

/// Whether the terminal can do the `scroll`: it names two lines of the screen or more, and the entry has the strings
/// for these margins, for those of the whole screen, and for a scroll in that direction.
pub fn can_scroll<C: Certificate>(checked: &C, scroll: Scroll) -> bool
    ensures yes { result ≡ true → CanScroll (C.table checked.now) scroll }
    ensures no { CanScroll (C.table checked.now) scroll → result ≡ true }
{
    let rows = checked.rows();
    scroll.top < scroll.bottom
        && usize::from(scroll.bottom) < rows
        && has_line(checked, Row::Csr(scroll.top, scroll.bottom))
        && has_line(checked, Row::Csr(0, (rows - 1) as u16))
        && has_line(checked, scroll_row(scroll))
}
