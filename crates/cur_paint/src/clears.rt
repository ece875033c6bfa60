//! Whether to clear everything before a known screen is painted.
use crate::changes::Changes;
use crate::tails::may_differ;
use cur_steps::{Picture, are_blank, blank_from};
use ti_conforms::Certificate;
use ti_rows::Row;

/// An estimate of the bytes of a move and a change of attributes, for each line whose cells are printed again.
const AGAIN: usize = 8;

/// A line of two screens: whether it is blank on the new one, how many cells at its end become blank (none is counted
/// past as many as erasing them has bytes), and how many cells that aren't blank stay as they are.
#[derive(Clone, Copy)]
struct Tally {
    is_blank: bool,
    blanked: usize,
    kept: usize,
}

/// The number of cells that aren't blank in the line `row` of `screen`, from the column `from` up to `end`, but at most
/// `most`.
fn solid_within<P: Picture>(screen: &P, row: usize, from: usize, end: usize, most: usize) -> usize {
    let mut count = 0usize;
    for col in from..end {
        if count >= most {
            return most;
        }
        if !screen.is_blank(row, col) {
            count = count.saturating_add(1);
        }
    }
    count
}

/// The number of cells of the line `row`, before the column `end`, that aren't blank and stay as they are.
fn kept_before<O: Picture, N: Picture>(old: &O, new: &N, row: usize, end: usize) -> usize {
    let mut count = 0usize;
    for col in 0..end {
        let stays = !new.is_blank(row, col) && old.shows(row, col, new.at(row, col));
        count = count.saturating_add(stays as usize);
    }
    count
}

/// The tally of the line `row` of `cols` columns, from the `old` screen to the `new` one, where erasing takes `erasing`
/// bytes.
fn tally_of<O: Picture, N: Picture>(
    old: &O,
    new: &N,
    row: usize,
    cols: usize,
    erasing: usize,
) -> Tally {
    let end = blank_from(new, row, cols);
    Tally {
        is_blank: end == 0,
        blanked: solid_within(old, row, end, cols, erasing),
        kept: kept_before(old, new, row, end),
    }
}

/// The bytes that clearing saves, above the last line that isn't blank and below it, and the bytes that it costs, with
/// those of unchanged cells that are printed again.
#[derive(Clone, Copy)]
struct Balance {
    above: usize,
    below: usize,
    again: usize,
}

/// The `balance` with one more line, whose tally is `tally`.
fn with_line(balance: Balance, tally: Tally) -> Balance {
    let saved = balance.below.saturating_add(tally.blanked);
    if tally.is_blank {
        return Balance {
            below: saved,
            ..balance
        };
    }
    let again = if tally.kept == 0 {
        0
    } else {
        tally.kept.saturating_add(AGAIN)
    };
    Balance {
        above: balance.above.saturating_add(saved),
        below: 0,
        again: balance.again.saturating_add(again),
    }
}

/// The number of bytes of the string for `row`, or `most` if it has more or there is none.
fn bytes_within<C: Certificate>(checked: &C, row: Row, most: usize) -> usize {
    match checked.line(row) {
        Some(line) => line.len().min(most),
        None => most,
    }
}

/// Whether clearing, by `clear` bytes, is likely to take fewer bytes than erasing line by line.
pub(crate) fn saves<C: Certificate, O: Picture, N: Picture>(
    checked: &C,
    old: &O,
    new: &N,
    clear: usize,
) -> bool {
    let cols = checked.cols();
    let erasing = bytes_within(checked, Row::El, cols);
    let most = checked.rows().saturating_mul(erasing);
    let mut balance = Balance {
        above: 0,
        below: 0,
        again: clear,
    };
    for row in 0..checked.rows() {
        balance = with_line(balance, tally_of(old, new, row, cols, erasing));
        if balance.again >= most {
            return false;
        }
    }
    let below = bytes_within(checked, Row::Ed, balance.below);
    balance.again < balance.above.saturating_add(below)
}

/// Whether the line `row` may differ according to `changes` and is blank on the `new` screen: a cheap look at whether
/// it becomes blank.
fn may_become_blank<N: Picture, D: Changes>(
    new: &N,
    changes: &D,
    row: usize,
    rows: usize,
    cols: usize,
) -> bool {
    may_differ(changes, row, rows, cols) && are_blank(new, row, 0, cols)
}

/// Whether two of three lines become blank, so that all lines are worth a look. It is false if no more than a quarter
/// of the lines may differ.
pub(crate) fn may_become_blanks<N: Picture, D: Changes>(
    new: &N,
    changes: &D,
    rows: usize,
    cols: usize,
) -> bool {
    let lines = changes.lines(rows, cols);
    lines.end - lines.from > rows / 4 && two_may_become_blank(new, changes, rows, cols)
}

/// Whether two of these three lines become blank: those at a quarter, half and three quarters of the screen.
#[inline(never)]
fn two_may_become_blank<N: Picture, D: Changes>(
    new: &N,
    changes: &D,
    rows: usize,
    cols: usize,
) -> bool {
    let middle = may_become_blank(new, changes, rows / 2, rows, cols);
    let upper = may_become_blank(new, changes, rows / 4, rows, cols);
    match (middle, upper) {
        (true, true) => true,
        (false, false) => false,
        (true, false) | (false, true) => {
            may_become_blank(new, changes, rows / 2 + rows / 4, rows, cols)
        }
    }
}
