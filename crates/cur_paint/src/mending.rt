//! The painter at work: mends cells, parts of lines, lines and the screen where they differ from the wanted ones.
ghost use Rattle.std.specs.Prelude.{◌<◌, ◌≡◌, ◌≤◌, OnOk, Some, length, ℕ};
ghost use Rattle.cur_moves.specs.Erasures.{erased, erasure_row};
ghost use Rattle.cur_paint.specs.Differ.{IsSameOutside, differs};
ghost use Rattle.cur_paint.specs.Scenes.{AreInked, CanCompare, HasCells, IsBlankBelow, IsBlankPast, IsPaintable};
ghost use Rattle.cur_paint.specs.Scenes.{IsSame, IsSamePast, IsShort, MendsAll, MendsBelow, MendsCells, MendsFrom};
ghost use Rattle.cur_paint.specs.Scenes.{MendsLine, changed_from, scene};
ghost use Rattle.cur_steps.specs.Steps.{MakesFrom};
ghost use Rattle.ti_conforms.specs.Certified.{cell_limit};
ghost use Rattle.ti_rows.specs.declared.rows.Row.TheVariants.{Ed};

use crate::changes::{Changes, Columns};
use crate::painters::Painter;
use crate::pieces::{TEXT, differs_in, is_led_on, piece_of};
use crate::runs::{FEWEST, erases_runs, is_run, next_part};
use crate::tails::{rest_line, short_tail, tail_from};
use cur_moves::{ErasedPart, Erasure, Target, erase_at, erasing_line};
use cur_steps::{Cells, Ink, Picture, Place, Sent, Wire};
use ti_conforms::Certificate;

impl<C: Certificate, O: Picture, N: Picture, W: Wire> Painter<'_, C, O, N, W> {
    /// Mends all lines, in the columns that may differ according to `changes`.
    pub(crate) fn mend_screen<D: Changes>(&mut self, changes: &D) -> Sent
        requires compared { CanCompare D.between changes.now (scene C.table O.cells N.cells self.old.screens.now) }
        ensures mends { MendsAll C.table O.cells N.cells W.went W.failures self.old self.new result }
    {
        let screens = self.screens;
        let rows = screens.checked.rows();
        let cols = screens.checked.cols();
        let lines = changes.lines(rows, cols);
        let mut solid = 0;
        for row in lines.from..lines.end {
            let columns = changes.columns(row, cols);
            let tail = tail_from(screens.new, row, columns, cols);
            let bottom = screens.bottom_from(changes, Place { row, col: tail }, columns, solid);
            solid = bottom.solid;
            match rest_line(screens.checked, bottom.col, cols) {
                Some(line) => {
                    let before = Columns {
                        from: tail.min(columns.from),
                        end: bottom.col,
                    };
                    return self.mend_bottom(row, before, line);
                }
                None => self.mend_line(row, columns, tail)?,
            }
        }
        Ok(())
    }

    /// Mends the line `row` within `columns`, before which it must be right already, and erases everything after them,
    /// lines below too, by the string `line`.
    #[inline(never)]
    fn mend_bottom(&mut self, row: usize, columns: Columns, line: &[u8]) -> Sent
        requires scene { IsPaintable (scene C.table O.cells N.cells self.old.screens.now) }
        requires row { row < (C.table self.old.screens.now.checked.now).rows }
        requires start { columns.from ≤ columns.end }
        requires col { columns.end < (C.table self.old.screens.now.checked.now).cols }
        requires line { (C.table self.old.screens.now.checked.now).line_of Ed ≡ Some line.now }
        requires before { (k : ℕ) → k < columns.from
            → O.cells self.old.screens.now.old.now row k ≡ N.cells self.old.screens.now.new.now row k }
        requires differs { 0 < changed_from (scene C.table O.cells N.cells self.old.screens.now) row columns.end }
        requires blank { IsBlankBelow (scene C.table O.cells N.cells self.old.screens.now) row columns.end }
        ensures mends { MendsBelow C.table O.cells N.cells W.went W.failures self.old self.new result row }
    {
        let cells = Cells {
            row,
            from: columns.from,
            count: columns.end - columns.from,
        };
        self.mend_parts(cells)?;
        self.erase(row, columns.end, ErasedPart::Rest, line)
    }

    /// Erases `part` by its string `line`, with the cursor in line `row` and column `col`. The line must be right
    /// already up to there.
    fn erase(&mut self, row: usize, col: usize, part: ErasedPart, line: &[u8]) -> Sent
        requires scene { IsPaintable (scene C.table O.cells N.cells self.old.screens.now) }
        requires row { row < (C.table self.old.screens.now.checked.now).rows }
        requires col { col < (C.table self.old.screens.now.checked.now).cols }
        requires line { (C.table self.old.screens.now.checked.now).line_of (erasure_row part) ≡ Some line.now }
        ensures step { MakesFrom W.went W.failures self.old.pen.now self.new.pen.now result
            (C.table self.old.screens.now.checked.now) (cell_limit (C.table self.old.screens.now.checked.now))
            (N.cells self.old.screens.now.new.now) (record { row = row; col = col }) (erased part row col) }
        ensures mode { OnOk result (self.new.pen.now.belief.mode ≡ self.old.pen.now.belief.mode) }
        ensures same { IsSame self.old self.new }
    {
        let target = Target {
            checked: self.screens.checked,
            shown: self.screens.new,
        };
        let erasure = Erasure {
            at: Place { row, col },
            part,
        };
        target.erase_from(self.pen, erasure, line)
    }

    /// Mends the line `row`, which must differ only within `columns`. If `tail` is one of them, the new line must be
    /// blank from there on.
    fn mend_line(&mut self, row: usize, columns: Columns, tail: usize) -> Sent
        requires scene { IsPaintable (scene C.table O.cells N.cells self.old.screens.now) }
        requires row { row < (C.table self.old.screens.now.checked.now).rows }
        requires order { columns.from ≤ columns.end }
        requires within { columns.end ≤ (C.table self.old.screens.now.checked.now).cols }
        requires tail { tail ≤ columns.end }
        requires blank { tail < columns.end
            → IsBlankPast (scene C.table O.cells N.cells self.old.screens.now) row tail }
        requires same { IsSameOutside (O.cells self.old.screens.now.old.now) (N.cells self.old.screens.now.new.now) row
            columns.from columns.end (C.table self.old.screens.now.checked.now).cols }
        ensures mends { MendsLine C.table O.cells N.cells W.went W.failures self.old self.new result row }
    {
        // most lines are as they were
        if columns.from == columns.end {
            return Ok(());
        }
        let from = tail.min(columns.from);
        let cells = Cells {
            row,
            from,
            count: tail - from,
        };
        self.mend_parts(cells)?;
        let rest = Columns {
            from: tail,
            end: columns.end,
        };
        self.mend_tail(row, rest)
    }

    /// Mends the line `row` from the first of `columns` on; past them it must be right already. If there are any
    /// columns, the new line must be blank from the first one on: it is erased by `el` if that is no longer than the
    /// blanks, else mended cell by cell.
    fn mend_tail(&mut self, row: usize, columns: Columns) -> Sent
        requires scene { IsPaintable (scene C.table O.cells N.cells self.old.screens.now) }
        requires row { row < (C.table self.old.screens.now.checked.now).rows }
        requires order { columns.from ≤ columns.end }
        requires within { columns.end ≤ (C.table self.old.screens.now.checked.now).cols }
        requires blank { columns.from < columns.end
            → IsBlankPast (scene C.table O.cells N.cells self.old.screens.now) row columns.from }
        requires same { IsSamePast (scene C.table O.cells N.cells self.old.screens.now) row columns.end }
        ensures mends { MendsFrom C.table O.cells N.cells W.went W.failures self.old self.new result row columns.from }
    {
        if columns.from == columns.end {
            return Ok(());
        }
        let cells = Cells {
            row,
            from: columns.from,
            count: self.screens.checked.cols() - columns.from,
        };
        if !differs_in(self.screens.old, self.screens.new, cells) {
            return self.mend_span(cells);
        }
        match short_tail(self.screens.checked, cells.count) {
            Some(line) => self.erase(row, cells.from, ErasedPart::Tail, line),
            None => self.mend_span(cells),
        }
    }

    /// Mends the `cells`, and erases runs of blanks if that takes fewer bytes.
    fn mend_parts(&mut self, cells: Cells) -> Sent
        requires cells { HasCells (scene C.table O.cells N.cells self.old.screens.now) cells }
        ensures mends { MendsCells C.table O.cells N.cells W.went W.failures self.old self.new result cells }
    {
        if cells.count <= FEWEST || !erases_runs(self.screens.checked) {
            return self.mend_span(cells);
        }
        self.mend_by_parts(cells)
    }

    /// Mends the `cells`, part by part.
    fn mend_by_parts(&mut self, cells: Cells) -> Sent
        requires cells { HasCells (scene C.table O.cells N.cells self.old.screens.now) cells }
        ensures mends { MendsCells C.table O.cells N.cells W.went W.failures self.old self.new result cells }
    {
        let mut done = 0;
        while done < cells.count {
            let rest = Cells {
                row: cells.row,
                from: cells.from + done,
                count: cells.count - done,
            };
            let part = next_part(self.screens, rest);
            let first = Cells {
                count: part.count,
                ..rest
            };
            self.mend_part(first, part.erasure)?;
            done += part.count;
        }
        Ok(())
    }

    /// Mends the `cells`, by `erasure` if there is one.
    fn mend_part(&mut self, cells: Cells, erasure: Option<ErasedPart>) -> Sent
        requires cells { HasCells (scene C.table O.cells N.cells self.old.screens.now) cells }
        ensures mends { MendsCells C.table O.cells N.cells W.went W.failures self.old self.new result cells }
    {
        match erasure {
            Some(ErasedPart::Head) => self.mend_head(cells),
            Some(_) => self.mend_run(cells),
            None => self.mend_span(cells),
        }
    }

    /// Erases the line from its start to the last of `cells` if all of that becomes blank and some of `cells` differ,
    /// else mends them one after another.
    fn mend_head(&mut self, cells: Cells) -> Sent
        requires cells { HasCells (scene C.table O.cells N.cells self.old.screens.now) cells }
        ensures mends { MendsCells C.table O.cells N.cells W.went W.failures self.old self.new result cells }
    {
        if !is_run(self.screens.old, self.screens.new, 0, cells) {
            return self.mend_span(cells);
        }
        match erasing_line(self.screens.checked, ErasedPart::Head) {
            Some(line) => {
                let last = Place {
                    row: cells.row,
                    col: cells.from + cells.count - 1,
                };
                let erasure = Erasure {
                    at: last,
                    part: ErasedPart::Head,
                };
                erase_at(self.screens.checked, self.pen, erasure, line)
            }
            None => self.mend_span(cells),
        }
    }

    /// Erases the `cells` if they become blank and some differ, else mends them one after another.
    fn mend_run(&mut self, cells: Cells) -> Sent
        requires cells { HasCells (scene C.table O.cells N.cells self.old.screens.now) cells }
        ensures mends { MendsCells C.table O.cells N.cells W.went W.failures self.old self.new result cells }
    {
        if !is_run(self.screens.old, self.screens.new, cells.from, cells) {
            return self.mend_span(cells);
        }
        let part = ErasedPart::Part(cells.count as u16);
        match erasing_line(self.screens.checked, part) {
            Some(line) => self.erase(cells.row, cells.from, part, line),
            None => self.mend_span(cells),
        }
    }

    /// Prints those of the `cells` that differ. Cells that are printed alike go out in one piece, with the few
    /// unchanged ones between them.
    fn mend_span(&mut self, cells: Cells) -> Sent
        requires cells { HasCells (scene C.table O.cells N.cells self.old.screens.now) cells }
        ensures mends { MendsCells C.table O.cells N.cells W.went W.failures self.old self.new result cells }
    {
        if cells.count == 1 {
            return self.print_each(cells);
        }
        self.print_pieces(cells)
    }

    /// Prints those of the `cells` that differ, piece by piece.
    fn print_pieces(&mut self, cells: Cells) -> Sent
        requires cells { HasCells (scene C.table O.cells N.cells self.old.screens.now) cells }
        ensures mends { MendsCells C.table O.cells N.cells W.went W.failures self.old self.new result cells }
    {
        let mut text = [0; TEXT];
        let mut same = [false; TEXT];
        let mut done = 0;
        while done < cells.count {
            let first = cells.from + done;
            let ink = self.screens.new.at(cells.row, first);
            if self.screens.old.shows(cells.row, first, ink) {
                done += 1;
                continue;
            }
            let rest = Cells {
                row: cells.row,
                from: first,
                count: cells.count - done,
            };
            let more = piece_of(self.screens, rest, ink, &mut text, &mut same);
            self.print_cell(cells.row, first, ink)?;
            let alike = Cells {
                row: cells.row,
                from: first + 1,
                count: more,
            };
            self.print_alike(alike, ink, &text)?;
            done += 1 + more;
        }
        Ok(())
    }

    /// Prints the `cells`, which must have the characters of `text` in the set and the brush of `ink`: in one piece if
    /// the terminal is known to print them so, else one by one those that differ.
    fn print_alike(&mut self, cells: Cells, ink: Ink, text: &[u8]) -> Sent
        requires cells { HasCells (scene C.table O.cells N.cells self.old.screens.now) cells }
        requires long { cells.count ≤ length text.now }
        requires alike { AreInked (N.cells self.old.screens.now.new.now) cells ink cells.count text.now }
        requires bytes { IsShort (scene C.table O.cells N.cells self.old.screens.now) cells }
        ensures mends { MendsCells C.table O.cells N.cells W.went W.failures self.old self.new result cells }
    {
        if is_led_on(&self.pen.belief, cells.row, cells.from, ink, cells.count) {
            let target = Target {
                checked: self.screens.checked,
                shown: self.screens.new,
            };
            return target.print_text(self.pen, cells, text);
        }
        self.print_each(cells)
    }

    /// Prints those of the `cells` that differ, one by one.
    fn print_each(&mut self, cells: Cells) -> Sent
        requires cells { HasCells (scene C.table O.cells N.cells self.old.screens.now) cells }
        ensures mends { MendsCells C.table O.cells N.cells W.went W.failures self.old self.new result cells }
    {
        for n in 0..cells.count {
            let col = cells.from + n;
            let ink = self.screens.new.at(cells.row, col);
            if self.screens.old.shows(cells.row, col, ink) {
                continue;
            }
            self.print_cell(cells.row, col, ink)?;
        }
        Ok(())
    }

    /// Prints the cell in line `row` and column `col`, which must differ, as `ink`.
    fn print_cell(&mut self, row: usize, col: usize, ink: Ink) -> Sent
        requires scene { IsPaintable (scene C.table O.cells N.cells self.old.screens.now) }
        requires row { row < (C.table self.old.screens.now.checked.now).rows }
        requires col { col < (C.table self.old.screens.now.checked.now).cols }
        requires ink { ink ≡ N.cells self.old.screens.now.new.now row col }
        requires changed { differs (O.cells self.old.screens.now.old.now)
            (N.cells self.old.screens.now.new.now) row col ≡ 1 }
        ensures mends { MendsCells C.table O.cells N.cells W.went W.failures self.old self.new result
            (record { row = row; from = col; count = 1 }) }
    {
        let target = Target {
            checked: self.screens.checked,
            shown: self.screens.new,
        };
        target.put_cell(self.pen, Place { row, col }, ink)
    }
}
