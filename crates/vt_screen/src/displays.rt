//! `Display`: the cells, the cursor and the modes, and each function's effect on them.

ghost use Rattle.std.specs.Prelude.{◌≡◌, ◌==◌, ◌+◌, ◌-◌, ◌^◌, ◌<◌, ◌≤◌, min, max, nat_le, ◌&&◌, if◌then◌else◌, length};
ghost use Rattle.std.specs.{Prelude.{take, IfOk}, List.{AllByRecursion, prefix_len}};
ghost use Rattle.vt_screen.specs.{Grid.{line_at, look_at}, Look.{IsPrinted, is_printed}};
ghost use Rattle.vt_screen.specs.Step as spec;

use crate::cells::Cell;
use crate::functions::{CodeElement, EraseExtent, Function, ModeKind};
use crate::pens::{Ink, Pen};
use crate::printer;
use crate::renditions::{Rendition, RenditionChange};
use crate::sheets::Sheet;
use crate::sizes::Size;
use std::alloc::{AllocError, Global};
use std::marker::Model;

/// The two character sets G0 and G1, each the graphic one or the plain one, and which is active.
#[derive(Clone, Copy, Debug, PartialEq, Eq)]
pub struct Charset {
    pub g0_graphic: bool,
    pub g1_graphic: bool,
    /// Whether G1 is active.
    pub shifted_out: bool,
}

impl Charset {
    ghost use Rattle.vt_screen.specs.Screen.{is_graphic};

    /// Whether the active set is the graphic one.
    pub fn is_graphic(self) -> bool
        ensures { result ≡ is_graphic self }
    {
        if self.shifted_out {
            self.g1_graphic
        } else {
            self.g0_graphic
        }
    }
}

/// The state of a display except its size, cells, autowrap and insertion. Rows and columns count from 0.
#[derive(Clone, Copy, Debug, PartialEq, Eq)]
pub struct Settings {
    /// The cursor's row and column.
    pub row: usize,
    pub col: usize,
    /// Whether the last column was printed, so the next character goes to the next line.
    pub pending: bool,
    pub rendition: Rendition,
    pub charset: Charset,
    /// The first and the last line of the region that scrolls.
    pub top: usize,
    pub bottom: usize,
    /// Whether the cursor can be seen.
    pub visible: bool,
}

/// The display and all modes: a terminal without the open sequence.
#[derive(Drop)]
pub struct Display {
    size: Size,
    grid: Sheet,
    row: usize,
    col: usize,
    pending: bool,
    pen: Pen,
    charset: Charset,
    top: usize,
    bottom: usize,
    autowrap: bool,
    inserting: bool,
    visible: bool,
}

impl Model for Display {
    ghost use Rattle.vt_screen.specs.Screen.{Screen, IsScreen};

    ghost Value = { Screen };

    ghost use Rattle.vt_screen.specs.Displays.{screen_of};

    ghost view = { screen_of };

    ghost invariant = { λ d. IsScreen (screen_of d) };
}

impl Display {
    ghost use Rattle.vt_screen.specs.{Screen.{reset_screen, IsScreen}, Printed.{screen_text}};
    ghost use Rattle.vt_screen.specs.Settings.{settings_of, with_settings};

    /// A display of this `size` in the reset state. Fails only when out of memory.
    pub fn new(alloc: Global, size: Size) -> Result<Display, AllocError>
        ensures { IfOk result (λ d. d ≡ reset_screen size.rows size.cols) }
    {
        let blank = Cell::blank(Rendition::plain());
        let grid = Sheet::new(alloc, size.rows, size.cols, blank)?;
        Ok(Display {
            size,
            grid,
            row: 0,
            col: 0,
            pending: false,
            pen: Pen::new(Rendition::plain()),
            charset: Charset {
                g0_graphic: false,
                g1_graphic: false,
                shifted_out: false,
            },
            top: 0,
            bottom: size.rows - 1,
            autowrap: true,
            inserting: false,
            visible: true,
        })
    }

    /// The size, which the screen always has.
    pub fn size(&self) -> Size
        ensures rows { result.rows ≡ self.now.rows }
        ensures cols { result.cols ≡ self.now.cols }
        ensures screen { IsScreen self.now }
    {
        self.size
    }

    /// The cells of the line `row`, which counts from 0 and must be on the screen.
    pub fn line(&self, row: usize) -> &[Cell]
        requires { row < self.now.rows }
        ensures { result.now ≡ line_at self.now.grid row }
    {
        self.grid.line(row)
    }

    /// The cell at row `row` and column `col`, which count from 0 and must be on the screen.
    pub fn cell(&self, row: usize, col: usize) -> Cell
        requires row_within { row < self.now.rows }
        requires col_within { col < self.now.cols }
        ensures { result ≡ look_at self.now.grid row col }
    {
        self.grid.get(row, col)
    }

    /// The cursor's row and column.
    pub fn cursor(&self) -> (usize, usize)
        ensures row { result.0 ≡ self.now.row }
        ensures col { result.1 ≡ self.now.col }
    {
        (self.row, self.col)
    }

    /// Whether the last column was printed, so the next character goes to the next line.
    pub fn pending(&self) -> bool
        ensures { result ≡ self.now.pending }
    {
        self.pending
    }

    /// The rendition that the next character takes.
    pub fn rendition(&self) -> Rendition
        ensures { result ≡ self.now.rendition }
    {
        self.pen.rendition()
    }

    /// Whether the cursor can be seen.
    pub fn visible(&self) -> bool
        ensures { result ≡ self.now.visible }
    {
        self.visible
    }

    /// The state of the display except its size, cells, autowrap and insertion.
    pub fn settings(&self) -> Settings
        ensures { result ≡ settings_of self.now }
    {
        Settings {
            row: self.row,
            col: self.col,
            pending: self.pending,
            rendition: self.pen.rendition(),
            charset: self.charset,
            top: self.top,
            bottom: self.bottom,
            visible: self.visible,
        }
    }

    /// Replaces the state of the display by `settings`, except its size, cells, autowrap and insertion. The cursor and
    /// the margins must be on the screen, and the margins in order.
    pub fn set(&mut self, settings: Settings)
        requires row_within { settings.row < self.old.rows }
        requires col_within { settings.col < self.old.cols }
        requires region { settings.top < settings.bottom }
        requires bottom_within { settings.bottom < self.old.rows }
        ensures { self.new ≡ with_settings settings self.old }
    {
        self.row = settings.row;
        self.col = settings.col;
        self.pending = settings.pending;
        self.pen = Pen::new(settings.rendition);
        self.charset = settings.charset;
        self.top = settings.top;
        self.bottom = settings.bottom;
        self.visible = settings.visible;
    }

    /// The screen as a text: a line for each row, the cursor's line, and a line for each run of cells that are shown
    /// alike and not plainly. Fails only when out of memory.
    pub fn print_screen(&self, alloc: Global) -> Result<Vec<u8>, AllocError>
        ensures { IfOk result (λ text. text.items ≡ screen_text self.now) }
    {
        let mut text = Vec::new(alloc);
        printer::push_sheet_rows(&mut text, &self.grid)?;
        printer::push_cursor(alloc, &mut text, self.row, self.col, self.visible)?;
        printer::push_sheet_looks(alloc, &mut text, &self.grid)?;
        Ok(text)
    }

    /// Moves the cursor and clears the pending wrap.
    fn go_to(&mut self, row: usize, col: usize)
        requires row_within { row < self.old.rows }
        requires col_within { col < self.old.cols }
        ensures { self.new ≡ spec.goes_to row col self.old }
    {
        self.row = row;
        self.col = col;
        self.pending = false;
    }

    /// Scrolls the lines `top..=bottom` up by `n`.
    fn lines_up(&mut self, top: usize, bottom: usize, n: usize)
        requires ordered { top ≤ bottom }
        requires within { bottom < self.old.rows }
        ensures { self.new ≡ spec.lines_up top bottom n self.old }
    {
        let blank = self.pen.blank();
        self.grid.scroll_up(top, bottom, n, blank);
    }

    /// Scrolls the lines `top..=bottom` down by `n`.
    fn lines_down(&mut self, top: usize, bottom: usize, n: usize)
        requires ordered { top ≤ bottom }
        requires within { bottom < self.old.rows }
        ensures { self.new ≡ spec.lines_down top bottom n self.old }
    {
        let blank = self.pen.blank();
        self.grid.scroll_down(top, bottom, n, blank);
    }

    fn scroll_up(&mut self, n: u16)
        ensures { self.new ≡ spec.lines_up self.old.top self.old.bottom n self.old }
    {
        self.lines_up(self.top, self.bottom, n as usize);
    }

    fn scroll_down(&mut self, n: u16)
        ensures { self.new ≡ spec.lines_down self.old.top self.old.bottom n self.old }
    {
        self.lines_down(self.top, self.bottom, n as usize);
    }

    fn line_feed(&mut self)
        ensures { self.new ≡ spec.line_feed self.old }
    {
        self.pending = false;
        if self.row == self.bottom {
            self.scroll_up(1);
        } else if self.row + 1 < self.size.rows {
            self.row += 1;
        }
    }

    fn reverse_index(&mut self)
        ensures { self.new ≡ spec.reverse_index self.old }
    {
        self.pending = false;
        if self.row == self.top {
            self.scroll_down(1);
        } else {
            self.row = self.row.saturating_sub(1);
        }
    }

    fn next_line(&mut self)
        ensures { self.new ≡ spec.act Function.NextLine self.old }
    {
        self.col = 0;
        self.line_feed();
    }

    /// Goes to the next line if the last column was printed.
    fn wrap(&mut self)
        ensures { self.new ≡ spec.wrapped self.old }
    {
        if self.pending {
            self.next_line();
        }
    }

    fn insert_cells(&mut self, n: u16)
        ensures { self.new ≡ spec.inserted n self.old }
    {
        let blank = self.pen.blank();
        self.grid.insert(self.row, self.col, n as usize, blank);
    }

    fn delete_cells(&mut self, n: u16)
        ensures { self.new ≡ spec.deleted n self.old }
    {
        let blank = self.pen.blank();
        self.grid.delete(self.row, self.col, n as usize, blank);
    }

    /// Makes room for a character if insertion is on.
    fn open(&mut self)
        ensures { self.new ≡ spec.opened self.old }
    {
        if self.inserting {
            self.insert_cells(1);
        }
    }

    fn place(&mut self, byte: u8)
        requires { IsPrinted byte }
        ensures { self.new ≡ spec.placed byte self.old }
    {
        let cell = self.pen.cell(byte, self.charset.is_graphic());
        self.grid.set(self.row, self.col, cell);
        self.pending = (self.col + 1 == self.size.cols) & self.autowrap;
        self.col = (self.col + 1).min(self.size.cols - 1);
    }

    fn print(&mut self, byte: u8)
        requires { IsPrinted byte }
        ensures { self.new ≡ spec.printed byte self.old }
    {
        self.wrap();
        self.open();
        self.place(byte);
    }

    /// Prints the characters that `bytes` begins with, as many as fit in the cursor's line; prints none if the first
    /// would wrap or insert. Returns how many it printed.
    pub fn print_front(&mut self, bytes: &[u8]) -> usize
        ensures within { result ≤ length bytes.now }
        ensures printed { AllByRecursion IsPrinted (take result bytes.now) }
        ensures screen { self.new ≡ spec.all_printed (take result bytes.now) self.old }
        ensures count { result ≡ spec.printed_front bytes.now self.old }
    {
        if self.pending | self.inserting {
            return 0;
        }
        let n = characters_before(bytes, self.size.cols - self.col);
        let ink = Ink {
            pen: &self.pen,
            graphic: self.charset.is_graphic(),
        };
        self.grid.write(self.row, self.col, &bytes[..n], &ink);
        self.pending = (self.col + n == self.size.cols) & self.autowrap;
        self.col = (self.col + n).min(self.size.cols - 1);
        n
    }

    fn tab(&mut self)
        ensures { self.new ≡ spec.act Function.Tab self.old }
    {
        self.go_to(self.row, ((self.col / 8 + 1) * 8).min(self.size.cols - 1));
    }

    fn cursor_up(&mut self, n: u16)
        ensures { self.new ≡ spec.act (Function.CursorUp n) self.old }
    {
        self.go_to(row_above(self.row, self.top, n as usize), self.col);
    }

    fn cursor_down(&mut self, n: u16)
        ensures { self.new ≡ spec.act (Function.CursorDown n) self.old }
    {
        let row = row_below(self.row, self.bottom, self.size.rows, n as usize);
        self.go_to(row, self.col);
    }

    fn cursor_forward(&mut self, n: u16)
        ensures { self.new ≡ spec.act (Function.CursorForward n) self.old }
    {
        self.go_to(self.row, (self.col + n as usize).min(self.size.cols - 1));
    }

    fn cursor_back(&mut self, n: u16)
        ensures { self.new ≡ spec.act (Function.CursorBack n) self.old }
    {
        self.go_to(self.row, self.col.saturating_sub(n as usize));
    }

    fn cursor_column(&mut self, col: u16)
        ensures { self.new ≡ spec.act (Function.CursorColumn col) self.old }
    {
        let col = (col as usize).saturating_sub(1);
        self.go_to(self.row, col.min(self.size.cols - 1));
    }

    fn cursor_row(&mut self, row: u16)
        ensures { self.new ≡ spec.act (Function.CursorRow row) self.old }
    {
        let row = (row as usize).saturating_sub(1);
        self.go_to(row.min(self.size.rows - 1), self.col);
    }

    fn cursor_position(&mut self, row: u16, col: u16)
        ensures { self.new ≡ spec.act (Function.CursorPosition row col) self.old }
    {
        let row = (row as usize).saturating_sub(1);
        let col = (col as usize).saturating_sub(1);
        self.go_to(row.min(self.size.rows - 1), col.min(self.size.cols - 1));
    }

    /// Erases the columns `from..to` of the cursor's line.
    fn erase_part(&mut self, from: usize, to: usize)
        requires ordered { from ≤ to }
        requires within { to ≤ self.old.cols }
        ensures { self.new ≡ spec.part_erased from to self.old }
    {
        let blank = self.pen.blank();
        self.grid.fill_part(self.row, from, to, blank);
    }

    /// Erases the lines `from..to`.
    fn erase_lines(&mut self, from: usize, to: usize)
        requires ordered { from ≤ to }
        requires within { to ≤ self.old.rows }
        ensures { self.new ≡ spec.lines_erased from to self.old }
    {
        let blank = self.pen.blank();
        self.grid.fill_lines(from, to, blank);
    }

    fn erase_line(&mut self, part: EraseExtent)
        ensures { self.new ≡ spec.line_erased part self.old }
    {
        let col = self.col;
        let cols = self.size.cols;
        match part {
            EraseExtent::ToEnd => self.erase_part(col, cols),
            EraseExtent::FromStart => self.erase_part(0, col + 1),
            EraseExtent::Whole => self.erase_part(0, cols),
        }
    }

    fn erase_display(&mut self, part: EraseExtent)
        ensures { self.new ≡ spec.display_erased part self.old }
    {
        let row = self.row;
        let col = self.col;
        let size = self.size;
        match part {
            EraseExtent::ToEnd => {
                self.erase_part(col, size.cols);
                self.erase_lines(row + 1, size.rows);
            }
            EraseExtent::FromStart => {
                self.erase_part(0, col + 1);
                self.erase_lines(0, row);
            }
            EraseExtent::Whole => self.erase_lines(0, size.rows),
        }
    }

    fn erase_cells(&mut self, n: u16)
        ensures { self.new ≡ spec.cells_erased n self.old }
    {
        let col = self.col;
        let to = (col + n as usize).min(self.size.cols);
        self.erase_part(col, to);
    }

    fn in_region(&self) -> bool
        ensures { result ≡ spec.in_region self.now }
    {
        (self.top <= self.row) & (self.row <= self.bottom)
    }

    fn insert_lines(&mut self, n: u16)
        ensures { self.new ≡ spec.lines_inserted n self.old }
    {
        if self.in_region() {
            self.lines_down(self.row, self.bottom, n as usize);
            self.go_to(self.row, 0);
        }
    }

    fn delete_lines(&mut self, n: u16)
        ensures { self.new ≡ spec.lines_deleted n self.old }
    {
        if self.in_region() {
            self.lines_up(self.row, self.bottom, n as usize);
            self.go_to(self.row, 0);
        }
    }

    fn set_margins(&mut self, first: u16, last: u16)
        ensures { self.new ≡ spec.margins_set first last self.old }
    {
        let top = (first as usize).saturating_sub(1);
        let bottom = last_row(last as usize, self.size.rows);
        if top < bottom {
            self.top = top;
            self.bottom = bottom;
            self.row = 0;
            self.col = 0;
            self.pending = false;
        }
    }

    fn designate(&mut self, set: CodeElement, graphic: bool)
        ensures { self.new ≡ spec.act (Function.Designate set graphic) self.old }
    {
        match set {
            CodeElement::G0 => self.charset.g0_graphic = graphic,
            CodeElement::G1 => self.charset.g1_graphic = graphic,
        }
    }

    fn shift(&mut self, out: bool)
        ensures { self.new ≡ spec.invoked out self.old }
    {
        self.charset.shifted_out = out;
    }

    fn select_rendition(&mut self, numbers: &[Option<u16>])
        ensures { self.new ≡ spec.act (Function.SelectRendition numbers.now) self.old }
    {
        let rendition = all_rendered(self.pen.rendition(), numbers);
        self.pen = Pen::new(rendition);
    }

    fn set_mode(&mut self, kind: ModeKind, on: bool, number: u16)
        ensures { self.new ≡ spec.mode_set kind on number self.old }
    {
        match (kind, number) {
            (ModeKind::Private, 7) => {
                self.autowrap = on;
                self.pending = self.pending & on;
            }
            (ModeKind::Private, 25) => self.visible = on,
            (ModeKind::Standard, 4) => self.inserting = on,
            _ => {}
        }
    }

    fn set_modes(&mut self, kind: ModeKind, on: bool, numbers: &[Option<u16>])
        ensures { self.new ≡ spec.all_modes_set kind on numbers.now self.old }
    {
        for number in numbers {
            self.set_mode(kind, on, number.unwrap_or(0));
        }
    }

    /// Does the `function` that a token asks for. A character must be one of 32 to 126.
    pub fn act(&mut self, function: Function<'_>)
        requires { spec.CanAct function }
        ensures { self.new ≡ spec.act function.entry self.old }
    {
        match function {
            Function::Print(byte) => self.print(byte),
            Function::LineFeed => self.line_feed(),
            Function::CarriageReturn => self.go_to(self.row, 0),
            Function::Backspace => self.go_to(self.row, self.col.saturating_sub(1)),
            Function::Tab => self.tab(),
            Function::ShiftOut => self.shift(true),
            Function::ShiftIn => self.shift(false),
            Function::ReverseIndex => self.reverse_index(),
            Function::NextLine => self.next_line(),
            Function::CursorUp(n) => self.cursor_up(n),
            Function::CursorDown(n) => self.cursor_down(n),
            Function::CursorForward(n) => self.cursor_forward(n),
            Function::CursorBack(n) => self.cursor_back(n),
            Function::CursorColumn(col) => self.cursor_column(col),
            Function::CursorRow(row) => self.cursor_row(row),
            Function::CursorPosition(row, col) => self.cursor_position(row, col),
            Function::EraseLine(part) => self.erase_line(part),
            Function::EraseDisplay(part) => self.erase_display(part),
            Function::EraseCells(n) => self.erase_cells(n),
            Function::InsertCells(n) => self.insert_cells(n),
            Function::DeleteCells(n) => self.delete_cells(n),
            Function::InsertLines(n) => self.insert_lines(n),
            Function::DeleteLines(n) => self.delete_lines(n),
            Function::ScrollUp(n) => self.scroll_up(n),
            Function::ScrollDown(n) => self.scroll_down(n),
            Function::Margins(first, last) => self.set_margins(first, last),
            Function::Designate(set, graphic) => self.designate(set, graphic),
            Function::SelectRendition(numbers) => self.select_rendition(numbers.as_slice()),
            Function::Modes(kind, on, numbers) => self.set_modes(kind, on, numbers.as_slice()),
            Function::Ignored => {}
        }
    }
}

/// The row `n` above `row`, but not above the margin `top` if `row` isn't above it.
fn row_above(row: usize, top: usize, n: usize) -> usize
    ensures { result ≡ (if nat_le top row then max top (row - n) else row - n) }
{
    let above = row.saturating_sub(n);
    if top <= row { above.max(top) } else { above }
}

/// The row `n` below `row`, but not below the margin `bottom` if `row` isn't below it, and not below the last row.
fn row_below(row: usize, bottom: usize, rows: usize, n: usize) -> usize
    requires fits { row + n < 2 ^ 64 }
    requires some { 0 < rows }
    ensures { result ≡ (if nat_le row bottom then min bottom (row + n) else min (rows - 1) (row + n)) }
{
    let below = row + n;
    if row <= bottom {
        below.min(bottom)
    } else {
        below.min(rows - 1)
    }
}

/// The last row that DECSTBM names, where 0 is the default.
fn last_row(last: usize, rows: usize) -> usize
    requires { 0 < rows }
    ensures { result ≡ (if last == 0 then rows - 1 else min (last - 1) (rows - 1)) }
{
    if last == 0 {
        rows - 1
    } else {
        (last - 1).min(rows - 1)
    }
}

/// The rendition `now` after one number of SGR.
fn rendered(now: Rendition, number: u16) -> Rendition
    ensures { result ≡ spec.rendered number now }
{
    match RenditionChange::of(number) {
        Some(change) => now.changed(change),
        None => now,
    }
}

fn all_rendered(mut now: Rendition, numbers: &[Option<u16>]) -> Rendition
    ensures { result ≡ spec.all_rendered numbers.now now }
{
    for number in numbers {
        now = rendered(now, number.unwrap_or(0));
    }
    now
}

/// The number of characters that `bytes` begins with, at most `limit`.
fn characters_before(bytes: &[u8], limit: usize) -> usize
    ensures within { result ≤ length bytes.now }
    ensures few { result ≤ limit }
    ensures printed { AllByRecursion IsPrinted (take result bytes.now) }
    ensures count { result ≡ prefix_len is_printed (take limit bytes.now) }
{
    let end = bytes.len().min(limit);
    for k in 0..end {
        if !is_printed(bytes[k]) {
            return k;
        }
    }
    end
}

/// Whether `byte` is a graphic character or a space.
fn is_printed(byte: u8) -> bool
    ensures { result ≡ is_printed byte }
{
    (32..=126).contains(&byte)
}
