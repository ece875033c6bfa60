//! The calls on one window.
ghost use Rattle.std.specs.Prelude.{◌≡◌, bit_and, bit_or, ◌-◌, IfOk, length, option_map};
ghost use Rattle.cur_windows.specs.Desks as spec;
ghost use Rattle.cur_windows.specs.TouchedWindows.{KeepsShown, MarksAdded, MarksCellsAlone, MarksWritten};
ghost use Rattle.cur_drawing.specs.Calls as call;
ghost use Rattle.cur_drawing.specs.Windows as window;
ghost use Rattle.cur_screens.specs.Touched.{FitsLine};

use crate::desks::Desk;
use crate::regions::{note_writing, region_of};
use cur_drawing::{Attrs, Border, Put, Refusal};
use cur_screens::{
    Slot, Touched, joined, start_of, start_of_text, touch_cells, touch_text, touch_written,
};

// The calls on one window. Each refuses a number above 63 with `Full`, and else one that names no
// window with `NoWindow`. A refusal changes nothing, except for `NoScroll` and strings.
impl Desk {
    /// Moves the cursor to row `y` and column `x` of the window (X/Open Curses, `move`).
    /// `OutOfWindow` if there is no such place.
    pub fn move_to(&mut self, id: usize, y: i32, x: i32) -> Result<(), Refusal>
        ensures { spec.step self.new result ≡ spec.on_cursor self.old id (window.move_to y x) }
    {
        let mut slot = self.find(id)?;
        let answer = slot.window.move_to(y, x);
        self.windows[id] = Some(slot);
        answer
    }

    /// Makes the lines from `top` to `bottom` the scrolling region. `BadRegion` unless these are
    /// lines of the window, in order.
    pub fn setscrreg(&mut self, id: usize, top: i32, bottom: i32) -> Result<(), Refusal>
        ensures { spec.step self.new result ≡ spec.on_cursor self.old id (window.set_region top bottom) }
    {
        let mut slot = self.find(id)?;
        let answer = slot.window.set_region(top, bottom);
        self.windows[id] = Some(slot);
        answer
    }

    /// Sets the pair of written characters that have none of their own. `BadPair` for a number that
    /// isn't 0 to 63.
    pub fn color_set(&mut self, id: usize, pair: i32) -> Result<(), Refusal>
        ensures { spec.step self.new result ≡ spec.on_cursor self.old id (window.set_pair pair) }
    {
        let mut slot = self.find(id)?;
        let answer = slot.window.set_pair(pair);
        self.windows[id] = Some(slot);
        answer
    }

    /// Sets the background for what is written and erased from now on. `BadCell` for a byte outside
    /// 32 to 126, else `BadPair`.
    pub fn bkgdset(&mut self, id: usize, put: Put) -> Result<(), Refusal>
        ensures { spec.step self.new result ≡ spec.on_cursor self.old id (window.set_background put) }
    {
        let mut slot = self.find(id)?;
        let answer = slot.window.set_background(put);
        self.windows[id] = Some(slot);
        answer
    }

    /// Sets whether the window may scroll.
    pub fn scrollok(&mut self, id: usize, on: bool) -> Result<(), Refusal>
        ensures { spec.step self.new result ≡ spec.set self.old id (λ w. record w { scrolls = on }) }
    {
        let mut slot = self.find(id)?;
        slot.window.scrolls = on;
        self.windows[id] = Some(slot);
        Ok(())
    }

    /// Sets whether refreshes may leave the window's cursor anywhere.
    pub fn leaveok(&mut self, id: usize, on: bool) -> Result<(), Refusal>
        ensures { spec.step self.new result ≡ spec.set self.old id (λ w. record w { leaves = on }) }
    {
        let mut slot = self.find(id)?;
        slot.window.leaves = on;
        self.windows[id] = Some(slot);
        Ok(())
    }

    /// Sets whether the next refresh of this window clears the screen.
    pub fn clearok(&mut self, id: usize, on: bool) -> Result<(), Refusal>
        ensures { spec.step self.new result ≡ spec.set self.old id (λ w. record w { clears = on }) }
    {
        let mut slot = self.find(id)?;
        slot.window.clears = on;
        self.windows[id] = Some(slot);
        Ok(())
    }

    /// Sets the attributes of characters written from now on.
    pub fn attrset(&mut self, id: usize, attrs: Attrs) -> Result<(), Refusal>
        ensures { spec.step self.new result ≡ spec.set self.old id (λ w. record w { attrs = attrs }) }
    {
        let mut slot = self.find(id)?;
        slot.window.attrs = attrs;
        self.windows[id] = Some(slot);
        Ok(())
    }

    /// Adds these attributes to those of characters written from now on.
    pub fn attron(&mut self, id: usize, attrs: Attrs) -> Result<(), Refusal>
        ensures { spec.step self.new result ≡ spec.set self.old id
            (λ w. record w { attrs = record { 0 = bit_or w.attrs.0 attrs.0 } }) }
    {
        let mut slot = self.find(id)?;
        slot.window.attrs = slot.window.attrs.with(attrs);
        self.windows[id] = Some(slot);
        Ok(())
    }

    /// Removes these attributes from those of characters written from now on.
    pub fn attroff(&mut self, id: usize, attrs: Attrs) -> Result<(), Refusal>
        ensures { spec.step self.new result ≡ spec.set self.old id
            (λ w. record w { attrs = record { 0 = bit_and w.attrs.0 (255 - attrs.0) } }) }
    {
        let mut slot = self.find(id)?;
        slot.window.attrs = slot.window.attrs.without(attrs);
        self.windows[id] = Some(slot);
        Ok(())
    }

    /// Writes the character `put` at the cursor, which moves on. `BadCell` for a byte above 127, else `BadPair`
    /// for a pair above 63, else `NoScroll` if the cursor would leave the last line: the cell is written, and
    /// the cursor stays. If a window as wide as the screen scrolls, a hint remains, as after `scroll`.
    pub fn addch(&mut self, id: usize, put: Put) -> Result<(), Refusal>
        ensures { spec.step self.new result ≡ spec.on_window self.old id (call.added put) }
    {
        let mut touched = Touched::unknown(self.alloc);
        self.addch_marked(id, put, &mut touched)
    }

    /// Writes `put` as `addch` does, and marks the places of the window's grid that change. It marks only
    /// lines of that grid from the cursor's old one to its new one, or all of it if the region may
    /// have scrolled, and nothing if the call is refused with anything but `NoScroll`. A character
    /// that becomes one cell of the cursor's line, but not in its last column, marks this cell
    /// alone, and the places between it and the marks already in its line.
    // A program that writes cell by cell spends most of its time here. Behind a call of its own, the character would go
    // through memory.
    #[inline(always)]
    pub fn addch_marked(
        &mut self,
        id: usize,
        put: Put,
        touched: &mut Touched,
    ) -> Result<(), Refusal>
        ensures step { spec.step self.new result ≡ spec.on_window self.old id (call.added put) }
        ensures marks { MarksAdded put id touched.old self.old touched.new self.new result }
    {
        let slot = self.find(id)?;
        let start = start_of(&slot.window, put);
        if !start.fits {
            return self.add_any(id, put, touched);
        }
        let origin = self.origin_of(&slot);
        let mut moved = slot;
        moved.window.col += 1;
        set_column(&mut self.windows[id], moved.window.col);
        let grid = &mut self.grids[slot.root as usize];
        slot.window.put_next(grid, put);
        touch_cells(touched, &moved, origin, slot.window.col, 1);
        Ok(())
    }

    // Writes `put` as `addch_marked` does. It stands alone so that one cell of the cursor's line takes less.
    #[inline(never)]
    fn add_any(&mut self, id: usize, put: Put, touched: &mut Touched) -> Result<(), Refusal>
        ensures step { spec.step self.new result ≡ spec.on_window self.old id (call.added put) }
        ensures marks { MarksAdded put id touched.old self.old touched.new self.new result }
    {
        let mut slot = self.find(id)?;
        let origin = self.origin_of(&slot);
        let start = start_of(&slot.window, put);
        let mut lines = 0;
        let grid = &mut self.grids[slot.root as usize];
        let answer = slot.window.add(grid, put, &mut lines);
        note_writing(&mut self.scrolled, &slot, origin, self.cols, lines);
        touch_written(touched, &slot, origin, start, &answer);
        self.windows[id] = Some(slot);
        answer
    }

    /// Writes the string `text` at the cursor. It stops at the first refusal, and the characters
    /// written before remain. At `NoScroll` the byte at which it stopped was written too, and the
    /// cursor stays in the cell written last. The answer doesn't say how many bytes that were: for
    /// a string without controls, as many as there were cells from the cursor to the window's last
    /// one. If a window as wide as the screen scrolls, a hint remains, as after `scroll`.
    pub fn addstr(&mut self, id: usize, text: &[u8]) -> Result<(), Refusal>
        ensures { spec.step self.new result ≡ spec.on_window self.old id (call.added_all text.now) }
    {
        let mut touched = Touched::unknown(self.alloc);
        self.addstr_marked(id, text, &mut touched)
    }

    /// Writes `text` as `addstr` does, and marks the places of the window's grid that change. It marks
    /// only lines of that grid from the cursor's old one to its new one, or all of it if the region
    /// may have scrolled. A string that becomes cells of the cursor's line, none in its last
    /// column, marks these alone, and the places between them and the marks already in their line.
    pub fn addstr_marked(
        &mut self,
        id: usize,
        text: &[u8],
        touched: &mut Touched,
    ) -> Result<(), Refusal>
        ensures step { spec.step self.new result ≡ spec.on_window self.old id (call.added_all text.now) }
        ensures touched { KeepsShown touched.old self.old touched.new self.new }
        ensures only { MarksWritten touched.old touched.new self.old self.new id }
        ensures cells { IfOk (spec.slot_of self.old id) (λ s. FitsLine s.window text.now
            → MarksCellsAlone touched.old touched.new self.old s (length text.now)) }
    {
        let mut slot = self.find(id)?;
        let origin = self.origin_of(&slot);
        let start = start_of_text(&slot.window, text);
        let mut lines = 0;
        let grid = &mut self.grids[slot.root as usize];
        let answer = slot.window.add_all(grid, text, &mut lines);
        note_writing(&mut self.scrolled, &slot, origin, self.cols, lines);
        touch_text(touched, &slot, origin, start);
        self.windows[id] = Some(slot);
        answer
    }

    /// Erases the whole window, and moves the cursor to its corner.
    pub fn erase(&mut self, id: usize) -> Result<(), Refusal>
        ensures { spec.step self.new result ≡ spec.on_window self.old id (call.erased) }
    {
        let mut slot = self.find(id)?;
        let grid = &mut self.grids[slot.root as usize];
        slot.window.erase(grid);
        self.windows[id] = Some(slot);
        Ok(())
    }

    /// As `erase`; the next refresh of this window also clears the screen.
    pub fn clear(&mut self, id: usize) -> Result<(), Refusal>
        ensures { spec.step self.new result ≡ spec.on_window self.old id (call.cleared) }
    {
        let mut slot = self.find(id)?;
        let grid = &mut self.grids[slot.root as usize];
        slot.window.clear(grid);
        self.windows[id] = Some(slot);
        Ok(())
    }

    /// Changes the background, in the window's cells too. `BadCell` for a byte outside 32 to 126,
    /// else `BadPair`.
    pub fn bkgd(&mut self, id: usize, put: Put) -> Result<(), Refusal>
        ensures { spec.step self.new result ≡ spec.on_window self.old id (call.change_background put) }
    {
        let mut slot = self.find(id)?;
        let grid = &mut self.grids[slot.root as usize];
        let answer = slot.window.change_background(grid, put);
        self.windows[id] = Some(slot);
        answer
    }

    /// Inserts the character `put` at the cursor; the rest of the line moves right. `BadCell` for a
    /// byte outside 32 to 126, else `BadPair`.
    pub fn insch(&mut self, id: usize, put: Put) -> Result<(), Refusal>
        ensures { spec.step self.new result ≡ spec.on_grid self.old id (call.insert_char put) }
    {
        let slot = self.find(id)?;
        let grid = &mut self.grids[slot.root as usize];
        slot.window.insert_char(grid, put)
    }

    /// Deletes the cursor's cell; the rest of the line moves left.
    pub fn delch(&mut self, id: usize) -> Result<(), Refusal>
        ensures { spec.step self.new result ≡ spec.on_grid self.old id (call.delete_char) }
    {
        let slot = self.find(id)?;
        let grid = &mut self.grids[slot.root as usize];
        slot.window.delete_char(grid);
        Ok(())
    }

    /// Inserts a line at the cursor's; the lines from there to the window's bottom move down.
    pub fn insertln(&mut self, id: usize) -> Result<(), Refusal>
        ensures { spec.step self.new result ≡ spec.on_grid self.old id (call.insert_line) }
    {
        let slot = self.find(id)?;
        let grid = &mut self.grids[slot.root as usize];
        slot.window.insert_line(grid);
        Ok(())
    }

    /// Deletes the cursor's line; the lines below it move up.
    pub fn deleteln(&mut self, id: usize) -> Result<(), Refusal>
        ensures { spec.step self.new result ≡ spec.on_grid self.old id (call.delete_line) }
    {
        let slot = self.find(id)?;
        let grid = &mut self.grids[slot.root as usize];
        slot.window.delete_line(grid);
        Ok(())
    }

    /// Erases the cells from the cursor to the line's end.
    pub fn clrtoeol(&mut self, id: usize) -> Result<(), Refusal>
        ensures { spec.step self.new result ≡ spec.on_grid self.old id (call.clear_line) }
    {
        let slot = self.find(id)?;
        let grid = &mut self.grids[slot.root as usize];
        slot.window.clear_line(grid);
        Ok(())
    }

    /// Erases the cells from the cursor to the window's end.
    pub fn clrtobot(&mut self, id: usize) -> Result<(), Refusal>
        ensures { spec.step self.new result ≡ spec.on_grid self.old id (call.clear_bottom) }
    {
        let slot = self.find(id)?;
        let grid = &mut self.grids[slot.root as usize];
        slot.window.clear_bottom(grid);
        Ok(())
    }

    /// Draws at most `n` cells of `put` from the cursor to the line's end. `BadCell` for a byte
    /// outside 32 to 126, else `BadPair`.
    pub fn hline(&mut self, id: usize, put: Put, n: i32) -> Result<(), Refusal>
        ensures { spec.step self.new result ≡ spec.on_grid self.old id (call.horizontal put n) }
    {
        let slot = self.find(id)?;
        let grid = &mut self.grids[slot.root as usize];
        slot.window.horizontal(grid, put, n)
    }

    /// Draws at most `n` cells of `put` from the cursor to the window's bottom. `BadCell` for a
    /// byte outside 32 to 126, else `BadPair`.
    pub fn vline(&mut self, id: usize, put: Put, n: i32) -> Result<(), Refusal>
        ensures { spec.step self.new result ≡ spec.on_grid self.old id (call.vertical put n) }
    {
        let slot = self.find(id)?;
        let grid = &mut self.grids[slot.root as usize];
        slot.window.vertical(grid, put, n)
    }

    /// Draws `border` inside the window's edges. `BadCell` for a byte outside 32 to 126 anywhere in
    /// it, else `BadPair`.
    pub fn border(&mut self, id: usize, border: &Border) -> Result<(), Refusal>
        ensures { spec.step self.new result ≡ spec.on_grid self.old id (call.bordered border.now) }
    {
        let slot = self.find(id)?;
        let grid = &mut self.grids[slot.root as usize];
        slot.window.draw_border(grid, border)
    }

    /// Moves the scrolling region up by `n` lines, or down if `n` is negative. `NoScroll` for a window that
    /// may not scroll. If the window is as wide as the screen, the next `noutrefresh` leaves a hint there.
    pub fn scroll(&mut self, id: usize, n: i32) -> Result<(), Refusal>
        ensures { spec.step self.new result ≡ spec.on_grid self.old id (call.scroll_by n) }
    {
        let slot = self.find(id)?;
        let region = region_of(&slot, self.origin_of(&slot), self.cols);
        self.scrolled = joined(self.scrolled, region.map(|region| region.by(n)));
        let grid = &mut self.grids[slot.root as usize];
        slot.window.scroll(grid, n)
    }

    /// Draws a border with these sides and the default corners (`box`). `BadCell` for a byte
    /// outside 32 to 126, else `BadPair`.
    pub fn draw_box(&mut self, id: usize, vertical: Put, horizontal: Put) -> Result<(), Refusal>
        ensures { spec.step self.new result ≡ spec.on_grid self.old id
            (call.bordered (call.box_of vertical horizontal)) }
    {
        self.border(id, &Border::sides(vertical, horizontal))
    }

    /// Changes nothing: a refresh scrolls with the terminal's own strings whenever that takes fewer
    /// bytes, and doesn't use its insertion and deletion of lines.
    pub fn idlok(&self, id: usize, _on: bool) -> Result<(), Refusal>
        ensures { spec.step self.now result ≡ spec.unchanged self.now id }
    {
        self.find(id).map(|_slot| ())
    }

    /// Changes nothing: copies are of whole windows.
    pub fn touchwin(&self, id: usize) -> Result<(), Refusal>
        ensures { spec.step self.now result ≡ spec.unchanged self.now id }
    {
        self.find(id)?;
        Ok(())
    }

    /// Changes nothing, and refuses no line numbers: copies are of whole windows.
    pub fn touchline(&self, id: usize, _y: i32, _n: i32) -> Result<(), Refusal>
        ensures { spec.step self.now result ≡ spec.unchanged self.now id }
    {
        self.touchwin(id)
    }
}

// Moves the cursor of a window to the column `col` of its line, and leaves all else in its place.
fn set_column(window: &mut Option<Slot>, col: u16)
    ensures { window.new ≡ option_map (spec.in_column col) window.old }
{
    if let Some(slot) = window {
        slot.window.col = col;
    }
}
