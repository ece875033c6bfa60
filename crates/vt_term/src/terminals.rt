//! `Terminal`: a display with a parser; bytes are fed to it.

ghost use Rattle.std.specs.Prelude.{◌≡◌, ◌<◌, ◌≤◌, ◌+◌, [], ◌∷◌, length, take, IfOk, IfErr, OnOk};
ghost use Rattle.vt_screen.specs.Grid.{line_at, look_at};

use crate::functions::{of_numbers, of_private_numbers};
use crate::parser::{ESCAPE, Parser, Transition};
use crate::whole_sequences::read_parameters;
use std::alloc::{AllocError, Global};
use std::marker::Model;
use thiserror::Error;
use vt_screen::{Cell, Display, Rendition, Size};

/// The byte at the place `at` of the bytes fed can neither continue the open sequence nor begin anything.
#[derive(Clone, Copy, Debug, PartialEq, Eq, Error)]
#[error("Stuck {at}")]
pub struct Stuck {
    pub at: usize,
}

/// A character terminal: the display with its modes, and the sequence that is open, if any.
#[derive(Drop)]
pub struct Terminal {
    pub(crate) display: Display,
    parser: Parser,
}

impl Model for Terminal {
    ghost use Rattle.vt_term.specs.{Screen.{State}, Text.{IsOpen}};

    ghost Value = { State };

    ghost view = { λ t. record { screen = t.display; rest = t.parser } };

    ghost invariant = { λ t. IsOpen t.parser };
}

impl Terminal {
    ghost use Rattle.vt_term.specs.{Screen.{reset, IsState}, Run.{Runs, Sticks, Accepts}};
    ghost use Rattle.vt_screen.specs.Printed.{screen_text};

    /// A terminal of this `size` in the reset state. Fails only when out of memory.
    pub fn new(alloc: Global, size: Size) -> Result<Terminal, AllocError>
        ensures { IfOk result (λ terminal. terminal ≡ reset size.rows size.cols) }
    {
        let parser = Parser::new(alloc)?;
        let display = Display::new(alloc, size)?;
        Ok(Terminal { display, parser })
    }

    /// Feeds more of the stream, in pieces of any length; allocates no memory. Stops at a byte that can neither
    /// continue the open sequence nor begin anything: the bytes before it were taken, this one was not, and the open
    /// sequence is dropped. A later call goes on from there.
    pub fn feed(&mut self, bytes: &[u8]) -> Result<(), Stuck>
        ensures ok { OnOk result (Runs self.old bytes.now self.new) }
        ensures stuck { IfErr result (λ e. Sticks self.old bytes.now e.at self.new) }
        ensures rows { self.new.screen.rows ≡ self.old.screen.rows }
        ensures cols { self.new.screen.cols ≡ self.old.screen.cols }
    {
        // here the prover learns the invariant of the terminal
        let _ = &self.parser;
        let mut at = 0;
        while at < bytes.len() {
            let taken = self.take_front(&bytes[at..]);
            if taken > 0 {
                at += taken;
            } else if self.accept(bytes[at]) {
                at += 1;
            } else {
                return Err(Stuck { at });
            }
        }
        Ok(())
    }

    /// Takes a prefix of `bytes` at once if nothing is open: as many characters as fit in the cursor's line, or a
    /// whole control sequence that has only parameters. Returns the number of bytes taken, 0 if none.
    fn take_front(&mut self, bytes: &[u8]) -> usize
        ensures within { result ≤ length bytes.now }
        ensures runs { Runs self.old (take result bytes.now) self.new }
        ensures rows { self.new.screen.rows ≡ self.old.screen.rows }
        ensures cols { self.new.screen.cols ≡ self.old.screen.cols }
    {
        if !self.parser.is_outside() {
            return 0;
        }
        match bytes {
            [ESCAPE, b'[', b'?', rest @ ..] => self.take_private(rest),
            [ESCAPE, b'[', rest @ ..] => self.take_sequence(rest),
            _ => self.take_characters(bytes),
        }
    }

    fn take_characters(&mut self, bytes: &[u8]) -> usize
        requires { self.old.rest ≡ [] }
        ensures within { result ≤ length bytes.now }
        ensures runs { Runs self.old (take result bytes.now) self.new }
        ensures rows { self.new.screen.rows ≡ self.old.screen.rows }
        ensures cols { self.new.screen.cols ≡ self.old.screen.cols }
    {
        // here the prover learns the invariant of the display
        let _ = self.display.size();
        self.display.print_front(bytes)
    }

    /// Takes a control sequence at once, given the bytes after its ESC and `[`. Returns the length of the whole
    /// sequence, 0 if it took nothing.
    fn take_sequence(&mut self, bytes: &[u8]) -> usize
        requires { self.old.rest ≡ [] }
        ensures within { result ≤ length bytes.now + 2 }
        ensures runs { Runs self.old (take result (27 ∷ 91 ∷ bytes.now)) self.new }
        ensures rows { self.new.screen.rows ≡ self.old.screen.rows }
        ensures cols { self.new.screen.cols ≡ self.old.screen.cols }
    {
        // here the prover learns the invariant of the terminal
        let _ = &self.parser;
        let mut numbers = [None; 16];
        match read_parameters(bytes, &mut numbers) {
            Some(found) => {
                // here the prover learns the invariant of the display
                let _ = self.display.size();
                self.display
                    .act(of_numbers(found.last, &numbers[..found.count]));
                found.at + 3
            }
            None => 0,
        }
    }

    /// Takes a control sequence at once, given the bytes after its ESC, `[` and `?`. Returns the length of the whole
    /// sequence, 0 if it took nothing.
    fn take_private(&mut self, bytes: &[u8]) -> usize
        requires { self.old.rest ≡ [] }
        ensures within { result ≤ length bytes.now + 3 }
        ensures runs { Runs self.old (take result (27 ∷ 91 ∷ 63 ∷ bytes.now)) self.new }
        ensures rows { self.new.screen.rows ≡ self.old.screen.rows }
        ensures cols { self.new.screen.cols ≡ self.old.screen.cols }
    {
        // here the prover learns the invariant of the terminal
        let _ = &self.parser;
        let mut numbers = [None; 16];
        match read_parameters(bytes, &mut numbers) {
            Some(found) => {
                // here the prover learns the invariant of the display
                let _ = self.display.size();
                let function = of_private_numbers(found.last, &numbers[..found.count]);
                self.display.act(function);
                found.at + 4
            }
            None => 0,
        }
    }

    /// Takes one byte, and returns whether it could; if not, the open sequence is dropped.
    fn accept(&mut self, byte: u8) -> bool
        ensures accepts { Accepts self.old byte result self.new }
        ensures rows { self.new.screen.rows ≡ self.old.screen.rows }
        ensures cols { self.new.screen.cols ≡ self.old.screen.cols }
    {
        match self.parser.transition(byte) {
            Transition::Opens => {
                self.parser.open(byte);
                true
            }
            Transition::Ends => {
                // here the prover learns the invariant of the display
                let _ = self.display.size();
                self.display.act(self.parser.function(byte));
                self.parser.clear();
                true
            }
            Transition::Restarts => {
                self.parser.clear();
                self.parser.open(byte);
                true
            }
            Transition::Cancels => {
                self.parser.clear();
                true
            }
            Transition::Fails => {
                self.parser.clear();
                false
            }
        }
    }

    /// The size, which the state always has.
    pub fn size(&self) -> Size
        ensures rows { result.rows ≡ self.now.screen.rows }
        ensures cols { result.cols ≡ self.now.screen.cols }
        ensures state { IsState self.now }
    {
        // here the prover learns the invariant of the terminal
        let _ = &self.display;
        self.display.size()
    }

    /// The cells of the line `row`, which counts from 0 and must be on the screen.
    pub fn line(&self, row: usize) -> &[Cell]
        requires { row < self.now.screen.rows }
        ensures { result.now ≡ line_at self.now.screen.grid row }
    {
        self.display.line(row)
    }

    /// The cell at row `row` and column `col`, which count from 0 and must be on the screen.
    pub fn cell(&self, row: usize, col: usize) -> Cell
        requires row_within { row < self.now.screen.rows }
        requires col_within { col < self.now.screen.cols }
        ensures { result ≡ look_at self.now.screen.grid row col }
    {
        self.display.cell(row, col)
    }

    /// The cursor's row and column.
    pub fn cursor(&self) -> (usize, usize)
        ensures row { result.0 ≡ self.now.screen.row }
        ensures col { result.1 ≡ self.now.screen.col }
    {
        self.display.cursor()
    }

    /// Whether the last column was printed, so the next character goes to the next line.
    pub fn pending(&self) -> bool
        ensures { result ≡ self.now.screen.pending }
    {
        self.display.pending()
    }

    /// The rendition that the next character takes.
    pub fn rendition(&self) -> Rendition
        ensures { result ≡ self.now.screen.rendition }
    {
        self.display.rendition()
    }

    /// Whether the cursor can be seen.
    pub fn visible(&self) -> bool
        ensures { result ≡ self.now.screen.visible }
    {
        self.display.visible()
    }

    /// The screen as a text: a line for each row, the cursor's line, and a line for each run of cells that are shown
    /// alike and not plainly. Fails only when out of memory.
    pub fn print_screen(&self, alloc: Global) -> Result<Vec<u8>, AllocError>
        ensures { IfOk result (λ text. text.items ≡ screen_text self.now.screen) }
    {
        self.display.print_screen(alloc)
    }
}
