//! The parts of its state that `Terminal` doesn't return: autowrap, insertion, and the open sequence.

ghost use Rattle.std.specs.Prelude.{◌≡◌, ◌≤◌, ℕ, ◌∷◌, ◌++◌, [], List, drop, length, IfOk};
ghost use Rattle.vt_term.specs.{Screen.{State, reset}, Text.{Splits}, Run.{Runs}};
ghost use Rattle.vt_states.specs.Watches.{IsWatch, all_switched, switched, switches_after, switches_of};

use std::alloc::{AllocError, Global};
use vt_term::{Function, ModeKind, Scanner};

/// The modes that a stream switches and that `Terminal` doesn't return.
#[derive(Clone, Copy, Debug, PartialEq, Eq)]
pub struct Switches {
    /// Whether autowrap (DECAWM) is on.
    pub autowrap: bool,
    /// Whether insert mode (IRM) is on.
    pub inserting: bool,
}

/// The part of the state after a stream that can be read off the stream.
#[derive(Clone, Copy, Debug)]
pub struct Watch<'a> {
    /// The modes after it.
    pub switches: Switches,
    /// The sequence that is open at the stream's end, empty if none is.
    pub rest: &'a [u8],
}

/// CAN, which drops an open sequence.
const CANCEL: u8 = 24;

impl Switches {
    /// The switches after one function.
    fn after(self, function: Function<'_>) -> Switches
        ensures { result ≡ switches_after function.entry self }
    {
        if let Function::Modes(kind, on, numbers) = function {
            switch_all(kind, on, numbers.as_slice(), self)
        } else {
            self
        }
    }
}

/// The switches after modes that are set (`on`) or reset.
fn switch_all(kind: ModeKind, on: bool, numbers: &[Option<u16>], before: Switches) -> Switches
    ensures { result ≡ all_switched kind on numbers.now before }
{
    let mut switches = before;
    for number in numbers {
        switches = switch(kind, on, number.unwrap_or(0), switches);
    }
    switches
}

/// The switches after one mode is set (`on`) or reset.
fn switch(kind: ModeKind, on: bool, number: u16, before: Switches) -> Switches
    ensures { result ≡ switched kind on number before }
{
    match kind {
        ModeKind::Private if number == 7 => Switches {
            autowrap: on,
            ..before
        },
        ModeKind::Standard if number == 4 => Switches {
            inserting: on,
            ..before
        },
        ModeKind::Private | ModeKind::Standard => before,
    }
}

/// The modes and the open sequence that `text` leaves in a terminal that was reset. Fails only when out of memory.
pub fn watched<'a>(alloc: Global, text: &'a [u8]) -> Result<Watch<'a>, AllocError>
    ensures { IfOk result (λ watch. IsWatch text.entry.now watch) }
{
    let rest = &text[open_place(alloc, text)?..];
    let mut closed = Vec::from_slice(alloc, text)?;
    closed.push(CANCEL)?;
    let switches = switches_in(alloc, closed.as_slice())?;
    Ok(Watch { switches, rest })
}

/// The place where the open sequence at the end of `text` begins, if `text` splits; its length if nothing is open.
fn open_place(alloc: Global, text: &[u8]) -> Result<usize, AllocError>
    ensures within { IfOk result (λ at. at ≤ length text.now) }
    ensures rest { IfOk result (λ at. (tokens : List (List ℕ)) (rest : List ℕ) → Splits text.now tokens rest →
        rest ≡ drop at text.now) }
{
    let mut scanner = Scanner::new(alloc)?;
    let mut start = 0;
    loop {
        match scanner.next(text, start) {
            Ok(Some(end)) => start = end,
            Ok(None) => return Ok(text.len()),
            Err(fault) => return Ok(fault.at),
        }
    }
}

/// The switches after a text of whole tokens.
fn switches_in(alloc: Global, text: &[u8]) -> Result<Switches, AllocError>
    ensures { IfOk result (λ switches. (rows cols : ℕ) (after : State) → Runs (reset rows cols) text.now after →
        after.rest ≡ [] → switches_of after.screen ≡ switches) }
{
    let mut scanner = Scanner::new(alloc)?;
    let mut switches = Switches {
        autowrap: true,
        inserting: false,
    };
    let mut start = 0;
    loop {
        match scanner.next(text, start) {
            Ok(Some(end)) => {
                switches = switches.after(scanner.function());
                start = end;
            }
            Ok(None) => return Ok(switches),
            Err(_) => return Ok(switches),
        }
    }
}
