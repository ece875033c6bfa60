//! A greeting in a window with a border.
ghost use Rattle.std.specs.Prelude.{◌≡◌, Ok, IfOk, OnOk};
ghost use Rattle.hello.specs.{Calls.{greeting}, Greeting.{IsGreeting}, Displays.{Greets}};

use anyhow::Result;
use curses::{Certificate, Desk, Painter, Put, Refusal, Size, Virtual, Wire};
use std::alloc::Global;

/// The number of the greeting's window.
const GREETING: usize = 1;

/// Shows the greeting on a terminal to which nothing has been sent, and returns the painter that
/// knows what the terminal shows.
pub fn greet<C: Certificate + Drop, W: Wire>(
    alloc: Global,
    checked: C,
    wire: &mut W,
) -> Result<Painter<C>>
    ensures shown { OnOk result (Greets W.went wire.old wire.new (C.table checked) (C.partners checked)) }
{
    let size = Size::new(checked.rows(), checked.cols()).unwrap();
    let screen = greeting_screen(alloc, size)?;
    let mut painter = Painter::start(alloc, checked)?;
    painter.update(&screen, wire)?;
    Ok(painter)
}

/// A virtual screen with the greeting.
fn greeting_screen(alloc: Global, size: Size) -> Result<Virtual>
    ensures greeting { IfOk result (λ screen. IsGreeting size.rows size.cols screen) }
{
    let mut desk = Desk::new(alloc, size)?;
    let mut screen = Virtual::new(alloc, size)?;
    draw(&mut desk)?;
    desk.noutrefresh(GREETING, &mut screen)?;
    Ok(screen)
}

/// Draws the greeting in a window of its own. The desk keeps its rows and columns, as `noutrefresh` requires.
fn draw(desk: &mut Desk) -> Result<(), Refusal>
    ensures drawn { OnOk result ((desk.new, Ok tt) ≡ greeting desk.old) }
    ensures rows { OnOk result ((desk.new).rows ≡ (desk.old).rows) }
    ensures cols { OnOk result ((desk.new).cols ≡ (desk.old).cols) }
{
    desk.newwin(GREETING, 3, 17, 1, 4)?;
    desk.draw_box(GREETING, Put::vertical_line(), Put::horizontal_line())?;
    desk.move_to(GREETING, 1, 2)?;
    desk.addstr(GREETING, b"Hello, world!")
}
