//! Runs of T on a small screen.

ghost use Rattle.std.specs.Prelude.{◌≡◌, ◌↔◌, IfOk, IsTrue, true, false};
ghost use Rattle.vt_term.specs.Screen.{reset};
ghost use Rattle.ti_advice.specs.Runs as spec;

use std::alloc::{AllocError, Global};
use vt_term::{Size, Terminal};

/// An answer, or that memory ran out.
pub(crate) type Answer = Result<bool, AllocError>;

/// A terminal of 5 lines and 10 columns in its reset state.
fn new_terminal(alloc: Global) -> Result<Terminal, AllocError>
    ensures { IfOk result (λ terminal. terminal ≡ reset 5 10) }
{
    let size = Size::new(5, 10).unwrap();
    Terminal::new(alloc, size)
}

/// Whether both terminals show the same text, cursor and looks.
fn is_same(alloc: Global, one: &Terminal, other: &Terminal) -> Answer
    ensures { IfOk result (λ so. IsTrue so ↔ spec.SeenAlike one.now other.now) }
{
    let text = one.print_screen(alloc)?;
    let wanted = other.print_screen(alloc)?;
    Ok(text.as_slice() == wanted.as_slice())
}

/// Whether `other` leaves what `first`, which has run, shows.
fn ends_alike(alloc: Global, first: &Terminal, other: &[u8]) -> Answer
    ensures alike { IfOk result (λ so. so ≡ true → spec.EndsAlike first.now other.now) }
    ensures unlike { IfOk result (λ so. so ≡ false → spec.EndsUnlike first.now other.now) }
{
    let mut second = new_terminal(alloc)?;
    match second.feed(other) {
        Ok(()) => is_same(alloc, first, &second),
        Err(_stuck) => Ok(false),
    }
}

/// Whether these bytes lead a new terminal to what `other` leads it to.
pub(crate) fn is_alike(alloc: Global, bytes: &[u8], other: &[u8]) -> Answer
    ensures alike { IfOk result (λ so. so ≡ true → spec.DoAlike bytes.now other.now) }
    ensures unlike { IfOk result (λ so. so ≡ false → spec.DoUnlike bytes.now other.now) }
{
    if bytes == other {
        return Ok(true);
    }
    let mut first = new_terminal(alloc)?;
    match first.feed(bytes) {
        Ok(()) => ends_alike(alloc, &first, other),
        Err(_stuck) => Ok(false),
    }
}
