//! Runs from a given state of the terminal.

ghost use Rattle.std.specs.Prelude.{◌≡◌, ◌*◌, IfOk, IsTrue, option_map};
ghost use Rattle.ti_words.specs.Runs as spec;

use crate::states::seen_words;
use std::alloc::{AllocError, Global};
use vt_term::{Settings, Size, Terminal};

/// The words for the changes by a run of `bytes` on a terminal of `size` with the settings `start`, where every cell
/// shows the character `fill`; `None` if there is no such terminal, or the bytes don't run on it.
#[tactic(auto, using(crate::proofs::RunFacts::told_from_start))]
pub fn run_words(
    alloc: Global,
    size: Size,
    start: &Settings,
    fill: u8,
    bytes: &[u8],
) -> Result<Option<Vec<u8>>, AllocError>
    ensures { IfOk result (λ found. spec.IsRunText size.rows size.cols start.now fill bytes.now
        (option_map (λ words. words.items) found)) }
{
    match filled_terminal(alloc, size, start, fill)? {
        Some(terminal) => words_from(alloc, start, fill, terminal, bytes),
        None => Ok(None),
    }
}

/// The words for the changes by a run of `bytes` on `terminal`, whose settings are those of `start` and whose cells
/// show the character `fill`; `None` if the bytes don't run.
fn words_from(
    alloc: Global,
    start: &Settings,
    fill: u8,
    mut terminal: Terminal,
    bytes: &[u8],
) -> Result<Option<Vec<u8>>, AllocError>
    ensures { IfOk result (λ found. spec.IsTextFrom terminal start.now fill bytes.now
        (option_map (λ words. words.items) found)) }
{
    match terminal.feed(bytes) {
        Ok(()) => Ok(Some(seen_words(alloc, start, &terminal, fill)?)),
        Err(_) => Ok(None),
    }
}

/// A terminal of `size` with these `settings`, where every cell shows the character `fill`; `None` if the settings
/// aren't on the screen, or the character can't be printed.
fn filled_terminal(
    alloc: Global,
    size: Size,
    settings: &Settings,
    fill: u8,
) -> Result<Option<Terminal>, AllocError>
    ensures { IfOk result (λ found. spec.IsStart size.rows size.cols settings.now fill found) }
{
    if is_on_screen(size, settings) {
        filled(alloc, size, settings, fill)
    } else {
        Ok(None)
    }
}

/// Such a terminal, for settings that are on the screen.
fn filled(
    alloc: Global,
    size: Size,
    settings: &Settings,
    fill: u8,
) -> Result<Option<Terminal>, AllocError>
    requires { spec.IsOnScreen size.rows size.cols settings.now }
    ensures { IfOk result (λ found. spec.IsStart size.rows size.cols settings.now fill found) }
{
    let mut terminal = Terminal::new(alloc, size)?;
    let cells = vec![in alloc; fill; cell_count(size)]?;
    match terminal.feed(cells.as_slice()) {
        Ok(()) => {
            terminal.set(*settings);
            Ok(Some(terminal))
        }
        Err(_) => Ok(None),
    }
}

fn cell_count(size: Size) -> usize
    ensures { result ≡ size.rows * size.cols }
{
    size.rows * size.cols
}

fn is_on_screen(size: Size, settings: &Settings) -> bool
    ensures sound { IsTrue result → spec.IsOnScreen size.rows size.cols settings.now }
    ensures complete { spec.IsOnScreen size.rows size.cols settings.now → IsTrue result }
{
    settings.row < size.rows
        && settings.col < size.cols
        && settings.top < settings.bottom
        && settings.bottom < size.rows
}
