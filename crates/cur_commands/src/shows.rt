//! Runs of calls on the specified terminal.
ghost use Rattle.std.specs.Prelude.{◌≡◌, [], IfOk, Some};
ghost use Rattle.ti_commands.specs.Feeds.{ShowsAfter};
ghost use Rattle.cur_play.specs.Log.{Ran};
ghost use Rattle.cur_commands.specs.{Shows.{IsTaken, ShowsRun}, Through.{AreThrough, unfailing}};

use crate::refusals::refusal_lines;
use crate::taken::Taken;
use cur_play::{Log, run};
use cur_scripts::Call;
use std::alloc::{AllocError, Global};
use ti_conforms::Certificate;
use vt_term::{Size, Terminal};

/// Plays `calls` on a terminal in its reset state, of the size of `checked`: a line for each call that was refused, and
/// then the terminal's screen. The terminal takes all that is sent, so this fails only if memory runs out.
pub fn show_calls<C: Certificate + Drop>(
    alloc: Global,
    checked: C,
    calls: &[Call<'_>],
) -> Result<Vec<u8>, AllocError>
    ensures { IfOk result (λ text. ShowsRun (C.table checked) (C.partners checked) (C.table checked).rows
        (C.table checked).cols calls.now text.items) }
{
    let size = Size::new(checked.rows(), checked.cols()).unwrap();
    let mut taken = Taken::new(alloc);
    let log = play_in_memory(alloc, checked, calls, &mut taken)?;
    let mut text = refusal_lines(alloc, log.entries.as_slice())?;
    let screen = screen_after(alloc, size, taken.bytes.as_slice())?;
    text.extend_from_slice(screen.as_slice())?;
    Ok(text)
}

/// Plays `calls`, and keeps the bytes that they send. Fails also if there was no memory to keep them.
fn play_in_memory<C: Certificate + Drop>(
    alloc: Global,
    checked: C,
    calls: &[Call<'_>],
    taken: &mut Taken,
) -> Result<Log, AllocError>
    ensures ran { IfOk result (λ log. Ran (unfailing (C.table checked) (C.partners checked))
        (Some taken.old.bytes.items) (Some taken.new.bytes.items) calls.now log.entries.items) }
    ensures through { IfOk result (λ log. AreThrough log.entries.items) }
{
    let log = run(alloc, checked, calls, taken)?;
    if taken.failures > 0 {
        return Err(AllocError);
    }
    Ok(log)
}

/// The screen of a terminal after `bytes`; the terminal must take them.
fn screen_after(alloc: Global, size: Size, bytes: &[u8]) -> Result<Vec<u8>, AllocError>
    requires { IsTaken size.rows size.cols bytes.now }
    ensures { IfOk result (λ text. ShowsAfter size.rows size.cols bytes.now text.items) }
{
    let mut terminal = Terminal::new(alloc, size)?;
    terminal.feed(bytes).unwrap();
    terminal.print_screen(alloc)
}
