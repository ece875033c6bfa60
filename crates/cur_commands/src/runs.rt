//! Runs of calls over an output.
ghost use Rattle.std.specs.Prelude.{◌≡◌, [], IfErr, OnOk};
ghost use Rattle.cur_commands.specs.Through.{IsUnplayed, RanThrough};

use crate::buffers::Buffer;
use crate::held::Held;
use cur_play::run_paced;
use cur_scripts::Call;
use std::alloc::Global;
use ti_conforms::Certificate;
use ti_files::{Failure, Output};

/// Nothing, from a run; or why it was not all played.
pub type Played = Result<(), Failure>;

/// Plays `calls`, one after another, in a session of their own on the terminal of `checked`, and writes the bytes that
/// they send to `out`: the bytes of a call are passed on before the next call, in one piece if there are at most 65536.
///
/// # Errors
/// `NoMemory` if there is none for the session; then nothing was written. `Output`, after the run, if the output has
/// failed.
pub fn play_calls<C: Certificate + Drop, O: Output>(
    alloc: Global,
    checked: C,
    calls: &[Call<'_>],
    out: &mut O,
) -> Played
    ensures ran { OnOk result (RanThrough (C.table checked) (C.partners checked) (O.contents out.old)
        (O.contents out.new) calls.now) }
    ensures failure { IfErr result (λ e. IsUnplayed O.has_failed out.old out.new e) }
{
    let mut buffer = Buffer::new(alloc)?;
    let mut held = Held {
        output: out,
        buffer: &mut buffer,
        failures: 0,
    };
    play_held(alloc, checked, calls, &mut held)
}

/// Plays the calls on an output for which nothing is held back, before or after.
fn play_held<C: Certificate + Drop, O: Output>(
    alloc: Global,
    checked: C,
    calls: &[Call<'_>],
    held: &mut Held<'_, O>,
) -> Played
    requires nothing { held.old.buffer.now ≡ [] }
    requires unfailed { held.old.failures ≡ 0 }
    ensures ran { OnOk result (RanThrough (C.table checked) (C.partners checked) (O.contents held.old.output.now)
        (O.contents held.new.output.now) calls.now) }
    ensures failure { IfErr result (λ e. IsUnplayed O.has_failed held.old.output.now held.new.output.now e) }
    ensures same { held.new.output.ghost_name ≡ held.old.output.ghost_name }
{
    run_paced(alloc, checked, calls, held)?;
    held.flush();
    if held.failures > 0 {
        return Err(Failure::Output);
    }
    Ok(())
}
