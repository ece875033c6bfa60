//! Runs of many calls.
ghost use Rattle.std.specs.Prelude.{◌≡◌, ◌<◌, ◌≤◌, [], length, vec_capacity, vec_len, IfOk, OnErr, OnOk};
ghost use Rattle.cur_steps.specs.Counted.{Counts};
ghost use Rattle.cur_play.specs.{Log.{HasRun, Ran, paced_subject_of, subject_of}, Runs.{HasRunOn, RanOn}};
ghost use Rattle.cur_play.specs.Scenes.{first, scene_of};

use crate::answers::Answer;
use crate::paced::Paced;
use crate::sessions::Session;
use cur_scripts::Call;
use cur_steps::Counted;
use cur_update::Wire;
use std::alloc::{AllocError, Global};
use ti_conforms::Certificate;

/// The answer to a call of a run, and the number of bytes that the wire has taken since the run began.
#[derive(Clone, Copy)]
pub struct LogEntry {
    pub answer: Answer,
    pub sent: u128,
}

/// The log of a run: one entry for each call.
#[derive(Drop)]
pub struct Log {
    pub entries: Vec<LogEntry>,
}

/// Plays `calls`, one after another, on `wire`, in a session of their own on the terminal of `checked`. For all calls,
/// and wherever the wire fails: each call is done as it is defined and sends all its bytes, or a proper prefix of them
/// if the wire failed in it; the terminal takes all of them; and after each refresh that was done, a terminal in its
/// first state shows the virtual screen once it is fed the first `sent` bytes of the run, as the refresh's entry counts
/// them. Fails if there was no memory for the session or the log; then nothing was sent.
pub fn run<C: Certificate + Drop, W: Wire>(
    alloc: Global,
    checked: C,
    calls: &[Call<'_>],
    wire: &mut W,
) -> Result<Log, AllocError>
    ensures ran { IfOk result (λ log. Ran (subject_of W.went W.failures (C.table checked) (C.partners checked))
        wire.old wire.new calls.now log.entries.items) }
    ensures refused { OnErr result (wire.new ≡ wire.old) }
{
    let entries = Vec::with_capacity(alloc, calls.len())?;
    let session = Session::open(alloc, checked)?;
    let mut counted = Counted { wire, sent: 0 };
    Ok(Log {
        entries: play_logged(session, calls, entries, &mut counted),
    })
}

/// Plays the calls, with an entry for each.
fn play_logged<C: Certificate + Drop, W: Wire>(
    session: Session<C>,
    calls: &[Call<'_>],
    log: Vec<LogEntry>,
    wire: &mut Counted<'_, W>,
) -> Vec<LogEntry>
    requires scene { scene_of session ≡ first (C.table session.painter.checked) }
    requires room { length calls.now ≤ vec_capacity log }
    requires empty { log.items ≡ [] }
    requires len { vec_len log ≡ 0 }
    requires none { wire.old.sent ≡ 0 }
    ensures ran { RanOn (subject_of W.went W.failures (C.table session.painter.checked)
        (C.partners session.painter.checked)) wire.old.wire wire.new.wire calls.now result.items }
{
    let mut session = session;
    let mut log = log;
    for call in calls {
        let answer = session.call(call, wire);
        log.push(LogEntry {
            answer,
            sent: wire.sent,
        })
        .unwrap();
    }
    log
}

/// Plays calls as `run` does, without a log, on a `wire` that may hold back the bytes it took: the bytes of a call are
/// passed on before the next call, and after the last one, so that nothing is held back after any call. Fails if there
/// was no memory for the session; then nothing was sent.
pub fn run_paced<C: Certificate + Drop, W: Paced>(
    alloc: Global,
    checked: C,
    calls: &[Call<'_>],
    wire: &mut W,
) -> Result<(), AllocError>
    ensures ran { OnOk result (HasRun (paced_subject_of W.went W.failures W.held (C.table checked) (C.partners checked))
        wire.old wire.new calls.now) }
    ensures left { OnOk result (0 < length calls.now → W.held wire.new ≡ []) }
    ensures refused { OnErr result (wire.new ≡ wire.old) }
{
    let session = Session::open(alloc, checked)?;
    let mut counted = Counted { wire, sent: 0 };
    play_paced(session, calls, &mut counted);
    Ok(())
}

/// Plays the calls. The bytes of each are passed on before the next one.
fn play_paced<C: Certificate + Drop, W: Paced>(
    session: Session<C>,
    calls: &[Call<'_>],
    wire: &mut Counted<'_, W>,
)
    requires scene { scene_of session ≡ first (C.table session.painter.checked) }
    requires none { wire.old.sent ≡ 0 }
    ensures ran { HasRunOn (paced_subject_of W.went W.failures W.held (C.table session.painter.checked)
        (C.partners session.painter.checked)) wire.old.wire wire.new.wire calls.now }
    ensures left { 0 < length calls.now → W.held wire.new.wire.now ≡ [] }
{
    let mut session = session;
    for call in calls {
        let _answer = session.call(call, wire);
        pass_on(wire);
    }
}

/// Passes on the bytes that a counted wire holds back.
fn pass_on<W: Paced>(wire: &mut Counted<'_, W>)
    ensures none_more { Counts W.went wire.old.wire wire.new.wire wire.old.sent wire.new.sent [] }
    ensures emptied { W.held wire.new.wire.now ≡ [] }
{
    wire.wire.pass_on();
}
