//! The whole state of a terminal after a stream.

ghost use Rattle.std.specs.Prelude.{◌≡◌, IfOk};
ghost use Rattle.vt_states.specs.Snapshots.{Leaves};

use crate::watches::{Switches, watched};
use std::alloc::{AllocError, Global};
use std::marker::Model;
use vt_term::{Size, Stuck, Terminal};

/// The whole state of a terminal that was reset and fed with a stream.
#[derive(Drop)]
pub struct Snapshot<'a> {
    pub(crate) terminal: Terminal,
    pub(crate) switches: Switches,
    /// The open sequence.
    pub(crate) rest: &'a [u8],
}

impl<'a> Model for Snapshot<'a> {
    ghost use Rattle.std.specs.Prelude.{◌≡◌};
    ghost use Rattle.vt_term.specs.Screen.{State};
    ghost use Rattle.vt_states.specs.Watches.{switches_of};

    ghost Value = { State };

    ghost view = { λ s. record { screen = s.terminal.screen; rest = s.rest.now } };

    ghost invariant = { λ s. switches_of s.terminal.screen ≡ s.switches };
}

impl<'a> Snapshot<'a> {
    /// The state of a terminal of this `size` that was reset and fed with `bytes`, and the place where they get
    /// stuck, if they do: then the state is that after the bytes before it. Fails only when out of memory.
    pub fn after(
        alloc: Global,
        size: Size,
        bytes: &'a [u8],
    ) -> Result<(Snapshot<'a>, Option<Stuck>), AllocError>
        ensures { IfOk result (λ found. Leaves size.rows size.cols bytes.entry.now found.1 found.0) }
    {
        let mut terminal = Terminal::new(alloc, size)?;
        match terminal.feed(bytes) {
            Ok(()) => {
                let watch = watched(alloc, bytes)?;
                let snapshot = Snapshot {
                    terminal,
                    switches: watch.switches,
                    rest: watch.rest,
                };
                Ok((snapshot, None))
            }
            Err(stuck) => {
                let watch = watched(alloc, &bytes[..stuck.at])?;
                let snapshot = Snapshot {
                    terminal,
                    switches: watch.switches,
                    rest: &bytes[..0],
                };
                Ok((snapshot, Some(stuck)))
            }
        }
    }
}
