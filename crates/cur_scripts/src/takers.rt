//! Receivers of the calls of a script, as these are read.
ghost use Rattle.cur_scripts.specs.Takers.{HandsOn};

use crate::Call;
use crate::faults::ScriptFaultKind;

/// A call was not taken: there was no room, and no memory to make some.
#[derive(Clone, Copy)]
pub(crate) struct NotTaken;

/// A receiver of calls, one after another.
pub(crate) trait Taker<'a> {
    ghost use Rattle.std.specs.Prelude.{◌≡◌, ◌++◌, ◌∷◌, [], false, Bool, List, OnErr, OnOk};
    ghost use Rattle.cur_scripts.specs.declared.calls.Call.{Call};

    ghost calls: { Self → List Call };

    ghost has_room: { Self → Bool };

    /// Takes one more call.
    fn take(&mut self, call: Call<'a>) -> Result<(), NotTaken>
        ensures taken { OnOk result (calls self.new ≡ calls self.old ++ call.entry ∷ []) }
        ensures refused { OnErr result (has_room self.old ≡ false) };
}

impl<'a> Taker<'a> for Vec<Call<'a>> {
    ghost use Rattle.std.specs.Prelude.{false};

    ghost calls = { λ v. v.items };

    ghost has_room = { λ v. false };

    #[inline(always)]
    fn take(&mut self, call: Call<'a>) -> Result<(), NotTaken> {
        match self.push(call) {
            Ok(()) => Ok(()),
            Err(_) => Err(NotTaken),
        }
    }
}

/// A receiver of one call. It takes no memory.
#[derive(Drop)]
pub(crate) struct OneCall<'a> {
    pub call: Option<Call<'a>>,
}

impl<'a> Taker<'a> for OneCall<'a> {
    ghost use Rattle.std.specs.Option.{is_none, option_to_list};

    ghost calls = { λ s. option_to_list s.call };

    ghost has_room = { λ s. is_none s.call };

    #[inline(always)]
    fn take(&mut self, call: Call<'a>) -> Result<(), NotTaken> {
        if self.call.is_some() {
            return Err(NotTaken);
        }
        self.call = Some(call);
        Ok(())
    }
}

/// Passes `call` on to `to`. `BadLine` if there is no call, `NoMemory` if it isn't taken.
#[inline(always)]
#[tactic(auto, unfolding(crate::specs::Takers::HandsOn))]
pub(crate) fn hand_on<'a, T: Taker<'a>>(
    call: Option<Call<'a>>,
    to: &mut T,
) -> Result<(), ScriptFaultKind>
    ensures { HandsOn (T.calls to.old) (T.has_room to.old) call.entry (T.calls to.new) result }
{
    let Some(call) = call else {
        return Err(ScriptFaultKind::BadLine);
    };
    match to.take(call) {
        Ok(()) => Ok(()),
        Err(_) => Err(ScriptFaultKind::NoMemory),
    }
}
