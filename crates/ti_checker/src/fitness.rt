//! Whether an entry can have a certificate.

ghost use Rattle.std.specs.Prelude.{◌≡◌, [], IfErr, OnOk};
ghost use Rattle.ti_checker.specs.No as spec;
ghost use Rattle.ti_conforms.specs.{Conforms.{IsFit}, Unfit.{cap_of_unfit}};

use crate::causes::{Cause, No};
use ti_caps::Entry;
use ti_conforms::{Unfit, first_unfit};

/// The refusal of an entry that is unfit for the reason `why`.
fn unfit_no(why: Unfit) -> No
    ensures cap { result.cap ≡ cap_of_unfit why }
    ensures params { result.params.items ≡ [] }
    ensures cause { result.cause ≡ spec.cause_of_unfit why }
{
    match why {
        Unfit::FlagOut(_) => No::of(why.cap(), Cause::FlagOut),
        Unfit::Absent(_) => No::of(why.cap(), Cause::Absent),
        Unfit::AcsByte => No::of(why.cap(), Cause::AcsByte),
    }
}

/// Refuses an entry that can't have a certificate, whatever its strings send.
#[tactic(auto, using(crate::proofs::Together::by_reason))]
pub(crate) fn check_fitness(entry: &Entry) -> Result<(), No>
    ensures fit { OnOk result (IsFit entry.now) }
    ensures refused { IfErr result (spec.IsOfEntry entry.now) }
{
    match first_unfit(entry) {
        Some(why) => Err(unfit_no(why)),
        None => Ok(()),
    }
}
