//! An entry checked for a size.

ghost use Rattle.std.specs.Prelude.{◌≡◌, IfErr, IfOk};
ghost use Rattle.ti_cert.specs.Basic.{IsBasic, basic_text_of};
ghost use Rattle.ti_checker.specs.Certificate.{IsCertificateOf};
ghost use Rattle.ti_checker.specs.No as spec;
ghost use Rattle.ti_conforms.specs.Conforms.{Conforms};

use crate::causes::{Cause, No};
use crate::drafts::draft_of;
use crate::fitness::check_fitness;
use crate::switches::check_together;
use std::alloc::Global;
use ti_caps::Entry;
use vt_term::Size;

/// The certificate of `entry` for `size`: a text with exactly the lines that the entry's strings send. Each string is
/// judged once for each of its rows, but a standard one, of which everything is proved; and all strings together at the
/// end. The text itself isn't read again: it is proved that `ti_cert::verify` accepts it as it is.
///
/// # Errors
/// The first refusal: about the entry as a whole, then about a row, in the order of a certificate's lines, then about
/// all strings together. Every cause but `NotTame`, `NotShown` and `NoMemory` states a fault of the entry; `TooLong`
/// states that its certificate would pass the limit.
#[tactic(auto, using(crate::proofs::Together::entry_no, crate::proofs::Together::part_no))]
pub fn check(alloc: Global, entry: &Entry, size: Size) -> Result<Vec<u8>, No>
    ensures conforms { IfOk result (λ text. Conforms entry.now size.rows size.cols) }
    ensures certificate { IfOk result (λ text. IsCertificateOf entry.now size.rows size.cols text.items) }
    ensures basic { IsBasic entry.now size.rows size.cols
        → IfOk result (λ text. text.items ≡ basic_text_of entry.now size.rows size.cols) }
    ensures basic_refused { IsBasic entry.now size.rows size.cols
        → IfErr result (λ refusal. refusal.cause ≡ Cause.NoMemory) }
    ensures refused { IfErr result (spec.IsNo entry.now size.rows size.cols) }
{
    // only this call's contract says that the entry's strings fit
    let _ = entry.names();
    check_fitness(entry)?;
    let written = draft_of(alloc, entry, size)?;
    check_together(alloc, entry, size, &written.seen)?;
    Ok(written.text)
}
