//! The effect of a line's bytes.

ghost use Rattle.std.specs.Prelude.{IfOk, IfErr, List, ℕ};
ghost use Rattle.vt_effects.specs.Record.{IsRecordOf};
ghost use Rattle.vt_term.specs.Scanned.{HasFault};
ghost use Rattle.ti_rows.specs.Asked.{start_of};
ghost use Rattle.ti_cert.specs.Audits.{IsTokenFault};

use crate::faults::CertFaultKind;
use ti_rows::Row;
use vt_effects::Effect;
use vt_term::{Scanner, Size, TextFault, TextFaultKind};

/// The fault of a line whose bytes aren't whole control functions.
pub(crate) fn not_whole(fault: TextFault) -> CertFaultKind
    ensures { (bytes : List ℕ) → HasFault bytes fault → IsTokenFault bytes result }
{
    match fault.kind {
        TextFaultKind::Unfinished => CertFaultKind::NotWhole,
        TextFaultKind::Stuck => CertFaultKind::NotWhole,
    }
}

/// The effect of `bytes` from the start of `row`, if they have one. The error is `NotWhole`.
pub(crate) fn row_effect(
    scanner: &mut Scanner,
    bytes: &[u8],
    row: Row,
    size: Size,
) -> Result<Option<Effect>, CertFaultKind>
    ensures record { IfOk result (IsRecordOf size.rows size.cols (start_of size.rows size.cols row) bytes.now) }
    ensures fails { IfErr result (IsTokenFault bytes.now) }
{
    match ti_forms::row_effect(scanner, bytes, row, size) {
        Ok(effect) => Ok(effect),
        Err(fault) => Err(not_whole(fault)),
    }
}
